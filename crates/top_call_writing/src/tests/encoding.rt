// Files that are coded, known byte for byte, and files that aren't.
use super::files::Made;
use super::files::Made::{
    Changed, CodedSilent, DoubleCoded, DoublePlain, KeptPlain, Known, LongBehind, OddPlain,
    SilentAndThree, TwoFrames,
};
use super::{DECODE, NOTHING, Row, all_give, difference_of};
use example_files::{EXAMPLE, NOTHING_KEPT, SILENT, THREE_KEPT};

#[test]
fn a_plain_file_is_coded(rt: HostRuntime) {
    const STORE: &str = "encode a b --level 0";
    const EMPTY: Made = CodedSilent(NOTHING_KEPT, &[]);
    const CODED_THREE: Made = CodedSilent(THREE_KEPT, &[1, 2, 3]);
    const NONE: &str = "coded 0 frames into 0 bytes\n";
    const TWO: &str = "coded 2 frames into 9410 bytes\n";
    const ONE: &str = "coded 1 frames into 9409 bytes\n";
    const BACK: &str = "decoded 1 frames into 4705 bytes\n";
    const ROWS: [Row; 6] = [
        (STORE, Known(SILENT), 0, EMPTY, NONE),
        (STORE, SilentAndThree, 0, CODED_THREE, NONE),
        (STORE, OddPlain, 0, TwoFrames, TWO),
        (STORE, DoublePlain, 0, DoubleCoded, ONE),
        (DECODE, DoubleCoded, 0, DoublePlain, BACK),
        // Without frames all levels write the same.
        ("encode a b", Known(SILENT), 0, EMPTY, NONE),
    ];
    all_give(&rt, rt.alloc(), &ROWS);
}

// A file, and what coding it reports.
const NOT_CODED: [(Made, &str); 14] = [
    (
        Known(b"FRM8\0\0\0\0\0\0\0\x72DSD"),
        "file refused: 1 NotForm\n",
    ),
    (
        Changed(SILENT, 4, b"\0\0\0\0\0\0\0\x73"),
        "file refused: 3 Overrun 0\n",
    ),
    (
        Changed(SILENT, 4, b"\0\0\0\0\0\0\0\x71"),
        "file refused: 3 Overrun 114\n",
    ),
    (
        Changed(SILENT, 60, b"\0\x2e\xe0\0"),
        "file refused: 9 Rate\n",
    ),
    (
        Changed(SILENT, 118, b"\xff\xff\xff\xff\xff\xff\xff\xff"),
        "file refused: 3 Overrun 114\n",
    ),
    (LongBehind, "file refused: 28 TailTooLong 65537\n"),
    (KeptPlain, "file refused: 26 CodedChunk 114\n"),
    (
        CodedSilent(NOTHING_KEPT, &[]),
        "file refused: 20 NotPlain\n",
    ),
    (
        Changed(EXAMPLE, 4, &[0xff; 8]),
        "file refused: 25 FormTooLarge\n",
    ),
    (
        Changed(EXAMPLE, 114, b"\0\0\0\0\0\0\0\x25"),
        "file refused: 3 Overrun 110\n",
    ),
    (
        Changed(EXAMPLE, 114, b"\0\0\0\0\0\0\0\x11"),
        "file refused: 15 FrameRate\n",
    ),
    (
        Changed(EXAMPLE, 134, b"\xff\xff\xff\xff"),
        "file refused: 18 TooManyFrames\n",
    ),
    // Faults that only the walk of frames finds.
    (
        Changed(EXAMPLE, 114, b"\0\0\0\0\0\0\0\x23"),
        "file refused: 20 NotPlain\n",
    ),
    (
        Changed(EXAMPLE, 144, b"\x80\0\0\0\0\0\0\0"),
        "file refused: 20 NotPlain\n",
    ),
];

#[test]
fn a_file_that_is_not_coded_is_refused_by_its_first_rule(rt: HostRuntime) {
    for &(file, line) in &NOT_CODED {
        let differs = difference_of(&rt, rt.alloc(), ("encode a b", file, 5, NOTHING, line));
        assert_eq!(rt; differs, Ok(None), "{line}");
    }
}
