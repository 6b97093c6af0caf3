// Words, files and frames that are refused.
use super::compared::same;
use super::files::Made;
use super::files::Made::{
    Changed, Frame, KeptPlain, KeptTwice, Known, OddFront, PlainFront, TwoChanged,
};
use super::{DECODE, NOTHING, Row, all_give, difference_of};
use crate::{difference, run_over, split};
use dst_streams::{HonestSource, MemorySource};
use example_files::{EXAMPLE, SILENT};
use std::alloc::{AllocError, Global};
use std::process::Abort;
use std::thread::Threads;

// A file, and what decoding it reports.
const FIRST_RULES: [(Made, &str); 12] = [
    (
        Changed(EXAMPLE, 4, &[0xff; 8]),
        "file refused: 25 FormTooLarge\n",
    ),
    (
        Changed(EXAMPLE, 60, b"\0\x2e\xe0\0"),
        "file refused: 9 Rate\n",
    ),
    (
        Changed(EXAMPLE, 114, b"\0\0\0\0\0\0\0\x25"),
        "file refused: 3 Overrun 110\n",
    ),
    (
        Changed(EXAMPLE, 114, b"\0\0\0\0\0\0\0\x23"),
        "file refused: 3 Overrun 140\n",
    ),
    (
        Changed(EXAMPLE, 114, b"\0\0\0\0\0\0\0\x11"),
        "file refused: 15 FrameRate\n",
    ),
    (
        Changed(EXAMPLE, 134, b"\xff\xff\xff\xff"),
        "file refused: 18 TooManyFrames\n",
    ),
    (
        Changed(EXAMPLE, 134, b"\0\0\0\x02"),
        "file refused: 16 CountDiffers 2 1\n",
    ),
    (
        Changed(EXAMPLE, 144, b"\x80\0\0\0\0\0\0\0"),
        "file refused: 3 Overrun 140\n",
    ),
    (Known(SILENT), "file refused: 27 NotCoded\n"),
    (
        Changed(SILENT, 4, b"\0\0\0\0\0\0\0\x73"),
        "file refused: 3 Overrun 0\n",
    ),
    (
        Changed(SILENT, 4, b"\0\0\0\0\0\0\0\x71"),
        "file refused: 3 Overrun 114\n",
    ),
    (KeptPlain, "file refused: 26 CodedChunk 114\n"),
];

#[test]
fn a_file_is_refused_by_its_first_rule(rt: HostRuntime) {
    all_refused(&rt, rt.alloc(), &FIRST_RULES);
}

#[test]
fn what_is_too_much_is_refused_by_name(rt: HostRuntime) {
    // Two chunks that tell of a plain file; a frame of one byte more than twice a sound and two; a million frames in `FRTE` where one
    // stands.
    const ROWS: [(Made, &str); 3] = [
        (KeptTwice, "file refused: 21 KeptBad\n"),
        (
            Frame(b"", 0, 9411, b""),
            "file refused: 17 FrameTooLong 0 9411\n",
        ),
        (
            Changed(EXAMPLE, 134, b"\0\x0f\x42\x40"),
            "file refused: 16 CountDiffers 1000000 1\n",
        ),
    ];
    all_refused(&rt, rt.alloc(), &ROWS);
}

// Decoding each file writes nothing and reports the line beside it.
fn all_refused(rt: &(impl Abort + Threads + Sync), alloc: Global, rows: &[(Made, &'static str)]) {
    for &(file, line) in rows {
        let differs = difference_of(rt, alloc, (DECODE, file, 5, NOTHING), line);
        same(rt, &(line, differs), &(line, Ok(None)));
    }
}

#[test]
fn a_file_that_ends_early_is_refused(rt: HostRuntime) {
    for length in 0..158usize {
        let line = if length < 16 {
            "file refused: 1 NotForm\n"
        } else {
            "file refused: 3 Overrun 0\n"
        };
        let differs = difference(&rt, rt.alloc(), DECODE, &EXAMPLE[..length], 5, &[], line);
        same(&rt, &(length, differs), &(length, Ok(None)));
    }
}

#[test]
fn a_frame_is_refused_by_its_first_fault(rt: HostRuntime) {
    // The front of the frame and how much sound is behind it.
    const ROWS: [Row; 4] = [
        (
            "decode in.dff out.dff\nframe 0 refused: 9 FirstCodeBit at bit 45\n",
            Frame(b"\xfc\0\0\x05\xff\xfc", 0x69, 0, b""),
            6,
            PlainFront,
        ),
        (
            "decode in.dff out.dff\nframe 0 refused: 2 PlainStuffing at bit 2\n",
            Frame(b"\x01", 0x69, 4704, b""),
            6,
            PlainFront,
        ),
        (
            "decode in.dff out.dff\nframe 0 refused: 1 Truncated at bit 0\n",
            Frame(b"", 0x69, 0, b""),
            6,
            PlainFront,
        ),
        (
            "decode in.dff out.dff\nframe 0 refused: 1 Truncated at bit 8\n",
            Frame(b"\0", 0x69, 4703, b""),
            6,
            PlainFront,
        ),
    ];
    all_give(&rt, rt.alloc(), &ROWS);
}

#[test]
fn the_first_refused_frame_is_answered_behind_the_earlier_sounds(rt: HostRuntime) {
    const CODE: &[u8; 6] = b"\xfc\0\0\x05\xff\xfc";
    // The first bytes of each frame, how much is written, and the frame that is answered with its fault.
    const ROWS: [Row; 4] = [
        (
            "decode in.dff out.dff\nframe 0 refused: 2 PlainStuffing at bit 2\n",
            TwoChanged(b"\x01", b"\x01"),
            6,
            OddFront(126),
        ),
        (
            "decode in.dff out.dff\nframe 0 refused: 2 PlainStuffing at bit 2\n",
            TwoChanged(b"\x01", CODE),
            6,
            OddFront(126),
        ),
        (
            "decode in.dff out.dff\nframe 1 refused: 2 PlainStuffing at bit 2\n",
            TwoChanged(b"\0", b"\x03"),
            6,
            OddFront(4830),
        ),
        (
            "decode in.dff out.dff\nframe 1 refused: 9 FirstCodeBit at bit 45\n",
            TwoChanged(b"\0", CODE),
            6,
            OddFront(4830),
        ),
    ];
    all_give(&rt, rt.alloc(), &ROWS);
}

// A status, whether nothing is written, and whether the report is the line of words that aren't understood.
type Seen = Result<(u8, bool, bool), AllocError>;

// A run by these words over devices that fail at their first call.
fn seen_of(rt: &(impl Threads + Sync), alloc: Global, text: &str) -> Seen {
    let words = split(alloc, text)?;
    let mut source = MemorySource::new(EXAMPLE, &[], &[0]);
    let left = run_over(rt, alloc, &words, &mut source, 10_000, &[0], &[])?;
    let seen = left.seen(&[], "words not understood\n");
    Ok((seen.status, seen.is_whole, seen.is_reported))
}

// The same of no words, over a report that fails at its first call, and of the front of the line.
fn seen_of_none(rt: &(impl Threads + Sync), alloc: Global) -> Result<(u8, bool), AllocError> {
    let mut source = HonestSource::new(EXAMPLE);
    let left = run_over(rt, alloc, &[], &mut source, 10_000, &[], &[0])?;
    let seen = left.seen(&[], "words not ");
    Ok((seen.status, seen.is_reported))
}

#[test]
fn other_words_are_not_understood_and_touch_nothing(rt: HostRuntime) {
    const CASES: [&str; 7] = [
        "",
        "decode a",
        "decode a b c",
        "decode - b",
        "encode a b --workers 17",
        "frame a b 01",
        "undo a b",
    ];
    for &text in &CASES {
        let seen = seen_of(&rt, rt.alloc(), text);
        same(&rt, &(text, seen), &(text, Ok((1, true, true))));
    }
    same(&rt, &seen_of_none(&rt, rt.alloc()), &Ok((7, true)));
}
