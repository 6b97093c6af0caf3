// The tables of lines.
use dsdiff_spec::FileFault;
use dst_lines::lines;
use dst_spec::{FrameFault, Reason};
use std::process::Abort;
use std::test::Fail;

fn assert_lines(rt: &impl Abort, cases: &[(lines::Line, &str)]) {
    for (line, text) in cases {
        assert_eq!(rt; line.as_str(), *text);
    }
}

#[test]
fn lines_of_devices_and_frames_are_those_of_reports(rt: HostRuntime) {
    let (reason, bit) = (Reason::TableTooShort, 40);
    let at_40 = FrameFault { reason, bit };
    let (reason, bit) = (Reason::MethodReserved, u64::MAX);
    let at_most = FrameFault { reason, bit };
    let longest = "frame 4294967295 refused: 5 MethodReserved at bit 18446744073709551615\n";
    let short = "frame 0 refused: 6 TableTooShort at bit 40\n";
    let cases = [
        (lines::words_not_understood(), "words not understood\n"),
        (lines::read_fault(), "read fault\n"),
        (lines::write_fault(), "write fault\n"),
        (lines::memory(), "memory\n"),
        (lines::frame_refused(0, at_40), short),
        (lines::frame_refused(u32::MAX, at_most), longest),
    ];
    assert_lines(&rt, &cases);
}

#[test]
fn lines_of_files_are_those_of_reports(rt: HostRuntime) {
    let overrun = FileFault::Overrun { place: 110 };
    let differs = FileFault::CountDiffers { count: 2, found: 1 };
    let (frame, length) = (u32::MAX, u64::MAX);
    let too_long = FileFault::FrameTooLong { frame, length };
    let longest = "file refused: 17 FrameTooLong 4294967295 18446744073709551615\n";
    let most = "decoded 4294967295 frames into 18446744073709551615 bytes\n";
    let cases = [
        (
            lines::file_refused(FileFault::NotForm),
            "file refused: 1 NotForm\n",
        ),
        (
            lines::file_refused(overrun),
            "file refused: 3 Overrun 110\n",
        ),
        (
            lines::file_refused(differs),
            "file refused: 16 CountDiffers 2 1\n",
        ),
        (lines::file_refused(too_long), longest),
        (
            lines::decoded(2, 4705),
            "decoded 2 frames into 4705 bytes\n",
        ),
        (lines::decoded(u32::MAX, u64::MAX), most),
    ];
    assert_lines(&rt, &cases);
}

#[test]
fn lines_of_what_is_done_are_those_of_reports(rt: HostRuntime) {
    let longest =
        "frame 4294967295 coded length 18446744073709551615 filters 4294967295 tables 4294967295 code 18446744073709551615\n";
    let longest_run =
        "made 4294967295 frames, sound 18446744073709551615 bytes, coded 18446744073709551615 bytes, restored 18446744073709551615 bytes\n";
    let (most, greatest) = (u32::MAX, u64::MAX);
    let cases = [
        (lines::coded(2, 9410), "coded 2 frames into 9410 bytes\n"),
        (lines::cut(1), "cut 1 frames\n"),
        (lines::range(12), "range 12 bytes\n"),
        (lines::made(3), "made 3 frames\n"),
        (
            lines::made_run(most, greatest, greatest, greatest),
            longest_run,
        ),
        (lines::frame_written(1, 4704), "frame 1, 4704 bytes\n"),
        (lines::checked(2, 0), "sound, 2 frames, 0 unread bytes\n"),
        (lines::plain_frame(0, 4705), "frame 0 plain length 4705\n"),
        (
            lines::coded_frame(0, 6, 1, 1, 45),
            "frame 0 coded length 6 filters 1 tables 1 code 45\n",
        ),
        (
            lines::coded_frame(most, greatest, most, most, greatest),
            longest,
        ),
        (lines::entry(1, 4870, 4705), "1 4870 4705\n"),
        (lines::with_text("kind ", "coded"), "kind coded\n"),
        (lines::with_number("channels ", 1), "channels 1\n"),
        (lines::with_bytes("sound ", 4705), "sound 4705 bytes\n"),
    ];
    assert_lines(&rt, &cases);
}

const FILE_FAULTS: [FileFault; 33] = [
    FileFault::NotForm,
    FileFault::FormType,
    FileFault::Overrun { place: 110 },
    FileFault::Version,
    FileFault::PropMissing,
    FileFault::PropTwice,
    FileFault::PropType,
    FileFault::PropTooLong,
    FileFault::Rate,
    FileFault::Channels,
    FileFault::Compression,
    FileFault::SoundMissing,
    FileFault::SoundTwice,
    FileFault::SoundUneven,
    FileFault::FrameRate,
    FileFault::CountDiffers { count: 2, found: 1 },
    FileFault::FrameTooLong {
        frame: 3,
        length: 9411,
    },
    FileFault::TooManyFrames,
    FileFault::TooManyChunks,
    FileFault::NotPlain,
    FileFault::KeptBad,
    FileFault::Range {
        asked: 5,
        frames: 4,
    },
    FileFault::IndexMissing,
    FileFault::IndexBad { entry: 6 },
    FileFault::FormTooLarge,
    FileFault::CodedChunk { place: 126 },
    FileFault::NotCoded,
    FileFault::TailTooLong { length: 65_537 },
    FileFault::DsfForm,
    FileFault::DsfFormat,
    FileFault::DsfCount {
        samples: 12,
        size: 11,
    },
    FileFault::DsfKeptBad,
    FileFault::RangePast { end: 8, groups: 7 },
];

#[test]
fn faults_of_files_show_as_reports_have_them(rt: HostRuntime) -> Result<(), Fail> {
    let alloc = rt.alloc();
    for fault in &FILE_FAULTS {
        let shown = format!(in alloc; "file refused: {fault}\n")?;
        let line = lines::file_refused(*fault);
        assert_eq!(rt; shown.as_str(), line.as_str());
    }
    Ok(())
}
