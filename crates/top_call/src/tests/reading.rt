// The commands that read besides decoding: a frame, a check, a summary, a frame's header, the places of frames.
use super::compared::same;
use super::files::Made;
use super::files::Made::{
    Changed, Filled, Frame, Known, LongerFrame, NoFrames, OddPlain, SecondFrame, ThreeFrames,
    ThreeMoved, TwoFrames,
};
use super::{NOTHING, Row, all_give};
use crate::{run_over, split};
use dst_streams::{HonestSource, MemorySource};
use example_files::{EXAMPLE, SILENT, counting, two_frames};
use std::alloc::{AllocError, Global};
use std::thread::Threads;

// A file of one frame whose code begins with a bit 1.
const FIRST_BIT_1: Made = Frame(b"\xfc\0\0\x05\xff\xfc", 0, 0, b"");

const FRAMES: [Row; 11] = [
    (
        "frame a b 1\nframe 1, 4704 bytes\n",
        TwoFrames,
        0,
        SecondFrame,
    ),
    (
        "frame a b 1 --by-index\nframe 1, 4704 bytes\n",
        TwoFrames,
        0,
        SecondFrame,
    ),
    (
        "frame a b 0\nframe 0, 4704 bytes\n",
        Known(EXAMPLE),
        0,
        Filled(0xff, 4704),
    ),
    (
        "frame a b 3\nfile refused: 22 Range 3 3\n",
        ThreeFrames,
        5,
        NOTHING,
    ),
    (
        "frame a b 3 --by-index\nfile refused: 22 Range 3 3\n",
        ThreeFrames,
        5,
        NOTHING,
    ),
    (
        "frame a b 2 --by-index\nfile refused: 24 IndexBad 2\n",
        ThreeMoved,
        5,
        NOTHING,
    ),
    (
        "check a\nfile refused: 24 IndexBad 2\n",
        ThreeMoved,
        5,
        NOTHING,
    ),
    (
        "frame a b 0 --by-index\nfile refused: 23 IndexMissing\n",
        Known(EXAMPLE),
        5,
        NOTHING,
    ),
    (
        "frame a b 0\nfile refused: 27 NotCoded\n",
        Known(SILENT),
        5,
        NOTHING,
    ),
    (
        "frame a b 0 --by-index\nfile refused: 27 NotCoded\n",
        Known(SILENT),
        5,
        NOTHING,
    ),
    (
        "frame a b 2\nframe 2, 4704 bytes\n",
        ThreeMoved,
        0,
        Filled(0x69, 4704),
    ),
];

#[test]
fn a_frame_is_written_by_the_walk_and_by_the_index(rt: HostRuntime) {
    all_give(&rt, rt.alloc(), &FRAMES);
}

const CHECKED: [Row; 7] = [
    (
        "check a\nsound, 2 frames, 0 unread bytes\n",
        TwoFrames,
        0,
        NOTHING,
    ),
    (
        "check a --workers 2\nsound, 2 frames, 0 unread bytes\n",
        TwoFrames,
        0,
        NOTHING,
    ),
    (
        "check a\nsound, 2 frames, 0 unread bytes\n",
        OddPlain,
        0,
        NOTHING,
    ),
    (
        "check a\nframe 0 refused: 9 FirstCodeBit at bit 45\n",
        FIRST_BIT_1,
        6,
        NOTHING,
    ),
    (
        "frame a b 0\nframe 0 refused: 9 FirstCodeBit at bit 45\n",
        FIRST_BIT_1,
        6,
        NOTHING,
    ),
    (
        "check a\nfile refused: 16 CountDiffers 2 1\n",
        Changed(EXAMPLE, 134, b"\0\0\0\x02"),
        5,
        NOTHING,
    ),
    (
        "check a\nsound, 1 frames, 3 unread bytes\n",
        LongerFrame,
        0,
        NOTHING,
    ),
];

#[test]
fn a_file_is_checked_whole(rt: HostRuntime) {
    all_give(&rt, rt.alloc(), &CHECKED);
}

const SHOWN: [Row; 12] = [
    (
        "show a\nkind coded\nchannels 1\nsound 4705 bytes\nframes 2\nchunks 5\nstored 9410 bytes\nindex yes\nkept yes\n",
        TwoFrames,
        0,
        NOTHING,
    ),
    (
        "show a\nkind coded\nchannels 1\nsound 4704 bytes\nframes 1\nchunks 3\nstored 6 bytes\nindex no\nkept no\n",
        Known(EXAMPLE),
        0,
        NOTHING,
    ),
    (
        "show a\nkind plain\nchannels 1\nsound 4705 bytes\nframes 2\nchunks 3\n",
        OddPlain,
        0,
        NOTHING,
    ),
    (
        "show a 0\nframe 0 plain length 4705\n",
        TwoFrames,
        0,
        NOTHING,
    ),
    (
        "show a 0\nframe 0 coded length 6 filters 1 tables 1 code 45\n",
        Known(EXAMPLE),
        0,
        NOTHING,
    ),
    (
        "show a 0\nframe 0 coded length 6 filters 1 tables 1 code 45\n",
        FIRST_BIT_1,
        0,
        NOTHING,
    ),
    ("index a\n0 152 4705\n1 4870 4705\n", TwoFrames, 0, NOTHING),
    ("index a\n0 152 6\n", Known(EXAMPLE), 0, NOTHING),
    ("index a\n", NoFrames, 0, NOTHING),
    (
        "show a 0\nframe 0 refused: 3 MultiSegment at bit 3\n",
        Frame(b"\xe0", 0, 0, b""),
        6,
        NOTHING,
    ),
    (
        "show a 2\nfile refused: 22 Range 2 2\n",
        TwoFrames,
        5,
        NOTHING,
    ),
    (
        "show a 0\nfile refused: 27 NotCoded\n",
        Known(SILENT),
        5,
        NOTHING,
    ),
];

#[test]
fn files_and_frames_are_shown(rt: HostRuntime) {
    all_give(&rt, rt.alloc(), &SHOWN);
}

// The status over the coded file of two frames, where the sink and the report fail at these calls, and whether what is written is a
// front of the first frame's sound.
fn status_and_front(
    rt: &(impl Threads + Sync),
    alloc: Global,
    text: &str,
    writes: &[u64],
    reports: &[u64],
) -> Result<(u8, bool), AllocError> {
    let file = two_frames(alloc)?;
    let sound = counting(alloc, 4704)?;
    let words = split(alloc, text)?;
    let mut source = HonestSource::new(&file);
    let left = run_over(rt, alloc, &words, &mut source, 10_000, writes, reports)?;
    Ok((left.status, left.seen(&sound, "").is_front))
}

// The status where the report fails at its first call.
fn status_unreported(
    rt: &(impl Threads + Sync),
    alloc: Global,
    text: &str,
) -> Result<u8, AllocError> {
    let (status, _) = status_and_front(rt, alloc, text, &[], &[0])?;
    Ok(status)
}

#[test]
fn a_report_that_fails_ends_the_command(rt: HostRuntime) {
    for &text in &["show a", "show a 0", "index a", "check a", "frame a b 0"] {
        let status = status_unreported(&rt, rt.alloc(), text);
        same(&rt, &(text, status), &(text, Ok(7)));
    }
}

// What a run over that file leaves whose source fails at this call: its status, and whether nothing is written, and the sound of the
// first frame.
fn read_failing(
    rt: &(impl Threads + Sync),
    alloc: Global,
    text: &str,
    call: u64,
) -> Result<(u8, bool, bool), AllocError> {
    let file = two_frames(alloc)?;
    let sound = counting(alloc, 4704)?;
    let words = split(alloc, text)?;
    let fails = [call];
    let mut source = MemorySource::new(&file, &[], &fails);
    let left = run_over(rt, alloc, &words, &mut source, 10_000, &[], &[])?;
    let written = left.sink.written();
    Ok((left.status, written.is_empty(), written == sound.as_slice()))
}

// The first call of the source with whose failing a run is neither at fault with nothing written nor done with the whole sound.
fn first_wrong(
    rt: &(impl Threads + Sync),
    alloc: Global,
    text: &str,
) -> Result<Option<u64>, AllocError> {
    for call in 0..100u64 {
        match read_failing(rt, alloc, text, call)? {
            (0, _, true) => return Ok(None),
            (2, true, _) => {}
            _ => return Ok(Some(call)),
        }
    }
    Ok(None)
}

#[test]
fn a_device_that_fails_leaves_no_frame_or_its_front(rt: HostRuntime) {
    for &text in &["frame a b 0", "frame a b 0 --by-index"] {
        let wrong = first_wrong(&rt, rt.alloc(), text);
        let left = status_and_front(&rt, rt.alloc(), text, &[0], &[]);
        same(&rt, &(text, wrong, left), &(text, Ok(None), Ok((3, true))));
    }
}
