// Frames that are cut out of the coded file of two frames: of 4,704 counting bytes, and of one byte with its filling.
use super::files::Made::{Changed, FirstAlone, Known, SecondAlone, SecondPlain, TwoFrames};
use super::files::file_of;
use super::{DECODE, NOTHING, Row, all_give};
use dst_streams::{HonestSource, MemorySource};
use example_files::{EXAMPLE, SILENT, two_frames};
use std::alloc::{AllocError, Global};
use std::test::Fail;
use std::thread::Threads;
use top_call::{Seen, run_over, split};

#[test]
fn frames_are_cut_out_of_a_coded_file(rt: HostRuntime) {
    const ONE: &str = "cut 1 frames\n";
    const RANGE: &str = "file refused: 22 Range 2 2\n";
    const DIFFERS: &str = "file refused: 16 CountDiffers 2 1\n";
    const ONE_MISSING: super::Made = Changed(EXAMPLE, 134, b"\0\0\0\x02");
    const ROWS: [Row; 9] = [
        ("cut a b 0 0", TwoFrames, 0, FirstAlone, ONE),
        ("cut a b 1 1", TwoFrames, 0, SecondAlone, ONE),
        ("cut a b 0 1", TwoFrames, 0, TwoFrames, "cut 2 frames\n"),
        ("cut a b 0 0", SecondAlone, 0, SecondAlone, ONE),
        ("cut a b 1 2", TwoFrames, 5, NOTHING, RANGE),
        (
            "cut a b 0 0",
            Known(SILENT),
            5,
            NOTHING,
            "file refused: 27 NotCoded\n",
        ),
        ("cut a b 0 0", ONE_MISSING, 5, NOTHING, DIFFERS),
        (
            "cut a b 3 2",
            TwoFrames,
            1,
            NOTHING,
            "words not understood\n",
        ),
        // The sound that is left ends as before.
        (
            DECODE,
            SecondAlone,
            0,
            SecondPlain,
            "decoded 1 frames into 1 bytes\n",
        ),
    ];
    all_give(&rt, rt.alloc(), &ROWS);
}

// What is seen of a run that cuts the second frame out, over a source and into a sink of which these calls fail.
fn cut_second(
    rt: &(impl Threads + Sync),
    alloc: Global,
    reads: &[u64],
    writes: &[u64],
) -> Result<Seen, AllocError> {
    let file = two_frames(alloc)?;
    let whole = file_of(alloc, SecondAlone)?;
    let words = split(alloc, "cut a b 1 1")?;
    let mut source = MemorySource::new(&file, &[], reads);
    let left = run_over(rt, alloc, &words, &mut source, 10_000, writes, &[])?;
    Ok(left.seen(&whole, ""))
}

#[test]
fn a_device_that_fails_leaves_the_front_of_what_is_cut(rt: HostRuntime) -> Result<(), Fail> {
    let mut done = [false; 2];
    for call in 0..100u64 {
        let fails = [call];
        let read = cut_second(&rt, rt.alloc(), &fails, &[])?;
        let written = cut_second(&rt, rt.alloc(), &[], &fails)?;
        // A run that is done leaves it whole.
        let is_right = [
            read.is_front && (read.status == 2 || read.status == 0 && read.is_whole),
            written.is_front && (written.status == 3 || written.status == 0 && written.is_whole),
        ];
        assert_eq!(rt; is_right, [true; 2], "at call {call}");
        done = [done[0] || read.status == 0, done[1] || written.status == 0];
    }
    assert_eq!(rt; done, [true; 2]);
    Ok(())
}

// What is seen of a run that cuts the first frame out, into a sink that lacks room for one byte.
fn cut_without_room(rt: &(impl Threads + Sync), alloc: Global) -> Result<Seen, AllocError> {
    let file = two_frames(alloc)?;
    let whole = file_of(alloc, FirstAlone)?;
    let words = split(alloc, "cut a b 0 0")?;
    let mut source = HonestSource::new(&file);
    let room = whole.len().saturating_sub(1);
    let left = run_over(rt, alloc, &words, &mut source, room, &[], &[])?;
    Ok(left.seen(&whole, "write fault\n"))
}

#[test]
fn a_cut_into_a_sink_without_room_holds_what_fits(rt: HostRuntime) -> Result<(), Fail> {
    let seen = cut_without_room(&rt, rt.alloc())?;
    assert_eq!(rt;
        (seen.status, seen.is_front, seen.is_reported),
        (3, true, true)
    );
    Ok(())
}
