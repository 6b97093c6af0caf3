// Several workers give what one gives.
use dst_streams::{HonestSource, MemorySource};
use example_files::{coded, counting, frame, odd_plain, two_frames};
use std::alloc::{AllocError, Global};
use std::test::Fail;
use std::thread;
use std::thread::Threads;
use top_call::{run_over, split};

// A file of forty frames of bytes counting, of which frames 5 and 9 are empty.
fn two_empty_of_forty(alloc: Global) -> Result<Vec<u8>, AllocError> {
    let sound = counting(alloc, 4704)?;
    let whole = frame(alloc, &[b"\0", &sound])?;
    let empty = frame(alloc, &[])?;
    let mut frames: Vec<&[u8]> = Vec::new(alloc);
    for k in 0..40 {
        frames.push(if k == 5 || k == 9 { &empty } else { &whole })?;
    }
    coded(alloc, 40, &frames, &[])
}

// Decodes that file by these words, over a source of which these calls fail: the status, how much is written, and whether the report
// is the line of frame 5.
fn decoded(
    rt: &(impl Threads + Sync),
    alloc: Global,
    text: &str,
    fails: &[u64],
) -> Result<(u8, usize, bool), AllocError> {
    let file = two_empty_of_forty(alloc)?;
    let words = split(alloc, text)?;
    let mut source = MemorySource::new(&file, &[], fails);
    let left = run_over(rt, alloc, &words, &mut source, 200_000, &[], &[])?;
    let seen = left.seen(&[], "frame 5 refused: 1 Truncated at bit 0\n");
    Ok((seen.status, left.sink.written().len(), seen.is_reported))
}

#[test]
fn of_forty_frames_the_first_refused_is_answered(rt: HostRuntime) {
    const CASES: [&str; 3] = [
        "decode a b --workers 1",
        "decode a b --workers 5",
        "decode a b --workers 16",
    ];
    for text in &CASES {
        let seen = decoded(&rt, rt.alloc(), text, &[]);
        assert_eq!(rt; seen, Ok((6, 126 + 5 * 4704, true)), "{text}");
    }
}

#[test]
fn a_read_that_fails_ahead_is_answered_behind_the_earlier_frames(
    rt: HostRuntime,
) -> Result<(), Fail> {
    let mut seen = [false; 2];
    // The calls in front of the frames are fewer than 200; each frame that isn't empty takes one.
    for call in 0..250u64 {
        let fails = [call];
        let (status, size, _) = decoded(&rt, rt.alloc(), "decode a b --workers 5", &fails)?;
        let frames = size.saturating_sub(126) / 4704;
        let is_right = status == 6 && frames == 5 || status == 2 && frames <= 5;
        assert!(rt; is_right, "at call {call}");
        seen[0] = seen[0] || (status == 2 && frames == 4);
        seen[1] = seen[1] || status == 6;
    }
    // A read of frame 4 that fails leaves the sound of four frames; one behind frame 5 changes nothing.
    assert_eq!(rt; seen, [true; 2]);
    Ok(())
}

fn decodes_alone<R: Threads + Sync>(
    rt: &R,
    alloc: Global,
    file: &[u8],
    whole: &[u8],
) -> Result<bool, AllocError> {
    let words = split(alloc, "decode a b --workers 2")?;
    let mut source = HonestSource::new(file);
    let left = run_over(rt, alloc, &words, &mut source, 10_000, &[], &[])?;
    Ok(left.status == 0 && left.sink.written() == whole)
}

#[test]
fn two_threads_decode_side_by_side(rt: HostRuntime) -> Result<(), Fail> {
    let alloc = rt.alloc();
    let file = two_frames(alloc)?;
    let whole = odd_plain(alloc)?;
    let both = thread::scope(thread::scope_env(), &rt, |scope| {
        let a = scope.spawn(|| decodes_alone(&rt, alloc, &file, &whole));
        let b = scope.spawn(|| decodes_alone(&rt, alloc, &file, &whole));
        match (a, b) {
            (Ok(a), Ok(b)) => a.join(&rt) == Ok(true) && b.join(&rt) == Ok(true),
            _ => false,
        }
    });
    assert!(rt; both);
    Ok(())
}
