// Devices that fail at each of their calls, or whose room ends at each byte.
use crate::compared::same;
use dsdiff_chunks::OpenFault;
use dst_read::{DecodeFault, Decoded, decode_file};
use dst_streams::{HonestSource, MemorySink, MemorySource, ShortFlowSink};
use example_files::{SILENT, coded, odd_plain, two_frames};
use frame_crew::OpenGate;
use std::alloc::{AllocError, Global};
use std::thread::Threads;

// More than the calls on a device in any of these runs.
const CALLS: u64 = 2_000;

const DONE: Decoded = Decoded {
    frames: 2,
    bytes: 4705,
};

// What decoding answers, and how much of the plain file is written: none where what is written is other than its front.
type Run = (Result<Decoded, DecodeFault>, Option<usize>);

fn front_of(whole: &[u8], written: &[u8]) -> Option<usize> {
    whole.starts_with(written).then_some(written.len())
}

// A run whose source fails at a call.
fn read_fails<R: Threads + Sync>(
    rt: &R,
    alloc: Global,
    pieces: &[usize],
    file: &[u8],
    whole: &[u8],
    call: u64,
) -> Result<Run, AllocError> {
    let fails = [call];
    let mut source = MemorySource::new(file, pieces, &fails);
    let mut sink = MemorySink::new(alloc, 10_000, &[])?;
    let answer = decode_file(rt, alloc, &mut source, &mut sink, 1, &OpenGate);
    Ok((answer, front_of(whole, sink.written())))
}

// A read that fails is answered, and a front of the plain file is written. Of the first call where that isn't so: whether more than so many calls
// are before it, and its run.
fn first_read<R: Threads + Sync>(
    rt: &R,
    alloc: Global,
    pieces: &[usize],
    file: &[u8],
    whole: &[u8],
    before: u64,
) -> Result<(bool, Option<Run>), AllocError> {
    for call in 0..CALLS {
        match read_fails(rt, alloc, pieces, file, whole, call)? {
            (Err(DecodeFault::Source(OpenFault::Read)), Some(_)) => {}
            run => return Ok((before < call, Some(run))),
        }
    }
    Ok((false, None))
}

// At least one call for the size, one for each frame and one for each chunk that is looked at.
fn first_read_of_two<R: Threads + Sync>(
    rt: &R,
    alloc: Global,
) -> Result<(bool, Option<Run>), AllocError> {
    let file = two_frames(alloc)?;
    let whole = odd_plain(alloc)?;
    first_read(rt, alloc, &[], &file, &whole, 8)
}

// At least one call for each of the bytes of heads and of `PROP`.
fn first_read_of_none<R: Threads + Sync>(
    rt: &R,
    alloc: Global,
) -> Result<(bool, Option<Run>), AllocError> {
    let empty = coded(alloc, 0, &[], &[])?;
    first_read(rt, alloc, &[1], &empty, SILENT, 100)
}

#[test]
fn a_read_that_fails_leaves_the_front_of_the_output(rt: HostRuntime) {
    let alloc = rt.alloc();
    let none = Decoded {
        frames: 0,
        bytes: 0,
    };
    same(
        &rt,
        &(
            first_read_of_two(&rt, alloc),
            first_read_of_none(&rt, alloc),
        ),
        &(
            Ok((true, Some((Ok(DONE), Some(4832))))),
            Ok((true, Some((Ok(none), Some(126))))),
        ),
    );
}

// A run whose sink fails at a call.
fn write_fails<R: Threads + Sync>(
    rt: &R,
    alloc: Global,
    file: &[u8],
    whole: &[u8],
    call: u64,
) -> Result<Run, AllocError> {
    let fails = [call];
    let mut source = HonestSource::new(file);
    let mut sink = MemorySink::new(alloc, 10_000, &fails)?;
    let answer = decode_file(rt, alloc, &mut source, &mut sink, 1, &OpenGate);
    Ok((answer, front_of(whole, sink.written())))
}

// A write that fails is answered, and a front of the plain file is written. Of the first call where that isn't so: whether more than four calls are
// before it, how many of them leave the whole file written, and its run.
fn first_write<R: Threads + Sync>(
    rt: &R,
    alloc: Global,
) -> Result<(bool, u64, Option<Run>), AllocError> {
    let file = two_frames(alloc)?;
    let whole = odd_plain(alloc)?;
    let mut unsettled = CALLS;
    for call in 0..CALLS {
        match write_fails(rt, alloc, &file, &whole, call)? {
            (Err(DecodeFault::Write), Some(written)) => {
                if written == whole.len() {
                    unsettled = unsettled.min(call);
                }
            }
            run => return Ok((4 < call, call.saturating_sub(unsettled), Some(run))),
        }
    }
    Ok((false, 0, None))
}

// The last call alone comes behind the last byte: that which has the output settled.
#[test]
fn a_write_that_fails_leaves_the_front_of_the_output(rt: HostRuntime) {
    let done = Some((Ok(DONE), Some(4832)));
    same(&rt, &first_write(&rt, rt.alloc()), &Ok((true, 1, done)));
}

// A run whose sink is full behind so many bytes.
fn fills<R: Threads + Sync>(
    rt: &R,
    alloc: Global,
    file: &[u8],
    whole: &[u8],
    prefix: usize,
) -> Run {
    let mut source = HonestSource::new(file);
    let mut sink = ShortFlowSink::new(prefix.min(65_536));
    let answer = decode_file(rt, alloc, &mut source, &mut sink, 1, &OpenGate);
    (answer, front_of(whole, sink.written()))
}

// A sink that is full behind so many bytes holds just them: the first number of which that isn't so, and its run.
fn first_unfilled<R: Threads + Sync>(
    rt: &R,
    alloc: Global,
    file: &[u8],
    whole: &[u8],
) -> Option<(usize, Run)> {
    for prefix in 0..whole.len() {
        match fills(rt, alloc, file, whole, prefix) {
            (Err(DecodeFault::Write), Some(held)) if held == prefix => {}
            run => return Some((prefix, run)),
        }
    }
    None
}

// The same of a file without sound, and of a file of two frames.
type Unfilled = (Option<(usize, Run)>, Option<(usize, Run)>);

fn both_unfilled<R: Threads + Sync>(rt: &R, alloc: Global) -> Result<Unfilled, AllocError> {
    let empty = coded(alloc, 0, &[], &[])?;
    let none = first_unfilled(rt, alloc, &empty, SILENT);
    let file = two_frames(alloc)?;
    let whole = odd_plain(alloc)?;
    Ok((none, first_unfilled(rt, alloc, &file, &whole)))
}

#[test]
fn a_full_sink_holds_what_fits(rt: HostRuntime) {
    same(&rt, &both_unfilled(&rt, rt.alloc()), &Ok((None, None)));
}
