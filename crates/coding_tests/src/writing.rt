// The calls over files that are known byte for byte.
ghost use Rattle.std.specs.Prelude.{◌<◌, ◌≤◌};

mod crew;
mod files;

use crate::compared::same;
use crate::no_pick::NoPick;
use dsdiff_chunks::{FileFault, OpenFault};
use dst_streams::{HonestSource, MemorySink};
use dst_write::{EncodeFault, Encoded, encode_file};
use example_files::{SILENT, odd_plain, two_frames};
use files::{CODED_SILENT, CODED_SILENT_AND_THREE, SILENT_AND_THREE};
use frame_crew::OpenGate;
use std::alloc::{AllocError, Global};
use std::thread::Threads;

// What coding a file by so many workers into this room answers, and whether these bytes are written.
fn encoded<R: Threads + Sync>(
    rt: &R,
    alloc: Global,
    plain: &[u8],
    room: usize,
    workers: u32,
    coded: &[u8],
) -> Result<(Result<Encoded, EncodeFault>, bool), AllocError>
    requires { (0 < workers) × (workers ≤ 16) }
{
    let mut source = HonestSource::new(plain);
    let mut sink = MemorySink::new(alloc, room, &[])?;
    let answer = encode_file(
        rt,
        alloc,
        &mut source,
        &mut sink,
        &NoPick,
        workers,
        &OpenGate,
    );
    Ok((answer, sink.written() == coded))
}

#[test]
fn a_file_without_sound_is_coded(rt: HostRuntime) {
    let alloc = rt.alloc();
    let answers = [
        encoded(&rt, alloc, SILENT, 300, 1, CODED_SILENT),
        encoded(&rt, alloc, SILENT_AND_THREE, 300, 1, CODED_SILENT_AND_THREE),
    ];
    let done = Encoded {
        frames: 0,
        bytes: 0,
    };
    same(&rt, &answers, &[Ok((Ok(done), true)); 2]);
}

// The same of two frames.
fn two_encoded<R: Threads + Sync>(
    rt: &R,
    alloc: Global,
    workers: u32,
) -> Result<(Result<Encoded, EncodeFault>, bool), AllocError>
    requires { (0 < workers) × (workers ≤ 16) }
{
    let plain = odd_plain(alloc)?;
    let coded = two_frames(alloc)?;
    encoded(rt, alloc, &plain, 10_000, workers, &coded)
}

#[test]
fn two_frames_are_coded_by_some_workers(rt: HostRuntime) {
    let alloc = rt.alloc();
    let answers = [
        two_encoded(&rt, alloc, 1),
        two_encoded(&rt, alloc, 5),
        two_encoded(&rt, alloc, 16),
    ];
    let done = Encoded {
        frames: 2,
        bytes: 9410,
    };
    same(&rt, &answers, &[Ok((Ok(done), true)); 3]);
}

#[test]
fn a_coded_file_is_refused(rt: HostRuntime) {
    let answer = encoded(&rt, rt.alloc(), CODED_SILENT, 300, 1, &[]);
    let refused = EncodeFault::Source(OpenFault::File(FileFault::NotPlain));
    same(&rt, &answer, &Ok((Err(refused), true)));
}
