// Frames that several workers store at once.
ghost use Rattle.std.specs.Prelude.{◌<◌, ◌≤◌};

use crate::compared::same;
use crate::holding::Holding;
use crate::no_pick::NoPick;
use dst_streams::{HonestSource, MemorySink};
use dst_write::{EncodeFault, Encoded, encode_file};
use example_files::{counting, odd_plain, plain, two_frames};
use std::alloc::{AllocError, Global};
use std::thread::Threads;

// What storing a file by so many workers answers, how often the gate is passed, and by how many at once.
type Stored = (Result<Encoded, EncodeFault>, (u64, u64));

// A file of two frames for each worker.
fn all_store<R: Threads + Sync>(rt: &R, alloc: Global, workers: u32) -> Result<Stored, AllocError>
    requires { (0 < workers) × (workers ≤ 16) }
{
    let sound = counting(alloc, 4704 * (2 * workers))?;
    let plain = plain(alloc, &sound, 0)?;
    let mut source = HonestSource::new(&plain);
    let mut sink = MemorySink::new(alloc, 200_000, &[])?;
    let gate = Holding::new(workers);
    let answer = encode_file(rt, alloc, &mut source, &mut sink, &NoPick, workers, &gate);
    Ok((answer, gate.seen()))
}

// Each passes the gate, and as many as workers are there at once. Each frame has a byte in front of its sound.
fn all_stored(workers: u32) -> Result<Stored, AllocError>
    requires { workers ≤ 16 }
{
    let frames = 2 * workers;
    let done = Encoded {
        frames,
        bytes: 4705 * u64::from(frames),
    };
    Ok((Ok(done), (u64::from(frames), u64::from(workers))))
}

#[test]
fn as_many_frames_as_workers_are_stored_at_once(rt: HostRuntime) {
    let alloc = rt.alloc();
    for workers in [2, 3, 4, 8, 16] {
        same(&rt, &all_store(&rt, alloc, workers), &all_stored(workers));
    }
}

// A file of two frames, and whether the coded file is written.
fn two_store<R: Threads + Sync>(rt: &R, alloc: Global) -> Result<(Stored, bool), AllocError> {
    let plain = odd_plain(alloc)?;
    let coded = two_frames(alloc)?;
    let gate = Holding::new(2);
    let mut source = HonestSource::new(&plain);
    let mut sink = MemorySink::new(alloc, 10_000, &[])?;
    let answer = encode_file(rt, alloc, &mut source, &mut sink, &NoPick, 2, &gate);
    Ok(((answer, gate.seen()), sink.written() == coded.as_slice()))
}

#[test]
fn two_frames_are_stored_at_once(rt: HostRuntime) {
    let done = Encoded {
        frames: 2,
        bytes: 9410,
    };
    let stored = two_store(&rt, rt.alloc());
    same(&rt, &stored, &Ok(((Ok(done), (2, 2)), true)));
}
