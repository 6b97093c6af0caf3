// Frames that several workers decode and check.
ghost use Rattle.std.specs.Prelude.{◌<◌, ◌≤◌};

use crate::compared::same;
use crate::holding::Holding;
use dsdiff_chunks::{FileFault, OpenFault};
use dst_read::{CheckFault, Checked, DecodeFault, Decoded, check_file, decode_file};
use dst_spec::{FrameFault, Reason};
use dst_streams::{HonestSource, MemorySink};
use example_files::{SILENT, chunk, coded, frame, odd_plain, one_frame, two_frames, with_bytes};
use frame_crew::OpenGate;
use std::alloc::{AllocError, Global};
use std::thread::Threads;

// A coded file of so many frames, each the same sound as it is.
fn frames_alike(alloc: Global, count: u32) -> Result<Vec<u8>, AllocError> {
    let frame = frame(alloc, &[b"\0", &[0x69; 4704]])?;
    let mut frames = Vec::new(alloc);
    for _ in 0..count {
        frames.extend_from_slice(&frame)?;
    }
    coded(alloc, count, &[&frames], &[])
}

// What decoding and checking answer, each with how often its gate is passed, and by how many at once.
type Worked = (
    Result<Decoded, DecodeFault>,
    (u64, u64),
    Result<Checked, CheckFault>,
    (u64, u64),
);

// A file is decoded and checked by so many workers.
fn work<R: Threads + Sync>(
    rt: &R,
    alloc: Global,
    file: &[u8],
    sink: &mut MemorySink<'_>,
    workers: u32,
) -> Worked
    requires { (0 < workers) × (workers ≤ 16) }
{
    let mut source = HonestSource::new(file);
    let gate = Holding::new(workers);
    let decoded = decode_file(rt, alloc, &mut source, sink, workers, &gate);
    let decoding = gate.seen();
    let gate = Holding::new(workers);
    let checked = check_file(rt, alloc, &mut source, workers, &gate);
    (decoded, decoding, checked, gate.seen())
}

// A file of two frames for each worker.
fn all_work<R: Threads + Sync>(rt: &R, alloc: Global, workers: u32) -> Result<Worked, AllocError>
    requires { (0 < workers) × (workers ≤ 16) }
{
    let file = frames_alike(alloc, 2 * workers)?;
    let mut sink = MemorySink::new(alloc, 200_000, &[])?;
    Ok(work(rt, alloc, &file, &mut sink, workers))
}

// Each passes the gate, and as many as workers are there at once.
fn all_worked(workers: u32) -> Result<Worked, AllocError>
    requires { workers ≤ 16 }
{
    let frames = 2 * workers;
    let all = (u64::from(frames), u64::from(workers));
    let done = Decoded {
        frames,
        bytes: 4704 * u64::from(frames),
    };
    let sound = Checked { frames, unread: 0 };
    Ok((Ok(done), all, Ok(sound), all))
}

#[test]
fn as_many_frames_as_workers_are_worked_at_once(rt: HostRuntime) {
    let alloc = rt.alloc();
    for workers in [2, 3, 4, 8, 16] {
        same(&rt, &all_work(&rt, alloc, workers), &all_worked(workers));
    }
}

// A file of two frames, and whether the plain file is written.
fn two_work<R: Threads + Sync>(rt: &R, alloc: Global) -> Result<(Worked, bool), AllocError> {
    let file = two_frames(alloc)?;
    let whole = odd_plain(alloc)?;
    let mut sink = MemorySink::new(alloc, 10_000, &[])?;
    let worked = work(rt, alloc, &file, &mut sink, 2);
    Ok((worked, sink.written() == whole.as_slice()))
}

#[test]
fn two_frames_are_decoded_and_checked_at_once(rt: HostRuntime) {
    let done = Decoded {
        frames: 2,
        bytes: 4705,
    };
    let sound = Checked {
        frames: 2,
        unread: 0,
    };
    let worked = (Ok(done), (2, 2), Ok(sound), (2, 2));
    same(&rt, &two_work(&rt, rt.alloc()), &Ok((worked, true)));
}

const STUFFING: FrameFault = FrameFault {
    reason: Reason::PlainStuffing,
    bit: 2,
};

// What decoding and checking answer, how long the plain file is, and how much of it is written, none where what is written is other than its
// front.
type Refused = (
    Result<Decoded, DecodeFault>,
    Result<Checked, CheckFault>,
    usize,
    Option<usize>,
);

// Of a file of two frames that begin with these bytes.
fn refused<R: Threads + Sync>(
    rt: &R,
    alloc: Global,
    first: &[u8],
    second: &[u8],
) -> Result<Refused, AllocError> {
    let file = two_frames(alloc)?;
    let whole = odd_plain(alloc)?;
    let file = with_bytes(alloc, &file, 152, first)?;
    let file = with_bytes(alloc, &file, 4870, second)?;
    let mut source = HonestSource::new(&file);
    let mut sink = MemorySink::new(alloc, 10_000, &[])?;
    let decoded = decode_file(rt, alloc, &mut source, &mut sink, 2, &OpenGate);
    let written = sink.written();
    let front = whole.starts_with(written).then_some(written.len());
    let checked = check_file(rt, alloc, &mut source, 2, &OpenGate);
    Ok((decoded, checked, whole.len(), front))
}

#[test]
fn the_earlier_of_two_refused_frames_is_answered(rt: HostRuntime) {
    // The first bytes of each frame, how much is written, and the frame that is answered.
    const CASES: [(&[u8], &[u8], usize, u32); 2] = [
        (b"\x01", b"\xfc\0\0\x05\xff\xfc", 126, 0),
        (b"\0", b"\x01", 4830, 1),
    ];
    for &(first, second, written, frame) in &CASES {
        let fault = STUFFING;
        let decoded = Err(DecodeFault::Frame { frame, fault });
        let checked = Err(CheckFault::Frame { frame, fault });
        same(
            &rt,
            &refused(&rt, rt.alloc(), first, second),
            &Ok((decoded, checked, 4832, Some(written))),
        );
    }
}

// How many frames a file has and how many bytes of them are unread, or why it isn't sound.
type Sound = Result<(u32, u64), CheckFault>;

fn check<R: Threads + Sync>(rt: &R, alloc: Global, file: &[u8]) -> Sound {
    let mut source = HonestSource::new(file);
    match check_file(rt, alloc, &mut source, 1, &OpenGate) {
        Ok(sound) => Ok((sound.frames, sound.unread)),
        Err(fault) => Err(fault),
    }
}

// The same of a file that is made for it.
fn check_made<R: Threads + Sync>(
    rt: &R,
    alloc: Global,
    made: Result<Vec<u8>, AllocError>,
) -> Sound {
    match made {
        Ok(file) => check(rt, alloc, &file),
        Err(refused) => Err(CheckFault::Source(OpenFault::Memory(refused))),
    }
}

// A coded file of one frame, with an index of these bytes.
fn indexed(alloc: Global, entries: &[u8]) -> Result<Vec<u8>, AllocError> {
    let frame = frame(alloc, &[b"\xfc\0\0\x05\xff\xf8"])?;
    let index = chunk(alloc, b"DSTI", &[entries], 0)?;
    coded(alloc, 1, &[&frame], &index)
}

// The file of two frames whose index names another size of the second, and then another place of the first too.
fn second_off(alloc: Global) -> Result<Vec<u8>, AllocError> {
    with_bytes(alloc, &two_frames(alloc)?, 9607, b"\x07")
}

fn both_off(alloc: Global) -> Result<Vec<u8>, AllocError> {
    with_bytes(alloc, &second_off(alloc)?, 9595, b"\x99")
}

fn bad(entry: u32) -> Sound {
    Err(CheckFault::Source(OpenFault::File(FileFault::IndexBad { entry })))
}

#[test]
fn a_file_is_checked_by_its_index_and_its_frames(rt: HostRuntime) {
    let alloc = rt.alloc();
    let right = b"\0\0\0\0\0\0\0\x98\0\0\0\x06";
    let longer: [&[u8]; 3] = [b"\0", &[0x69; 4704], &[1, 2, 3]];
    let sounds = [
        check(&rt, alloc, SILENT),
        check_made(&rt, alloc, one_frame(alloc, &longer)),
        check_made(&rt, alloc, two_frames(alloc)),
        check_made(&rt, alloc, second_off(alloc)),
        check_made(&rt, alloc, both_off(alloc)),
        check_made(&rt, alloc, indexed(alloc, right)),
        check_made(&rt, alloc, indexed(alloc, b"")),
    ];
    same(
        &rt,
        &sounds,
        &[
            Ok((0, 0)),
            Ok((1, 3)),
            Ok((2, 0)),
            bad(1),
            bad(0),
            Ok((1, 0)),
            bad(1),
        ],
    );
}
