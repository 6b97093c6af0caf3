// As many frames are worked at once as there are workers, and no more.
use dst_streams::{HonestSource, MemorySink};
use dst_tool::dst_run_by;
use example_files::{coded, counting, frame};
use frame_crew::Gate;
use std::alloc::{AllocError, Global};
use std::sync::atomic::{AtomicBool, AtomicU64, Ordering};
use std::thread::Threads;
use top_call::split;

// Holds each worker until as many have come as there are workers.
#[derive(Drop)]
struct Meeting {
    workers: u64,
    passes: AtomicU64,
    inside: AtomicU64,
    most_inside: AtomicU64,
    ran_out: AtomicBool,
}

impl Meeting {
    fn of(workers: u64) -> Meeting {
        Meeting {
            workers,
            passes: AtomicU64::new(0),
            inside: AtomicU64::new(0),
            most_inside: AtomicU64::new(0),
            ran_out: AtomicBool::new(false),
        }
    }

    // Waits for the others of this meeting, for so many turns; where they run out nobody waits any more.
    fn wait(&self, place: u64) {
        if self.workers == 0 {
            return;
        }
        let meeting = (place / self.workers).saturating_add(1);
        let others = meeting.saturating_mul(self.workers);
        for _ in 0..100_000_000u64 {
            if self.passes.load(Ordering::SeqCst) >= others || self.ran_out.load(Ordering::SeqCst) {
                return;
            }
        }
        self.ran_out.store(true, Ordering::SeqCst);
    }
}

impl Gate for Meeting {
    fn pass(&self, _place: usize) {
        let inside = self.inside.fetch_add(1, Ordering::SeqCst).saturating_add(1);
        self.most_inside.fetch_max(inside, Ordering::SeqCst);
        let place = self.passes.fetch_add(1, Ordering::SeqCst);
        self.wait(place);
        self.inside.fetch_sub(1, Ordering::SeqCst);
    }
}

// A file of so many frames of bytes counting.
fn file_of(alloc: Global, count: u32) -> Result<Vec<u8>, AllocError> {
    let sound = counting(alloc, 4704)?;
    let whole = frame(alloc, &[b"\0", &sound])?;
    let mut frames: Vec<&[u8]> = Vec::new(alloc);
    for _ in 0..count {
        frames.push(&whole)?;
    }
    coded(alloc, count, &frames, &[])
}

// Decodes a file by as many workers as meet: the status, and how much is written.
fn run_with(
    rt: &(impl Threads + Sync),
    alloc: Global,
    text: &str,
    file: &[u8],
    gate: &Meeting,
) -> Result<(u8, usize), AllocError> {
    let words = split(alloc, text)?;
    let mut source = HonestSource::new(file);
    let mut sink = MemorySink::new(alloc, 200_000, &[])?;
    let mut report = MemorySink::new(alloc, 100, &[])?;
    let status = dst_run_by(
        rt,
        alloc,
        &words,
        &mut source,
        &mut sink,
        &mut report,
        16,
        gate,
    );
    Ok((status, sink.written().len()))
}

// Of decoding twice as many frames as there are workers: the status, how much is written, whether the turns ran out, and how many
// passes there were, how many at most at once, and how many didn't come out.
type Passed = (u8, usize, bool, u64, u64, u64);

fn met(
    rt: &(impl Threads + Sync),
    alloc: Global,
    text: &str,
    workers: u32,
) -> Result<Passed, AllocError> {
    let file = file_of(alloc, workers.saturating_mul(2))?;
    let gate = Meeting::of(u64::from(workers));
    let (status, size) = run_with(rt, alloc, text, &file, &gate)?;
    Ok((
        status,
        size,
        gate.ran_out.load(Ordering::SeqCst),
        gate.passes.load(Ordering::SeqCst),
        gate.most_inside.load(Ordering::SeqCst),
        gate.inside.load(Ordering::SeqCst),
    ))
}

#[test]
fn as_many_frames_are_decoded_at_once_as_there_are_workers(rt: HostRuntime) {
    // Words, how many workers they ask for, how much is written, and how many frames there are.
    const CASES: [(&str, u32, usize, u64); 3] = [
        ("decode a b --workers 2", 2, 4 * 4704 + 126, 4),
        ("decode a b --workers 4", 4, 8 * 4704 + 126, 8),
        ("decode a b --workers 16", 16, 32 * 4704 + 126, 32),
    ];
    for &(text, workers, size, jobs) in &CASES {
        let met = met(&rt, rt.alloc(), text, workers);
        let wanted = (0, size, false, jobs, u64::from(workers), 0);
        assert_eq!(rt; met, Ok(wanted), "{workers} workers");
    }
}
