// Which jobs are worked at once, and one answer for every number of workers.
ghost use Rattle.std.specs.Prelude.{◌≡◌, ◌+◌, ◌-◌, ◌%◌, ◌^◌, ◌<◌, ◌≤◌};

use crate::compared::same;
use frame_crew::{
    Drain, Feed, Gate, InTurn, JobWork, OpenGate, RunFault, Slot, run_batch, run_ordered,
};
use std::sync::atomic::{AtomicU64, Ordering};
use std::thread::Threads;

#[derive(Clone, Copy)]
struct Number {
    value: u32,
}

impl Slot for Number {
    ghost shape = { λ _. 0 };
}

// How many jobs a worker has worked.
#[derive(Clone, Copy)]
struct Worked {
    count: u32,
}

impl Slot for Worked {
    ghost shape = { λ _. 0 };
}

const IDLE: Worked = Worked { count: 0 };

#[derive(Drop)]
struct AddOne;

impl JobWork for AddOne {
    type Job = Number;

    type Scratch = Worked;

    ghost shape = { λ _. 0 };

    ghost done = { λ _ before after. after.value ≡ (before.value + 1) % 2 ^ 32 };

    fn work_job(&self, scratch: &mut Worked, job: &mut Number) {
        scratch.count = scratch.count.wrapping_add(1);
        job.value = job.value.wrapping_add(1);
    }
}

const ADD_ONE: InTurn<AddOne> = InTurn { each: AddOne };

// Holds each job until as many jobs as workers were at the gate at once.
#[derive(Drop)]
struct Holding {
    workers: u64,
    passes: AtomicU64,
    inside: AtomicU64,
    most: AtomicU64,
}

impl Holding {
    fn new(workers: u64) -> Holding {
        Holding {
            workers,
            passes: AtomicU64::new(0),
            inside: AtomicU64::new(0),
            most: AtomicU64::new(0),
        }
    }

    // Returns at last also where they don't come: the most that were there tell it.
    fn wait(&self) {
        for _ in 0..100_000_000u64 {
            if self.most.load(Ordering::SeqCst) >= self.workers {
                return;
            }
        }
    }
}

impl Gate for Holding {
    fn pass(&self, _place: usize) {
        self.passes.fetch_add(1, Ordering::SeqCst);
        let others = self.inside.fetch_add(1, Ordering::SeqCst);
        self.most
            .fetch_max(others.wrapping_add(1), Ordering::SeqCst);
        self.wait();
        self.inside.fetch_sub(1, Ordering::SeqCst);
    }
}

// Numbers of which the first `count` are one, and the others another.
fn first_are<const N: usize>(count: usize, one: u32, other: u32) -> [u32; N] {
    let mut numbers = [other; N];
    for number in numbers.iter_mut().take(count) {
        *number = one;
    }
    numbers
}

// Of jobs that are held at a gate: how often it is passed and by how many at once, the value of each job, which is 1 before, and how many each
// worker has worked.
type Held = ((u64, u64), [u32; 48], [u32; 16]);

// Three jobs for each worker.
fn held<R: Threads + Sync>(rt: &R, workers: usize) -> Held
    requires some { 0 < workers }
    requires most { workers ≤ 16 }
{
    let gate = Holding::new(workers as u64);
    let mut scratches = [IDLE; 16];
    let mut jobs = [Number { value: 1 }; 48];
    run_batch(
        rt,
        &ADD_ONE,
        &gate,
        &mut scratches[..workers],
        &mut jobs[..3 * workers],
    );
    let passes = gate.passes.load(Ordering::SeqCst);
    let most = gate.most.load(Ordering::SeqCst);
    (
        (passes, most),
        jobs.map(|job| job.value),
        scratches.map(|it| it.count),
    )
}

// The same where as many jobs as workers are worked at once.
fn all_held(workers: usize) -> Held
    requires { workers ≤ 16 }
{
    let count = 3 * workers;
    (
        (count as u64, workers as u64),
        first_are(count, 2, 1),
        first_are(workers, 3, 0),
    )
}

#[test]
fn as_many_jobs_as_workers_are_worked_at_once(rt: HostRuntime) {
    for workers in 2..17usize {
        let found = (workers, held(&rt, workers));
        same(&rt, &found, &(workers, all_held(workers)));
    }
}

// Counts the passes, and adds up the places.
#[derive(Drop)]
struct Counting {
    passes: AtomicU64,
    places: AtomicU64,
}

impl Gate for Counting {
    fn pass(&self, place: usize) {
        self.passes.fetch_add(1, Ordering::SeqCst);
        self.places.fetch_add(place as u64, Ordering::SeqCst);
    }
}

// How many jobs a worker has: the first workers have one more, where the jobs can't be divided.
fn share(place: usize, workers: usize, count: usize) -> usize {
    if place >= workers || workers == 0 {
        return 0;
    }
    (count / workers).wrapping_add(usize::from(place < count % workers))
}

// What becomes of jobs: the value of each, how many each worker has, how often the gate is passed, and the sum of the places.
type Shares = ([u32; 64], [usize; 16], u64, u64);

// Some of 64 jobs are worked, which are 7 before.
fn shared_out<R: Threads + Sync>(rt: &R, workers: usize, count: usize) -> Shares
    requires some { 0 < workers }
    requires most { workers ≤ 16 }
    requires jobs { count ≤ 64 }
{
    let gate = Counting {
        passes: AtomicU64::new(0),
        places: AtomicU64::new(0),
    };
    let mut scratches = [IDLE; 16];
    let mut jobs = [Number { value: 7 }; 64];
    run_batch(
        rt,
        &ADD_ONE,
        &gate,
        &mut scratches[..workers],
        &mut jobs[..count],
    );
    (
        jobs.map(|job| job.value),
        scratches.map(|it| it.count as usize),
        gate.passes.load(Ordering::SeqCst),
        gate.places.load(Ordering::SeqCst),
    )
}

// The same where the jobs are shared out evenly.
fn even_shares(workers: usize, count: usize) -> Shares {
    let mut counts = [0usize; 16];
    for place in 0..16usize {
        counts[place] = share(place, workers, count);
    }
    let all = count.wrapping_mul(count.saturating_sub(1)) / 2;
    (first_are(count, 8, 7), counts, count as u64, all as u64)
}

#[test]
fn the_jobs_are_shared_out_evenly(rt: HostRuntime) {
    for workers in 1..17usize {
        for count in 0..65usize {
            let found = (workers, count, shared_out(&rt, workers, count));
            let even = even_shares(workers, count);
            same(&rt, &found, &(workers, count, even));
        }
    }
}

// The numbers below `end`, up to a fault, and how often the end was answered.
#[derive(Drop)]
struct Numbers<'a> {
    next: u32,
    end: u32,
    fails_at: u32,
    ends: &'a AtomicU64,
}

impl Feed<Number> for Numbers<'_> {
    type Fault = u32;

    ghost shape = { λ _. 0 };

    ghost gives = { λ s job t. (job.value ≡ s.next) × (t.next ≡ s.next + 1) };

    ghost ended = { λ s. s.end ≤ s.next };

    ghost failed = { λ s fault t. (fault ≡ s.next) × (t ≡ s) };

    ghost bound = { λ s. s.end - s.next };

    fn fill(&mut self, job: &mut Number) -> Result<bool, u32> {
        if self.next >= self.end {
            self.ends.fetch_add(1, Ordering::SeqCst);
            return Ok(false);
        }
        if self.next == self.fails_at {
            return Err(self.next);
        }
        job.value = self.next;
        self.next += 1;
        Ok(true)
    }
}

// Counts the jobs, up to a fault, and compares each with its place.
#[derive(Drop)]
struct InOrder {
    count: u32,
    is_in_order: bool,
    fails_at: u32,
}

impl Drain<Number> for InOrder {
    type Fault = u32;

    ghost shape = { λ _. 0 };

    ghost takes = { λ s _ t. t.count ≡ (s.count + 1) % 2 ^ 32 };

    ghost failed = { λ s _ fault t. (fault ≡ s.count) × (t ≡ s) };

    fn drain(&mut self, job: &mut Number) -> Result<(), u32> {
        if self.count == self.fails_at {
            return Err(self.count);
        }
        if job.value != self.count.wrapping_add(1) {
            self.is_in_order = false;
        }
        self.count = self.count.wrapping_add(1);
        job.value = 0;
        Ok(())
    }
}

const NEVER: u32 = u32::MAX;

// How a run ends.
const WHOLE: u8 = 0;

const FEED_FAILS: u8 = 1;

const DRAIN_FAILS: u8 = 2;

// How one run ends, with which number, how many jobs were drained, whether each stood at its place, and how often the end was answered.
type Outcome = (u8, u32, u32, bool, u64);

// How a run ended, and with which number.
fn end_of_run(answer: Result<u32, RunFault<u32, u32>>) -> (u8, u32) {
    match answer {
        Ok(count) => (WHOLE, count),
        Err(RunFault::Feed(place)) => (FEED_FAILS, place),
        Err(RunFault::Drain(place)) => (DRAIN_FAILS, place),
    }
}

fn run_numbers<R: Threads + Sync>(
    rt: &R,
    end: u32,
    feed_fails_at: u32,
    drain_fails_at: u32,
    workers: usize,
) -> Outcome
    requires { (0 < workers) × (workers ≤ 16) }
{
    let ends = AtomicU64::new(0);
    let mut feed = Numbers {
        next: 0,
        end,
        fails_at: feed_fails_at,
        ends: &ends,
    };
    let mut drain = InOrder {
        count: 0,
        is_in_order: true,
        fails_at: drain_fails_at,
    };
    let mut scratches = [IDLE; 16];
    let mut jobs = [Number { value: 0 }; 32];
    let lent = &mut scratches[..workers];
    let answer = run_ordered(
        rt, &ADD_ONE, &mut feed, &mut drain, &OpenGate, lent, &mut jobs,
    );
    let (how, number) = end_of_run(answer);
    (
        how,
        number,
        drain.count,
        drain.is_in_order,
        ends.load(Ordering::SeqCst),
    )
}

// Numbers, where the feed and the drain fail, how each run ends, with which number, which is that of the jobs drained too, and how often the
// end was answered.
const ROWS: [(u32, u32, u32, u8, u32, u64); 17] = [
    (0, NEVER, NEVER, WHOLE, 0, 1),
    (1, NEVER, NEVER, WHOLE, 1, 1),
    (31, NEVER, NEVER, WHOLE, 31, 1),
    (32, NEVER, NEVER, WHOLE, 32, 1),
    (33, NEVER, NEVER, WHOLE, 33, 1),
    (100, NEVER, NEVER, WHOLE, 100, 1),
    (1, 0, NEVER, FEED_FAILS, 0, 0),
    (100, 31, NEVER, FEED_FAILS, 31, 0),
    (100, 32, NEVER, FEED_FAILS, 32, 0),
    (100, 40, NEVER, FEED_FAILS, 40, 0),
    (1, NEVER, 0, DRAIN_FAILS, 0, 1),
    (33, NEVER, 32, DRAIN_FAILS, 32, 1),
    (100, NEVER, 31, DRAIN_FAILS, 31, 0),
    (100, NEVER, 50, DRAIN_FAILS, 50, 0),
    (100, 40, 39, DRAIN_FAILS, 39, 0),
    (100, 40, 40, FEED_FAILS, 40, 0),
    (100, 40, 7, DRAIN_FAILS, 7, 0),
];

// The first number of workers whose run answers other than this, and what it answers.
fn first_other<R: Threads + Sync>(
    rt: &R,
    end: u32,
    feed_fails_at: u32,
    drain_fails_at: u32,
    wanted: Outcome,
) -> Option<(usize, Outcome)> {
    for workers in 1..17usize {
        let given = run_numbers(rt, end, feed_fails_at, drain_fails_at, workers);
        if given != wanted {
            return Some((workers, given));
        }
    }
    None
}

#[test]
fn every_number_of_workers_gives_one_answer(rt: HostRuntime) {
    for &(end, feed_fails_at, drain_fails_at, how, number, ends) in &ROWS {
        let wanted = (how, number, number, true, ends);
        let other = first_other(&rt, end, feed_fails_at, drain_fails_at, wanted);
        same(&rt, &(end, other), &(end, None));
    }
}
