// A batch of jobs, worked by several threads.
ghost use Rattle.std.specs.Prelude.{◌≡◌, ◌+◌, ◌*◌, ◌^◌, ◌<◌, ◌≤◌, All, length};
ghost use Rattle.std.specs.List.{AllZip};
ghost use Rattle.std.specs.Thread.{IsSync, IsSend};

use crate::{FrameWork, Gate};
use std::thread::{Threads, join_mut};

/// Works each job once, by one worker for each scratch, and returns when all are done.
///
/// Each worker is lent its own scratch and its own run of jobs, and the runs' lengths differ by one at most. The caller
/// starts all threads itself, one after another, and works the last run. Where a thread can't be started, the caller
/// does that work.
pub fn run_batch<R: Threads + Sync, W: FrameWork, G: Gate>(
    rt: &R,
    work: &W,
    gate: &G,
    scratches: &mut [W::Scratch],
    jobs: &mut [W::Job],
)
    requires least { 0 < length scratches.old }
    requires most { length scratches.old ≤ 16 }
    requires scratch_shapes { All (λ scratch. W.Scratch.shape scratch ≡ W.shape work.now) scratches.old }
    requires shapes { All (λ job. W.Job.shape job ≡ W.shape work.now) jobs.old }
    ensures done { AllZip (W.done work.now) jobs.old jobs.new }
    ensures shapes { All (λ job. W.Job.shape job ≡ W.shape work.now) jobs.new }
    ensures scratch_shapes { All (λ scratch. W.Scratch.shape scratch ≡ W.shape work.now) scratches.new }
{
    work_from(rt, work, gate, 0, scratches, jobs);
}

// Works the jobs of a batch from `place` on. A new thread works the first run, and this one goes on with the rest, so that
// one thread alone starts the others.
#[cycle(workers)]
fn work_from<R: Threads + Sync, W: FrameWork, G: Gate>(
    rt: &R,
    work: &W,
    gate: &G,
    place: usize,
    scratches: &mut [W::Scratch],
    jobs: &mut [W::Job],
)
    requires some { 0 < length scratches.old }
    requires room { place + length jobs.old < 2 ^ 64 }
    requires scratch_shapes { All (λ scratch. W.Scratch.shape scratch ≡ W.shape work.now) scratches.old }
    requires shapes { All (λ job. W.Job.shape job ≡ W.shape work.now) jobs.old }
    ensures done { AllZip (W.done work.now) jobs.old jobs.new }
    ensures shapes { All (λ job. W.Job.shape job ≡ W.shape work.now) jobs.new }
    ensures scratch_shapes { All (λ scratch. W.Scratch.shape scratch ≡ W.shape work.now) scratches.new }
{
    let workers = scratches.len();
    let count = jobs.len();
    if workers < 2 || count < 2 {
        work_run(work, gate, place, &mut scratches[0], jobs);
        return;
    }
    let first = first_run(count, workers);
    let (own, others) = scratches.split_at_mut(1);
    let (run, rest) = jobs.split_at_mut(first);
    work_beside(
        rt,
        work,
        gate,
        place,
        &mut own[0],
        run,
        place + first,
        others,
        rest,
    );
}

// A separate function from `work_from`, so that what the closures require is what this function is given.
#[cycle(workers)]
fn work_beside<R: Threads + Sync, W: FrameWork, G: Gate>(
    rt: &R,
    work: &W,
    gate: &G,
    place: usize,
    own: &mut W::Scratch,
    run: &mut [W::Job],
    next: usize,
    others: &mut [W::Scratch],
    rest: &mut [W::Job],
)
    requires some { 0 < length others.old }
    requires room { place + length run.old < 2 ^ 64 }
    requires rest_room { next + length rest.old < 2 ^ 64 }
    requires own_shape { W.Scratch.shape own.old ≡ W.shape work.now }
    requires run_shapes { All (λ job. W.Job.shape job ≡ W.shape work.now) run.old }
    requires other_shapes { All (λ scratch. W.Scratch.shape scratch ≡ W.shape work.now) others.old }
    requires rest_shapes { All (λ job. W.Job.shape job ≡ W.shape work.now) rest.old }
    ensures run_done { AllZip (W.done work.now) run.old run.new }
    ensures rest_done { AllZip (W.done work.now) rest.old rest.new }
    ensures own_shape { W.Scratch.shape own.new ≡ W.shape work.now }
    ensures run_shapes { All (λ job. W.Job.shape job ≡ W.shape work.now) run.new }
    ensures other_shapes { All (λ scratch. W.Scratch.shape scratch ≡ W.shape work.now) others.new }
    ensures rest_shapes { All (λ job. W.Job.shape job ≡ W.shape work.now) rest.new }
{
    let mut here = ||
        requires { IsSync R.row × IsSync W.row × IsSync G.row × IsSend W.Scratch.row × IsSend W.Job.row
            × (0 < length others.now) × (next + length rest.now < 2 ^ 64)
            × All (λ scratch. W.Scratch.shape scratch ≡ W.shape work.now) others.now
            × All (λ job. W.Job.shape job ≡ W.shape work.now) rest.now }
        ensures { AllZip (W.done work.entry.now) rest.entry.now rest.exit.now
            × All (λ scratch. W.Scratch.shape scratch ≡ W.shape work.entry.now) others.exit.now
            × All (λ job. W.Job.shape job ≡ W.shape work.entry.now) rest.exit.now }
    { work_from(rt, work, gate, next, others, rest) };
    let mut there = ||
        requires { (place + length run.now < 2 ^ 64)
            × (W.Scratch.shape own.now ≡ W.shape work.now)
            × All (λ job. W.Job.shape job ≡ W.shape work.now) run.now }
        ensures { AllZip (W.done work.entry.now) run.entry.now run.exit.now
            × (W.Scratch.shape own.exit.now ≡ W.shape work.entry.now)
            × All (λ job. W.Job.shape job ≡ W.shape work.entry.now) run.exit.now }
    { work_run(work, gate, place, own, run) };
    join_mut(rt, &mut there, &mut here);
}

// How many jobs the first of several workers takes: an even share, and one job more where the shares are uneven.
fn first_run(count: usize, workers: usize) -> usize
    requires workers { 1 < workers }
    requires count { 1 < count }
    ensures least { count ≤ result * workers }
    ensures most { result * workers < count + workers }
    ensures within { result < count }
{
    count.div_ceil(workers)
}

// Passes the gate once for each job of a run, and works the run. Its first job stands at `place` of the batch.
fn work_run<W: FrameWork, G: Gate>(
    work: &W,
    gate: &G,
    place: usize,
    scratch: &mut W::Scratch,
    run: &mut [W::Job],
)
    requires room { place + length run.old < 2 ^ 64 }
    requires scratch_shape { W.Scratch.shape scratch.old ≡ W.shape work.now }
    requires shapes { All (λ job. W.Job.shape job ≡ W.shape work.now) run.old }
    ensures done { AllZip (W.done work.now) run.old run.new }
    ensures shapes { All (λ job. W.Job.shape job ≡ W.shape work.now) run.new }
    ensures scratch_shape { W.Scratch.shape scratch.new ≡ W.shape work.now }
{
    for index in 0..run.len() {
        gate.pass(place + index);
    }
    work.work(scratch, run);
}
