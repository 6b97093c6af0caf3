// Jobs that a feed gives and a drain takes, in order.
ghost use Rattle.std.specs.Prelude.{◌≡◌, ◌<◌, ◌≤◌, ◌^◌, All, length, IfOk, OnOk, IfErr};
ghost use Rattle.frame_crew.specs.Answers.{IfFeedFault, IfDrainFault};
ghost use Rattle.frame_crew.specs.Batch.{IsDrained, FailsAmong};
ghost use Rattle.frame_crew.specs.Runs.{Ran, FailsAtFeed, FailsAtDrain};

use crate::drain::drain_all;
use crate::feed::{Stop, fill_for};
use crate::{Drain, Feed, FrameWork, Gate, run_batch};
use std::thread::Threads;

/// Who answered the fault that ended a run.
#[derive(Debug, Drop)]
pub enum RunFault<F, D> {
    /// `fill` answered this fault. Every job that was given before it has been drained.
    Feed(F),
    /// `drain` answered this fault. Every job before that one has been drained.
    Drain(D),
}

// Works the jobs of a batch, and drains what the work left of them in their order.
fn work_and_drain<R: Threads + Sync, W: FrameWork, D: Drain<W::Job>, G: Gate>(
    rt: &R,
    work: &W,
    drain: &mut D,
    gate: &G,
    scratches: &mut [W::Scratch],
    jobs: &mut [W::Job],
) -> Result<(), D::Fault>
    requires least { 0 < length scratches.old }
    requires most { length scratches.old ≤ 16 }
    requires scratch_shapes { All (λ scratch. W.Scratch.shape scratch ≡ W.shape work.now) scratches.old }
    requires shapes { All (λ job. W.Job.shape job ≡ W.shape work.now) jobs.old }
    requires drain_shape { D.shape drain.old ≡ W.shape work.now }
    ensures drained { OnOk result (IsDrained D.takes (W.done work.now) jobs.old drain.old drain.new) }
    ensures fault { IfErr result (λ fault.
        FailsAmong D.takes D.failed (W.done work.now) jobs.old drain.old drain.new fault) }
    ensures shapes { All (λ job. W.Job.shape job ≡ W.shape work.now) jobs.new }
    ensures scratch_shapes { All (λ scratch. W.Scratch.shape scratch ≡ W.shape work.now) scratches.new }
    ensures drain_shape { D.shape drain.new ≡ W.shape work.now }
{
    run_batch(rt, work, gate, scratches, jobs);
    drain_all(drain, jobs)
}

/// Drains a done job of each job that `feed` gives, in its order, and answers how many.
pub fn run_ordered<R: Threads + Sync, W: FrameWork, F: Feed<W::Job>, D: Drain<W::Job>, G: Gate>(
    rt: &R,
    work: &W,
    feed: &mut F,
    drain: &mut D,
    gate: &G,
    scratches: &mut [W::Scratch],
    jobs: &mut [W::Job],
) -> Result<u32, RunFault<F::Fault, D::Fault>>
    requires least { 0 < length scratches.old }
    requires most { length scratches.old ≤ 16 }
    requires some { 0 < length jobs.old }
    requires scratch_shapes { All (λ scratch. W.Scratch.shape scratch ≡ W.shape work.now) scratches.old }
    requires shapes { All (λ job. W.Job.shape job ≡ W.shape work.now) jobs.old }
    requires feed_shape { F.shape feed.old ≡ W.shape work.now }
    requires drain_shape { D.shape drain.old ≡ W.shape work.now }
    requires bound { F.bound feed.old < 2 ^ 32 }
    // The fed jobs, a done job of each, drained in the feed's order, and their number.
    ensures ran { IfOk result (λ count.
        Ran F.gives D.takes (W.done work.now) feed.old feed.new drain.old drain.new count) }
    ensures ended { OnOk result (F.ended feed.new) }

    // The same of all jobs before the fault.
    ensures feed_fault { IfFeedFault result (λ fault.
        FailsAtFeed F.gives F.failed D.takes (W.done work.now)
        feed.old feed.new drain.old drain.new fault) }
    ensures drain_fault { IfDrainFault result (λ fault.
        FailsAtDrain F.gives F.failed D.takes D.failed (W.done work.now) (length jobs.old)
        feed.old feed.new drain.old drain.new fault) }

    ensures shapes { All (λ job. W.Job.shape job ≡ W.shape work.now) jobs.new }
    ensures scratch_shapes { All (λ scratch. W.Scratch.shape scratch ≡ W.shape work.now) scratches.new }
    ensures feed_shape { F.shape feed.new ≡ W.shape work.now }
    ensures drain_shape { D.shape drain.new ≡ W.shape work.now }
{
    let mut drained = 0u32;
    loop {
        let (filled, stop) = fill_for(rt, scratches.len(), feed, jobs);
        match work_and_drain(rt, work, drain, gate, scratches, &mut jobs[..filled]) {
            Ok(()) => drained += filled as u32,
            Err(fault) => return Err(RunFault::Drain(fault)),
        }
        match stop {
            Stop::Full => {}
            Stop::End => return Ok(drained),
            Stop::Fault(fault) => return Err(RunFault::Feed(fault)),
        }
    }
}
