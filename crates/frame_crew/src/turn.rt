// Work that takes the jobs of a run one after another.
ghost use Rattle.std.specs.Prelude.{◌≡◌, ℕ};

use crate::{FrameWork, Slot};

/// The work that is done on one job at a time. [`InTurn`] makes work on runs of it.
pub trait JobWork: Sync {
    /// What it works on.
    type Job: Slot + Send;

    /// What one worker works with. What was left in it changes no job, and what the work leaves in it is open.
    type Scratch: Slot + Send;

    /// The shape of the jobs and of the scratches that it takes.
    ghost shape: { Self → ℕ };

    /// What the work may leave of a job: it is a relation between the job before and the job after.
    ghost done: { Self → Self.Job → Self.Job → Type 0 };

    /// Works one job.
    fn work_job(&self, scratch: &mut Self::Scratch, job: &mut Self::Job)
        requires scratch { Self.Scratch.shape scratch.old ≡ shape self.now }
        requires job { Self.Job.shape job.old ≡ shape self.now }
        ensures done { done self.now job.old job.new }
        ensures shape { Self.Job.shape job.new ≡ shape self.now }
        ensures scratch { Self.Scratch.shape scratch.new ≡ shape self.now };
}

/// Works the jobs of a run one after another.
#[derive(Clone, Copy, Debug, Drop)]
pub struct InTurn<W> {
    pub each: W,
}

impl<W: JobWork> FrameWork for InTurn<W> {
    type Job = W::Job;

    type Scratch = W::Scratch;

    ghost shape = { λ s. W.shape s.each };

    ghost done = { λ s. W.done s.each };

    fn work(&self, scratch: &mut W::Scratch, run: &mut [W::Job]) {
        for job in run.iter_mut() {
            self.each.work_job(scratch, job);
        }
    }
}
