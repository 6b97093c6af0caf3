// The work on a run of jobs.
ghost use Rattle.std.specs.Prelude.{◌≡◌, ℕ, All};
ghost use Rattle.std.specs.List.{AllZip};

/// A job, or what a worker works with: it is used again and again.
pub trait Slot {
    /// A number for the form of the value, as the length of its buffers. No call changes it.
    ghost shape: { Self → ℕ };
}

/// The work that is done on the jobs of a batch, by several threads at once.
pub trait FrameWork: Sync {
    /// What it works on.
    type Job: Slot + Send;

    /// What one worker works with. What was left in it changes no job, and what the work leaves in it is open.
    type Scratch: Slot + Send;

    /// The shape of the jobs and of the scratches that it takes.
    ghost shape: { Self → ℕ };

    /// What the work may leave of a job: it is a relation between the job before and the job after.
    ghost done: { Self → Self.Job → Self.Job → Type 0 };

    /// Works each job of a worker's run. It is handed the run whole, so that it may work several jobs side by side.
    fn work(&self, scratch: &mut Self::Scratch, run: &mut [Self::Job])
        requires scratch { Self.Scratch.shape scratch.old ≡ shape self.now }
        requires jobs { All (λ job. Self.Job.shape job ≡ shape self.now) run.old }
        ensures done { AllZip (done self.now) run.old run.new }
        ensures shapes { All (λ job. Self.Job.shape job ≡ shape self.now) run.new }
        ensures scratch { Self.Scratch.shape scratch.new ≡ shape self.now };
}
