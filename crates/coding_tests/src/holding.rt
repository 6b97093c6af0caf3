// A gate of the tests.
use frame_crew::Gate;
use std::sync::atomic::{AtomicU64, Ordering};

/// Holds each job until as many jobs as workers were at the gate at once.
#[derive(Drop)]
pub(crate) struct Holding {
    workers: u64,
    passes: AtomicU64,
    inside: AtomicU64,
    most: AtomicU64,
}

impl Holding {
    pub(crate) fn new(workers: u32) -> Holding {
        Holding {
            workers: u64::from(workers),
            passes: AtomicU64::new(0),
            inside: AtomicU64::new(0),
            most: AtomicU64::new(0),
        }
    }

    // Returns at last also where they don't come: the most that were there tell it.
    fn wait(&self) {
        for _ in 0..100_000_000u64 {
            if self.most.load(Ordering::SeqCst) >= self.workers {
                return;
            }
        }
    }

    /// How often it was passed, and the most that were there at once.
    pub(crate) fn seen(&self) -> (u64, u64) {
        (
            self.passes.load(Ordering::SeqCst),
            self.most.load(Ordering::SeqCst),
        )
    }
}

impl Gate for Holding {
    fn pass(&self, _place: usize) {
        self.passes.fetch_add(1, Ordering::SeqCst);
        let others = self.inside.fetch_add(1, Ordering::SeqCst);
        self.most
            .fetch_max(others.wrapping_add(1), Ordering::SeqCst);
        self.wait();
        self.inside.fetch_sub(1, Ordering::SeqCst);
    }
}
