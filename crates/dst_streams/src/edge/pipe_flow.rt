// Standard input.
ghost use Rattle.std.specs.Prelude.{◌≡◌, None};

use crate::{Failed, Flow};
use std::io::{self, Input, Read};

/// Standard input, taken at the first call. It tells nothing.
#[derive(Drop)]
pub struct PipeFlow<'r, R: Input> {
    rt: &'r R,
    reader: Option<R::Reader>,
    faults: u64,
    reason: Option<io::Error>,
}

impl<'r, R: Input> PipeFlow<'r, R> {
    pub fn new(rt: &'r R) -> PipeFlow<'r, R>
        ensures left { ⟦<PipeFlow<'r, R> as Flow>⟧.left result ≡ None }
        ensures faults { ⟦<PipeFlow<'r, R> as Flow>⟧.faults result ≡ 0 }
    {
        PipeFlow {
            rt,
            reader: None,
            faults: 0,
            reason: None,
        }
    }

    /// Why the last call that failed did, in the system's words: for people, since no clause says what a system answers.
    pub fn reason(&self) -> Option<io::Error> {
        self.reason
    }
}

impl<'r, R: Input> Flow for PipeFlow<'r, R> {
    ghost left = { λ _. None };

    ghost faults = { λ s. s.faults };

    ghost use Rattle.dst_streams.specs.Laws.{bytes_of_untold};

    ghost told_are_bytes = { λ s xs told. bytes_of_untold xs told };

    fn next(&mut self, out: &mut [u8]) -> Result<usize, Failed> {
        let rt = self.rt;
        let reader = self.reader.get_or_insert_with(|| rt.reader());
        match reader.read(out) {
            Ok(count) => Ok(count),
            Err(reason) => {
                self.reason = Some(reason);
                self.faults = self.faults.saturating_add(1);
                Err(Failed)
            }
        }
    }
}
