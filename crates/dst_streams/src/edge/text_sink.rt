// Standard output.
ghost use Rattle.std.specs.Prelude.{◌≡◌, true, None};

use crate::{Failed, Sink};

/// Standard output. It tells no bytes, has no sure room, and can't be written over: `overwrite` fails. It keeps nothing,
/// so that it is settled at any time and `finish` does nothing.
#[derive(Drop)]
pub struct TextSink<'r, R: Print> {
    rt: &'r R,
    appended: u64,
    faults: u64,
}

impl<'r, R: Print> TextSink<'r, R> {
    pub fn new(rt: &'r R) -> TextSink<'r, R>
        ensures written { ⟦<TextSink<'r, R> as Sink>⟧.written result ≡ None }
        ensures appended { ⟦<TextSink<'r, R> as Sink>⟧.appended result ≡ 0 }
        ensures faults { ⟦<TextSink<'r, R> as Sink>⟧.faults result ≡ 0 }
        ensures room { ⟦<TextSink<'r, R> as Sink>⟧.room result ≡ None }
    {
        TextSink {
            rt,
            appended: 0,
            faults: 0,
        }
    }
}

impl<'r, R: Print> Sink for TextSink<'r, R> {
    ghost written = { λ _. None };

    ghost appended = { λ s. s.appended };

    ghost faults = { λ s. s.faults };

    ghost room = { λ _. None };

    ghost settled = { λ _. true };

    ghost use Rattle.dst_streams.specs.Laws.{le_of_untold};

    ghost appended_within = { λ s xs told. le_of_untold s.appended xs told };

    fn append(&mut self, piece: &[u8]) -> Result<(), Failed> {
        if let Some(after) = self.appended.checked_add(piece.len() as u64) {
            if self.rt.write_all(piece).is_ok() {
                self.appended = after;
                return Ok(());
            }
        }
        self.faults = self.faults.saturating_add(1);
        Err(Failed)
    }

    fn overwrite(&mut self, _place: u64, _piece: &[u8]) -> Result<(), Failed> {
        self.faults = self.faults.saturating_add(1);
        Err(Failed)
    }

    fn finish(&mut self) -> Result<(), Failed> {
        Ok(())
    }
}
