// A sink over a fixed array, which takes no memory.
ghost use Rattle.std.specs.Prelude.{◌≡◌, ◌≤◌, [], true, Some, None, length, take};

use crate::{Failed, Sink};

/// A sink over a fixed array of 65,536 bytes, for tests. It takes no memory.
///
/// The first `append` that would pass `prefix` bytes keeps just the bytes up to `prefix` and fails, and each later
/// call fails, `finish` too. Memory is settled at any time.
#[derive(Drop)]
pub struct ShortFlowSink {
    bytes: [u8; 65_536],
    prefix: usize,
    len: usize,
    is_cut: bool,
    appended: u64,
    faults: u64,
    ghost prefix_within: { prefix ≤ 65536 },
    ghost len_within: { len ≤ prefix },
    ghost appended_within: { appended ≤ length (take len bytes) },
}

impl ShortFlowSink {
    pub fn new(prefix: usize) -> ShortFlowSink
        requires { prefix ≤ 65536 }
        ensures written { ⟦<ShortFlowSink as Sink>⟧.written result ≡ Some [] }
        ensures appended { ⟦<ShortFlowSink as Sink>⟧.appended result ≡ 0 }
        ensures faults { ⟦<ShortFlowSink as Sink>⟧.faults result ≡ 0 }
        ensures room { ⟦<ShortFlowSink as Sink>⟧.room result ≡ None }
    {
        ShortFlowSink {
            bytes: [0; 65_536],
            prefix,
            len: 0,
            is_cut: false,
            appended: 0,
            faults: 0,
        }
    }

    /// What is written.
    pub fn written(&self) -> &[u8]
        ensures { ⟦<ShortFlowSink as Sink>⟧.written self.now ≡ Some result.now }
    {
        &self.bytes[..self.len]
    }
}

impl Sink for ShortFlowSink {
    ghost written = { λ s. Some (take s.len s.bytes) };

    ghost appended = { λ s. s.appended };

    ghost faults = { λ s. s.faults };

    ghost room = { λ _. None };

    ghost settled = { λ _. true };

    ghost use Rattle.dst_streams.specs.Laws.{le_of_both};

    ghost appended_within = { λ s xs told. le_of_both s.appended (take s.len s.bytes) xs s.appended_within told };

    fn append(&mut self, piece: &[u8]) -> Result<(), Failed> {
        let taken = piece.len().min(self.prefix - self.len);
        let fits = taken == piece.len();
        if self.is_cut {
            self.faults = self.faults.saturating_add(1);
            return Err(Failed);
        }
        self.bytes[self.len..self.len + taken].copy_from_slice(&piece[..taken]);
        self.len += taken;
        if fits {
            self.appended += taken as u64;
            return Ok(());
        }
        self.is_cut = true;
        self.faults = self.faults.saturating_add(1);
        Err(Failed)
    }

    fn overwrite(&mut self, place: u64, piece: &[u8]) -> Result<(), Failed> {
        if self.is_cut {
            self.faults = self.faults.saturating_add(1);
            return Err(Failed);
        }
        let start = place as usize;
        self.bytes[start..start + piece.len()].copy_from_slice(piece);
        Ok(())
    }

    fn finish(&mut self) -> Result<(), Failed> {
        if self.is_cut {
            self.faults = self.faults.saturating_add(1);
            return Err(Failed);
        }
        Ok(())
    }
}
