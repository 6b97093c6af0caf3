// A flow of lent bytes, with short reads and planned failures.
ghost use Rattle.std.specs.Prelude.{◌≡◌, ◌<◌, ◌≤◌, Some, length, drop};
ghost use Rattle.std.specs.List.{All};

use super::piece_limit;
use crate::{Failed, Flow};

/// A flow of lent bytes, for tests.
///
/// Call number n, counted from 0, fails where n is in `fails`, and moves nothing. Call number k gives at most
/// `pieces[k mod pieces.len()]` bytes, and has no such limit where `pieces` is empty. A piece of 0 counts as 1.
#[derive(Drop)]
pub struct MemoryFlow<'a> {
    bytes: &'a [u8],
    pieces: &'a [usize],
    fails: &'a [u64],
    place: usize,
    calls: u64,
    faults: u64,
    ghost are_bytes: { All (λ b. b < 256) bytes.now },
    ghost within: { place ≤ length bytes.now },
}

impl<'a> MemoryFlow<'a> {
    pub fn new(bytes: &'a [u8], pieces: &'a [usize], fails: &'a [u64]) -> MemoryFlow<'a>
        ensures left { ⟦<MemoryFlow<'a> as Flow>⟧.left result ≡ Some bytes.now }
        ensures faults { ⟦<MemoryFlow<'a> as Flow>⟧.faults result ≡ 0 }
    {
        MemoryFlow {
            bytes,
            pieces,
            fails,
            place: 0,
            calls: 0,
            faults: 0,
        }
    }
}

impl<'a> Flow for MemoryFlow<'a> {
    ghost left = { λ s. Some (drop s.place s.bytes.now) };

    ghost faults = { λ s. s.faults };

    ghost use Rattle.dst_streams.specs.Laws.{bytes_of_rest};

    ghost told_are_bytes = { λ s xs told. bytes_of_rest s.place s.bytes.now xs s.are_bytes told };

    fn next(&mut self, out: &mut [u8]) -> Result<usize, Failed> {
        let call = self.calls;
        self.calls = self.calls.saturating_add(1);
        if self.fails.contains(&call) {
            self.faults = self.faults.saturating_add(1);
            return Err(Failed);
        }
        let limit = piece_limit(self.pieces, call);
        let start = self.place;
        let count = out.len().min(self.bytes.len() - start).min(limit);
        out[..count].copy_from_slice(&self.bytes[start..start + count]);
        self.place += count;
        Ok(count)
    }
}
