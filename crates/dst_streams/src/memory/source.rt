// A source over lent bytes, with short reads and planned failures.
ghost use Rattle.std.specs.Prelude.{◌≡◌, ◌<◌, Some, None, length};
ghost use Rattle.std.specs.List.{All};

use super::piece_limit;
use crate::{Failed, Source};

/// A source over lent bytes, for tests.
///
/// Call number n, counted from 0 over both calls, fails where n is in `fails`. Read number k gives at most
/// `pieces[k mod pieces.len()]` bytes, and has no such limit where `pieces` is empty. A piece of 0 counts as 1.
#[derive(Drop)]
pub struct MemorySource<'a> {
    bytes: &'a [u8],
    pieces: &'a [usize],
    fails: &'a [u64],
    calls: u64,
    reads: u64,
    faults: u64,
    given: u64,
    ghost are_bytes: { All (λ b. b < 256) bytes.now },
}

impl<'a> MemorySource<'a> {
    pub fn new(bytes: &'a [u8], pieces: &'a [usize], fails: &'a [u64]) -> MemorySource<'a>
        ensures bytes { ⟦<MemorySource<'a> as Source>⟧.bytes result ≡ Some bytes.now }
        ensures known { ⟦<MemorySource<'a> as Source>⟧.known result ≡ Some (length bytes.now) }
        ensures faults { ⟦<MemorySource<'a> as Source>⟧.faults result ≡ 0 }
        ensures given { ⟦<MemorySource<'a> as Source>⟧.given result ≡ 0 }
    {
        MemorySource {
            bytes,
            pieces,
            fails,
            calls: 0,
            reads: 0,
            faults: 0,
            given: 0,
        }
    }
}

impl<'a> Source for MemorySource<'a> {
    ghost bytes = { λ s. Some s.bytes.now };

    ghost known = { λ s. Some (length s.bytes.now) };

    ghost faults = { λ s. s.faults };

    ghost given = { λ s. s.given };

    ghost loan = { λ _. None };

    ghost use Rattle.dst_streams.specs.Laws.{bytes_of_both, size_of_both};

    ghost size_is_length = { λ s xs n told known. size_of_both s.bytes.now xs n told known };

    ghost told_are_bytes = { λ s xs told. bytes_of_both s.bytes.now xs s.are_bytes told };

    fn size(&mut self) -> Result<u64, Failed> {
        let call = self.calls;
        self.calls = self.calls.saturating_add(1);
        if self.fails.contains(&call) {
            self.faults = self.faults.saturating_add(1);
            return Err(Failed);
        }
        Ok(self.bytes.len() as u64)
    }

    fn read_at(&mut self, place: u64, out: &mut [u8]) -> Result<usize, Failed> {
        let call = self.calls;
        self.calls = self.calls.saturating_add(1);
        let limit = piece_limit(self.pieces, self.reads);
        self.reads = self.reads.saturating_add(1);
        if self.fails.contains(&call) {
            self.faults = self.faults.saturating_add(1);
            // Read, so that it is known to fit.
            let _given = self.given;
            return Err(Failed);
        }
        let size = self.bytes.len();
        let start = size.min(usize::try_from(place).unwrap_or(size));
        let count = out.len().min(size - start).min(limit);
        out[..count].copy_from_slice(&self.bytes[start..start + count]);
        self.given = self.given.saturating_add(count as u64);
        Ok(count)
    }
}
