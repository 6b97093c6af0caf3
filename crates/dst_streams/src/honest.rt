// A source over lent bytes, which never fails.
ghost use Rattle.std.specs.Prelude.{◌≡◌, ◌<◌, Some, None, length};
ghost use Rattle.std.specs.List.{All};

use crate::{Failed, Source};

/// A source over lent bytes that never fails: its count of faults is the constant 0.
#[derive(Drop)]
pub struct HonestSource<'a> {
    bytes: &'a [u8],
    given: u64,
    ghost are_bytes: { All (λ b. b < 256) bytes.now },
}

impl<'a> HonestSource<'a> {
    pub fn new(bytes: &'a [u8]) -> HonestSource<'a>
        ensures bytes { ⟦<HonestSource<'a> as Source>⟧.bytes result ≡ Some bytes.now }
        ensures known { ⟦<HonestSource<'a> as Source>⟧.known result ≡ Some (length bytes.now) }
        ensures faults { ⟦<HonestSource<'a> as Source>⟧.faults result ≡ 0 }
        ensures given { ⟦<HonestSource<'a> as Source>⟧.given result ≡ 0 }
    {
        HonestSource { bytes, given: 0 }
    }
}

impl<'a> Source for HonestSource<'a> {
    ghost bytes = { λ s. Some s.bytes.now };

    ghost known = { λ s. Some (length s.bytes.now) };

    ghost faults = { λ _. 0 };

    ghost given = { λ s. s.given };

    ghost loan = { λ _. None };

    ghost use Rattle.dst_streams.specs.Laws.{bytes_of_both, size_of_both};

    ghost size_is_length = { λ s xs n told known. size_of_both s.bytes.now xs n told known };

    ghost told_are_bytes = { λ s xs told. bytes_of_both s.bytes.now xs s.are_bytes told };

    fn size(&mut self) -> Result<u64, Failed> {
        Ok(self.bytes.len() as u64)
    }

    fn read_at(&mut self, place: u64, out: &mut [u8]) -> Result<usize, Failed> {
        let size = self.bytes.len();
        let start = size.min(usize::try_from(place).unwrap_or(size));
        let count = out.len().min(size - start);
        out[..count].copy_from_slice(&self.bytes[start..start + count]);
        self.given = self.given.saturating_add(count as u64);
        Ok(count)
    }
}
