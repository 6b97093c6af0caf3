// The head of one chunk.
ghost use Rattle.std.specs.Prelude.{◌≡◌, ◌+◌, ◌^◌, ◌<◌, ◌≤◌, ℕ, List, Some, IfOk, take};
ghost use Rattle.dst_streams.specs.Causes.{HasCause};
ghost use Rattle.dsdiff_spec.specs.Bytes.{number_at};
ghost use Rattle.dsdiff_spec.specs.Chunks.{head_at};
ghost use Rattle.dsdiff_chunks.specs.Seen.{head_seen};

use crate::lists::ChunkHead;
use crate::read::read_range;
use byteorder::{BigEndian, ByteOrder};
use dst_streams::{Failed, Source};

/// The head of the chunk at a place, of which twelve bytes are read.
pub fn read_head<S: Source>(source: &mut S, place: u64) -> Result<ChunkHead, Failed>
    requires fits { place + 12 < 2 ^ 64 }
    requires size { (n : ℕ) × (S.known source.old ≡ Some n) × (place + 12 ≤ n) }
    ensures bytes { S.bytes source.new ≡ S.bytes source.old }
    ensures loan { S.loan source.new ≡ S.loan source.old }
    ensures size_stays { S.known source.new ≡ S.known source.old }
    ensures given { S.given source.new ≤ S.given source.old + 12 }
    ensures cause { HasCause (S.faults source.old) (S.faults source.new) result }
    ensures place { IfOk result (λ h. h.place ≡ place) }
    ensures head { IfOk result (λ h. (xs : List ℕ) → S.bytes source.old ≡ Some xs → head_at xs place ≡ head_seen h) }
{
    let mut bytes = [0; 12];
    match read_range(source, place, &mut bytes) {
        Ok(()) => Ok(head_of(place, &bytes)),
        Err(failed) => Err(failed),
    }
}

/// The head of the chunk at a place, from its bytes.
pub fn head_of(place: u64, bytes: &[u8; 12]) -> ChunkHead
    ensures { head_seen result ≡ record { id = take 4 bytes.now; place = place; size = number_at bytes.now 4 8 } }
{
    let mut id = [0; 4];
    id.copy_from_slice(&bytes[..4]);
    let size = BigEndian::read_u64(&bytes[4..]);
    ChunkHead { id, place, size }
}
