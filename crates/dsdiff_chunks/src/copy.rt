// Copies a range of a source to the end of a sink.
ghost use Rattle.std.specs.Prelude.{◌≡◌, ◌+◌, ◌-◌, ◌<◌, ◌≤◌, ℕ, List, length, take, drop, Some, OnOk, OnErr};
ghost use Rattle.dst_streams.specs.Causes.{Rose};
ghost use Rattle.dst_streams.specs.Told.{IsCutShort, and_then};

use dst_streams::{Sink, Source};

#[derive(Clone, Copy, Debug, PartialEq, Eq)]
pub enum CopyFault {
    Read,
    Write,
}

pub fn copy_range<S: Source, K: Sink>(
    source: &mut S,
    sink: &mut K,
    buffer: &mut [u8],
    from: u64,
    to: u64,
) -> Result<(), CopyFault>
    requires buffer { 0 < length buffer.old }
    requires order { from ≤ to }
    requires known { (n : ℕ) × (S.known source.old ≡ Some n) × (to ≤ n) }
    ensures bytes { S.bytes source.new ≡ S.bytes source.old }
    ensures loan { S.loan source.new ≡ S.loan source.old }
    ensures stays { S.known source.new ≡ S.known source.old }
    ensures later { (S.faults source.old ≤ S.faults source.new) × (K.faults sink.old ≤ K.faults sink.new) }
    ensures sure { (room : ℕ) → K.room sink.old ≡ Some room → to - from ≤ room → OnOk result (K.room sink.new ≡ Some (room - (to - from))) }
    ensures taken { (room : ℕ) → K.room sink.old ≡ Some room → to - from ≤ room → result ≡ Err CopyFault.Write → ⊥ }
    ensures given { S.given source.new ≤ S.given source.old + (to - from) }
    ensures copied { OnOk result ((xs : List ℕ) → S.bytes source.old ≡ Some xs → K.written sink.new ≡ and_then (K.written sink.old) (take (to - from) (drop from xs))) }
    ensures cut_short { OnErr result ((xs : List ℕ) → S.bytes source.old ≡ Some xs → IsCutShort (K.written sink.old) (take (to - from) (drop from xs)) (K.written sink.new)) }
    ensures appended { OnOk result (K.appended sink.new ≡ K.appended sink.old + (to - from)) }
    ensures read { result ≡ Err CopyFault.Read → Rose (S.faults source.old) (S.faults source.new) }
    ensures write { result ≡ Err CopyFault.Write → Rose (K.faults sink.old) (K.faults sink.new) }
{
    let mut place = from;
    while place < to {
        let left = to - place;
        let want = left.min(buffer.len() as u64) as usize;
        let part = &mut buffer[..want];
        match source.read_at(place, part) {
            Err(_) => return Err(CopyFault::Read),
            Ok(count) => match sink.append(&part[..count]) {
                Err(_) => return Err(CopyFault::Write),
                Ok(_) => place += count as u64,
            },
        }
    }
    Ok(())
}
