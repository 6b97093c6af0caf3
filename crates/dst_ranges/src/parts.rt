// One part of a sound, which lies in one frame.
ghost use Rattle.std.specs.Prelude.{◌≡◌, ◌+◌, ◌/◌, ◌%◌, ◌≤◌, ◌<◌, ℕ, ◌∷◌, [], length, Some, IfErr, OnOk};
ghost use Rattle.dst_spec.specs.Sample.{sound_bytes};
ghost use Rattle.dst_read.specs.Decoding.{HasItsCause};
ghost use Rattle.dst_ranges.specs.Parts.{part};
ghost use Rattle.dst_ranges.specs.Reading.{Stopped, Wrote};

use dsdiff_chunks::OpenFault;
use dst_read::DecodeFault;
use dst_streams::{Sink, Source};
use frame_cache::{RangeFault, RangeReader};

/// Reads the bytes of the sound from a place on, as many as there is room for, and writes them.
pub(crate) fn write_part<S: Source, K: Sink>(
    source: &mut S,
    sink: &mut K,
    reader: &mut RangeReader,
    room: &mut [u8],
    from: u64,
) -> Result<(), DecodeFault>
    requires some { 0 < length room.old }
    requires within { from + length room.old ≤ reader.old.size }
    requires frame { from % sound_bytes reader.old.shape + length room.old ≤ sound_bytes reader.old.shape }
    requires size { (n : ℕ) × (S.known source.old ≡ Some n) × (reader.old.end ≤ n) }
    ensures bytes { S.bytes source.new ≡ S.bytes source.old }
    ensures stays { S.known source.new ≡ S.known source.old }
    ensures source_later { S.faults source.old ≤ S.faults source.new }
    ensures sink_later { K.faults sink.old ≤ K.faults sink.new }
    ensures cause { IfErr result (λ fault. HasItsCause fault (S.faults source.old) (S.faults source.new) (K.faults sink.old) (K.faults sink.new)) }
    ensures wrote { OnOk result (Wrote reader.old reader.new (part (from / sound_bytes reader.old.shape) from (length room.old) ∷ [])
        (S.bytes source.old) (S.given source.old) (S.given source.new) (K.written sink.old) (K.written sink.new) (K.room sink.old) (K.room sink.new)) }
    ensures stops { IfErr result (λ fault. Stopped reader.old (part (from / sound_bytes reader.old.shape) from (length room.old) ∷ []) fault
        (S.bytes source.old) (K.written sink.old) (K.written sink.new) (K.room sink.old)) }
{
    match reader.read(source, from, room) {
        Ok(_) => {}
        Err(RangeFault::Read) => return Err(DecodeFault::Source(OpenFault::Read)),
        Err(RangeFault::Frame { frame, fault }) => return Err(DecodeFault::Frame { frame, fault }),
    }
    match sink.append(room) {
        Ok(()) => Ok(()),
        Err(_) => Err(DecodeFault::Write),
    }
}
