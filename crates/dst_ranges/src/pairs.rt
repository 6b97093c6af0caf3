// Pairs of a first group and a number of groups, written one after the other.
ghost use Rattle.std.specs.Prelude.{◌≡◌, ◌+◌, ◌*◌, ◌≤◌, ◌<◌, ℕ, length, Some, IfOk, IfErr, OnOk, Err};
ghost use Rattle.dst_spec.specs.Sample.{sound_bytes};
ghost use Rattle.dst_read.specs.Decoding.{HasItsCause};
ghost use Rattle.dst_ranges.specs.Asked.{groups_asked};
ghost use Rattle.dst_ranges.specs.Opened.{IsReady};
ghost use Rattle.dst_ranges.specs.Parts.{parts_between, parts_of};
ghost use Rattle.dst_ranges.specs.Reading.{Stopped, Wrote};

use crate::opened::OpenedParts;
use crate::parts::write_part;
use dst_read::DecodeFault;
use dst_streams::{Sink, Source};
use frame_cache::RangeReader;

/// Writes what pairs ask for, and answers how many bytes that was.
pub(crate) fn write_pairs<S: Source, K: Sink>(
    source: &mut S,
    sink: &mut K,
    opened: &mut OpenedParts,
    pairs: &[(u32, u32)],
) -> Result<u64, DecodeFault>
    requires few { length pairs.now ≤ 16 }
    requires ready { IsReady pairs.now opened.old }
    requires size { (n : ℕ) × (S.known source.old ≡ Some n) × (opened.old.reader.end ≤ n) }
    ensures bytes { S.bytes source.new ≡ S.bytes source.old }
    ensures source_later { S.faults source.old ≤ S.faults source.new }
    ensures sink_later { K.faults sink.old ≤ K.faults sink.new }
    ensures cause { IfErr result (λ fault. HasItsCause fault (S.faults source.old) (S.faults source.new) (K.faults sink.old) (K.faults sink.new)) }
    ensures size { IfOk result (λ n. n ≡ groups_asked pairs.now * opened.old.channels.channels) }
    ensures no_call { groups_asked pairs.now ≡ 0 → sink.new ≡ sink.old }
    ensures no_write { groups_asked pairs.now ≡ 0 → result ≡ Err DecodeFault.Write → ⊥ }
    ensures wrote { OnOk result (Wrote opened.old.reader opened.new.reader (parts_of (sound_bytes opened.old.reader.shape) opened.old.channels.channels pairs.now)
        (S.bytes source.old) (S.given source.old) (S.given source.new) (K.written sink.old) (K.written sink.new) (K.room sink.old) (K.room sink.new)) }
    ensures stops { IfErr result (λ fault. Stopped opened.old.reader (parts_of (sound_bytes opened.old.reader.shape) opened.old.channels.channels pairs.now) fault
        (S.bytes source.old) (K.written sink.old) (K.written sink.new) (K.room sink.old)) }
{
    let group = opened.channels.count() as u64;
    let mut bytes = 0;
    for (first, count) in pairs {
        let from = u64::from(*first) * group;
        let end = from + u64::from(*count) * group;
        match write_between(
            source,
            sink,
            &mut opened.reader,
            &mut opened.buffer,
            from,
            end,
        ) {
            Ok(()) => {}
            Err(fault) => return Err(fault),
        }
        bytes += end - from;
    }
    Ok(bytes)
}

// Writes the bytes of the sound from one place up to another, frame by frame.
fn write_between<S: Source, K: Sink>(
    source: &mut S,
    sink: &mut K,
    reader: &mut RangeReader,
    buffer: &mut [u8],
    from: u64,
    end: u64,
) -> Result<(), DecodeFault>
    requires order { from ≤ end }
    requires within { end ≤ reader.old.size }
    requires buffer { length buffer.old ≡ sound_bytes reader.old.shape }
    requires some { 0 < length buffer.old }
    requires size { (n : ℕ) × (S.known source.old ≡ Some n) × (reader.old.end ≤ n) }
    ensures bytes { S.bytes source.new ≡ S.bytes source.old }
    ensures stays { S.known source.new ≡ S.known source.old }
    ensures source_later { S.faults source.old ≤ S.faults source.new }
    ensures sink_later { K.faults sink.old ≤ K.faults sink.new }
    ensures cause { IfErr result (λ fault. HasItsCause fault (S.faults source.old) (S.faults source.new) (K.faults sink.old) (K.faults sink.new)) }
    ensures no_call { from ≡ end → sink.new ≡ sink.old }
    ensures no_fault { IfErr result (λ _. from < end) }
    ensures wrote { OnOk result (Wrote reader.old reader.new (parts_between (length buffer.old) from end)
        (S.bytes source.old) (S.given source.old) (S.given source.new) (K.written sink.old) (K.written sink.new) (K.room sink.old) (K.room sink.new)) }
    ensures stops { IfErr result (λ fault. Stopped reader.old (parts_between (length buffer.old) from end) fault
        (S.bytes source.old) (K.written sink.old) (K.written sink.new) (K.room sink.old)) }
{
    let bytes = buffer.len() as u64;
    let mut place = from;
    while place < end {
        let count = (end - place).min(bytes - place % bytes);
        let part = &mut buffer[..count as usize];
        match write_part(source, sink, reader, part, place) {
            Ok(()) => {}
            Err(fault) => return Err(fault),
        }
        place += count;
    }
    Ok(())
}
