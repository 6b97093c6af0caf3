// What stands around the frames of a coded file.
ghost use Rattle.std.specs.Prelude.{◌≡◌, ◌+◌, ◌≤◌, ◌<◌, ◌^◌, ◌++◌, ℕ, List, length, codes, Some, IfErr, OnOk, MatchResult};
ghost use Rattle.byteorder.specs.Endian.{big_bytes};
ghost use Rattle.dst_streams.specs.Causes.{HasCause};
ghost use Rattle.dsdiff_spec.specs.Coded.{origin_of_plain};
ghost use Rattle.dsdiff_spec.specs.Written.{dsti, frte};
ghost use Rattle.dsdiff_chunks.specs.Forms.{plain_seen};
ghost use Rattle.dsdiff_chunks.specs.declared.copy.CopyFault.{CopyFault};
ghost use Rattle.dst_commands.specs.Passing.{bytes_on, FailedBy};
ghost use Rattle.dst_commands.specs.Writing.{Adds, Stops};
ghost use Rattle.dst_write.specs.Layout as layout;

use crate::chunks::{side_length, write_side};
use crate::sizes::chunk_size;
use dsdiff_chunks::{
    CopyFault, PlainForm, cmpr_of_prop, write_entry, write_frte, write_head, write_origin,
};
use dst_commands::{Side, write_opening};
use dst_streams::{Failed, Sink, Source};

/// Writes what stands in front of the frames, with 0 for the sizes of the form and of the sound.
pub(crate) fn write_front<S: Source, K: Sink>(
    source: &mut S,
    sink: &mut K,
    form: &PlainForm,
    buffer: &mut [u8],
) -> Result<(), CopyFault>
    requires buffer { 0 < length buffer.old }
    requires size { (n : ℕ) × (S.known source.old ≡ Some n) × (form.now.end ≤ n) }
    ensures bytes { S.bytes source.new ≡ S.bytes source.old }
    ensures loan { S.loan source.new ≡ S.loan source.old }
    ensures stays { S.known source.new ≡ S.known source.old }
    ensures given { S.given source.new ≤ S.given source.old + bytes_on Side.Before (plain_seen form.now) }
    ensures source_later { S.faults source.old ≤ S.faults source.new }
    ensures sink_later { K.faults sink.old ≤ K.faults sink.new }
    ensures appended { OnOk result ((file : List ℕ) → form.now.end ≤ length file → K.appended sink.new ≡ K.appended sink.old + length (layout.front file (plain_seen form.now))) }
    ensures cause { IfErr result (λ fault. FailedBy fault (S.faults source.old) (S.faults source.new) (K.faults sink.old) (K.faults sink.new)) }
    ensures written { (file : List ℕ) → S.bytes source.old ≡ Some file → MatchResult result
        (λ _. Adds (layout.front file (plain_seen form.now)) (K.written sink.old) (K.written sink.new) (K.room sink.old) (K.room sink.new))
        (λ fault. Stops (fault ≡ CopyFault.Write) (layout.front file (plain_seen form.now)) (K.written sink.old) (K.written sink.new) (K.room sink.old)) }
{
    let Ok(()) = write_opening(sink, 0) else {
        return Err(CopyFault::Write);
    };
    if let Err(fault) = write_side(source, sink, form, Side::Before, buffer) {
        return Err(fault);
    }
    match write_sound_opening(sink, form.frames) {
        Ok(()) => Ok(()),
        Err(_) => Err(CopyFault::Write),
    }
}

// Writes the head of `DST `, with a size of 0, and `FRTE`.
fn write_sound_opening<K: Sink>(sink: &mut K, frames: u32) -> Result<(), Failed>
    ensures cause { HasCause (K.faults sink.old) (K.faults sink.new) result }
    ensures appended { OnOk result (K.appended sink.new ≡ K.appended sink.old + length (codes "DST " ++ big_bytes 8 0 ++ frte frames)) }
    ensures written { MatchResult result
        (λ _. Adds (codes "DST " ++ big_bytes 8 0 ++ frte frames) (K.written sink.old) (K.written sink.new) (K.room sink.old) (K.room sink.new))
        (λ _. Stops (Unit {0}) (codes "DST " ++ big_bytes 8 0 ++ frte frames) (K.written sink.old) (K.written sink.new) (K.room sink.old)) }
{
    let Ok(()) = write_head(sink, *b"DST ", 0) else {
        return Err(Failed);
    };
    write_frte(sink, frames)
}

/// Writes what stands behind the frames, of which each stored one has so many bytes: the index, what is said of the plain file,
/// the chunks behind the sound.
pub(crate) fn write_end<S: Source, K: Sink>(
    source: &mut S,
    sink: &mut K,
    form: &PlainForm,
    sizes: &[u32],
    buffer: &mut [u8],
) -> Result<(), CopyFault>
    requires buffer { 0 < length buffer.old }
    requires size { (n : ℕ) × (S.known source.old ≡ Some n) × (form.now.end ≤ n) }
    requires sizes { length sizes.now ≡ form.now.frames }
    ensures bytes { S.bytes source.new ≡ S.bytes source.old }
    ensures loan { S.loan source.new ≡ S.loan source.old }
    ensures stays { S.known source.new ≡ S.known source.old }
    ensures given { S.given source.new ≤ S.given source.old + bytes_on Side.Behind (plain_seen form.now) }
    ensures source_later { S.faults source.old ≤ S.faults source.new }
    ensures sink_later { K.faults sink.old ≤ K.faults sink.new }
    ensures appended { OnOk result (K.appended sink.old ≤ K.appended sink.new) }
    ensures cause { IfErr result (λ fault. FailedBy fault (S.faults source.old) (S.faults source.new) (K.faults sink.old) (K.faults sink.new)) }
    ensures written { (file : List ℕ) → S.bytes source.old ≡ Some file → MatchResult result
        (λ _. Adds (layout.end sizes.now file (plain_seen form.now)) (K.written sink.old) (K.written sink.new) (K.room sink.old) (K.room sink.new))
        (λ fault. Stops (fault ≡ CopyFault.Write) (layout.end sizes.now file (plain_seen form.now)) (K.written sink.old) (K.written sink.new) (K.room sink.old)) }
{
    // behind the form's head and type, the chunks, the head of `DST `, and `FRTE`
    let first = 16 + side_length(form, Side::Before) + 12 + 18;
    let Ok(()) = write_index(sink, first, sizes) else {
        return Err(CopyFault::Write);
    };
    let Ok(()) = write_origin_chunk(sink, form) else {
        return Err(CopyFault::Write);
    };
    write_side(source, sink, form, Side::Behind, buffer)
}

// Writes `DSTI`: the entries of frames of these sizes, in chunks one behind the other from a place on.
fn write_index<K: Sink>(sink: &mut K, first: u64, sizes: &[u32]) -> Result<(), Failed>
    requires few { length sizes.now ≤ 1000000 }
    requires first { first ≤ 2 ^ 62 }
    ensures cause { HasCause (K.faults sink.old) (K.faults sink.new) result }
    ensures appended { OnOk result (K.appended sink.old ≤ K.appended sink.new) }
    ensures written { MatchResult result
        (λ _. Adds (dsti (layout.entries_by first sizes.now)) (K.written sink.old) (K.written sink.new) (K.room sink.old) (K.room sink.new))
        (λ _. Stops (Unit {0}) (dsti (layout.entries_by first sizes.now)) (K.written sink.old) (K.written sink.new) (K.room sink.old)) }
{
    let Ok(()) = write_head(sink, *b"DSTI", 12 * sizes.len() as u64) else {
        return Err(Failed);
    };
    let mut place = first;
    for size in sizes {
        let Ok(()) = write_entry(sink, place + 12, *size) else {
            return Err(Failed);
        };
        place += chunk_size(*size);
    }
    Ok(())
}

// Writes `KEPT`: what it says of the plain file.
fn write_origin_chunk<K: Sink>(sink: &mut K, form: &PlainForm) -> Result<(), Failed>
    ensures cause { HasCause (K.faults sink.old) (K.faults sink.new) result }
    ensures appended { OnOk result (K.appended sink.old ≤ K.appended sink.new) }
    ensures written { MatchResult result
        (λ _. Adds (origin_of_plain (plain_seen form.now)) (K.written sink.old) (K.written sink.new) (K.room sink.old) (K.room sink.new))
        (λ _. Stops (Unit {0}) (origin_of_plain (plain_seen form.now)) (K.written sink.old) (K.written sink.new) (K.room sink.old)) }
{
    let cmpr = cmpr_of_prop(form.prop.as_slice());
    write_origin(
        sink,
        form.sound.size,
        form.pad,
        cmpr,
        form.behind.as_slice(),
    )
}
