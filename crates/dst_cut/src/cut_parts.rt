// The parts of a cut file, in the order in which they are written.
ghost use Rattle.std.specs.Prelude.{◌≡◌, ◌+◌, ◌≤◌, ◌<◌, ℕ, List, length, Some, IfErr, MatchResult};
ghost use Rattle.dst_streams.specs.Causes.{HasCause};
ghost use Rattle.dsdiff_chunks.specs.Forms.{coded_seen};
ghost use Rattle.dsdiff_chunks.specs.declared.copy.CopyFault.{CopyFault};
ghost use Rattle.dst_commands.specs.Passing.{bytes_on, FailedBy};
ghost use Rattle.dst_commands.specs.Writing.{Adds, Stops};
ghost use Rattle.dst_cut.specs.CutLayout as layout;

use crate::cut_form::CutForm;
use crate::cut_index::write_index;
use dsdiff_chunks::{CopyFault, copy_range, write_frte, write_head, write_origin};
use dst_commands::{FormRef, Passed, Side, pass_chunks, write_opening, write_pad};
use dst_streams::{Failed, Sink, Source};

/// Writes what stands in front of the frames.
pub(crate) fn write_front<S: Source, K: Sink>(
    source: &mut S,
    sink: &mut K,
    cut: &CutForm,
    buffer: &mut [u8],
) -> Result<(), CopyFault>
    requires buffer { 0 < length buffer.old }
    requires size { (n : ℕ) × (S.known source.old ≡ Some n) × (cut.now.form.end ≤ n) }
    ensures bytes { S.bytes source.new ≡ S.bytes source.old }
    ensures stays { S.known source.new ≡ S.known source.old }
    ensures given { S.given source.new ≤ S.given source.old + bytes_on Side.Before (coded_seen cut.now.form) }
    ensures source_later { S.faults source.old ≤ S.faults source.new }
    ensures sink_later { K.faults sink.old ≤ K.faults sink.new }
    ensures cause { IfErr result (λ fault. FailedBy fault (S.faults source.old) (S.faults source.new) (K.faults sink.old) (K.faults sink.new)) }
    ensures written { (file : List ℕ) → S.bytes source.old ≡ Some file → MatchResult result
        (λ _. Adds (layout.front cut.now.index file (coded_seen cut.now.form) cut.now.first cut.now.last) (K.written sink.old) (K.written sink.new) (K.room sink.old) (K.room sink.new))
        (λ fault. Stops (fault ≡ CopyFault.Write) (layout.front cut.now.index file (coded_seen cut.now.form) cut.now.first cut.now.last) (K.written sink.old) (K.written sink.new) (K.room sink.old)) }
{
    let Ok(()) = write_opening(sink, cut.form_size()) else {
        return Err(CopyFault::Write);
    };
    if let Err(fault) = pass_side(source, sink, cut, Side::Before, buffer) {
        return Err(fault);
    }
    match write_sound_opening(sink, cut) {
        Ok(()) => Ok(()),
        Err(_) => Err(CopyFault::Write),
    }
}

// Writes the chunks on one side of the sound, byte for byte.
fn pass_side<S: Source, K: Sink>(
    source: &mut S,
    sink: &mut K,
    cut: &CutForm,
    side: Side,
    buffer: &mut [u8],
) -> Result<(), CopyFault>
    requires buffer { 0 < length buffer.old }
    requires size { (n : ℕ) × (S.known source.old ≡ Some n) × (cut.now.form.end ≤ n) }
    ensures bytes { S.bytes source.new ≡ S.bytes source.old }
    ensures stays { S.known source.new ≡ S.known source.old }
    ensures given { S.given source.new ≤ S.given source.old + bytes_on side (coded_seen cut.now.form) }
    ensures source_later { S.faults source.old ≤ S.faults source.new }
    ensures sink_later { K.faults sink.old ≤ K.faults sink.new }
    ensures cause { IfErr result (λ fault. FailedBy fault (S.faults source.old) (S.faults source.new) (K.faults sink.old) (K.faults sink.new)) }
    ensures written { (file : List ℕ) → S.bytes source.old ≡ Some file → MatchResult result
        (λ _. Adds (layout.side_of side file (coded_seen cut.now.form)) (K.written sink.old) (K.written sink.new) (K.room sink.old) (K.room sink.new))
        (λ fault. Stops (fault ≡ CopyFault.Write) (layout.side_of side file (coded_seen cut.now.form)) (K.written sink.old) (K.written sink.new) (K.room sink.old)) }
{
    let passed = Passed {
        form: FormRef::Coded(&cut.form),
        cmpr: None,
    };
    pass_chunks(source, sink, &passed, side, buffer)
}

// Writes the head of `DST `, and `FRTE`.
fn write_sound_opening<K: Sink>(sink: &mut K, cut: &CutForm) -> Result<(), Failed>
    ensures cause { HasCause (K.faults sink.old) (K.faults sink.new) result }
    ensures written { MatchResult result
        (λ _. Adds (layout.sound_opening cut.now.index (coded_seen cut.now.form) cut.now.first cut.now.last) (K.written sink.old) (K.written sink.new) (K.room sink.old) (K.room sink.new))
        (λ _. Stops (Unit {0}) (layout.sound_opening cut.now.index (coded_seen cut.now.form) cut.now.first cut.now.last) (K.written sink.old) (K.written sink.new) (K.room sink.old)) }
{
    let Ok(()) = write_head(sink, *b"DST ", cut.sound_size()) else {
        return Err(Failed);
    };
    write_frte(sink, cut.count())
}

/// Copies the frames that are cut out, with all that stands between them, and writes the pad byte behind them where the size is odd.
pub(crate) fn write_frames<S: Source, K: Sink>(
    source: &mut S,
    sink: &mut K,
    cut: &CutForm,
    buffer: &mut [u8],
) -> Result<(), CopyFault>
    requires buffer { 0 < length buffer.old }
    requires size { (n : ℕ) × (S.known source.old ≡ Some n) × (cut.now.form.end ≤ n) }
    ensures bytes { S.bytes source.new ≡ S.bytes source.old }
    ensures stays { S.known source.new ≡ S.known source.old }
    ensures given { S.given source.new ≤ S.given source.old + cut.now.form.sound.size }
    ensures source_later { S.faults source.old ≤ S.faults source.new }
    ensures sink_later { K.faults sink.old ≤ K.faults sink.new }
    ensures cause { IfErr result (λ fault. FailedBy fault (S.faults source.old) (S.faults source.new) (K.faults sink.old) (K.faults sink.new)) }
    ensures written { (file : List ℕ) → S.bytes source.old ≡ Some file → MatchResult result
        (λ _. Adds (layout.frames cut.now.index file (coded_seen cut.now.form) cut.now.first cut.now.last) (K.written sink.old) (K.written sink.new) (K.room sink.old) (K.room sink.new))
        (λ fault. Stops (fault ≡ CopyFault.Write) (layout.frames cut.now.index file (coded_seen cut.now.form) cut.now.first cut.now.last) (K.written sink.old) (K.written sink.new) (K.room sink.old)) }
{
    if let Err(fault) = copy_range(source, sink, buffer, cut.begins(), cut.ends()) {
        return Err(fault);
    }
    match write_pad(sink, cut.sound_size(), 0) {
        Ok(()) => Ok(()),
        Err(_) => Err(CopyFault::Write),
    }
}

/// Writes what stands behind the frames: the index, what is said of the plain file, the chunks behind the sound.
pub(crate) fn write_end<S: Source, K: Sink>(
    source: &mut S,
    sink: &mut K,
    cut: &CutForm,
    buffer: &mut [u8],
) -> Result<(), CopyFault>
    requires buffer { length buffer.old ≡ 65536 }
    requires size { (n : ℕ) × (S.known source.old ≡ Some n) × (cut.now.form.end ≤ n) }
    ensures bytes { S.bytes source.new ≡ S.bytes source.old }
    ensures stays { S.known source.new ≡ S.known source.old }
    ensures given { S.given source.new ≤ S.given source.old + bytes_on Side.Behind (coded_seen cut.now.form) }
    ensures source_later { S.faults source.old ≤ S.faults source.new }
    ensures sink_later { K.faults sink.old ≤ K.faults sink.new }
    ensures cause { IfErr result (λ fault. FailedBy fault (S.faults source.old) (S.faults source.new) (K.faults sink.old) (K.faults sink.new)) }
    ensures written { (file : List ℕ) → S.bytes source.old ≡ Some file → MatchResult result
        (λ _. Adds (layout.end cut.now.index file (coded_seen cut.now.form) cut.now.first cut.now.last) (K.written sink.old) (K.written sink.new) (K.room sink.old) (K.room sink.new))
        (λ fault. Stops (fault ≡ CopyFault.Write) (layout.end cut.now.index file (coded_seen cut.now.form) cut.now.first cut.now.last) (K.written sink.old) (K.written sink.new) (K.room sink.old)) }
{
    // behind the form's head and type, the chunks, the head of `DST `, and `FRTE`
    let place = 16 + cut.side_length(Side::Before) + 12 + 18;
    let Ok(()) = write_index(sink, cut, place, buffer) else {
        return Err(CopyFault::Write);
    };
    let Ok(()) = write_origin_chunk(sink, cut) else {
        return Err(CopyFault::Write);
    };
    pass_side(source, sink, cut, Side::Behind, buffer)
}

// Writes `KEPT`, where there is one: what it says of the sound that is left.
fn write_origin_chunk<K: Sink>(sink: &mut K, cut: &CutForm) -> Result<(), Failed>
    ensures cause { HasCause (K.faults sink.old) (K.faults sink.new) result }
    ensures written { MatchResult result
        (λ _. Adds (layout.origin_left (coded_seen cut.now.form) cut.now.first cut.now.last) (K.written sink.old) (K.written sink.new) (K.room sink.old) (K.room sink.new))
        (λ _. Stops (Unit {0}) (layout.origin_left (coded_seen cut.now.form) cut.now.first cut.now.last) (K.written sink.old) (K.written sink.new) (K.room sink.old)) }
{
    match &cut.form.origin {
        Some(origin) => {
            let size = cut.size_left(origin);
            write_origin(
                sink,
                size,
                cut.pad_left(origin),
                origin.cmpr.as_slice(),
                &[],
            )
        }
        None => Ok(()),
    }
}
