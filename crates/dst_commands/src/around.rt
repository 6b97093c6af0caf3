// What stands around the sound of a plain file.
ghost use Rattle.std.specs.Prelude.{◌≡◌, ◌≤◌, ◌<◌, ◌++◌, ℕ, List, length, codes, Some, IfErr, OnOk, ◌+◌, ◌∷◌, [], MatchResult, ◌%◌, ◌==◌, if◌then◌else◌};
ghost use Rattle.byteorder.specs.Endian.{big_bytes};
ghost use Rattle.dst_streams.specs.Causes.{HasCause};
ghost use Rattle.dsdiff_spec.specs.Pieces.{decoded_front, decoded_end};
ghost use Rattle.dsdiff_chunks.specs.Forms.{coded_seen};
ghost use Rattle.dsdiff_chunks.specs.declared.copy.CopyFault.{CopyFault};
ghost use Rattle.dst_commands.specs.Passing.{bytes_on, FailedBy};
ghost use Rattle.dst_commands.specs.Writing.{Adds, Stops};

use crate::chunks::{FormRef, Passed, Side, cmpr_of, kept_of, pad_of, pass_chunks};
use crate::pieces::write_any;
use crate::sizes::form_size;
use dsdiff_chunks::{CodedForm, CopyFault, write_head};
use dst_streams::{Failed, Sink, Source};

/// Writes what stands in front of a sound of so many bytes.
pub fn write_front<S: Source, K: Sink>(
    source: &mut S,
    sink: &mut K,
    form: &CodedForm,
    sound: u64,
    buffer: &mut [u8],
) -> Result<(), CopyFault>
    requires buffer { 0 < length buffer.old }
    requires most { sound ≤ 112896000000 }
    requires size { (n : ℕ) × (S.known source.old ≡ Some n) × (form.now.end ≤ n) }
    ensures bytes { S.bytes source.new ≡ S.bytes source.old }
    ensures stays { S.known source.new ≡ S.known source.old }
    ensures given { S.given source.new ≤ S.given source.old + bytes_on Side.Before (coded_seen form.now) }
    ensures source_later { S.faults source.old ≤ S.faults source.new }
    ensures sink_later { K.faults sink.old ≤ K.faults sink.new }
    ensures cause { IfErr result (λ fault. FailedBy fault (S.faults source.old) (S.faults source.new) (K.faults sink.old) (K.faults sink.new)) }
    ensures written { (file : List ℕ) → S.bytes source.old ≡ Some file → MatchResult result
        (λ _. Adds (decoded_front sound file (coded_seen form.now)) (K.written sink.old) (K.written sink.new) (K.room sink.old) (K.room sink.new))
        (λ fault. Stops (fault ≡ CopyFault.Write) (decoded_front sound file (coded_seen form.now)) (K.written sink.old) (K.written sink.new) (K.room sink.old)) }
{
    let Ok(()) = write_opening(sink, form_size(form, sound)) else {
        return Err(CopyFault::Write);
    };
    let cmpr = cmpr_of(form);
    let passed = Passed {
        form: FormRef::Coded(form),
        cmpr: Some(cmpr),
    };
    if let Err(fault) = pass_chunks(source, sink, &passed, Side::Before, buffer) {
        return Err(fault);
    }
    match write_head(sink, *b"DSD ", sound) {
        Ok(()) => Ok(()),
        Err(_) => Err(CopyFault::Write),
    }
}

/// Writes the head of a form of this size, and its type.
pub fn write_opening<K: Sink>(sink: &mut K, size: u64) -> Result<(), Failed>
    ensures appended { OnOk result (K.appended sink.new ≡ K.appended sink.old + 16) }
    ensures cause { HasCause (K.faults sink.old) (K.faults sink.new) result }
    ensures written { MatchResult result
        (λ _. Adds (codes "FRM8" ++ big_bytes 8 size ++ codes "DSD ") (K.written sink.old) (K.written sink.new) (K.room sink.old) (K.room sink.new))
        (λ _. Stops (Unit {0}) (codes "FRM8" ++ big_bytes 8 size ++ codes "DSD ") (K.written sink.old) (K.written sink.new) (K.room sink.old)) }
{
    let Ok(()) = write_head(sink, *b"FRM8", size) else {
        return Err(Failed);
    };
    sink.append(b"DSD ")
}

/// Writes what stands behind a sound of so many bytes.
pub fn write_end<S: Source, K: Sink>(
    source: &mut S,
    sink: &mut K,
    form: &CodedForm,
    sound: u64,
    buffer: &mut [u8],
) -> Result<(), CopyFault>
    requires buffer { 0 < length buffer.old }
    requires size { (n : ℕ) × (S.known source.old ≡ Some n) × (form.now.end ≤ n) }
    ensures bytes { S.bytes source.new ≡ S.bytes source.old }
    ensures given { S.given source.new ≤ S.given source.old + bytes_on Side.Behind (coded_seen form.now) }
    ensures source_later { S.faults source.old ≤ S.faults source.new }
    ensures sink_later { K.faults sink.old ≤ K.faults sink.new }
    ensures cause { IfErr result (λ fault. FailedBy fault (S.faults source.old) (S.faults source.new) (K.faults sink.old) (K.faults sink.new)) }
    ensures written { (file : List ℕ) → S.bytes source.old ≡ Some file → MatchResult result
        (λ _. Adds (decoded_end sound file (coded_seen form.now)) (K.written sink.old) (K.written sink.new) (K.room sink.old) (K.room sink.new))
        (λ fault. Stops (fault ≡ CopyFault.Write) (decoded_end sound file (coded_seen form.now)) (K.written sink.old) (K.written sink.new) (K.room sink.old)) }
{
    let Ok(()) = write_pad(sink, sound, pad_of(form)) else {
        return Err(CopyFault::Write);
    };
    let cmpr = cmpr_of(form);
    let passed = Passed {
        form: FormRef::Coded(form),
        cmpr: Some(cmpr),
    };
    if let Err(fault) = pass_chunks(source, sink, &passed, Side::Behind, buffer) {
        return Err(fault);
    }
    match write_any(sink, kept_of(form)) {
        Ok(()) => Ok(()),
        Err(_) => Err(CopyFault::Write),
    }
}

/// Writes the pad byte behind a sound of odd size.
pub fn write_pad<K: Sink>(sink: &mut K, sound: u64, pad: u8) -> Result<(), Failed>
    ensures cause { HasCause (K.faults sink.old) (K.faults sink.new) result }
    ensures written { MatchResult result
        (λ _. Adds (if sound % 2 == 1 then pad ∷ [] else []) (K.written sink.old) (K.written sink.new) (K.room sink.old) (K.room sink.new))
        (λ _. Stops (Unit {0}) (if sound % 2 == 1 then pad ∷ [] else []) (K.written sink.old) (K.written sink.new) (K.room sink.old)) }
{
    if sound % 2 == 1 {
        write_any(sink, &[pad])
    } else {
        Ok(())
    }
}
