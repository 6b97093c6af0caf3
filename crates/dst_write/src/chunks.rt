// The chunks of the plain file that stand in the coded one, with `CMPR` of coded sound.
ghost use Rattle.std.specs.Prelude.{◌≡◌, ◌+◌, ◌≤◌, ◌<◌, ◌^◌, ℕ, List, length, Some, IfErr, OnOk, MatchResult};
ghost use Rattle.dsdiff_spec.specs.Written.{cmpr_coded};
ghost use Rattle.dsdiff_chunks.specs.Forms.{plain_seen};
ghost use Rattle.dsdiff_chunks.specs.declared.copy.CopyFault.{CopyFault};
ghost use Rattle.dst_commands.specs.Passing.{bytes_on, chunks_on, FailedBy};
ghost use Rattle.dst_commands.specs.Writing.{Adds, Stops};

use dsdiff_chunks::{CopyFault, PlainForm};
use dst_commands::{FormRef, Passed, Side, chunks_length, pass_chunks};
use dst_streams::{Sink, Source};

/// `CMPR` of coded sound.
const CODED_CMPR: &[u8; 28] = b"CMPR\0\0\0\0\0\0\0\x10DST \x0bDST Encoded";

/// Bytes of the chunks on one side of the sound.
pub(crate) fn side_length(form: &PlainForm, side: Side) -> u64
    ensures length { (file : List ℕ) → form.now.end ≤ length file → result ≡ length (chunks_on side (Some cmpr_coded) file (plain_seen form.now)) }
    ensures most { result ≤ 2 ^ 61 }
{
    let passed = Passed {
        form: FormRef::Plain(form),
        cmpr: Some(CODED_CMPR),
    };
    chunks_length(&passed, side)
}

/// Writes the chunks on one side of the sound.
pub(crate) fn write_side<S: Source, K: Sink>(
    source: &mut S,
    sink: &mut K,
    form: &PlainForm,
    side: Side,
    buffer: &mut [u8],
) -> Result<(), CopyFault>
    requires buffer { 0 < length buffer.old }
    requires size { (n : ℕ) × (S.known source.old ≡ Some n) × (form.now.end ≤ n) }
    ensures bytes { S.bytes source.new ≡ S.bytes source.old }
    ensures loan { S.loan source.new ≡ S.loan source.old }
    ensures stays { S.known source.new ≡ S.known source.old }
    ensures given { S.given source.new ≤ S.given source.old + bytes_on side (plain_seen form.now) }
    ensures source_later { S.faults source.old ≤ S.faults source.new }
    ensures sink_later { K.faults sink.old ≤ K.faults sink.new }
    ensures appended { OnOk result ((file : List ℕ) → form.now.end ≤ length file → K.appended sink.new ≡ K.appended sink.old + length (chunks_on side (Some cmpr_coded) file (plain_seen form.now))) }
    ensures cause { IfErr result (λ fault. FailedBy fault (S.faults source.old) (S.faults source.new) (K.faults sink.old) (K.faults sink.new)) }
    ensures written { (file : List ℕ) → S.bytes source.old ≡ Some file → MatchResult result
        (λ _. Adds (chunks_on side (Some cmpr_coded) file (plain_seen form.now)) (K.written sink.old) (K.written sink.new) (K.room sink.old) (K.room sink.new))
        (λ fault. Stops (fault ≡ CopyFault.Write) (chunks_on side (Some cmpr_coded) file (plain_seen form.now)) (K.written sink.old) (K.written sink.new) (K.room sink.old)) }
{
    let passed = Passed {
        form: FormRef::Plain(form),
        cmpr: Some(CODED_CMPR),
    };
    pass_chunks(source, sink, &passed, side, buffer)
}
