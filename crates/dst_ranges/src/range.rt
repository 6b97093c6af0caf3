// The command that writes parts of the sound of a coded file.
ghost use Rattle.std.specs.Prelude.{◌≡◌, ◌⊎◌, ◌+◌, ◌*◌, ◌≤◌, ◌<◌, ◌^◌, ℕ, true, List, length, Some, IfOk, IfErr, OnOk, Err, ◌∷◌, []};
ghost use Rattle.std.specs.declared.alloc.AllocError.{AllocError};
ghost use Rattle.dst_spec.specs.declared.faults.FrameFault.{FrameFault};
ghost use Rattle.dst_streams.specs.Causes.{Rose};
ghost use Rattle.dst_streams.specs.Told.{IsCutShort, and_then};
ghost use Rattle.dsdiff_spec.specs.declared.faults.FileFault.{FileFault};
ghost use Rattle.dsdiff_spec.specs.Rules.{accepted};
ghost use Rattle.dsdiff_spec.specs.Lines.{range_line};
ghost use Rattle.dsdiff_spec.specs.Words as words;
ghost use Rattle.dsdiff_spec.specs.Refusal.{refusal};
ghost use Rattle.dsdiff_spec.specs.Outcome.{Answer, done, frame_refused};
ghost use Rattle.dst_commands.specs.Commands.{OutcomeOf};
ghost use Rattle.dst_read.specs.Decoding.{HasItsCause};
ghost use Rattle.dst_ranges.specs.Asked.{groups_asked, bytes_read};
ghost use Rattle.dst_ranges.specs.Opened.{IsOpened, IsReady};
ghost use Rattle.dst_ranges.specs.Ending.{RangeEnds};

use crate::opened::{OpenedParts, open_parts};
use crate::pairs::write_pairs;
use dsdiff_chunks::OpenFault;
use dst_read::DecodeFault;
use dst_streams::{Sink, Source};
use std::alloc::Global;

/// Parts of a sound were written: their bytes.
#[derive(Clone, Copy, Debug, PartialEq, Eq)]
pub struct RangeWritten {
    pub bytes: u64,
}

/// Writes parts of the sound of a coded file, one after the other. Each is asked for by its first group and its number of groups, a group
/// being eight samples of each channel.
///
/// The first pair that asks past the last group is refused before any frame is decoded. A frame that a part touches and that is refused is
/// answered by its first fault; all that stands before its own bytes is written then. Where no bytes are asked for no call is made on the sink.
pub fn range_out<S: Source, K: Sink>(
    alloc: Global,
    source: &mut S,
    sink: &mut K,
    pairs: &[(u32, u32)],
) -> Result<RangeWritten, DecodeFault>
    requires few { length pairs.now ≤ 16 }
    ensures bytes { S.bytes source.new ≡ S.bytes source.old }
    ensures later { (S.faults source.old ≤ S.faults source.new) × (K.faults sink.old ≤ K.faults sink.new) }
    // the parts are written whole
    ensures written { IfOk result (λ s. (file : List ℕ) → S.bytes source.old ≡ Some file →
        (out : List ℕ) × OutcomeOf (words.range pairs.now) file (done out (range_line s.bytes ∷ [])) × (K.written sink.new ≡ and_then (K.written sink.old) out)) }
    ensures size { IfOk result (λ s. (file : List ℕ) → S.bytes source.old ≡ Some file → s.bytes ≡ groups_asked pairs.now * (accepted file).channels) }
    // they are settled; where nothing is asked for no call is made on the sink
    ensures settled { OnOk result (0 < groups_asked pairs.now → K.settled sink.new ≡ true) }
    ensures no_call { groups_asked pairs.now ≡ 0 → sink.new ≡ sink.old }
    ensures no_write { groups_asked pairs.now ≡ 0 → result ≡ Err DecodeFault.Write → ⊥ }
    // a frame that is held isn't read again
    ensures given { OnOk result ((file : List ℕ) → S.bytes source.old ≡ Some file → S.given source.old < 2 ^ 63 →
        S.given source.new ≤ S.given source.old + 48208948 + bytes_read file (accepted file) pairs.now) }
    // a refused file, before anything is written
    ensures file { (fault : FileFault) → result ≡ Err (DecodeFault.Source (OpenFault.File fault)) → (file : List ℕ) → S.bytes source.old ≡ Some file → refusal (words.range pairs.now) file ≡ Some fault }
    ensures untouched { (fault : FileFault) → result ≡ Err (DecodeFault.Source (OpenFault.File fault)) → sink.new ≡ sink.old }
    ensures refused { (file : List ℕ) → S.bytes source.old ≡ Some file → (fault : FileFault) → refusal (words.range pairs.now) file ≡ Some fault → sink.new ≡ sink.old }
    // a refused frame, behind all that stands before its part
    ensures frame { (k : ℕ) (fault : FrameFault) → result ≡ Err (DecodeFault.Frame k fault) → (file : List ℕ) → S.bytes source.old ≡ Some file →
        (out : List ℕ) × OutcomeOf (words.range pairs.now) file (frame_refused k fault out) × (K.written sink.new ≡ and_then (K.written sink.old) out) }
    // failed devices, each by its cause; what is written then is a prefix of the defined output
    ensures read { result ≡ Err (DecodeFault.Source OpenFault.Read) → Rose (S.faults source.old) (S.faults source.new) }
    ensures write { result ≡ Err DecodeFault.Write → Rose (K.faults sink.old) (K.faults sink.new) }
    ensures cut_short { (result ≡ Err (DecodeFault.Source OpenFault.Read)) ⊎ (result ≡ Err DecodeFault.Write) → (file : List ℕ) → S.bytes source.old ≡ Some file →
        (o : Answer) × OutcomeOf (words.range pairs.now) file o × IsCutShort (K.written sink.old) o.out (K.written sink.new) }
    ensures sure { result ≡ Err DecodeFault.Write → (file : List ℕ) → S.bytes source.old ≡ Some file → (o : Answer) → OutcomeOf (words.range pairs.now) file o →
        (room : ℕ) → K.room sink.old ≡ Some room → length o.out ≤ room → ⊥ }
    // want of memory, before anything is written
    ensures memory { (refused : AllocError) → result ≡ Err (DecodeFault.Source (OpenFault.Memory refused)) → sink.new ≡ sink.old }
{
    let mut opened = match open_parts(alloc, source, pairs) {
        Ok(opened) => opened,
        Err(fault) => return Err(DecodeFault::Source(fault)),
    };
    write_opened(source, sink, &mut opened, pairs)
}

// Writes the parts of an opened file, and has them settled where there are any.
fn write_opened<S: Source, K: Sink>(
    source: &mut S,
    sink: &mut K,
    opened: &mut OpenedParts,
    pairs: &[(u32, u32)],
) -> Result<RangeWritten, DecodeFault>
    requires few { length pairs.now ≤ 16 }
    requires ready { IsReady pairs.now opened.old }
    requires size { (n : ℕ) × (S.known source.old ≡ Some n) × (opened.old.reader.end ≤ n) }
    requires opened { (file : List ℕ) → S.bytes source.old ≡ Some file → IsOpened pairs.now file opened.old }
    ensures bytes { S.bytes source.new ≡ S.bytes source.old }
    ensures source_later { S.faults source.old ≤ S.faults source.new }
    ensures sink_later { K.faults sink.old ≤ K.faults sink.new }
    ensures cause { IfErr result (λ fault. HasItsCause fault (S.faults source.old) (S.faults source.new) (K.faults sink.old) (K.faults sink.new)) }
    ensures size { IfOk result (λ s. s.bytes ≡ groups_asked pairs.now * opened.old.channels.channels) }
    ensures settled { OnOk result (0 < groups_asked pairs.now → K.settled sink.new ≡ true) }
    ensures no_call { groups_asked pairs.now ≡ 0 → sink.new ≡ sink.old }
    ensures no_write { groups_asked pairs.now ≡ 0 → result ≡ Err DecodeFault.Write → ⊥ }
    ensures given { OnOk result ((file : List ℕ) → S.bytes source.old ≡ Some file → S.given source.old < 2 ^ 64 → S.given source.new ≤ S.given source.old + bytes_read file (accepted file) pairs.now) }
    ensures written { (file : List ℕ) → S.bytes source.old ≡ Some file → RangeEnds result pairs.now file (K.written sink.old) (K.written sink.new) (K.room sink.old) }
{
    let bytes = match write_pairs(source, sink, opened, pairs) {
        Ok(bytes) => bytes,
        Err(fault) => return Err(fault),
    };
    if bytes != 0 {
        let Ok(()) = sink.finish() else {
            return Err(DecodeFault::Write);
        };
    }
    Ok(RangeWritten { bytes })
}
