// Encoding a DSF file.
ghost use Rattle.std.specs.Prelude.{◌≡◌, ◌⊎◌, ◌≤◌, ◌<◌, ℕ, List, length, true, Some, None, IfOk, OnOk, Err};
ghost use Rattle.std.specs.declared.alloc.AllocError.{AllocError};
ghost use Rattle.dst_streams.specs.Causes.{Rose};
ghost use Rattle.dst_streams.specs.Told.{and_then};
ghost use Rattle.dsdiff_spec.specs.declared.faults.FileFault.{FileFault};
ghost use Rattle.dsdiff_spec.specs.Coded.{coded, stored_bytes};
ghost use Rattle.dsdiff_spec.specs.Dsf.{dsdiff};
ghost use Rattle.dsdiff_spec.specs.Rules.{accepted};
ghost use Rattle.dsdiff_spec.specs.Words as words;
ghost use Rattle.dsdiff_spec.specs.Refusal.{refusal};
ghost use Rattle.dst_write.specs.Unfinished.{HoldsNothing, HoldsUnfinished, sound_size_place};

use dsdiff_chunks::OpenFault;
use dsf_files::{DsfSource, open_dsf};
use dsf_laws::laws::plain_form_is_accepted;
use dst_streams::{Sink, Source};
use dst_write::{EncodeFault, Encoded, encode_file};
use frame_crew::Gate;
use frame_store::Picker;
use std::alloc::Global;
use std::thread::Threads;

/// Codes a DSF file: writes the coded file of the plain form that stands for it.
///
/// Rules, workers, and what is written before the sink is finished are those of coding that plain form.
pub fn encode_dsf<R: Threads + Sync, S: Source, K: Sink, P: Picker + Sync, G: Gate>(
    rt: &R,
    alloc: Global,
    source: &mut S,
    sink: &mut K,
    picker: &P,
    workers: u32,
    gate: &G,
) -> Result<Encoded, EncodeFault>
    requires least { 0 < workers }
    requires most { workers ≤ 16 }
    ensures bytes { S.bytes source.new ≡ S.bytes source.old }
    ensures later { (S.faults source.old ≤ S.faults source.new) × (K.faults sink.old ≤ K.faults sink.new) }
    // the coded file is written whole
    ensures accepted { IfOk result (λ _. (file : List ℕ) → S.bytes source.old ≡ Some file → (level : ℕ) → refusal (words.encode_dsf level) file ≡ None) }
    ensures encoded { IfOk result (λ _. (file : List ℕ) → S.bytes source.old ≡ Some file → HoldsNothing (K.written sink.old) →
        K.written sink.new ≡ and_then (K.written sink.old) (coded (P.picks picker.now) (dsdiff file) (accepted (dsdiff file)))) }
    ensures frames { IfOk result (λ e. (file : List ℕ) → S.bytes source.old ≡ Some file → e.frames ≡ (accepted (dsdiff file)).frames) }
    ensures stored { IfOk result (λ e. (file : List ℕ) → S.bytes source.old ≡ Some file → e.bytes ≡ stored_bytes (P.picks picker.now) (dsdiff file) (accepted (dsdiff file))) }
    ensures settled { OnOk result (K.settled sink.new ≡ true) }
    // a refused file, before anything is written
    ensures file { (fault : FileFault) → result ≡ Err (EncodeFault.Source (OpenFault.File fault)) → (file : List ℕ) → S.bytes source.old ≡ Some file → (level : ℕ) → refusal (words.encode_dsf level) file ≡ Some fault }
    ensures untouched { (fault : FileFault) → result ≡ Err (EncodeFault.Source (OpenFault.File fault)) → sink.new ≡ sink.old }
    // failed devices, each by its cause; what is written then is a file that isn't finished
    ensures read { result ≡ Err (EncodeFault.Source OpenFault.Read) → Rose (S.faults source.old) (S.faults source.new) }
    ensures write { result ≡ Err EncodeFault.Write → Rose (K.faults sink.old) (K.faults sink.new) }
    ensures unfinished { (result ≡ Err (EncodeFault.Source OpenFault.Read)) ⊎ (result ≡ Err EncodeFault.Write) → (file : List ℕ) → S.bytes source.old ≡ Some file → HoldsNothing (K.written sink.old) →
        HoldsUnfinished (sound_size_place (dsdiff file) (accepted (dsdiff file))) (coded (P.picks picker.now) (dsdiff file) (accepted (dsdiff file))) (K.written sink.new) }
    ensures sure { result ≡ Err EncodeFault.Write → (file : List ℕ) → S.bytes source.old ≡ Some file → (room : ℕ) → K.room sink.old ≡ Some room →
        length (coded (P.picks picker.now) (dsdiff file) (accepted (dsdiff file))) ≤ room → ⊥ }
    ensures write_accepted { result ≡ Err EncodeFault.Write → (file : List ℕ) → S.bytes source.old ≡ Some file → (level : ℕ) → refusal (words.encode_dsf level) file ≡ None }
    // want of memory, before anything is written; and so it is of a file that is refused, whatever fails
    ensures memory { (refused : AllocError) → result ≡ Err (EncodeFault.Source (OpenFault.Memory refused)) → sink.new ≡ sink.old }
    ensures refused { (file : List ℕ) → S.bytes source.old ≡ Some file → (level : ℕ) (fault : FileFault) → refusal (words.encode_dsf level) file ≡ Some fault → sink.new ≡ sink.old }
{
    let form = match open_dsf(source) {
        Ok(form) => form,
        Err(fault) => return Err(EncodeFault::Source(fault)),
    };
    plain_form_is_accepted();
    let mut plain = DsfSource::new(source, form);
    encode_file(rt, alloc, &mut plain, sink, picker, workers, gate)
}
