// Decoding a coded file.
ghost use Rattle.std.specs.Prelude.{◌≡◌, ◌⊎◌, ◌+◌, ◌^◌, ◌≤◌, ◌<◌, ℕ, true, List, length, Some, IfOk, IfErr, Err, ◌∷◌, []};
ghost use Rattle.std.specs.declared.alloc.AllocError.{AllocError};
ghost use Rattle.dst_spec.specs.declared.faults.FrameFault.{FrameFault};
ghost use Rattle.dst_streams.specs.Causes.{Rose};
ghost use Rattle.dst_streams.specs.Told.{IsCutShort, and_then};
ghost use Rattle.dsdiff_spec.specs.declared.faults.FileFault.{FileFault};
ghost use Rattle.dsdiff_spec.specs.Form.{size_of_sound};
ghost use Rattle.dsdiff_spec.specs.Rules.{accepted};
ghost use Rattle.dsdiff_spec.specs.Lines.{decoded_line};
ghost use Rattle.dsdiff_spec.specs.Words.{decode};
ghost use Rattle.dsdiff_spec.specs.Refusal.{refusal};
ghost use Rattle.dsdiff_spec.specs.Outcome.{Answer, done, frame_refused};
ghost use Rattle.dsdiff_chunks.specs.Forms.{coded_seen};
ghost use Rattle.dst_commands.specs.Commands.{OutcomeOf};
ghost use Rattle.dst_read.specs.Decoding.{IsOpened, DecodingEnds, HasItsCause, of_device};
ghost use Rattle.dst_read.specs.Frames.{HasRoomFor};

use crate::faults::{DecodeFault, Decoded};
use crate::frames::{Workspace, write_frames};
use dsdiff_chunks::{CopyFault, OpenFault};
use dst_commands::{AllFrames, WalkedForm, open_file, sound_size, write_end, write_front};
use dst_streams::{Sink, Source};
use frame_crew::Gate;
use std::alloc::Global;
use std::thread::Threads;

/// Decodes a coded file: writes the plain file whose sound its frames mean.
///
/// Batches of frames are read, decoded by so many workers, 1 to 16, and written in order. What is answered and written is
/// what one worker answers and writes. A file or a frame that is refused is answered by its first fault.
pub fn decode_file<R: Threads + Sync, S: Source, K: Sink, G: Gate>(
    rt: &R,
    alloc: Global,
    source: &mut S,
    sink: &mut K,
    workers: u32,
    gate: &G,
) -> Result<Decoded, DecodeFault>
    requires least { 0 < workers }
    requires most { workers ≤ 16 }
    ensures bytes { S.bytes source.new ≡ S.bytes source.old }
    ensures later { (S.faults source.old ≤ S.faults source.new) × (K.faults sink.old ≤ K.faults sink.new) }
    // the plain file is written whole
    ensures decoded { IfOk result (λ s. (file : List ℕ) → S.bytes source.old ≡ Some file →
        (out : List ℕ) × OutcomeOf decode file (done out (decoded_line s.frames s.bytes ∷ [])) × (K.written sink.new ≡ and_then (K.written sink.old) out)) }
    ensures frames { IfOk result (λ s. (file : List ℕ) → S.bytes source.old ≡ Some file → s.frames ≡ (accepted file).frames) }
    ensures size { IfOk result (λ s. (file : List ℕ) → S.bytes source.old ≡ Some file → s.bytes ≡ size_of_sound (accepted file)) }
    ensures settled { IfOk result (λ _. K.settled sink.new ≡ true) }
    // a refused file, before anything is written
    ensures file { (fault : FileFault) → result ≡ Err (DecodeFault.Source (OpenFault.File fault)) → (file : List ℕ) → S.bytes source.old ≡ Some file → refusal decode file ≡ Some fault }
    ensures untouched { (fault : FileFault) → result ≡ Err (DecodeFault.Source (OpenFault.File fault)) → sink.new ≡ sink.old }
    ensures refused { (file : List ℕ) → S.bytes source.old ≡ Some file → (fault : FileFault) → refusal decode file ≡ Some fault → sink.new ≡ sink.old }
    // a refused frame, behind the sounds of all earlier ones
    ensures frame { (k : ℕ) (fault : FrameFault) → result ≡ Err (DecodeFault.Frame k fault) → (file : List ℕ) → S.bytes source.old ≡ Some file →
        (out : List ℕ) × OutcomeOf decode file (frame_refused k fault out) × (K.written sink.new ≡ and_then (K.written sink.old) out) }
    // failed devices, each by its cause; what is written then is a prefix of the defined output
    ensures read { result ≡ Err (DecodeFault.Source OpenFault.Read) → Rose (S.faults source.old) (S.faults source.new) }
    ensures write { result ≡ Err DecodeFault.Write → Rose (K.faults sink.old) (K.faults sink.new) }
    ensures cut_short { (result ≡ Err (DecodeFault.Source OpenFault.Read)) ⊎ (result ≡ Err DecodeFault.Write) → (file : List ℕ) → S.bytes source.old ≡ Some file →
        (o : Answer) × OutcomeOf decode file o × IsCutShort (K.written sink.old) o.out (K.written sink.new) }
    ensures sure { result ≡ Err DecodeFault.Write → (file : List ℕ) → S.bytes source.old ≡ Some file → (o : Answer) → OutcomeOf decode file o →
        (room : ℕ) → K.room sink.old ≡ Some room → length o.out ≤ room → ⊥ }
    // want of memory, before anything is written
    ensures memory { (refused : AllocError) → result ≡ Err (DecodeFault.Source (OpenFault.Memory refused)) → sink.new ≡ sink.old }
    // beside opening each stored byte is read once: those of the form, or of the largest form
    ensures given { (file : List ℕ) → S.bytes source.old ≡ Some file → S.given source.new ≤ S.given source.old + 208948 + 48000000 + (accepted file).end }
    ensures given_any { S.given source.new ≤ S.given source.old + 208948 + 48000000 + (2 ^ 50 + 12) }
{
    let walked = match open_file(alloc, source, &AllFrames) {
        Ok(walked) => walked,
        Err(fault) => return Err(DecodeFault::Source(fault)),
    };
    let WalkedForm { form, .. } = &walked;
    let mut workspace = match Workspace::new(alloc, form.channels, form.frames, workers) {
        Ok(workspace) => workspace,
        Err(refused) => return Err(DecodeFault::Source(OpenFault::Memory(refused))),
    };
    write_decoded(rt, source, sink, &walked, gate, &mut workspace)
}

// Writes the plain file of an opened coded one, and has it settled.
fn write_decoded<R: Threads + Sync, S: Source, K: Sink, G: Gate>(
    rt: &R,
    source: &mut S,
    sink: &mut K,
    walked: &WalkedForm,
    gate: &G,
    workspace: &mut Workspace,
) -> Result<Decoded, DecodeFault>
    requires size { (n : ℕ) × (S.known source.old ≡ Some n) × (walked.now.form.end ≤ n) }
    requires room { HasRoomFor walked.now.form.channels walked.now.form.frames workspace.old }
    requires opened { (file : List ℕ) → S.bytes source.old ≡ Some file → IsOpened file (coded_seen walked.now.form) walked.now.index }
    ensures bytes { S.bytes source.new ≡ S.bytes source.old }
    ensures source_later { S.faults source.old ≤ S.faults source.new }
    ensures sink_later { K.faults sink.old ≤ K.faults sink.new }
    ensures given { S.given source.new ≤ S.given source.old + walked.now.form.end }
    ensures cause { IfErr result (λ fault. HasItsCause fault (S.faults source.old) (S.faults source.new) (K.faults sink.old) (K.faults sink.new)) }
    ensures done { IfOk result (λ d. d ≡ record { frames = walked.now.form.frames; bytes = size_of_sound (coded_seen walked.now.form) }) }
    ensures settled { IfOk result (λ _. K.settled sink.new ≡ true) }
    ensures written { (file : List ℕ) → S.bytes source.old ≡ Some file →
        DecodingEnds result file (K.written sink.old) (K.written sink.new) (K.room sink.old) }
{
    let form = &walked.form;
    let size = sound_size(form);
    if let Err(fault) = write_front(source, sink, form, size, &mut workspace.buffer) {
        return Err(fault_of_device(fault));
    }
    let tables = &mut workspace.tables;
    let jobs = &mut workspace.jobs;
    if let Err(fault) = write_frames(rt, source, sink, walked, gate, tables, jobs) {
        return Err(fault);
    }
    if let Err(fault) = write_end(source, sink, form, size, &mut workspace.buffer) {
        return Err(fault_of_device(fault));
    }
    let Ok(()) = sink.finish() else {
        return Err(DecodeFault::Write);
    };
    Ok(Decoded {
        frames: form.frames,
        bytes: size,
    })
}

fn fault_of_device(fault: CopyFault) -> DecodeFault
    ensures { result ≡ of_device fault }
{
    match fault {
        CopyFault::Read => DecodeFault::Source(OpenFault::Read),
        CopyFault::Write => DecodeFault::Write,
    }
}
