// Encoding a plain file.
ghost use Rattle.std.specs.Prelude.{◌≡◌, ◌⊎◌, ◌+◌, ◌^◌, ◌≤◌, ◌<◌, ℕ, List, length, true, Some, None, IfOk, IfErr, OnOk, Err};
ghost use Rattle.std.specs.declared.alloc.AllocError.{AllocError};
ghost use Rattle.dst_streams.specs.Causes.{Rose};
ghost use Rattle.dst_streams.specs.Told.{and_then};
ghost use Rattle.dsdiff_spec.specs.declared.faults.FileFault.{FileFault};
ghost use Rattle.dsdiff_spec.specs.Coded.{coded, stored_bytes};
ghost use Rattle.dsdiff_spec.specs.Rules.{accepted};
ghost use Rattle.dsdiff_spec.specs.Words.{encode};
ghost use Rattle.dsdiff_spec.specs.Refusal.{form_refusal, refusal};
ghost use Rattle.dsdiff_chunks.specs.Forms.{plain_seen};
ghost use Rattle.dsdiff_chunks.specs.Opening.{HasOpenCause};
ghost use Rattle.dst_write.specs.Encoding.{EncodingEnds, UnsizedEnds, HasItsCause, of_device};
ghost use Rattle.dst_write.specs.Frames.{HasRoomFor};
ghost use Rattle.dst_write.specs.Layout.{before};
ghost use Rattle.dst_write.specs.Unfinished.{HoldsNothing, HoldsUnfinished, sound_size_place};

use crate::around::{write_end, write_front};
use crate::chunks::side_length;
use crate::faults::{EncodeFault, Encoded};
use crate::frames::{Workspace, write_frames};
use crate::sizes::{form_size, sound_size, stored_size, write_sizes};
use dsdiff_chunks::{CopyFault, OpenFault, PlainForm};
use dst_commands::{PlainFile, Side, open_file};
use dst_streams::{Sink, Source};
use frame_crew::Gate;
use frame_store::Picker;
use std::alloc::Global;
use std::thread::Threads;

/// Codes a plain file: writes the coded file that comes back to it, byte for byte.
///
/// Each frame's sound is stored as its plain form or by what the picker finds for it, whichever is shortest. Batches of frames are
/// read, stored by so many workers, 1 to 16, and written in order; what is answered and written is what one worker answers and
/// writes. The sizes of the sound and of the form are written over zeros at the end, and the sink is finished behind them: so a
/// coded file that isn't whole is refused.
pub fn encode_file<R: Threads + Sync, S: Source, K: Sink, P: Picker + Sync, G: Gate>(
    rt: &R,
    alloc: Global,
    source: &mut S,
    sink: &mut K,
    picker: &P,
    workers: u32,
    gate: &G,
) -> Result<Encoded, EncodeFault>
    requires least { 0 < workers }
    requires most { workers ≤ 16 }
    ensures bytes { S.bytes source.new ≡ S.bytes source.old }
    ensures loan { S.loan source.new ≡ S.loan source.old }
    ensures later { (S.faults source.old ≤ S.faults source.new) × (K.faults sink.old ≤ K.faults sink.new) }
    // the coded file is written whole
    ensures accepted { IfOk result (λ _. (file : List ℕ) → S.bytes source.old ≡ Some file → (level : ℕ) → refusal (encode level) file ≡ None) }
    ensures encoded { IfOk result (λ _. (file : List ℕ) → S.bytes source.old ≡ Some file → HoldsNothing (K.written sink.old) →
        K.written sink.new ≡ and_then (K.written sink.old) (coded (P.picks picker.now) file (accepted file))) }
    ensures frames { IfOk result (λ e. (file : List ℕ) → S.bytes source.old ≡ Some file → e.frames ≡ (accepted file).frames) }
    ensures stored { IfOk result (λ e. (file : List ℕ) → S.bytes source.old ≡ Some file → e.bytes ≡ stored_bytes (P.picks picker.now) file (accepted file)) }
    ensures settled { OnOk result (K.settled sink.new ≡ true) }
    // a refused file, before anything is written
    ensures file { (fault : FileFault) → result ≡ Err (EncodeFault.Source (OpenFault.File fault)) → (file : List ℕ) → S.bytes source.old ≡ Some file → (level : ℕ) → refusal (encode level) file ≡ Some fault }
    ensures untouched { (fault : FileFault) → result ≡ Err (EncodeFault.Source (OpenFault.File fault)) → sink.new ≡ sink.old }
    // failed devices, each by its cause; what is written then is a file that isn't finished
    ensures read { result ≡ Err (EncodeFault.Source OpenFault.Read) → Rose (S.faults source.old) (S.faults source.new) }
    ensures write { result ≡ Err EncodeFault.Write → Rose (K.faults sink.old) (K.faults sink.new) }
    ensures unfinished { (result ≡ Err (EncodeFault.Source OpenFault.Read)) ⊎ (result ≡ Err EncodeFault.Write) → (file : List ℕ) → S.bytes source.old ≡ Some file → HoldsNothing (K.written sink.old) →
        HoldsUnfinished (sound_size_place file (accepted file)) (coded (P.picks picker.now) file (accepted file)) (K.written sink.new) }
    ensures sure { result ≡ Err EncodeFault.Write → (file : List ℕ) → S.bytes source.old ≡ Some file → (room : ℕ) → K.room sink.old ≡ Some room →
        length (coded (P.picks picker.now) file (accepted file)) ≤ room → ⊥ }
    ensures write_accepted { result ≡ Err EncodeFault.Write → (file : List ℕ) → S.bytes source.old ≡ Some file → (level : ℕ) → refusal (encode level) file ≡ None }
    // want of memory, before anything is written; and so it is of a file that is refused, whatever fails
    ensures memory { (refused : AllocError) → result ≡ Err (EncodeFault.Source (OpenFault.Memory refused)) → sink.new ≡ sink.old }
    ensures refused { (file : List ℕ) → S.bytes source.old ≡ Some file → (level : ℕ) (fault : FileFault) → refusal (encode level) file ≡ Some fault → sink.new ≡ sink.old }
    // beside opening each stored byte is read once: those of the form, or of the largest form
    ensures given { (file : List ℕ) → S.bytes source.old ≡ Some file → S.given source.new ≤ S.given source.old + 208948 + (accepted file).end }
    ensures given_any { S.given source.new ≤ S.given source.old + 208948 + (2 ^ 50 + 12) }
{
    let mut opened = match open_plain(alloc, source, workers) {
        Ok(opened) => opened,
        Err(fault) => return Err(EncodeFault::Source(fault)),
    };
    let workspace = &mut opened.workspace;
    write_encoded(rt, source, sink, &opened.form, picker, gate, workspace)
}

// A plain form, and what it is encoded in.
#[derive(Drop)]
struct OpenedPlain {
    form: PlainForm,
    workspace: Workspace,
}

// Opens a file by the rules of encoding, and has the room for so many workers.
fn open_plain<S: Source>(
    alloc: Global,
    source: &mut S,
    workers: u32,
) -> Result<OpenedPlain, OpenFault>
    requires least { 0 < workers }
    requires most { workers ≤ 16 }
    ensures bytes { S.bytes source.new ≡ S.bytes source.old }
    ensures loan { S.loan source.new ≡ S.loan source.old }
    ensures later { S.faults source.old ≤ S.faults source.new }
    ensures given { S.given source.new ≤ S.given source.old + 208948 }
    ensures size { IfOk result (λ o. (n : ℕ) × (S.known source.new ≡ Some n) × (o.form.end ≤ n)) }
    ensures room { IfOk result (λ o. HasRoomFor o.form.channels o.form.frames o.workspace) }
    ensures accepted { IfOk result (λ _. (file : List ℕ) → S.bytes source.old ≡ Some file → form_refusal (encode 1) file ≡ None) }
    ensures opened { IfOk result (λ o. (file : List ℕ) → S.bytes source.old ≡ Some file → accepted file ≡ plain_seen o.form) }
    ensures stops { IfErr result (HasOpenCause (form_refusal (encode 1)) (S.bytes source.old) (S.faults source.old) (S.faults source.new)) }
{
    let form = match open_file(alloc, source, &PlainFile) {
        Ok(form) => form,
        Err(fault) => return Err(fault),
    };
    match Workspace::new(alloc, form.channels, form.frames, workers) {
        Ok(workspace) => Ok(OpenedPlain { form, workspace }),
        Err(refused) => Err(OpenFault::Memory(refused)),
    }
}

// Writes the coded file of an opened plain one.
fn write_encoded<R: Threads + Sync, S: Source, K: Sink, P: Picker + Sync, G: Gate>(
    rt: &R,
    source: &mut S,
    sink: &mut K,
    form: &PlainForm,
    picker: &P,
    gate: &G,
    workspace: &mut Workspace,
) -> Result<Encoded, EncodeFault>
    requires size { (n : ℕ) × (S.known source.old ≡ Some n) × (form.now.end ≤ n) }
    requires room { HasRoomFor form.now.channels form.now.frames workspace.old }
    ensures bytes { S.bytes source.new ≡ S.bytes source.old }
    ensures loan { S.loan source.new ≡ S.loan source.old }
    ensures given { S.given source.new ≤ S.given source.old + form.now.end }
    ensures source_later { S.faults source.old ≤ S.faults source.new }
    ensures sink_later { K.faults sink.old ≤ K.faults sink.new }
    ensures cause { IfErr result (λ fault. HasItsCause fault (S.faults source.old) (S.faults source.new) (K.faults sink.old) (K.faults sink.new)) }
    ensures frames { IfOk result (λ e. e.frames ≡ form.now.frames) }
    ensures settled { OnOk result (K.settled sink.new ≡ true) }
    ensures written { (file : List ℕ) → S.bytes source.old ≡ Some file →
        EncodingEnds result (P.picks picker.now) file (plain_seen form.now) (K.written sink.old) (K.written sink.new) (K.room sink.old) }
{
    if let Err(fault) = write_unsized(rt, source, sink, form, picker, gate, workspace) {
        return Err(fault);
    }
    let sizes = workspace.sizes.as_slice();
    let before = side_length(form, Side::Before);
    match write_sizes(sink, before, sound_size(sizes), form_size(form, sizes)) {
        Ok(()) => Ok(Encoded {
            frames: form.frames,
            bytes: stored_size(sizes),
        }),
        Err(_) => Err(EncodeFault::Write),
    }
}

// Writes the coded file with 0 for the sizes of the form and of the sound. The sizes of the stored frames stand in the workspace then.
fn write_unsized<R: Threads + Sync, S: Source, K: Sink, P: Picker + Sync, G: Gate>(
    rt: &R,
    source: &mut S,
    sink: &mut K,
    form: &PlainForm,
    picker: &P,
    gate: &G,
    workspace: &mut Workspace,
) -> Result<(), EncodeFault>
    requires size { (n : ℕ) × (S.known source.old ≡ Some n) × (form.now.end ≤ n) }
    requires room { HasRoomFor form.now.channels form.now.frames workspace.old }
    ensures bytes { S.bytes source.new ≡ S.bytes source.old }
    ensures loan { S.loan source.new ≡ S.loan source.old }
    ensures given { S.given source.new ≤ S.given source.old + form.now.end }
    ensures source_later { S.faults source.old ≤ S.faults source.new }
    ensures sink_later { K.faults sink.old ≤ K.faults sink.new }
    ensures long { OnOk result (length workspace.new.sizes.items ≡ form.now.frames) }
    ensures appended { OnOk result ((file : List ℕ) → form.now.end ≤ length file → 28 + length (before file (plain_seen form.now)) ≤ K.appended sink.new) }
    ensures cause { IfErr result (λ fault. HasItsCause fault (S.faults source.old) (S.faults source.new) (K.faults sink.old) (K.faults sink.new)) }
    ensures written { (file : List ℕ) → S.bytes source.old ≡ Some file →
        UnsizedEnds result (P.picks picker.now) file (plain_seen form.now) workspace.new.sizes.items (K.written sink.old) (K.written sink.new) (K.room sink.old) (K.room sink.new) }
{
    if let Err(fault) = write_front(source, sink, form, &mut workspace.buffer) {
        return Err(fault_of_device(fault));
    }
    let scratches = &mut workspace.scratches;
    let jobs = &mut workspace.jobs;
    let sizes = &mut workspace.sizes;
    if let Err(fault) = write_frames(rt, source, sink, form, picker, gate, scratches, jobs, sizes) {
        return Err(fault);
    }
    let sizes = workspace.sizes.as_slice();
    match write_end(source, sink, form, sizes, &mut workspace.buffer) {
        Ok(()) => Ok(()),
        Err(fault) => Err(fault_of_device(fault)),
    }
}

fn fault_of_device(fault: CopyFault) -> EncodeFault
    ensures { result ≡ of_device fault }
{
    match fault {
        CopyFault::Read => EncodeFault::Source(OpenFault::Read),
        CopyFault::Write => EncodeFault::Write,
    }
}
