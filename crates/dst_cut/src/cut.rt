// Cutting frames out of a coded file.
ghost use Rattle.std.specs.Prelude.{◌≡◌, ◌⊎◌, ◌+◌, ◌^◌, ◌≤◌, ◌<◌, ℕ, List, length, true, Some, None, IfOk, IfErr, OnOk, Err, ◌∷◌, []};
ghost use Rattle.std.specs.declared.alloc.AllocError.{AllocError};
ghost use Rattle.dst_streams.specs.Causes.{Rose};
ghost use Rattle.dst_streams.specs.Told.{IsCutShort, and_then};
ghost use Rattle.dsdiff_spec.specs.declared.faults.FileFault.{FileFault};
ghost use Rattle.dsdiff_spec.specs.Lines.{cut_line};
ghost use Rattle.dsdiff_spec.specs.Words as words;
ghost use Rattle.dsdiff_spec.specs.Rules.{accepted};
ghost use Rattle.dsdiff_spec.specs.Refusal.{form_refusal, refusal};
ghost use Rattle.dsdiff_spec.specs.Outcome.{Answer, done};
ghost use Rattle.dsdiff_spec.specs.Walk.{entries};
ghost use Rattle.dsdiff_chunks.specs.Forms.{coded_seen};
ghost use Rattle.dsdiff_chunks.specs.Opening.{HasOpenCause};
ghost use Rattle.dst_commands.specs.Commands.{OutcomeOf};
ghost use Rattle.dst_cut.specs.Cutting.{CutEnds, HasItsCause, IsCutForm, of_device};

use crate::cut_form::CutForm;
use crate::cut_parts::{write_end, write_frames, write_front};
use crate::cut_rules::CutFrames;
use dsdiff_chunks::{CopyFault, OpenFault};
use dst_commands::open_file;
use dst_streams::{Sink, Source};
use std::alloc::Global;
use thiserror::Error;

/// Bytes that are copied at a time.
const BUFFER: usize = 65_536;

/// Frames were cut out: how many.
#[derive(Clone, Copy, Debug, PartialEq, Eq)]
pub struct Cut {
    pub frames: u32,
}

/// Why frames weren't cut out.
#[derive(Clone, Copy, Debug, Drop, PartialEq, Eq, Error)]
pub enum CutFault {
    /// The source failed, memory was refused, or the file breaks a rule of the command.
    #[error("{0}")]
    Source(OpenFault),
    /// The sink failed.
    #[error("write fault")]
    Write,
}

/// Cuts frames out of a coded file: writes a coded file of those from the first to the last, both included, as they stand.
///
/// Frames are counted from 0, and the last is not before the first. No frame is decoded. All that stands between the frames goes with
/// them; the index is a new one, and where the file says of a plain one, so does the new file of the sound that is left of it.
pub fn cut_file<S: Source, K: Sink>(
    alloc: Global,
    source: &mut S,
    sink: &mut K,
    first: u32,
    last: u32,
) -> Result<Cut, CutFault>
    requires order { first ≤ last }
    ensures bytes { S.bytes source.new ≡ S.bytes source.old }
    ensures later { (S.faults source.old ≤ S.faults source.new) × (K.faults sink.old ≤ K.faults sink.new) }
    // the frames are written whole
    ensures cut { IfOk result (λ c. (file : List ℕ) → S.bytes source.old ≡ Some file →
        (out : List ℕ) × OutcomeOf (words.cut first last) file (done out (cut_line c.frames ∷ [])) × (K.written sink.new ≡ and_then (K.written sink.old) out)) }
    ensures settled { OnOk result (K.settled sink.new ≡ true) }
    // a refused file, before anything is written
    ensures file { (fault : FileFault) → result ≡ Err (CutFault.Source (OpenFault.File fault)) → (file : List ℕ) → S.bytes source.old ≡ Some file → refusal (words.cut first last) file ≡ Some fault }
    ensures untouched { (fault : FileFault) → result ≡ Err (CutFault.Source (OpenFault.File fault)) → sink.new ≡ sink.old }
    ensures refused { (file : List ℕ) → S.bytes source.old ≡ Some file → (fault : FileFault) → refusal (words.cut first last) file ≡ Some fault → sink.new ≡ sink.old }
    // failed devices, each by its cause; what is written then is a prefix of the defined output
    ensures read { result ≡ Err (CutFault.Source OpenFault.Read) → Rose (S.faults source.old) (S.faults source.new) }
    ensures write { result ≡ Err CutFault.Write → Rose (K.faults sink.old) (K.faults sink.new) }
    ensures cut_short { (result ≡ Err (CutFault.Source OpenFault.Read)) ⊎ (result ≡ Err CutFault.Write) → (file : List ℕ) → S.bytes source.old ≡ Some file →
        (o : Answer) × OutcomeOf (words.cut first last) file o × IsCutShort (K.written sink.old) o.out (K.written sink.new) }
    ensures sure { result ≡ Err CutFault.Write → (file : List ℕ) → S.bytes source.old ≡ Some file → (o : Answer) → OutcomeOf (words.cut first last) file o →
        (room : ℕ) → K.room sink.old ≡ Some room → length o.out ≤ room → ⊥ }
    // want of memory, before anything is written
    ensures memory { (refused : AllocError) → result ≡ Err (CutFault.Source (OpenFault.Memory refused)) → sink.new ≡ sink.old }
    // beside opening each stored byte is read once: those of the form, or of the largest form
    ensures given { (file : List ℕ) → S.bytes source.old ≡ Some file → S.given source.new ≤ S.given source.old + 208948 + 48000000 + (accepted file).end }
    ensures given_any { S.given source.new ≤ S.given source.old + 208948 + 48000000 + (2 ^ 50 + 12) }
{
    let mut opened = match open_cut(alloc, source, first, last) {
        Ok(opened) => opened,
        Err(fault) => return Err(CutFault::Source(fault)),
    };
    write_cut(source, sink, &opened.cut, &mut opened.buffer)
}

// A form of which frames are cut out, and the buffer by which they are copied.
#[derive(Drop)]
struct OpenedCut {
    cut: CutForm,
    buffer: Vec<u8>,
}

// Opens a file by the rules of cutting, and has the buffer.
fn open_cut<S: Source>(
    alloc: Global,
    source: &mut S,
    first: u32,
    last: u32,
) -> Result<OpenedCut, OpenFault>
    requires order { first ≤ last }
    ensures bytes { S.bytes source.new ≡ S.bytes source.old }
    ensures later { S.faults source.old ≤ S.faults source.new }
    ensures given { S.given source.new ≤ S.given source.old + (208948 + 48000000) }
    ensures size { IfOk result (λ o. (n : ℕ) × (S.known source.new ≡ Some n) × (o.cut.form.end ≤ n)) }
    ensures buffer { IfOk result (λ o. length o.buffer.items ≡ 65536) }
    ensures accepted { IfOk result (λ _. (file : List ℕ) → S.bytes source.old ≡ Some file → form_refusal (words.cut first last) file ≡ None) }
    ensures opened { IfOk result (λ o. (file : List ℕ) → S.bytes source.old ≡ Some file → IsCutForm first last file o.cut) }
    ensures stops { IfErr result (HasOpenCause (form_refusal (words.cut first last)) (S.bytes source.old) (S.faults source.old) (S.faults source.new)) }
{
    let cut = match open_file(alloc, source, &CutFrames { first, last }) {
        Ok(cut) => cut,
        Err(fault) => return Err(fault),
    };
    match vec![in alloc; 0u8; BUFFER] {
        Ok(buffer) => Ok(OpenedCut { cut, buffer }),
        Err(refused) => Err(OpenFault::Memory(refused)),
    }
}

// Writes the frames of an opened file, and has them settled.
fn write_cut<S: Source, K: Sink>(
    source: &mut S,
    sink: &mut K,
    cut: &CutForm,
    buffer: &mut [u8],
) -> Result<Cut, CutFault>
    requires buffer { length buffer.old ≡ 65536 }
    requires size { (n : ℕ) × (S.known source.old ≡ Some n) × (cut.now.form.end ≤ n) }
    ensures bytes { S.bytes source.new ≡ S.bytes source.old }
    ensures given { S.given source.new ≤ S.given source.old + cut.now.form.end }
    ensures source_later { S.faults source.old ≤ S.faults source.new }
    ensures sink_later { K.faults sink.old ≤ K.faults sink.new }
    ensures cause { IfErr result (λ fault. HasItsCause fault (S.faults source.old) (S.faults source.new) (K.faults sink.old) (K.faults sink.new)) }
    ensures settled { OnOk result (K.settled sink.new ≡ true) }
    ensures written { (file : List ℕ) → S.bytes source.old ≡ Some file → entries file (coded_seen cut.now.form) ≡ cut.now.index →
        CutEnds result file cut.now (K.written sink.old) (K.written sink.new) (K.room sink.old) }
{
    if let Err(fault) = write_front(source, sink, cut, buffer) {
        return Err(fault_of_device(fault));
    }
    if let Err(fault) = write_frames(source, sink, cut, buffer) {
        return Err(fault_of_device(fault));
    }
    if let Err(fault) = write_end(source, sink, cut, buffer) {
        return Err(fault_of_device(fault));
    }
    match sink.finish() {
        Ok(()) => Ok(Cut {
            frames: cut.count(),
        }),
        Err(_) => Err(CutFault::Write),
    }
}

fn fault_of_device(fault: CopyFault) -> CutFault
    ensures { result ≡ of_device fault }
{
    match fault {
        CopyFault::Read => CutFault::Source(OpenFault::Read),
        CopyFault::Write => CutFault::Write,
    }
}
