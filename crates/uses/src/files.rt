// How a reader comes at the frames of a file.
ghost use Rattle.std.specs.Prelude.{◌≡◌, ◌+◌, ◌*◌, ◌<◌, ◌≤◌, ℕ, List, length, Some, None, Err, IfOk};
ghost use Rattle.dst_spec.specs.Sample.{sound_bytes};
ghost use Rattle.dsdiff_spec.specs.declared.faults.FileFault.{FileFault};
ghost use Rattle.dsdiff_spec.specs.Refusal.{refusal};
ghost use Rattle.dsdiff_spec.specs.Rules.{accepted};
ghost use Rattle.dsdiff_spec.specs.Words as words;
ghost use Rattle.dst_streams.specs.Causes.{Rose, HasCause};
ghost use Rattle.dsdiff_chunks.specs.Forms.{coded_seen};
ghost use Rattle.frame_index.specs.Fitting.{IsIndexOf};

use dsdiff_chunks::{CodedForm, FileFault, Form, OpenFault, open_form, read_range};
use dst_num::Channels;
use dst_streams::{Failed, Source};
use frame_index::{Index, walk};
use std::alloc::Global;

/// What is answered of each frame.
pub trait Listener {
    fn hear(&mut self, frame: &[u8], channels: Channels);
}

/// Opens a coded file, and gives its stored frames one after the other. Gives their number.
pub fn frames_of_file<S: Source, L: Listener>(
    alloc: Global,
    source: &mut S,
    listener: &mut L,
) -> Result<u32, OpenFault>
    ensures bytes { S.bytes source.new ≡ S.bytes source.old }
    ensures accepted { IfOk result (λ _. (file : List ℕ) → S.bytes source.old ≡ Some file → refusal words.index file ≡ None) }
    ensures count { IfOk result (λ n. (file : List ℕ) → S.bytes source.old ≡ Some file → n ≡ (accepted file).frames) }
    ensures file { (fault : FileFault) → result ≡ Err (OpenFault.File fault) → (file : List ℕ) → S.bytes source.old ≡ Some file → refusal words.index file ≡ Some fault }
    ensures read { result ≡ Err OpenFault.Read → Rose (S.faults source.old) (S.faults source.new) }
{
    let form = match open_form(alloc, source) {
        Ok(Form::Coded(form)) => form,
        Ok(Form::Plain(_)) => return Err(OpenFault::File(FileFault::NotCoded)),
        Err(fault) => return Err(fault),
    };
    let index = match walk(alloc, source, &form) {
        Ok(index) => index,
        Err(fault) => return Err(fault),
    };
    // no stored frame is longer
    let longest = 2 * (form.channels.sound_bytes() + 1);
    let mut buffer = match vec![in alloc; 0; longest] {
        Ok(buffer) => buffer,
        Err(refused) => return Err(OpenFault::Memory(refused)),
    };
    for k in 0..index.length() {
        let size = match read_frame(source, &form, &index, k, &mut buffer) {
            Ok(size) => size,
            Err(_) => return Err(OpenFault::Read),
        };
        listener.hear(&buffer[..size], form.channels);
    }
    Ok(index.length())
}

// Reads a frame into the front of a buffer that has room for the longest one, and gives its bytes.
fn read_frame<S: Source>(
    source: &mut S,
    form: &CodedForm,
    index: &Index,
    k: u32,
    buffer: &mut [u8],
) -> Result<usize, Failed>
    requires index { IsIndexOf (coded_seen form.now) index.now }
    requires k { k < length index.now }
    requires size { (n : ℕ) × (S.known source.old ≡ Some n) × (form.now.end ≤ n) }
    requires room { length buffer.old ≡ 2 * (sound_bytes form.now.channels + 1) }
    ensures bytes { S.bytes source.new ≡ S.bytes source.old }
    ensures stays { S.known source.new ≡ S.known source.old }
    ensures cause { HasCause (S.faults source.old) (S.faults source.new) result }
    ensures long { length buffer.new ≡ length buffer.old }
    ensures short { IfOk result (λ size. size ≤ length buffer.new) }
{
    let entry = index.entry(k);
    let size = entry.size as usize;
    match read_range(source, entry.offset, &mut buffer[..size]) {
        Ok(()) => Ok(size),
        Err(failed) => Err(failed),
    }
}
