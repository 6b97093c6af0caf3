// The sizes of the plain file that a coded one is decoded to.
ghost use Rattle.std.specs.Prelude.{◌≡◌, ◌+◌, ◌*◌, ◌≤◌, ℕ, List, length};
ghost use Rattle.dsdiff_spec.specs.Form.{coded, size_of_sound};
ghost use Rattle.dsdiff_spec.specs.Pieces.{decoded_size};
ghost use Rattle.dsdiff_chunks.specs.Forms.{coded_seen};

use crate::chunks::{FormRef, Passed, Side, chunks_length, cmpr_of};
use dsdiff_chunks::CodedForm;

/// Bytes of the sound.
pub fn sound_size(form: &CodedForm) -> u64
    ensures size { result ≡ size_of_sound (coded_seen form.now) }
    ensures most { result ≤ 112896000000 }
{
    let whole = form.channels.sound_bytes() as u64;
    match &form.origin {
        Some(origin) => origin.sound,
        None => u64::from(form.frames) * whole,
    }
}

/// The size of the form whose sound has so many bytes.
pub fn form_size(form: &CodedForm, sound: u64) -> u64
    requires most { sound ≤ 112896000000 }
    ensures { (file : List ℕ) → form.now.end ≤ length file → result ≡ decoded_size sound file (coded_seen form.now) }
{
    let cmpr = cmpr_of(form);
    let passed = Passed {
        form: FormRef::Coded(form),
        cmpr: Some(cmpr),
    };
    let before = chunks_length(&passed, Side::Before);
    let behind = chunks_length(&passed, Side::Behind);
    4 + before + (12 + sound + sound % 2) + behind
}
