// The sizes of a coded file, and the two fields that say them.
ghost use Rattle.std.specs.Prelude.{◌≡◌, ◌+◌, ◌≤◌, ◌^◌, ℕ, List, length, sum, true, Some, IsOk, OnOk};
ghost use Rattle.dsdiff_spec.specs.Coded.{origin_of_plain};
ghost use Rattle.dst_streams.specs.Causes.{HasCause};
ghost use Rattle.dsdiff_chunks.specs.Forms.{plain_seen};
ghost use Rattle.dst_write.specs.Layout as layout;
ghost use Rattle.dst_write.specs.Unfinished.{SizesEnd};

use crate::chunks::side_length;
use dsdiff_chunks::{PlainForm, cmpr_of_prop};
use dst_commands::Side;
use dst_streams::{Failed, Sink};

/// The place of the form's size.
const FORM_SIZE: u64 = 4;

/// Bytes of the chunk of a stored frame of so many bytes.
pub(crate) fn chunk_size(size: u32) -> u64
    ensures { result ≡ layout.chunk_size size }
{
    let size = u64::from(size);
    12 + size + size % 2
}

/// Bytes of all stored frames together.
pub(crate) fn stored_size(sizes: &[u32]) -> u64
    requires { length sizes.now ≤ 1000000 }
    ensures { result ≡ sum sizes.now }
{
    let mut bytes = 0;
    for size in sizes {
        bytes += u64::from(*size);
    }
    bytes
}

/// Bytes of the body of `DST `: `FRTE` and the chunks of all stored frames.
pub(crate) fn sound_size(sizes: &[u32]) -> u64
    requires { length sizes.now ≤ 1000000 }
    ensures size { result ≡ layout.sound_size sizes.now }
    ensures most { result ≤ 2 ^ 54 }
{
    let mut bytes = 18;
    for size in sizes {
        bytes += chunk_size(*size);
    }
    bytes
}

/// The size of the form: bytes of all that stands behind its head.
pub(crate) fn form_size(form: &PlainForm, sizes: &[u32]) -> u64
    requires { length sizes.now ≤ 1000000 }
    ensures { (file : List ℕ) → form.now.end ≤ length file → result ≡ layout.form_size sizes.now file (plain_seen form.now) }
{
    let before = side_length(form, Side::Before);
    let behind = side_length(form, Side::Behind);
    let index = 12 + 12 * sizes.len() as u64;
    4 + before + (12 + sound_size(sizes)) + index + origin_size(form) + behind
}

// Bytes of `KEPT`.
fn origin_size(form: &PlainForm) -> u64
    ensures size { result ≡ length (origin_of_plain (plain_seen form.now)) }
    ensures most { result ≤ 2 ^ 18 }
{
    let cmpr = cmpr_of_prop(form.prop.as_slice());
    let body = (14 + cmpr.len() + form.behind.as_slice().len()) as u64;
    12 + body + body % 2
}

/// Writes the two sizes over their zeros and finishes the sink: first that of the sound, whose chunk stands behind so many bytes
/// of chunks, then that of the form.
pub(crate) fn write_sizes<K: Sink>(
    sink: &mut K,
    before: u64,
    sound: u64,
    form: u64,
) -> Result<(), Failed>
    requires most { before ≤ 2 ^ 61 }
    requires appended { 28 + before ≤ K.appended sink.old }
    ensures cause { HasCause (K.faults sink.old) (K.faults sink.new) result }
    ensures sure { (n : ℕ) → K.room sink.old ≡ Some n → IsOk result }
    ensures settled { OnOk result (K.settled sink.new ≡ true) }
    ensures written { SizesEnd result (20 + before) sound form (K.written sink.old) (K.written sink.new) }
{
    let Ok(()) = sink.overwrite(20 + before, &sound.to_be_bytes()) else {
        return Err(Failed);
    };
    let Ok(()) = sink.overwrite(FORM_SIZE, &form.to_be_bytes()) else {
        return Err(Failed);
    };
    sink.finish()
}
