// What stands around the sound in the form that stands for a DSF file.
ghost use Rattle.std.specs.Prelude.{◌≡◌, ◌≤◌, ◌-◌, ◌*◌, ◌^◌, length, take, drop, min, flat_map};
ghost use Rattle.dst_spec.specs.Sample.{IsShape};
ghost use Rattle.dsf_files.specs.Forms.{dsf_seen};
ghost use Rattle.dsf_files.specs.Standing.{front, back, sound_size, front_size, back_size};

use crate::form::DsfForm;
use crate::header::octet_count;
use arrayvec::ArrayVec;

// What stands between the numbers in front of the sound: the sizes of the form and of `PROP`, the rate, the size of `CHNL`, the count of
// channels, with their ids behind it, and the size of the sound.
const FORM: [u8; 4] = *b"FRM8";

const VERSION: [u8; 24] = *b"DSD FVER\0\0\0\0\0\0\0\x04\x01\x05\0\0PROP";

const RATE: [u8; 16] = *b"SND FS  \0\0\0\0\0\0\0\x04";

const CHANNELS: [u8; 4] = *b"CHNL";

const CHANNEL_IDS: [u8; 24] = *b"C000C001C002C003C004C005";

const NOT_COMPRESSED: [u8; 36] = *b"CMPR\0\0\0\0\0\0\0\x13DSD \x0enot compressed\0DSD ";

// And behind it, in front of the number of samples.
const KEPT: [u8; 13] = *b"DSFK\0\0\0\0\0\0\0\x0e\x01";

/// The size of the sound in bytes.
pub(crate) fn sound_size(form: &DsfForm) -> u64
    ensures size { result ≡ sound_size (dsf_seen form.now) }
    ensures most { result ≤ 6 * 2 ^ 61 }
{
    octet_count(form) * form.channels.count() as u64
}

/// Bytes in front of it, and behind it.
pub(crate) fn front_size(form: &DsfForm) -> u64
    ensures size { result ≡ front_size (dsf_seen form.now) }
    ensures most { result ≤ 146 }
    ensures shape { IsShape form.now.channels }
{
    122 + 4 * form.channels.count() as u64
}

pub(crate) fn back_size(form: &DsfForm) -> u64
    ensures size { result ≡ back_size (dsf_seen form.now) }
    ensures most { result ≤ 27 }
{
    sound_size(form) % 2 + 26
}

/// The chunks in front of the sound, with the head of its own.
pub(crate) fn front_of(form: &DsfForm) -> ArrayVec<u8, 146>
    ensures front { result.items ≡ front (dsf_seen form.now) }
    ensures long { length result.items ≡ front_size (dsf_seen form.now) }
    ensures shape { IsShape form.now.channels }
{
    let size = sound_size(form);
    let count = form.channels.count();
    let multiple = form.channels.multiple();
    let ids = 4 * count;
    joined(&[
        &FORM,
        &(136 + ids as u64 + size + size % 2).to_be_bytes(),
        &VERSION,
        &(66 + ids as u64).to_be_bytes(),
        &RATE,
        &(2_822_400 * multiple as u32).to_be_bytes(),
        &CHANNELS,
        &(2 + ids as u64).to_be_bytes(),
        &(count as u16).to_be_bytes(),
        &CHANNEL_IDS[..ids],
        &NOT_COMPRESSED,
        &size.to_be_bytes(),
    ])
}

/// The pad byte behind a sound of odd size, and the chunk `DSFK`.
pub(crate) fn back_of(form: &DsfForm) -> ArrayVec<u8, 146>
    ensures back { result.items ≡ back (dsf_seen form.now) }
    ensures long { length result.items ≡ back_size (dsf_seen form.now) }
    ensures shape { IsShape form.now.channels }
{
    let odd = (sound_size(form) % 2) as usize;
    // Read, so that their shape is known.
    let _count = form.channels.count();
    let pad = [0];
    joined(&[
        &pad[..odd],
        &KEPT,
        &form.samples.to_be_bytes(),
        &form.kind.to_be_bytes(),
        &[form.bits],
    ])
}

// Pieces one after the other.
fn joined(pieces: &[&[u8]]) -> ArrayVec<u8, 146>
    requires { length (flat_map (λ p. p.now) pieces.now) ≤ 146 }
    ensures { result.items ≡ flat_map (λ p. p.now) pieces.now }
{
    let mut bytes = ArrayVec::new();
    for piece in pieces {
        let Ok(()) = bytes.try_extend_from_slice(piece) else {
            unreachable!()
        };
    }
    bytes
}

/// Copies the bytes from a place on into the front of `out`, as many as there are and as fit.
pub(crate) fn copy_part(bytes: &[u8], place: usize, out: &mut [u8]) -> usize
    requires { place ≤ length bytes.now }
    ensures long { length out.new ≡ length out.old }
    ensures count { result ≡ min (length out.old) (length bytes.now - place) }
    ensures copied { take result out.new ≡ take result (drop place bytes.now) }
{
    let count = out.len().min(bytes.len() - place);
    out[..count].copy_from_slice(&bytes[place..place + count]);
    count
}
