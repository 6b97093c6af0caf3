//! Small files of one channel at 64 times 44.1 kHz, plain and coded, for tests: known byte for byte, or built chunk by chunk.
//!
//! ```text
//! let frame = frame(alloc, &[b"\0", &sound])?; // a chunk with a frame in the plain form
//! let file = coded(alloc, 1, &[&frame], &[])?; // a coded file of it
//! ```
#![tactic(auto)]

ghost use Rattle.std.specs.Prelude.{◌≡◌, ◌+◌, ◌%◌, ◌<◌, ◌≤◌, ◌++◌, ◌∷◌, [], ◌==◌, if◌then◌else◌, ℕ, Some, length, flat_map, slice_get, take, drop, IfOk};
ghost use Rattle.byteorder.specs.Endian.{big_bytes};

use std::alloc::{AllocError, Global};

pub const VERSION: &[u8; 16] = b"FVER\0\0\0\0\0\0\0\x04\x01\x05\0\0";

pub const CODED_PROP: &[u8; 78] = b"PROP\0\0\0\0\0\0\0\x42SND \
FS  \0\0\0\0\0\0\0\x04\0\x2b\x11\0\
CHNL\0\0\0\0\0\0\0\x06\0\x01C000\
CMPR\0\0\0\0\0\0\0\x10DST \x0bDST Encoded";

pub const PLAIN_PROP: &[u8; 82] = b"PROP\0\0\0\0\0\0\0\x46SND \
FS  \0\0\0\0\0\0\0\x04\0\x2b\x11\0\
CHNL\0\0\0\0\0\0\0\x06\0\x01C000\
CMPR\0\0\0\0\0\0\0\x13DSD \x0enot compressed\0";

pub const PLAIN_CMPR: &[u8; 32] = b"CMPR\0\0\0\0\0\0\0\x13DSD \x0enot compressed\0";

/// A coded file of one frame, whose six bytes mean 4,704 bytes FF.
pub const EXAMPLE: &[u8; 158] = b"FRM8\0\0\0\0\0\0\0\x92DSD \
FVER\0\0\0\0\0\0\0\x04\x01\x05\0\0\
PROP\0\0\0\0\0\0\0\x42SND \
FS  \0\0\0\0\0\0\0\x04\0\x2b\x11\0\
CHNL\0\0\0\0\0\0\0\x06\0\x01C000\
CMPR\0\0\0\0\0\0\0\x10DST \x0bDST Encoded\
DST \0\0\0\0\0\0\0\x24\
FRTE\0\0\0\0\0\0\0\x06\0\0\0\x01\0\x4b\
DSTF\0\0\0\0\0\0\0\x06\xfc\0\0\x05\xff\xf8";

/// A plain file without sound.
pub const SILENT: &[u8; 126] = b"FRM8\0\0\0\0\0\0\0\x72DSD \
FVER\0\0\0\0\0\0\0\x04\x01\x05\0\0\
PROP\0\0\0\0\0\0\0\x46SND \
FS  \0\0\0\0\0\0\0\x04\0\x2b\x11\0\
CHNL\0\0\0\0\0\0\0\x06\0\x01C000\
CMPR\0\0\0\0\0\0\0\x13DSD \x0enot compressed\0\
DSD \0\0\0\0\0\0\0\0";

/// The parts, one behind the other.
pub fn joined(alloc: Global, parts: &[&[u8]]) -> Result<Vec<u8>, AllocError>
    ensures { IfOk result (λ bytes. bytes.items ≡ flat_map (λ p. p.now) parts.now) }
{
    let mut bytes = Vec::new(alloc);
    for part in parts {
        bytes.extend_from_slice(part)?;
    }
    Ok(bytes)
}

/// A chunk with these parts as its body, and this pad byte behind a body of odd size.
pub fn chunk(alloc: Global, id: &[u8; 4], parts: &[&[u8]], pad: u8) -> Result<Vec<u8>, AllocError>
    ensures { IfOk result (λ bytes. (let body = flat_map (λ p. p.now) parts.now in
        bytes.items ≡ id.now ++ big_bytes 8 (length body) ++ body ++ (if length body % 2 == 1 then pad ∷ [] else []))) }
{
    let body = joined(alloc, parts)?;
    let size = (body.len() as u64).to_be_bytes();
    let pads = [pad];
    let pad: &[u8] = if body.len() % 2 == 1 { &pads } else { &[] };
    joined(alloc, &[id, &size, &body, pad])
}

/// A coded file: what stands in `DST ` behind `FRTE`, and the chunks behind `DST `.
pub fn coded(
    alloc: Global,
    count: u32,
    frames: &[&[u8]],
    behind: &[u8],
) -> Result<Vec<u8>, AllocError> {
    let frte = chunk(alloc, b"FRTE", &[&count.to_be_bytes(), b"\0\x4b"], 0)?;
    let frames = joined(alloc, frames)?;
    let sound = chunk(alloc, b"DST ", &[&frte, &frames], 0)?;
    chunk(
        alloc,
        b"FRM8",
        &[b"DSD ", VERSION, CODED_PROP, &sound, behind],
        0,
    )
}

/// A plain file of this sound, with this pad byte behind a sound of odd size.
pub fn plain(alloc: Global, sound: &[u8], pad: u8) -> Result<Vec<u8>, AllocError> {
    let sound = chunk(alloc, b"DSD ", &[sound], pad)?;
    chunk(alloc, b"FRM8", &[b"DSD ", VERSION, PLAIN_PROP, &sound], 0)
}

/// A chunk with a frame of these parts.
pub fn frame(alloc: Global, parts: &[&[u8]]) -> Result<Vec<u8>, AllocError> {
    chunk(alloc, b"DSTF", parts, 0)
}

/// A coded file of one frame of these parts.
pub fn one_frame(alloc: Global, parts: &[&[u8]]) -> Result<Vec<u8>, AllocError> {
    let frame = frame(alloc, parts)?;
    coded(alloc, 1, &[&frame], &[])
}

/// The file with other bytes at one place, or the file itself where they would pass its end.
pub fn with_bytes(
    alloc: Global,
    file: &[u8],
    place: usize,
    bytes: &[u8],
) -> Result<Vec<u8>, AllocError>
    ensures { place + length bytes.now ≤ length file.now → IfOk result (λ other. other.items ≡ take place file.now ++ bytes.now ++ drop (place + length bytes.now) file.now) }
{
    if bytes.len() > file.len() || place > file.len() - bytes.len() {
        return joined(alloc, &[file]);
    }
    joined(
        alloc,
        &[&file[..place], bytes, &file[place + bytes.len()..]],
    )
}

/// A sound whose bytes count from 0 to 250, over and over.
pub fn counting(alloc: Global, size: u32) -> Result<Vec<u8>, AllocError>
    ensures long { IfOk result (λ bytes. length bytes.items ≡ size) }
    ensures counts { IfOk result (λ bytes. (i : ℕ) → i < size → slice_get bytes.items i ≡ Some (i % 251)) }
{
    let mut sound = Vec::new(alloc);
    for i in 0..size {
        sound.push((i % 251) as u8)?;
    }
    Ok(sound)
}

/// The plain file of 4,705 counting bytes and the pad byte 7.
pub fn odd_plain(alloc: Global) -> Result<Vec<u8>, AllocError> {
    let sound = counting(alloc, 4705)?;
    plain(alloc, &sound, 7)
}

/// The coded file of that plain file: two frames in the plain form, an index, and what `KEPT` says of the plain one.
pub fn two_frames(alloc: Global) -> Result<Vec<u8>, AllocError> {
    let sound = counting(alloc, 4704)?;
    let filling = vec![in alloc; 0x69; 4703]?;
    let first = frame(alloc, &[b"\0", &sound])?;
    // Byte 4,704 is 186.
    let second = frame(alloc, &[b"\0\xba", &filling])?;
    let behind = joined(
        alloc,
        &[
            b"DSTI\0\0\0\0\0\0\0\x18\0\0\0\0\0\0\0\x98\0\0\x12\x61\0\0\0\0\0\0\x13\x06\0\0\x12\x61",
            b"KEPT\0\0\0\0\0\0\0\x2e\x02\0\0\0\0\0\0\x12\x61\x07\0\0\0\0",
            PLAIN_CMPR,
        ],
    )?;
    coded(alloc, 2, &[&first, &second], &behind)
}

/// The coded file of the plain file without sound and these bytes behind it: no frame, an empty index, and `KEPT`, which begins
/// with `front`.
pub fn coded_silent(alloc: Global, front: &[u8], behind: &[u8]) -> Result<Vec<u8>, AllocError> {
    let origin = chunk(alloc, b"KEPT", &[front, PLAIN_CMPR, behind], 0)?;
    let behind = joined(alloc, &[b"DSTI\0\0\0\0\0\0\0\0", &origin])?;
    coded(alloc, 0, &[], &behind)
}

/// The front of `KEPT` in the coded file of the plain one without sound and so many bytes behind it.
pub const NOTHING_KEPT: &[u8; 14] = b"\x02\0\0\0\0\0\0\0\0\0\0\0\0\0";

pub const THREE_KEPT: &[u8; 14] = b"\x02\0\0\0\0\0\0\0\0\0\0\0\0\x03";
