// The body of `PROP`: its chunks, and what they say.
ghost use Rattle.std.specs.Prelude.{◌≡◌, ◌∷◌, [], ◌+◌, ◌^◌, ◌≤◌, true, false, length, take, filter, bytes_eq, IfOk, IfErr, OnOk, IfNone, IfSome, Some, None};
ghost use Rattle.byteorder.specs.Endian.{big_number};
ghost use Rattle.chunk_view.specs.Placed.{head_behind};
ghost use Rattle.chunk_view.specs.Seen.{seen};
ghost use Rattle.dsdiff_spec.specs.Chunks.{body_of};
ghost use Rattle.dsdiff_spec.specs.Faults.{◌otherwise◌};
ghost use Rattle.dsdiff_spec.specs.Form.{shape_of};
ghost use Rattle.dsdiff_spec.specs.Parts.{in_prop, channel_count, multiple, compression};
ghost use Rattle.dsdiff_spec.specs.Rules.{local_fault, moved, type_fault, rate_fault, channels_fault, compression_fault};
ghost use Rattle.dsdiff_chunks.specs.Local.{is_bad_rate, is_bad_count, is_bad_compression};

use chunk_view::{ChunkView, Chunks, channels_of, compression_of, rate_of, split_chunks};
use dsdiff_spec::FileFault;
use dst_num::Channels;

/// What a body of `PROP` says of the sound.
#[derive(Clone, Copy, Debug, PartialEq, Eq)]
pub struct PropFields {
    pub channels: Channels,
    pub compression: [u8; 4],
}

/// Reads a body of `PROP` that begins at `start` in the file, or answers the fault of the first rule that it breaks.
pub fn read_prop(start: u64, body: &[u8]) -> Result<PropFields, FileFault>
    requires place { start ≤ 2 ^ 50 + 12 }
    requires short { length body.now ≤ 65536 }
    ensures accepted { IfOk result (λ _. local_fault start body.now ≡ None) }
    ensures channels { IfOk result (λ p. p.channels ≡ shape_of (channel_count body.now) (multiple body.now)) }
    ensures compression { IfOk result (λ p. p.compression ≡ compression body.now) }
    ensures refused { IfErr result (λ fault. local_fault start body.now ≡ Some fault) }
{
    match check_chunks(start, body) {
        Ok(()) => read_fields(body),
        Err(fault) => Err(fault),
    }
}

// Whether the body is of the type `SND `, and whole chunks stand behind it.
fn check_chunks(start: u64, body: &[u8]) -> Result<(), FileFault>
    requires place { start ≤ 2 ^ 50 + 12 }
    requires short { length body.now ≤ 65536 }
    ensures of_type { OnOk result (type_fault body.now ≡ None) }
    ensures whole { OnOk result ((in_prop body.now).fault ≡ None) }
    ensures refused { IfErr result (λ fault. (type_fault body.now otherwise moved start (in_prop body.now).fault) ≡ Some fault) }
{
    if !body.starts_with(b"SND ") {
        return Err(FileFault::PropType);
    }
    match split_chunks(&body[4..]) {
        Ok(_) => Ok(()),
        Err(overrun) => Err(FileFault::Overrun {
            place: start + 4 + overrun.place,
        }),
    }
}

// What the chunks say, by the rules on each of them.
fn read_fields(body: &[u8]) -> Result<PropFields, FileFault>
    requires short { length body.now ≤ 65536 }
    requires of_type { type_fault body.now ≡ None }
    requires whole { (in_prop body.now).fault ≡ None }
    ensures accepted { OnOk result ((rate_fault body.now otherwise channels_fault body.now otherwise compression_fault body.now) ≡ None) }
    ensures channels { IfOk result (λ p. p.channels ≡ shape_of (channel_count body.now) (multiple body.now)) }
    ensures compression { IfOk result (λ p. p.compression ≡ compression body.now) }
    ensures refused { IfErr result (λ fault. (rate_fault body.now otherwise channels_fault body.now otherwise compression_fault body.now) ≡ Some fault) }
{
    let Some(fs) = local(body, *b"FS  ") else {
        return Err(FileFault::Rate);
    };
    let Some(rate) = rate_in(fs.body) else {
        return Err(FileFault::Rate);
    };
    let Some(chnl) = local(body, *b"CHNL") else {
        return Err(FileFault::Channels);
    };
    let Some(count) = count_in(chnl.body) else {
        return Err(FileFault::Channels);
    };
    let Some(cmpr) = local(body, *b"CMPR") else {
        return Err(FileFault::Compression);
    };
    let Some(compression) = compression_in(cmpr.body) else {
        return Err(FileFault::Compression);
    };
    let Some(channels) = Channels::at(count, rate / 2_822_400) else {
        unreachable!()
    };
    Ok(PropFields {
        channels,
        compression,
    })
}

// The only chunk of this id in a body of `PROP`, or None where there are none or several.
pub(crate) fn local<'a>(body: &'a [u8], id: [u8; 4]) -> Option<ChunkView<'a>>
    requires long { 4 ≤ length body.now }
    requires short { length body.now ≤ 65536 }
    requires whole { (in_prop body.now).fault ≡ None }
    ensures none { IfNone result (length (filter (λ h. bytes_eq h.id id) (in_prop body.now).heads) ≡ 1 → ⊥) }
    ensures one { IfSome result (λ view. filter (λ h. bytes_eq h.id id) (in_prop body.now).heads ≡ head_behind 4 (seen view) ∷ []) }
    ensures body { IfSome result (λ view. body_of body.now (head_behind 4 (seen view)) ≡ view.body.now) }
{
    let Ok(chunks) = split_chunks(&body[4..]) else {
        unreachable!()
    };
    only(chunks, id)
}

// The rate in a body of `FS  `, unless it is refused.
fn rate_in(body: &[u8]) -> Option<u32>
    ensures none { IfNone result (is_bad_rate body.now ≡ true) }
    ensures some { IfSome result (λ _. is_bad_rate body.now ≡ false) }
    ensures rate { IfSome result (λ rate. rate ≡ big_number 4 body.now) }
{
    let rate = rate_of(body)?;
    let known = rate == 2_822_400 || rate == 5_644_800 || rate == 11_289_600;
    if body.len() != 4 || !known {
        return None;
    }
    Some(rate)
}

// The number of channels in a body of `CHNL`, unless it is refused.
fn count_in(body: &[u8]) -> Option<u32>
    ensures none { IfNone result (is_bad_count body.now ≡ true) }
    ensures some { IfSome result (λ _. is_bad_count body.now ≡ false) }
    ensures count { IfSome result (λ count. count ≡ big_number 2 body.now) }
{
    let count = channels_of(body)? as usize;
    if count < 1 || count > 6 || body.len() < 2 + 4 * count {
        return None;
    }
    Some(count as u32)
}

// The compression in a body of `CMPR`, unless it is refused.
fn compression_in(body: &[u8]) -> Option<[u8; 4]>
    ensures none { IfNone result (is_bad_compression body.now ≡ true) }
    ensures some { IfSome result (λ _. is_bad_compression body.now ≡ false) }
    ensures compression { IfSome result (λ compression. compression ≡ take 4 body.now) }
{
    let compression = compression_of(body)?;
    if compression != *b"DSD " && compression != *b"DST " {
        return None;
    }
    Some(compression)
}

// The only one of some chunks that has this id, or None where there are none or several.
fn only<'a>(chunks: Chunks<'a>, id: [u8; 4]) -> Option<ChunkView<'a>>
    ensures none { IfNone result (length (filter (λ p. bytes_eq p.chunk.id id) chunks.entry) ≡ 1 → ⊥) }
    ensures one { IfSome result (λ view. filter (λ p. bytes_eq p.chunk.id id) chunks.entry ≡ seen view ∷ []) }
{
    let mut found = None;
    for view in chunks {
        if view.id == id {
            if found.is_some() {
                return None;
            }
            found = Some(view);
        }
    }
    found
}
