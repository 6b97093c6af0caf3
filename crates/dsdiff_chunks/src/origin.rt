// What the body of `KEPT` says of the plain file that a coded one was made from, and whether it is lawful.
ghost use Rattle.std.specs.Prelude.{◌≡◌, ◌%◌, ◌≤◌, length, true, false, IfOk, IfNone, IfSome, MatchBool, MatchOption};
ghost use Rattle.dst_spec.specs.Sample.{sound_bytes};
ghost use Rattle.dsdiff_spec.specs.Origin.{bad_version_1, bad_version_2, is_bad_origin, origin_of, origin_version};
ghost use Rattle.dsdiff_chunks.specs.Lawful.{IsOrigin};
ghost use Rattle.dsdiff_chunks.specs.Parts.{is_bad_cmpr, is_bad_sound, is_bad_version, parts_seen};
ghost use Rattle.dsdiff_chunks.specs.Seen.{origin_seen};

use crate::lists::Octets;
use byteorder::{BigEndian, ByteOrder};
use dst_num::Channels;
use std::alloc::{AllocError, Global};

/// What a chunk `KEPT` says of the plain file: the size of its sound in bytes, the pad byte behind the sound, its chunk
/// `CMPR` with its pad byte; and the bytes behind its form, which are kept. Version 1 has pad 0 and no kept bytes.
#[derive(Drop)]
pub struct Origin {
    pub sound: u64,
    pub pad: u8,
    pub cmpr: Octets,
    pub kept: Octets,
}

/// What a body of `KEPT` says, in a form of these channels and this frame count; None where the body is refused.
pub fn read_origin(
    alloc: Global,
    body: &[u8],
    channels: Channels,
    frame_count: u32,
) -> Result<Option<Origin>, AllocError>
    ensures refused { IfOk result (λ o. MatchOption o (is_bad_origin channels.channels (sound_bytes channels) frame_count body.now ≡ true) (λ _. is_bad_origin channels.channels (sound_bytes channels) frame_count body.now ≡ false)) }
    ensures origin { IfOk result (λ o. MatchOption o (Unit {0}) (λ k. origin_seen k ≡ origin_of body.now)) }
    ensures lawful { IfOk result (λ o. MatchOption o (Unit {0}) (λ k. IsOrigin channels.channels (sound_bytes channels) frame_count (origin_seen k))) }
{
    let Some(parts) = parts_of(body) else {
        return Ok(None);
    };
    if !is_plain_cmpr(parts.cmpr) || !is_sound_of(channels, frame_count, parts.sound) {
        return Ok(None);
    }
    let cmpr = Octets::from_vec(Vec::from_slice(alloc, parts.cmpr)?);
    let kept = Octets::from_vec(Vec::from_slice(alloc, parts.kept)?);
    let OriginParts { sound, pad, .. } = parts;
    Ok(Some(Origin {
        sound,
        pad,
        cmpr,
        kept,
    }))
}

// The fields of a body of `KEPT`, lent from it.
#[derive(Clone, Copy)]
struct OriginParts<'a> {
    sound: u64,
    pad: u8,
    cmpr: &'a [u8],
    kept: &'a [u8],
}

// The fields of a body, unless its version or that version's rules refuse it.
fn parts_of<'a>(body: &'a [u8]) -> Option<OriginParts<'a>>
    ensures none { IfNone result (is_bad_version body.now ≡ true) }
    ensures some { IfSome result (λ _. is_bad_version body.now ≡ false) }
    ensures parts { IfSome result (λ parts. parts_seen parts ≡ origin_of body.now) }
    ensures padded { IfSome result (λ parts. parts.sound % 2 ≡ 0 → parts.pad ≡ 0) }
    ensures cmpr_most { IfSome result (λ parts. length parts.cmpr.now ≤ 65536) }
    ensures kept_most { IfSome result (λ parts. length parts.kept.now ≤ 65536) }
{
    match body.first() {
        Some(1) => parts_of_first(body),
        Some(2) => parts_of_second(body),
        _ => None,
    }
}

// Version 1: the size of the sound, and `CMPR`.
fn parts_of_first<'a>(body: &'a [u8]) -> Option<OriginParts<'a>>
    requires { origin_version body.now ≡ 1 }
    ensures none { IfNone result (bad_version_1 body.now ≡ true) }
    ensures some { IfSome result (λ _. bad_version_1 body.now ≡ false) }
    ensures parts { IfSome result (λ parts. parts_seen parts ≡ origin_of body.now) }
    ensures padded { IfSome result (λ parts. parts.sound % 2 ≡ 0 → parts.pad ≡ 0) }
    ensures cmpr_most { IfSome result (λ parts. length parts.cmpr.now ≤ 65536) }
    ensures kept_most { IfSome result (λ parts. length parts.kept.now ≤ 65536) }
{
    if body.len() < 25 || body.len() > 65_545 {
        return None;
    }
    let sound = BigEndian::read_u64(&body[1..]);
    Some(OriginParts {
        sound,
        pad: 0,
        cmpr: &body[9..],
        kept: &[],
    })
}

// Version 2: the size of the sound, its pad byte, the number of kept bytes, `CMPR`, and these bytes.
fn parts_of_second<'a>(body: &'a [u8]) -> Option<OriginParts<'a>>
    requires { origin_version body.now ≡ 2 }
    ensures none { IfNone result (bad_version_2 body.now ≡ true) }
    ensures some { IfSome result (λ _. bad_version_2 body.now ≡ false) }
    ensures parts { IfSome result (λ parts. parts_seen parts ≡ origin_of body.now) }
    ensures padded { IfSome result (λ parts. parts.sound % 2 ≡ 0 → parts.pad ≡ 0) }
    ensures cmpr_most { IfSome result (λ parts. length parts.cmpr.now ≤ 65536) }
    ensures kept_most { IfSome result (λ parts. length parts.kept.now ≤ 65536) }
{
    if body.len() < 30 || body.len() > 131_086 {
        return None;
    }
    let sound = BigEndian::read_u64(&body[1..]);
    let pad = body[9];
    let count = BigEndian::read_u32(&body[10..]) as usize;
    if count > 65_536 || body.len() > 65_550 + count {
        return None;
    }
    if sound % 2 == 0 && pad != 0 {
        return None;
    }
    let end = body.len().saturating_sub(count);
    Some(OriginParts {
        sound,
        pad,
        cmpr: &body[end.min(14)..end],
        kept: &body[end..],
    })
}

// Whether these bytes are one chunk `CMPR` that says that the sound is plain.
fn is_plain_cmpr(cmpr: &[u8]) -> bool
    ensures { MatchBool result (is_bad_cmpr cmpr.now ≡ false) (is_bad_cmpr cmpr.now ≡ true) }
{
    if cmpr.len() < 16 || cmpr[..4] != b"CMPR"[..] {
        return false;
    }
    let size = BigEndian::read_u64(&cmpr[4..]);
    let long = (cmpr.len() - 12) as u64;
    if size < 4 || size > long || long - size != size % 2 {
        return false;
    }
    cmpr[12..16] == b"DSD "[..]
}

// Whether a sound of this size is of these channels, and stands in so many frames.
fn is_sound_of(channels: Channels, frame_count: u32, sound: u64) -> bool
    ensures { MatchBool result (is_bad_sound channels.channels (sound_bytes channels) frame_count sound ≡ false) (is_bad_sound channels.channels (sound_bytes channels) frame_count sound ≡ true) }
{
    sound % channels.count() as u64 == 0
        && sound.div_ceil(channels.sound_bytes() as u64) == u64::from(frame_count)
}
