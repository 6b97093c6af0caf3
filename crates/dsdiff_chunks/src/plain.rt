// What stands in a plain form, and behind it.
ghost use Rattle.std.specs.Prelude.{◌≡◌, ℕ, ◌+◌, ◌-◌, ◌%◌, ◌^◌, ◌≤◌, ◌==◌, if◌then◌else◌, List, length, get_or, map, Option, Some, None, IfOk, IfErr};
ghost use Rattle.dst_spec.specs.Sample.{sound_bytes};
ghost use Rattle.dsdiff_spec.specs.Bytes.{bytes_at};
ghost use Rattle.dsdiff_spec.specs.Form.{frames_for};
ghost use Rattle.dsdiff_spec.specs.declared.faults.FileFault.{FileFault};
ghost use Rattle.dsdiff_chunks.specs.Opening.{Reads, HasOpenCause, count_fault, plain_parts_fault, space_fault};
ghost use Rattle.dsdiff_chunks.specs.Seen.{head_seen};

use crate::common::read_octets;
use crate::find::{Finding, find_either};
use crate::lists::ChunkHead;
use crate::open::OpenFault;
use crate::read::read_range;
use crate::top::Chunks;
use dsdiff_spec::FileFault;
use dst_num::Channels;
use dst_streams::Source;
use std::alloc::Global;

/// How many frames a sound of some bytes needs.
fn count_frames(channels: Channels, sound_size: u64) -> Result<u32, FileFault>
    requires most { sound_size ≤ 2 ^ 51 }
    ensures even { IfOk result (λ _. sound_size % channels.channels ≡ 0) }
    ensures frames { IfOk result (λ n. n ≡ frames_for (sound_bytes channels) sound_size) }
    ensures few { IfOk result (λ n. n ≤ 1000000) }
    ensures accepted { IfOk result (λ _. count_fault channels.channels (sound_bytes channels) sound_size ≡ None) }
    ensures refused { IfErr result (λ fault. count_fault channels.channels (sound_bytes channels) sound_size ≡ Some fault) }
{
    if sound_size % channels.count() as u64 != 0 {
        return Err(FileFault::SoundUneven);
    }
    let bytes = channels.sound_bytes() as u64;
    let frames = (sound_size + bytes - 1) / bytes;
    if frames > 1_000_000 {
        return Err(FileFault::TooManyFrames);
    }
    Ok(frames as u32)
}

/// Whether a plain form leaves room for what encoding adds.
fn check_room(chunks: &Chunks, prop_size: u64) -> Option<FileFault>
    requires least { 16 ≤ chunks.now.end }
    requires within { chunks.now.end ≤ chunks.now.size }
    ensures fault { result ≡ space_fault chunks.now.size chunks.now.end (map head_seen chunks.now.heads.items) prop_size }
    ensures short { result ≡ None → chunks.now.size - chunks.now.end ≤ 65536 }
{
    let heads = chunks.heads.as_slice();
    let found = find_either(heads, *b"DSTI", *b"KEPT");
    if let Finding::One(head) | Finding::Several(head) = found {
        return Some(FileFault::CodedChunk { place: head.place });
    }
    if heads.len() > 1022 {
        return Some(FileFault::TooManyChunks);
    }
    if prop_size > 65520 {
        return Some(FileFault::PropTooLong);
    }
    if chunks.end - 12 > 1 << 49 {
        return Some(FileFault::FormTooLarge);
    }
    let length = chunks.size - chunks.end;
    if length > 65536 {
        return Some(FileFault::TailTooLong { length });
    }
    None
}

/// The byte behind a sound of odd size, else 0.
fn read_pad<S: Source>(source: &mut S, sound: ChunkHead) -> Result<u8, OpenFault>
    requires known { (n : ℕ) × (S.known source.old ≡ Some n) × (sound.place + 12 + sound.size + sound.size % 2 ≤ n) }
    requires most { sound.place + 12 + sound.size ≤ 2 ^ 51 }
    ensures source { Reads S.bytes S.known S.loan S.faults S.given source.old source.new 1 }
    ensures even { IfOk result (λ pad. sound.size % 2 ≡ 0 → pad ≡ 0) }
    ensures read { IfOk result (λ pad. (xs : List ℕ) → S.bytes source.old ≡ Some xs → pad ≡ (if sound.size % 2 == 1 then get_or xs (sound.place + 12 + sound.size) 0 else 0)) }
    ensures stops { IfErr result (λ fault. (rules : List ℕ → Option FileFault) → HasOpenCause rules (S.bytes source.old) (S.faults source.old) (S.faults source.new) fault) }
{
    if sound.size % 2 == 0 {
        return Ok(0);
    }
    let mut pad = [0];
    match read_range(source, sound.place + 12 + sound.size, &mut pad) {
        Ok(()) => Ok(pad[0]),
        Err(_) => Err(OpenFault::Read),
    }
}

/// What a plain form says: its frames, the byte behind its sound, and the bytes behind it.
#[derive(Drop)]
pub struct PlainParts {
    pub frames: u32,
    pub pad: u8,
    pub behind: Vec<u8>,
}

/// Reads what stands behind a plain sound, where the form keeps its rules.
pub fn read_plain<S: Source>(
    alloc: Global,
    source: &mut S,
    chunks: &Chunks,
    prop_size: u64,
    sound: ChunkHead,
    channels: Channels,
) -> Result<PlainParts, OpenFault>
    requires known { S.known source.old ≡ Some chunks.now.size }
    requires least { 16 ≤ chunks.now.end }
    requires most { chunks.now.end ≤ 2 ^ 50 + 12 }
    requires within { chunks.now.end ≤ chunks.now.size }
    requires padded { sound.place + 12 + sound.size + sound.size % 2 ≤ chunks.now.end }
    ensures source { Reads S.bytes S.known S.loan S.faults S.given source.old source.new 65537 }
    ensures even { IfOk result (λ _. sound.size % channels.channels ≡ 0) }
    ensures frames { IfOk result (λ p. p.frames ≡ frames_for (sound_bytes channels) sound.size) }
    ensures few { IfOk result (λ p. p.frames ≤ 1000000) }
    ensures pad_even { IfOk result (λ p. sound.size % 2 ≡ 0 → p.pad ≡ 0) }
    ensures pad { IfOk result (λ p. (xs : List ℕ) → S.bytes source.old ≡ Some xs → p.pad ≡ (if sound.size % 2 == 1 then get_or xs (sound.place + 12 + sound.size) 0 else 0)) }
    ensures behind_most { IfOk result (λ p. length p.behind.items ≤ 65536) }
    ensures behind { IfOk result (λ p. (xs : List ℕ) → S.bytes source.old ≡ Some xs → p.behind.items ≡ bytes_at xs chunks.now.end (chunks.now.size - chunks.now.end)) }
    ensures accepted { IfOk result (λ _. plain_parts_fault chunks.now.size chunks.now.end (map head_seen chunks.now.heads.items) prop_size sound.size channels.channels (sound_bytes channels) ≡ None) }
    ensures stops { IfErr result (HasOpenCause (λ _. plain_parts_fault chunks.now.size chunks.now.end (map head_seen chunks.now.heads.items) prop_size sound.size channels.channels (sound_bytes channels)) (S.bytes source.old) (S.faults source.old) (S.faults source.new)) }
{
    let frames = match count_frames(channels, sound.size) {
        Ok(frames) => frames,
        Err(fault) => return Err(OpenFault::File(fault)),
    };
    if let Some(fault) = check_room(chunks, prop_size) {
        return Err(OpenFault::File(fault));
    }
    let pad = match read_pad(source, sound) {
        Ok(pad) => pad,
        Err(fault) => return Err(fault),
    };
    match read_octets(alloc, source, chunks.end, chunks.size - chunks.end) {
        Ok(behind) => Ok(PlainParts {
            frames,
            pad,
            behind,
        }),
        Err(fault) => Err(fault),
    }
}
