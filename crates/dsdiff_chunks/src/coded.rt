// What stands in a coded form: `FRTE`, and what `KEPT` says of the plain file.
ghost use Rattle.std.specs.Prelude.{◌≡◌, ℕ, ◌+◌, ◌^◌, ◌<◌, ◌≤◌, false, List, length, map, option_map, Some, None, Err, IfOk, IfErr};
ghost use Rattle.std.specs.declared.alloc.AllocError.{AllocError};
ghost use Rattle.dst_spec.specs.Sample.{sound_bytes};
ghost use Rattle.dsdiff_spec.specs.Bytes.{number_at};
ghost use Rattle.dsdiff_spec.specs.Chunks.{named, body_of};
ghost use Rattle.dsdiff_spec.specs.Origin.{is_bad_origin, origin_of};
ghost use Rattle.dsdiff_spec.specs.Faults.{◌when◌};
ghost use Rattle.dsdiff_spec.specs.Rules.{origin_in};
ghost use Rattle.dsdiff_spec.specs.declared.faults.FileFault.TheVariants.{KeptBad};
ghost use Rattle.dsdiff_chunks.specs.Lawful.{IsOrigin, IsOriginIfAny, TileTo};
ghost use Rattle.dsdiff_chunks.specs.Opening.{Reads, HasOpenCause, are_bad_origins, coded_sound_fault, frte_fault};
ghost use Rattle.dsdiff_chunks.specs.Seen.{head_seen, origin_seen};

use crate::common::read_octets;
use crate::find::{Finding, find};
use crate::lists::ChunkHead;
use crate::open::OpenFault;
use crate::origin::{Origin, read_origin};
use crate::read::read_range;
use byteorder::{BigEndian, ByteOrder};
use dsdiff_spec::FileFault;
use dst_num::Channels;
use dst_streams::Source;
use std::alloc::Global;

/// The frame count in the first bytes of a coded sound, which are its chunk `FRTE`, or the fault of the first rule that they break.
pub fn frame_count_in(frte: &[u8; 18]) -> Result<u32, FileFault>
    ensures count { IfOk result (λ n. n ≡ number_at frte.now 12 4) }
    ensures few { IfOk result (λ n. n ≤ 1000000) }
    ensures accepted { IfOk result (λ _. frte_fault frte.now ≡ None) }
    ensures refused { IfErr result (λ fault. frte_fault frte.now ≡ Some fault) }
{
    let size = BigEndian::read_u64(&frte[4..]);
    let frame_rate = BigEndian::read_u16(&frte[16..]);
    if frte[..4] != b"FRTE"[..] || size != 6 || frame_rate != 75 {
        return Err(FileFault::FrameRate);
    }
    let frames = BigEndian::read_u32(&frte[12..]);
    if frames > 1_000_000 {
        return Err(FileFault::TooManyFrames);
    }
    Ok(frames)
}

/// Reads the frame count of a coded sound.
pub fn read_frte<S: Source>(source: &mut S, sound: ChunkHead) -> Result<u32, OpenFault>
    requires known { (n : ℕ) × (S.known source.old ≡ Some n) × (sound.place + 12 + sound.size ≤ n) }
    requires most { sound.place + 12 + sound.size ≤ 2 ^ 51 }
    ensures source { Reads S.bytes S.known S.loan S.faults S.given source.old source.new 18 }
    ensures least { IfOk result (λ _. 18 ≤ sound.size) }
    ensures few { IfOk result (λ n. n ≤ 1000000) }
    ensures count { IfOk result (λ n. (xs : List ℕ) → S.bytes source.old ≡ Some xs → n ≡ number_at xs (sound.place + 12 + 12) 4) }
    ensures accepted { IfOk result (λ _. (xs : List ℕ) → S.bytes source.old ≡ Some xs → coded_sound_fault xs (head_seen sound) ≡ None) }
    ensures stops { IfErr result (HasOpenCause (λ xs. coded_sound_fault xs (head_seen sound)) (S.bytes source.old) (S.faults source.old) (S.faults source.new)) }
    ensures never_memory { (refused : AllocError) → result ≡ Err (OpenFault.Memory refused) → ⊥ }
{
    if sound.size < 18 {
        return Err(OpenFault::File(FileFault::FrameRate));
    }
    let mut frte = [0; 18];
    let Ok(()) = read_range(source, sound.place + 12, &mut frte) else {
        return Err(OpenFault::Read);
    };
    match frame_count_in(&frte) {
        Ok(frames) => Ok(frames),
        Err(fault) => Err(OpenFault::File(fault)),
    }
}

/// Reads what a chunk `KEPT` says.
fn read_one_origin<S: Source>(
    alloc: Global,
    source: &mut S,
    head: ChunkHead,
    channels: Channels,
    frame_count: u32,
) -> Result<Origin, OpenFault>
    requires known { (n : ℕ) × (S.known source.old ≡ Some n) × (head.place + 12 + head.size ≤ n) }
    requires most { head.place + 12 + head.size ≤ 2 ^ 51 }
    ensures source { Reads S.bytes S.known S.loan S.faults S.given source.old source.new 131086 }
    ensures origin { IfOk result (λ k. (xs : List ℕ) → S.bytes source.old ≡ Some xs → origin_seen k ≡ origin_of (body_of xs (head_seen head))) }
    ensures lawful { IfOk result (λ k. IsOrigin channels.channels (sound_bytes channels) frame_count (origin_seen k)) }
    ensures accepted { IfOk result (λ _. (xs : List ℕ) → S.bytes source.old ≡ Some xs → is_bad_origin channels.channels (sound_bytes channels) frame_count (body_of xs (head_seen head)) ≡ false) }
    ensures stops { IfErr result (HasOpenCause (λ xs. KeptBad when is_bad_origin channels.channels (sound_bytes channels) frame_count (body_of xs (head_seen head))) (S.bytes source.old) (S.faults source.old) (S.faults source.new)) }
{
    if head.size > 131086 {
        return Err(OpenFault::File(FileFault::KeptBad));
    }
    let body = match read_octets(alloc, source, head.place + 12, head.size) {
        Ok(body) => body,
        Err(fault) => return Err(fault),
    };
    match read_origin(alloc, body.as_slice(), channels, frame_count) {
        Ok(Some(origin)) => Ok(origin),
        Ok(None) => Err(OpenFault::File(FileFault::KeptBad)),
        Err(refused) => Err(OpenFault::Memory(refused)),
    }
}

/// Reads what a coded form says of the plain file, where it has a `KEPT`.
pub fn read_any_origin<S: Source>(
    alloc: Global,
    source: &mut S,
    heads: &[ChunkHead],
    end: u64,
    channels: Channels,
    frame_count: u32,
) -> Result<Option<Origin>, OpenFault>
    requires known { (n : ℕ) × (S.known source.old ≡ Some n) × (end ≤ n) }
    requires most { end ≤ 2 ^ 51 }
    requires tiled { TileTo end 16 (map head_seen heads.now) }
    ensures source { Reads S.bytes S.known S.loan S.faults S.given source.old source.new 131086 }
    ensures origin { IfOk result (λ o. (xs : List ℕ) → S.bytes source.old ≡ Some xs → option_map origin_seen o ≡ origin_in xs (named "KEPT" (map head_seen heads.now))) }
    ensures lawful { IfOk result (λ o. IsOriginIfAny channels.channels (sound_bytes channels) frame_count (option_map origin_seen o)) }
    ensures accepted { IfOk result (λ _. (xs : List ℕ) → S.bytes source.old ≡ Some xs → are_bad_origins channels.channels (sound_bytes channels) frame_count xs (named "KEPT" (map head_seen heads.now)) ≡ false) }
    ensures stops { IfErr result (HasOpenCause (λ xs. KeptBad when are_bad_origins channels.channels (sound_bytes channels) frame_count xs (named "KEPT" (map head_seen heads.now))) (S.bytes source.old) (S.faults source.old) (S.faults source.new)) }
    // several are refused by name, before memory is taken
    ensures several { 1 < length (named "KEPT" (map head_seen heads.now)) → result ≡ Err (OpenFault.File KeptBad) }
{
    match find(heads, *b"KEPT") {
        Finding::Nothing => Ok(None),
        Finding::Several(_) => Err(OpenFault::File(FileFault::KeptBad)),
        Finding::One(head) => match read_one_origin(alloc, source, head, channels, frame_count) {
            Ok(origin) => Ok(Some(origin)),
            Err(fault) => Err(fault),
        },
    }
}
