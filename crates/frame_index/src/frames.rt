// The walk of a coded form: where its frames stand.
ghost use Rattle.std.specs.Prelude.{◌≡◌, ◌+◌, ◌*◌, ◌^◌, ◌<◌, ◌≤◌, ℕ, List, [], length, take, true, false, Some, None, IfNone, IfOk, OnOk, Err, Ok, vec_capacity};
ghost use Rattle.std.specs.declared.alloc.AllocError.{AllocError};
ghost use Rattle.dst_streams.specs.Causes.{Rose};
ghost use Rattle.dsdiff_spec.specs.Bytes.{◌is◌};
ghost use Rattle.dsdiff_spec.specs.Chunks.{head_at, fits};
ghost use Rattle.dsdiff_spec.specs.Form.{coded, longest_frame};
ghost use Rattle.dsdiff_spec.specs.Walk as walks;
ghost use Rattle.dsdiff_chunks.specs.Forms.{coded_seen};
ghost use Rattle.dsdiff_chunks.specs.Seen.{head_seen};
ghost use Rattle.frame_index.specs.Finding.{found_with};
ghost use Rattle.frame_index.specs.Fitting.{IsIndexOf};

use crate::index::{Gathering, Index, room_for};
use dsdiff_chunks::{ChunkHead, CodedForm, FileFault, OpenFault, read_head};
use dst_streams::Source;
use std::alloc::Global;

/// Most chunks that `DST ` may have behind `FRTE`, and most frames.
const MOST_CHUNKS: u32 = 4_000_000;

const MOST_FRAMES: u32 = 1_000_000;

/// Walks the chunks of `DST ` behind `FRTE` (DSDIFF 1.5), of which each `DSTF` is the next frame. No body is read.
///
/// The first fault is answered. At a chunk, in this order: `TooManyChunks`, where 4,000,000 others stand before it; `Overrun`,
/// where its head or its body passes the end of `DST ` (the last pad byte may be missing); `FrameTooLong`, where it is a
/// frame of more than `2 * (f + 1)` bytes, f being the bytes of a frame's sound; `TooManyFrames`, where 1,000,000 frames
/// stand before this one. Behind the last chunk: `CountDiffers`, where `FRTE` says another number of frames.
pub fn walk<S: Source>(alloc: Global, source: &mut S, form: &CodedForm) -> Result<Index, OpenFault>
    requires size { (n : ℕ) × (S.known source.old ≡ Some n) × (form.now.end ≤ n) }
    ensures bytes { S.bytes source.new ≡ S.bytes source.old }
    ensures loan { S.loan source.new ≡ S.loan source.old }
    ensures size_stays { S.known source.new ≡ S.known source.old }
    ensures index { IfOk result (λ i. (xs : List ℕ) → S.bytes source.old ≡ Some xs → walks.walk xs (coded_seen form.now) ≡ Ok i) }
    ensures fits { IfOk result (λ i. IsIndexOf (coded_seen form.now) i) }
    ensures fault { (fault : FileFault) → result ≡ Err (OpenFault.File fault) → (xs : List ℕ) → S.bytes source.old ≡ Some xs → walks.walk xs (coded_seen form.now) ≡ Err fault }
    ensures read { result ≡ Err OpenFault.Read → Rose (S.faults source.old) (S.faults source.new) }
    ensures later { S.faults source.old ≤ S.faults source.new }
    ensures given { S.given source.new ≤ S.given source.old + 48000000 }
{
    match room_for(alloc, form.frames) {
        Ok(room) => walk_from(source, form, room),
        Err(refused) => Err(OpenFault::Memory(refused)),
    }
}

// The head of the chunk at a place before the end of `DST `.
fn next_head<S: Source>(source: &mut S, place: u64, end: u64) -> Result<ChunkHead, OpenFault>
    requires before { place < end }
    requires size { (n : ℕ) × (S.known source.old ≡ Some n) × (end ≤ n) }
    ensures bytes { S.bytes source.new ≡ S.bytes source.old }
    ensures loan { S.loan source.new ≡ S.loan source.old }
    ensures size_stays { S.known source.new ≡ S.known source.old }
    ensures later { S.faults source.old ≤ S.faults source.new }
    ensures given { S.given source.new ≤ S.given source.old + 12 }
    ensures place { IfOk result (λ h. h.place ≡ place) }
    ensures within { IfOk result (λ h. place + 12 + h.size ≤ end) }
    ensures head { IfOk result (λ h. (xs : List ℕ) → S.bytes source.old ≡ Some xs → head_at xs place ≡ head_seen h) }
    ensures overrun { (fault : FileFault) → result ≡ Err (OpenFault.File fault) → fault ≡ FileFault.Overrun place }
    ensures passes { (fault : FileFault) → result ≡ Err (OpenFault.File fault) → (xs : List ℕ) → S.bytes source.old ≡ Some xs → fits (λ id. true) end (head_at xs place) ≡ false }
    ensures read { result ≡ Err OpenFault.Read → Rose (S.faults source.old) (S.faults source.new) }
    ensures never_memory { (refused : AllocError) → result ≡ Err (OpenFault.Memory refused) → ⊥ }
{
    if end - place < 12 {
        return Err(OpenFault::File(FileFault::Overrun { place }));
    }
    let Ok(head) = read_head(source, place) else {
        return Err(OpenFault::Read);
    };
    if head.size > end - place - 12 {
        return Err(OpenFault::File(FileFault::Overrun { place }));
    }
    Ok(head)
}

// Walks the chunks, and has the entries of as many frames as the frame count says, in room for so many. It takes no memory.
fn walk_from<S: Source>(source: &mut S, form: &CodedForm, room: Vec<u8>) -> Result<Index, OpenFault>
    requires none { room.items ≡ [] }
    requires room { vec_capacity room ≡ 12 * form.now.frames }
    requires size { (n : ℕ) × (S.known source.old ≡ Some n) × (form.now.end ≤ n) }
    ensures bytes { S.bytes source.new ≡ S.bytes source.old }
    ensures loan { S.loan source.new ≡ S.loan source.old }
    ensures size_stays { S.known source.new ≡ S.known source.old }
    ensures later { S.faults source.old ≤ S.faults source.new }
    ensures given { S.given source.new ≤ S.given source.old + 48000000 }
    ensures index { IfOk result (λ i. (xs : List ℕ) → S.bytes source.old ≡ Some xs → walks.walk xs (coded_seen form.now) ≡ Ok i) }
    ensures fits { IfOk result (λ i. IsIndexOf (coded_seen form.now) i) }
    ensures fault { (fault : FileFault) → result ≡ Err (OpenFault.File fault) → (xs : List ℕ) → S.bytes source.old ≡ Some xs → walks.walk xs (coded_seen form.now) ≡ Err fault }
    ensures read { result ≡ Err OpenFault.Read → Rose (S.faults source.old) (S.faults source.new) }
    ensures never_memory { (refused : AllocError) → result ≡ Err (OpenFault.Memory refused) → ⊥ }
{
    let mut entries = Gathering::in_room(room, form.frames);
    let end = form.sound.place + 12 + form.sound.size;
    let mut place = form.sound.place + 12 + 18;
    let mut passed = 0;
    let mut frames = 0;
    while place < end {
        if passed == MOST_CHUNKS {
            return Err(OpenFault::File(FileFault::TooManyChunks));
        }
        let head = match next_head(source, place, end) {
            Ok(head) => head,
            Err(fault) => return Err(fault),
        };
        frames = match pass_chunk(form, head, frames, &mut entries) {
            Ok(count) => count,
            Err(fault) => return Err(OpenFault::File(fault)),
        };
        passed += 1;
        place += 12 + head.size + head.size % 2;
    }
    if frames != form.frames {
        return Err(OpenFault::File(FileFault::CountDiffers {
            count: form.frames,
            found: frames,
        }));
    }
    Ok(entries.into_index())
}

// Passes the chunk behind so many frames: a frame has an entry where no more than the frame count are found. How many frames
// were found then.
fn pass_chunk(
    form: &CodedForm,
    head: ChunkHead,
    frames: u32,
    entries: &mut Gathering,
) -> Result<u32, FileFault>
    requires few { length entries.old.entries ≤ frames }
    requires room { entries.old.room ≡ form.now.frames }
    requires within { head.place + 12 + head.size < 2 ^ 64 }
    ensures count { IfOk result (λ n. (found : List walks.Entry) → length found ≡ frames → length (found_with (head_seen head) found) ≡ n) }
    ensures listed { OnOk result ((found : List walks.Entry) → length found ≡ frames → entries.old.entries ≡ take form.now.frames found → entries.new.entries ≡ take form.now.frames (found_with (head_seen head) found)) }
    ensures room { entries.new.room ≡ entries.old.room }
    ensures faultless { OnOk result (((head_seen head).id is "DSTF") ≡ true → walks.frame_fault (coded_seen form.now) (frames, head_seen head) ≡ None) }
    ensures frame { (fault : FileFault) → result ≡ Err fault → ((head_seen head).id is "DSTF") ≡ true }
    ensures fault { (fault : FileFault) → result ≡ Err fault → walks.frame_fault (coded_seen form.now) (frames, head_seen head) ≡ Some fault }
{
    if head.id != *b"DSTF" {
        return Ok(frames);
    }
    if let Some(fault) = frame_fault(form, head, frames) {
        return Err(fault);
    }
    if frames < form.frames {
        entries.push(head.place + 12, head.size as u32);
    }
    Ok(frames + 1)
}

// The fault of a frame behind so many others.
fn frame_fault(form: &CodedForm, head: ChunkHead, frames: u32) -> Option<FileFault>
    ensures fault { result ≡ walks.frame_fault (coded_seen form.now) (frames, head_seen head) }
    ensures short { IfNone result (head.size < 2 ^ 32) }
    ensures few { IfNone result (frames < MOST_FRAMES) }
{
    if head.size > longest_frame(form) {
        return Some(FileFault::FrameTooLong {
            frame: frames,
            length: head.size,
        });
    }
    if frames >= MOST_FRAMES {
        return Some(FileFault::TooManyFrames);
    }
    None
}

// Most bytes of a frame.
pub(crate) fn longest_frame(form: &CodedForm) -> u64
    ensures longest { result ≡ longest_frame (coded_seen form.now) }
    ensures fits { result < 2 ^ 32 }
{
    2 * (form.channels.sound_bytes() as u64 + 1)
}
