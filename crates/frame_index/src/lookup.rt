// Frames by the index of a form.
ghost use Rattle.std.specs.Prelude.{◌≡◌, ◌+◌, ◌*◌, ◌^◌, ◌<◌, ◌≤◌, ℕ, List, [], ◌∷◌, length, map, true, false, ◌&&◌, ◌==◌, Some, None, IfSome, IfNone, IfOk, OnOk, Err, Ok};
ghost use Rattle.std.specs.declared.alloc.AllocError.{AllocError};
ghost use Rattle.dst_streams.specs.Causes.{Rose, HasCause};
ghost use Rattle.dsdiff_spec.specs.Bytes.{bytes_at, number_at, ◌is◌};
ghost use Rattle.dsdiff_spec.specs.Chunks.{Head, named};
ghost use Rattle.dsdiff_spec.specs.Form.{coded};
ghost use Rattle.dsdiff_spec.specs.Walk as walks;
ghost use Rattle.dsdiff_chunks.specs.Forms.{coded_seen};
ghost use Rattle.dsdiff_chunks.specs.Seen.{head_seen};
ghost use Rattle.frame_index.specs.Entries.{entry_seen};
ghost use Rattle.frame_index.specs.Fitting.{IsInside};
ghost use Rattle.frame_index.specs.Lookup.{index_fault, lies_inside, IsRead};

use crate::frames::longest_frame;
use crate::index::{Entry, Index, entry_in};
use dsdiff_chunks::{ChunkHead, CodedForm, FileFault, OpenFault, read_head, read_range};
use dst_streams::{Failed, Source};
use std::alloc::Global;

/// Reads the index of a coded form, its first chunk `DSTI` (DSDIFF 1.5), whole. Whether its entries are those of frames
/// isn't asked; [`compare`](crate::compare) finds where it differs from a walk.
///
/// `IndexMissing`, where the form has no `DSTI`; `IndexBad`, of the number of frames that `FRTE` says, where the size of
/// `DSTI` isn't twelve bytes for each of them.
pub fn read_index<S: Source>(
    alloc: Global,
    source: &mut S,
    form: &CodedForm,
) -> Result<Index, OpenFault>
    requires size { (n : ℕ) × (S.known source.old ≡ Some n) × (form.now.end ≤ n) }
    ensures bytes { S.bytes source.new ≡ S.bytes source.old }
    ensures loan { S.loan source.new ≡ S.loan source.old }
    ensures size_stays { S.known source.new ≡ S.known source.old }
    ensures accepted { OnOk result (index_fault (coded_seen form.now) form.now.frames ≡ None) }
    ensures count { IfOk result (λ i. length i ≡ form.now.frames) }
    ensures index { IfOk result (λ i. (xs : List ℕ) → S.bytes source.old ≡ Some xs → IsRead xs (coded_seen form.now) i) }
    ensures fault { (fault : FileFault) → result ≡ Err (OpenFault.File fault) → index_fault (coded_seen form.now) form.now.frames ≡ Some fault }
    ensures read { result ≡ Err OpenFault.Read → Rose (S.faults source.old) (S.faults source.new) }
    ensures later { S.faults source.old ≤ S.faults source.new }
    ensures given { S.given source.new ≤ S.given source.old + 12 * form.now.frames }
{
    let head = match index_of(form, form.frames) {
        Ok(head) => head,
        Err(fault) => return Err(OpenFault::File(fault)),
    };
    match read_entries(alloc, source, head.place + 12, form.frames) {
        Ok(bytes) => Ok(Index::from_bytes(bytes, form.frames)),
        Err(fault) => Err(fault),
    }
}

/// Finds frame k, below the number that `FRTE` tells, by its entry in the first `DSTI` alone, and reads the twelve bytes
/// of the entry and the twelve before the frame.
///
/// In this order: `IndexMissing`, where the form has no `DSTI`; `IndexBad`, of k, where the size of `DSTI` isn't twelve
/// bytes for each frame of the frame count, where the entry's place doesn't leave room for the head of a chunk behind `FRTE`, where the
/// frame passes the end of `DST `, or where the twelve bytes before it aren't the head of a `DSTF` of this size;
/// `FrameTooLong`, where the frame has more than `2 * (f + 1)` bytes, f being the bytes of a frame's sound. It takes no
/// memory.
pub fn locate_by_index<S: Source>(
    source: &mut S,
    form: &CodedForm,
    k: u32,
) -> Result<Entry, OpenFault>
    requires size { (n : ℕ) × (S.known source.old ≡ Some n) × (form.now.end ≤ n) }
    requires below { k < form.now.frames }
    ensures bytes { S.bytes source.new ≡ S.bytes source.old }
    ensures loan { S.loan source.new ≡ S.loan source.old }
    ensures size_stays { S.known source.new ≡ S.known source.old }
    ensures accepted { OnOk result ((xs : List ℕ) → S.bytes source.old ≡ Some xs → walks.by_index_fault xs (coded_seen form.now) k ≡ None) }
    ensures entry { IfOk result (λ e. (xs : List ℕ) → S.bytes source.old ≡ Some xs → entry_seen e ≡ walks.indexed xs (coded_seen form.now) k) }
    ensures inside { IfOk result (λ e. IsInside (coded_seen form.now) (entry_seen e)) }
    ensures fault { (fault : FileFault) → result ≡ Err (OpenFault.File fault) → (xs : List ℕ) → S.bytes source.old ≡ Some xs → walks.by_index_fault xs (coded_seen form.now) k ≡ Some fault }
    ensures read { result ≡ Err OpenFault.Read → Rose (S.faults source.old) (S.faults source.new) }
    ensures never_memory { (refused : AllocError) → result ≡ Err (OpenFault.Memory refused) → ⊥ }
    ensures later { S.faults source.old ≤ S.faults source.new }
    ensures given { S.given source.new ≤ S.given source.old + 24 }
{
    let head = match index_of(form, k) {
        Ok(head) => head,
        Err(fault) => return Err(OpenFault::File(fault)),
    };
    let Ok(entry) = read_entry(source, head.place + 12 + 12 * u64::from(k)) else {
        return Err(OpenFault::Read);
    };
    match names_frame(source, form, entry) {
        Ok(true) => {}
        Ok(false) => return Err(OpenFault::File(FileFault::IndexBad { entry: k })),
        Err(_) => return Err(OpenFault::Read),
    }
    if u64::from(entry.size) > longest_frame(form) {
        return Err(OpenFault::File(FileFault::FrameTooLong {
            frame: k,
            length: u64::from(entry.size),
        }));
    }
    Ok(entry)
}

// The index of a form, where it has twelve bytes for each frame of the frame count; else the fault, of the entry that is asked for.
fn index_of(form: &CodedForm, entry: u32) -> Result<ChunkHead, FileFault>
    ensures accepted { OnOk result (index_fault (coded_seen form.now) entry ≡ None) }
    ensures head { IfOk result (λ h. walks.index_head (coded_seen form.now) ≡ head_seen h) }
    ensures within { IfOk result (λ h. h.place + 12 + 12 * form.now.frames ≤ form.now.end) }
    ensures fault { (fault : FileFault) → result ≡ Err fault → index_fault (coded_seen form.now) entry ≡ Some fault }
{
    let Some(head) = first_index(form.heads.as_slice()) else {
        return Err(FileFault::IndexMissing);
    };
    if head.size != 12 * u64::from(form.frames) {
        return Err(FileFault::IndexBad { entry });
    }
    Ok(head)
}

// The first `DSTI` of some chunks.
fn first_index(heads: &[ChunkHead]) -> Option<ChunkHead>
    ensures none { IfNone result (named "DSTI" (map head_seen heads.now) ≡ []) }
    ensures first { IfSome result (λ h. (later : List Head) × (named "DSTI" (map head_seen heads.now) ≡ head_seen h ∷ later)) }
{
    for head in heads {
        if head.id == *b"DSTI" {
            return Some(*head);
        }
    }
    None
}

// The bytes of so many entries that stand at a place.
fn read_entries<S: Source>(
    alloc: Global,
    source: &mut S,
    place: u64,
    count: u32,
) -> Result<Vec<u8>, OpenFault>
    requires fits { place + 12 * count < 2 ^ 64 }
    requires size { (n : ℕ) × (S.known source.old ≡ Some n) × (place + 12 * count ≤ n) }
    ensures bytes { S.bytes source.new ≡ S.bytes source.old }
    ensures loan { S.loan source.new ≡ S.loan source.old }
    ensures size_stays { S.known source.new ≡ S.known source.old }
    ensures given { S.given source.new ≤ S.given source.old + 12 * count }
    ensures later { S.faults source.old ≤ S.faults source.new }
    ensures long { IfOk result (λ bytes. length bytes.items ≡ 12 * count) }
    ensures entries { IfOk result (λ bytes. (xs : List ℕ) → S.bytes source.old ≡ Some xs → bytes.items ≡ bytes_at xs place (12 * count)) }
    ensures faultless { (fault : FileFault) → result ≡ Err (OpenFault.File fault) → ⊥ }
    ensures read { result ≡ Err OpenFault.Read → Rose (S.faults source.old) (S.faults source.new) }
{
    let mut bytes = match vec![in alloc; 0; 12 * count as usize] {
        Ok(bytes) => bytes,
        Err(refused) => return Err(OpenFault::Memory(refused)),
    };
    match read_range(source, place, &mut bytes) {
        Ok(()) => Ok(bytes),
        Err(_) => Err(OpenFault::Read),
    }
}

// The entry whose twelve bytes stand at a place.
fn read_entry<S: Source>(source: &mut S, place: u64) -> Result<Entry, Failed>
    requires fits { place + 12 < 2 ^ 64 }
    requires size { (n : ℕ) × (S.known source.old ≡ Some n) × (place + 12 ≤ n) }
    ensures bytes { S.bytes source.new ≡ S.bytes source.old }
    ensures loan { S.loan source.new ≡ S.loan source.old }
    ensures size_stays { S.known source.new ≡ S.known source.old }
    ensures given { S.given source.new ≤ S.given source.old + 12 }
    ensures cause { HasCause (S.faults source.old) (S.faults source.new) result }
    ensures entry { IfOk result (λ e. (xs : List ℕ) → S.bytes source.old ≡ Some xs → entry_seen e ≡ record { offset = number_at xs place 8; size = number_at xs (place + 8) 4 }) }
{
    let mut bytes = [0; 12];
    match read_range(source, place, &mut bytes) {
        Ok(()) => Ok(entry_in(&bytes, 0)),
        Err(failed) => Err(failed),
    }
}

// Whether an entry is that of a frame: it lies inside `DST ` behind `FRTE`, with the head of a `DSTF` of its size before
// it. The head is read only where it lies inside.
fn names_frame<S: Source>(source: &mut S, form: &CodedForm, entry: Entry) -> Result<bool, Failed>
    requires size { (n : ℕ) × (S.known source.old ≡ Some n) × (form.now.end ≤ n) }
    ensures bytes { S.bytes source.new ≡ S.bytes source.old }
    ensures loan { S.loan source.new ≡ S.loan source.old }
    ensures size_stays { S.known source.new ≡ S.known source.old }
    ensures given { S.given source.new ≤ S.given source.old + 12 }
    ensures cause { HasCause (S.faults source.old) (S.faults source.new) result }
    ensures named { IfOk result (λ b. (xs : List ℕ) → S.bytes source.old ≡ Some xs → b ≡ walks.names_frame xs (coded_seen form.now) (entry_seen entry)) }
    ensures inside { IfOk result (λ b. b ≡ true → lies_inside (coded_seen form.now) (entry_seen entry) ≡ true) }
{
    if !lies_inside(form, entry) {
        return Ok(false);
    }
    match read_head(source, entry.offset - 12) {
        Ok(head) => Ok(is_head_of(head, entry)),
        Err(failed) => Err(failed),
    }
}

// Whether an entry and the twelve bytes before it lie inside `DST ` behind `FRTE`.
fn lies_inside(form: &CodedForm, entry: Entry) -> bool
    ensures { result ≡ lies_inside (coded_seen form.now) (entry_seen entry) }
{
    let body = form.sound.place + 12;
    let end = body + form.sound.size;
    entry.offset >= body + 18 + 12
        && entry.offset <= end
        && u64::from(entry.size) <= end - entry.offset
}

// Whether a chunk is a frame of the size that an entry says.
fn is_head_of(head: ChunkHead, entry: Entry) -> bool
    ensures { result ≡ ((head_seen head).id is "DSTF" && (head_seen head).size == entry.size) }
{
    head.id == *b"DSTF" && head.size == u64::from(entry.size)
}
