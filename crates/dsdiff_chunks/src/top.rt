// The chunks of a form, head by head.
ghost use Rattle.std.specs.Prelude.{◌≡◌, ℕ, ◌+◌, ◌^◌, ◌<◌, ◌≤◌, not, true, List, length, map, Some, None, Err, IfOk, IfErr, vec_capacity};
ghost use Rattle.std.specs.List.{All};
ghost use Rattle.std.specs.declared.alloc.AllocError.{AllocError};
ghost use Rattle.dsdiff_spec.specs.Faults.{◌when◌};
ghost use Rattle.dsdiff_spec.specs.Chunks.{chunks_from, head_at, fits};
ghost use Rattle.dsdiff_spec.specs.declared.faults.FileFault.TheVariants.{Overrun};
ghost use Rattle.dsdiff_spec.specs.Parts.{form_end};
ghost use Rattle.dsdiff_spec.specs.Rules.{opening_fault};
ghost use Rattle.dsdiff_chunks.specs.Lawful.{TileTo};
ghost use Rattle.dsdiff_chunks.specs.Opening.{Reads, HasOpenCause, head_fault, may_lack_pad};
ghost use Rattle.dsdiff_chunks.specs.Seen.{head_seen};
ghost use Rattle.dsdiff_chunks.specs.Steps.{AreChunks, IsExtent};

use crate::head::read_head;
use crate::lists::ChunkHead;
use crate::open::OpenFault;
use crate::read::read_range;
use byteorder::{BigEndian, ByteOrder};
use dsdiff_spec::FileFault;
use dst_streams::Source;
use std::alloc::Global;

/// Chunks of a form at its top level.
const MOST_CHUNKS: usize = 1024;

/// The chunks of a form: the size of the file, the place behind the form, and the heads.
#[derive(Drop)]
pub struct Chunks {
    pub size: u64,
    pub end: u64,
    pub heads: Vec<ChunkHead>,
}

/// The size of a file, and the place behind its form.
#[derive(Clone, Copy)]
pub struct Extent {
    pub size: u64,
    pub end: u64,
}

/// The place behind the form, by the first bytes of a file of this size.
fn end_of_form(size: u64, head: &[u8; 16]) -> Result<u64, FileFault>
    ensures accepted { IfOk result (λ _. head_fault size head.now ≡ None) }
    ensures end { IfOk result (λ end. end ≡ form_end head.now) }
    ensures least { IfOk result (λ end. 16 ≤ end) }
    ensures most { IfOk result (λ end. end ≤ 2 ^ 50 + 12) }
    ensures within { IfOk result (λ end. end ≤ size) }
    ensures refused { IfErr result (λ fault. head_fault size head.now ≡ Some fault) }
{
    let form_size = BigEndian::read_u64(&head[4..]);
    if head[..4] != b"FRM8"[..] || form_size < 4 {
        return Err(FileFault::NotForm);
    }
    if form_size > 1 << 50 {
        return Err(FileFault::FormTooLarge);
    }
    if head[12..] != b"DSD "[..] {
        return Err(FileFault::FormType);
    }
    if 12 + form_size > size {
        return Err(FileFault::Overrun { place: 0 });
    }
    Ok(12 + form_size)
}

/// Reads the first bytes of a file, which say the place behind its form.
pub fn read_extent<S: Source>(source: &mut S) -> Result<Extent, OpenFault>
    ensures bytes { S.bytes source.new ≡ S.bytes source.old }
    ensures loan { S.loan source.new ≡ S.loan source.old }
    ensures size_stays { (n : ℕ) → S.known source.old ≡ Some n → S.known source.new ≡ Some n }
    ensures later { S.faults source.old ≤ S.faults source.new }
    ensures given { S.given source.new ≤ S.given source.old + 16 }
    ensures known { IfOk result (λ extent. S.known source.new ≡ Some extent.size) }
    ensures least { IfOk result (λ extent. 16 ≤ extent.end) }
    ensures most { IfOk result (λ extent. extent.end ≤ 2 ^ 50 + 12) }
    ensures within { IfOk result (λ extent. extent.end ≤ extent.size) }
    ensures told { IfOk result (λ extent. (xs : List ℕ) → S.bytes source.old ≡ Some xs → IsExtent xs extent.size extent.end) }
    ensures stops { IfErr result (HasOpenCause opening_fault (S.bytes source.old) (S.faults source.old) (S.faults source.new)) }
    ensures never_memory { (refused : AllocError) → result ≡ Err (OpenFault.Memory refused) → ⊥ }
{
    let Ok(size) = source.size() else {
        return Err(OpenFault::Read);
    };
    if size < 16 {
        return Err(OpenFault::File(FileFault::NotForm));
    }
    let mut head = [0; 16];
    let Ok(()) = read_range(source, 0, &mut head) else {
        return Err(OpenFault::Read);
    };
    match end_of_form(size, &head) {
        Err(fault) => Err(OpenFault::File(fault)),
        Ok(end) => Ok(Extent { size, end }),
    }
}

/// Whether a chunk lies before an end with its pad byte, which all but `DSD ` may lack there.
fn lies_before(head: ChunkHead, end: u64) -> bool
    requires head { head.place + 12 ≤ end }
    ensures fits { result ≡ fits may_lack_pad end (head_seen head) }
    ensures within { result ≡ true → head.place + 12 + head.size ≤ end }
{
    let room = end - head.place - 12;
    head.size <= room && (head.id != *b"DSD " || head.size % 2 <= room - head.size)
}

/// The head of the chunk at a place, which lies before the form's end.
fn next_head<S: Source>(source: &mut S, place: u64, end: u64) -> Result<ChunkHead, OpenFault>
    requires before { place < end }
    requires known { (n : ℕ) × (S.known source.old ≡ Some n) × (end ≤ n) }
    ensures source { Reads S.bytes S.known S.loan S.faults S.given source.old source.new 12 }
    ensures place { IfOk result (λ h. h.place ≡ place) }
    ensures within { IfOk result (λ h. place + 12 + h.size ≤ end) }
    ensures fits { IfOk result (λ h. fits may_lack_pad end (head_seen h) ≡ true) }
    ensures head { IfOk result (λ h. (xs : List ℕ) → S.bytes source.old ≡ Some xs → head_at xs place ≡ head_seen h) }
    ensures stops { IfErr result (HasOpenCause (λ xs. Overrun place when not (fits may_lack_pad end (head_at xs place))) (S.bytes source.old) (S.faults source.old) (S.faults source.new)) }
    ensures never_memory { (refused : AllocError) → result ≡ Err (OpenFault.Memory refused) → ⊥ }
{
    if end - place < 12 {
        return Err(OpenFault::File(FileFault::Overrun { place }));
    }
    let Ok(head) = read_head(source, place) else {
        return Err(OpenFault::Read);
    };
    if !lies_before(head, end) {
        return Err(OpenFault::File(FileFault::Overrun { place }));
    }
    Ok(head)
}

/// The heads of a form's chunks, in order.
pub fn read_heads<S: Source>(
    alloc: Global,
    source: &mut S,
    end: u64,
) -> Result<Vec<ChunkHead>, OpenFault>
    requires least { 16 ≤ end }
    requires most { end ≤ 2 ^ 50 + 12 }
    requires known { (n : ℕ) × (S.known source.old ≡ Some n) × (end ≤ n) }
    ensures source { Reads S.bytes S.known S.loan S.faults S.given source.old source.new 12288 }
    ensures few { IfOk result (λ heads. length heads.items ≤ 1024) }
    ensures room { IfOk result (λ heads. vec_capacity heads ≡ 1024) }
    ensures tiled { IfOk result (λ heads. TileTo end 16 (map head_seen heads.items)) }
    ensures whole { IfOk result (λ heads. All (λ h. fits may_lack_pad end h ≡ true) (map head_seen heads.items)) }
    ensures found { IfOk result (λ heads. (xs : List ℕ) → S.bytes source.old ≡ Some xs → chunks_from may_lack_pad xs end 1024 16 ≡ record { heads = map head_seen heads.items; fault = None }) }
    ensures stops { IfErr result (HasOpenCause (λ xs. (chunks_from may_lack_pad xs end 1024 16).fault) (S.bytes source.old) (S.faults source.old) (S.faults source.new)) }
{
    let mut heads = match Vec::with_capacity(alloc, MOST_CHUNKS) {
        Ok(heads) => heads,
        Err(refused) => return Err(OpenFault::Memory(refused)),
    };
    let mut place = 16;
    while place < end {
        if heads.len() == MOST_CHUNKS {
            return Err(OpenFault::File(FileFault::TooManyChunks));
        }
        let head = match next_head(source, place, end) {
            Ok(head) => head,
            Err(fault) => return Err(fault),
        };
        heads.push_reserved(head);
        place += 12 + head.size + head.size % 2;
    }
    Ok(heads)
}

/// Reads the heads of a file's form.
pub fn read_chunks<S: Source>(alloc: Global, source: &mut S) -> Result<Chunks, OpenFault>
    ensures bytes { S.bytes source.new ≡ S.bytes source.old }
    ensures loan { S.loan source.new ≡ S.loan source.old }
    ensures size_stays { (n : ℕ) → S.known source.old ≡ Some n → S.known source.new ≡ Some n }
    ensures later { S.faults source.old ≤ S.faults source.new }
    ensures given { S.given source.new ≤ S.given source.old + 12304 }
    ensures chunks { IfOk result (λ c. AreChunks (S.bytes source.new) (S.known source.new) c.size c.end (map head_seen c.heads.items)) }
    ensures stops { IfErr result (HasOpenCause opening_fault (S.bytes source.old) (S.faults source.old) (S.faults source.new)) }
{
    let extent = match read_extent(source) {
        Ok(extent) => extent,
        Err(fault) => return Err(fault),
    };
    match read_heads(alloc, source, extent.end) {
        Ok(heads) => Ok(Chunks {
            size: extent.size,
            end: extent.end,
            heads,
        }),
        Err(fault) => Err(fault),
    }
}
