// The chunks that each form has: `FVER`, `PROP` and the sound.
ghost use Rattle.std.specs.Prelude.{◌≡◌, ℕ, ◌+◌, ◌^◌, ◌<◌, ◌≤◌, List, [], ◌∷◌, length, filter, map, Option, Some, None, Err, IfOk, IfErr, OnOk};
ghost use Rattle.std.specs.declared.alloc.AllocError.{AllocError};
ghost use Rattle.dsdiff_spec.specs.Bytes.{bytes_at};
ghost use Rattle.dsdiff_spec.specs.Chunks.{named, the_first};
ghost use Rattle.dsdiff_spec.specs.Form.{shape_of};
ghost use Rattle.dsdiff_spec.specs.Parts.{channel_count, multiple, compression};
ghost use Rattle.dsdiff_spec.specs.Rules.{local_fault};
ghost use Rattle.dsdiff_spec.specs.declared.faults.FileFault.{FileFault};
ghost use Rattle.dsdiff_chunks.specs.Lawful.{TileTo};
ghost use Rattle.dsdiff_chunks.specs.Opening.{Reads, HasOpenCause, first_fault, is_sound, props_fault, sounds_fault};
ghost use Rattle.dsdiff_chunks.specs.Kinds.{kind_seen};
ghost use Rattle.dsdiff_chunks.specs.Seen.{head_seen};
ghost use Rattle.dsdiff_chunks.specs.Steps.{IsTheSound};

use crate::find::{Finding, find, find_either};
use crate::lists::ChunkHead;
use crate::open::OpenFault;
use crate::prop::{PropFields, read_prop};
use crate::read::read_range;
use dsdiff_spec::FileFault;
use dst_streams::Source;
use std::alloc::Global;

/// The body of `PROP`, and what it says.
#[derive(Drop)]
pub struct Prop {
    pub body: Vec<u8>,
    pub fields: PropFields,
}

/// Sound as it is, in a chunk `DSD `, or as frames, in a chunk `DST `.
#[derive(Clone, Copy)]
pub enum Kind {
    Plain,
    Coded,
}

/// The one sound chunk of a form.
#[derive(Clone, Copy)]
pub struct Sound {
    pub kind: Kind,
    pub head: ChunkHead,
}

/// Reads so many bytes from a place on.
pub fn read_octets<S: Source>(
    alloc: Global,
    source: &mut S,
    from: u64,
    count: u64,
) -> Result<Vec<u8>, OpenFault>
    requires known { (n : ℕ) × (S.known source.old ≡ Some n) × (from + count ≤ n) }
    requires few { count ≤ 131086 }
    requires fits { from + count < 2 ^ 64 }
    ensures source { Reads S.bytes S.known S.loan S.faults S.given source.old source.new count }
    ensures long { IfOk result (λ octets. length octets.items ≡ count) }
    ensures read { IfOk result (λ octets. (xs : List ℕ) → S.bytes source.old ≡ Some xs → octets.items ≡ bytes_at xs from count) }
    ensures stops { IfErr result (λ fault. (rules : List ℕ → Option FileFault) → HasOpenCause rules (S.bytes source.old) (S.faults source.old) (S.faults source.new) fault) }
{
    let mut octets = match vec![in alloc; 0; count as usize] {
        Ok(octets) => octets,
        Err(refused) => return Err(OpenFault::Memory(refused)),
    };
    match read_range(source, from, &mut octets) {
        Ok(()) => Ok(octets),
        Err(_) => Err(OpenFault::Read),
    }
}

/// Whether the first chunk is an `FVER` of version 1.
pub fn check_version<S: Source>(
    source: &mut S,
    heads: &[ChunkHead],
    end: u64,
) -> Result<(), OpenFault>
    requires known { (n : ℕ) × (S.known source.old ≡ Some n) × (end ≤ n) }
    requires tiled { TileTo end 16 (map head_seen heads.now) }
    ensures source { Reads S.bytes S.known S.loan S.faults S.given source.old source.new 1 }
    ensures accepted { OnOk result ((xs : List ℕ) → S.bytes source.old ≡ Some xs → first_fault xs (the_first (map head_seen heads.now)) ≡ None) }
    ensures stops { IfErr result (HasOpenCause (λ xs. first_fault xs (the_first (map head_seen heads.now))) (S.bytes source.old) (S.faults source.old) (S.faults source.new)) }
    ensures never_memory { (refused : AllocError) → result ≡ Err (OpenFault.Memory refused) → ⊥ }
{
    if heads.is_empty() {
        return Err(OpenFault::File(FileFault::Version));
    }
    check_first(source, heads[0], end)
}

/// Whether a chunk is an `FVER` of version 1.
fn check_first<S: Source>(source: &mut S, head: ChunkHead, end: u64) -> Result<(), OpenFault>
    requires known { (n : ℕ) × (S.known source.old ≡ Some n) × (end ≤ n) }
    requires within { head.place + 12 + head.size ≤ end }
    ensures source { Reads S.bytes S.known S.loan S.faults S.given source.old source.new 1 }
    ensures accepted { OnOk result ((xs : List ℕ) → S.bytes source.old ≡ Some xs → first_fault xs (head_seen head) ≡ None) }
    ensures stops { IfErr result (HasOpenCause (λ xs. first_fault xs (head_seen head)) (S.bytes source.old) (S.faults source.old) (S.faults source.new)) }
    ensures never_memory { (refused : AllocError) → result ≡ Err (OpenFault.Memory refused) → ⊥ }
{
    if head.id != *b"FVER" || head.size != 4 {
        return Err(OpenFault::File(FileFault::Version));
    }
    let mut version = [0];
    let Ok(()) = read_range(source, head.place + 12, &mut version) else {
        return Err(OpenFault::Read);
    };
    if version[0] != 1 {
        return Err(OpenFault::File(FileFault::Version));
    }
    Ok(())
}

/// The one `PROP` of a form.
pub fn find_prop(heads: &[ChunkHead], end: u64) -> Result<ChunkHead, FileFault>
    requires tiled { TileTo end 16 (map head_seen heads.now) }
    ensures found { IfOk result (λ h. named "PROP" (map head_seen heads.now) ≡ head_seen h ∷ []) }
    ensures most { IfOk result (λ h. h.size ≤ 65536) }
    ensures within { IfOk result (λ h. h.place + 12 + h.size ≤ end) }
    ensures refused { IfErr result (λ fault. props_fault (named "PROP" (map head_seen heads.now)) ≡ Some fault) }
{
    let head = match find(heads, *b"PROP") {
        Finding::Nothing => return Err(FileFault::PropMissing),
        Finding::Several(_) => return Err(FileFault::PropTwice),
        Finding::One(head) => head,
    };
    if head.size > 65536 {
        return Err(FileFault::PropTooLong);
    }
    Ok(head)
}

/// Reads the body of `PROP`.
pub fn read_body_of_prop<S: Source>(
    alloc: Global,
    source: &mut S,
    head: ChunkHead,
) -> Result<Prop, OpenFault>
    requires known { (n : ℕ) × (S.known source.old ≡ Some n) × (head.place + 12 + head.size ≤ n) }
    requires most { head.size ≤ 65536 }
    requires place { head.place ≤ 2 ^ 50 }
    ensures source { Reads S.bytes S.known S.loan S.faults S.given source.old source.new 65536 }
    ensures long { IfOk result (λ p. length p.body.items ≡ head.size) }
    ensures read { IfOk result (λ p. (xs : List ℕ) → S.bytes source.old ≡ Some xs → p.body.items ≡ bytes_at xs (head.place + 12) head.size) }
    ensures rules { IfOk result (λ p. local_fault (head.place + 12) p.body.items ≡ None) }
    ensures shape { IfOk result (λ p. p.fields.channels ≡ shape_of (channel_count p.body.items) (multiple p.body.items)) }
    ensures type_is { IfOk result (λ p. p.fields.compression ≡ compression p.body.items) }
    ensures stops { IfErr result (HasOpenCause (λ xs. local_fault (head.place + 12) (bytes_at xs (head.place + 12) head.size)) (S.bytes source.old) (S.faults source.old) (S.faults source.new)) }
{
    let body = match read_octets(alloc, source, head.place + 12, head.size) {
        Ok(body) => body,
        Err(fault) => return Err(fault),
    };
    match read_prop(head.place + 12, body.as_slice()) {
        Ok(fields) => Ok(Prop { body, fields }),
        Err(fault) => Err(OpenFault::File(fault)),
    }
}

/// The one sound chunk, which has the type in `PROP` and stands behind it.
pub fn find_sound(
    heads: &[ChunkHead],
    prop_place: u64,
    compression: [u8; 4],
) -> Result<Sound, FileFault>
    ensures sound { IfOk result (λ s. IsTheSound (map head_seen heads.now) prop_place compression (kind_seen s.kind) (head_seen s.head)) }
    ensures accepted { IfOk result (λ _. sounds_fault (filter is_sound (map head_seen heads.now)) prop_place compression ≡ None) }
    ensures refused { IfErr result (λ fault. sounds_fault (filter is_sound (map head_seen heads.now)) prop_place compression ≡ Some fault) }
{
    let head = match find_either(heads, *b"DSD ", *b"DST ") {
        Finding::Nothing => return Err(FileFault::SoundMissing),
        Finding::Several(_) => return Err(FileFault::SoundTwice),
        Finding::One(head) => head,
    };
    if compression != head.id {
        return Err(FileFault::Compression);
    }
    if prop_place > head.place {
        return Err(FileFault::PropMissing);
    }
    let kind = if head.id == *b"DSD " {
        Kind::Plain
    } else {
        Kind::Coded
    };
    Ok(Sound { kind, head })
}
