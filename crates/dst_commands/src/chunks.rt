// The chunks that are passed on from one form to another.
ghost use Rattle.std.specs.Prelude.{◌≡◌, ◌+◌, ◌-◌, ◌<◌, ◌≤◌, ◌^◌, ℕ, List, length, map, filter, Some, IfErr, OnOk, MatchResult};
ghost use Rattle.std.specs.Option.{option_copied};
ghost use Rattle.dsdiff_spec.specs.Chunks.{body_end};
ghost use Rattle.dsdiff_spec.specs.Decoded as decoding;
ghost use Rattle.dsdiff_chunks.specs.Forms.{coded_seen};
ghost use Rattle.dsdiff_chunks.specs.Seen.{head_seen};
ghost use Rattle.dsdiff_chunks.specs.declared.copy.CopyFault.{CopyFault};
ghost use Rattle.dst_commands.specs.Passing as passing;
ghost use Rattle.dst_commands.specs.Passing.{form_of, bytes_of, all_of, bytes_on, goes, ref_seen, whole_end, FailedBy, IsCmprIfAny};
ghost use Rattle.dst_commands.specs.Writing.{Adds, Stops};

use dsdiff_chunks::{
    ChunkHead, CodedForm, CopyFault, PlainForm, copy_range, prop_length, write_prop,
};
use dst_streams::{Sink, Source};

/// The side of the sound on which chunks stand.
#[derive(Clone, Copy, Drop)]
pub enum Side {
    Before,
    Behind,
}

/// A form that is lent, of either kind.
#[derive(Clone, Copy, Drop)]
pub enum FormRef<'a> {
    Plain(&'a PlainForm),
    Coded(&'a CodedForm),
}

impl<'a> FormRef<'a> {
    fn heads(&self) -> &'a [ChunkHead]
        ensures { map head_seen result.now ≡ (ref_seen self.now).chunks }
    {
        match self {
            FormRef::Plain(form) => form.heads.as_slice(),
            FormRef::Coded(form) => form.heads.as_slice(),
        }
    }

    fn prop(&self) -> &'a [u8]
        ensures { result.now ≡ (ref_seen self.now).prop }
    {
        match self {
            FormRef::Plain(form) => form.prop.as_slice(),
            FormRef::Coded(form) => form.prop.as_slice(),
        }
    }

    // The place of the sound chunk.
    fn sound_place(&self) -> u64
        ensures { result ≡ (ref_seen self.now).sound.place }
    {
        match self {
            FormRef::Plain(form) => form.sound.place,
            FormRef::Coded(form) => form.sound.place,
        }
    }

    // The place behind the form.
    fn end(&self) -> u64
        ensures { result ≡ (ref_seen self.now).end }
    {
        match self {
            FormRef::Plain(form) => form.end,
            FormRef::Coded(form) => form.end,
        }
    }
}

/// What is passed on: the chunks of a form, as they stand, or with another `CMPR` in `PROP`: a whole chunk with its pad byte.
#[derive(Clone, Copy, Drop)]
pub struct Passed<'a> {
    pub form: FormRef<'a>,
    pub cmpr: Option<&'a [u8]>,
}

/// `CMPR` of plain sound, with its pad byte.
const PLAIN_CMPR: &[u8; 32] = b"CMPR\0\0\0\0\0\0\0\x13DSD \x0enot compressed\0";

/// The chunk `CMPR` of the plain file.
pub fn cmpr_of(form: &CodedForm) -> &[u8]
    ensures { result.now ≡ decoding.plain_cmpr (coded_seen form.now).origin }
{
    match &form.origin {
        Some(origin) => origin.cmpr.as_slice(),
        None => PLAIN_CMPR,
    }
}

/// The pad byte behind the plain file's sound, where its size is odd.
pub fn pad_of(form: &CodedForm) -> u8
    ensures { result ≡ decoding.plain_pad (coded_seen form.now).origin }
{
    match &form.origin {
        Some(origin) => origin.pad,
        None => 0,
    }
}

/// The bytes behind the plain file's form.
pub fn kept_of(form: &CodedForm) -> &[u8]
    ensures { result.now ≡ decoding.kept_bytes (coded_seen form.now).origin }
{
    match &form.origin {
        Some(origin) => origin.kept.as_slice(),
        None => &[],
    }
}

// Whether a chunk is passed on, on this side of the sound.
fn passes(passed: &Passed<'_>, side: Side, head: &ChunkHead) -> bool
    ensures { result ≡ goes side (form_of passed.now) (head_seen head.now) }
{
    let sound = passed.form.sound_place();
    let stands_there = match side {
        Side::Before => head.place < sound,
        Side::Behind => sound < head.place,
    };
    stands_there && !(head.id == *b"DSTI" || head.id == *b"KEPT")
}

// The `CMPR` that a chunk gets: none unless it is `PROP`.
fn cmpr_for<'a>(passed: &Passed<'a>, head: &ChunkHead) -> Option<&'a [u8]>
    ensures { option_copied result ≡ passing.cmpr_for (passing.cmpr_of passed.now) (head_seen head.now) }
{
    if head.id == *b"PROP" {
        passed.cmpr
    } else {
        None
    }
}

// The place behind a chunk: behind its pad byte, which the last one may lack.
fn end_of(passed: &Passed<'_>, head: &ChunkHead) -> u64
    requires within { body_end (head_seen head.now) ≤ (form_of passed.now).end }
    ensures { result ≡ whole_end (form_of passed.now) (head_seen head.now) }
{
    (head.place + 12 + head.size + head.size % 2).min(passed.form.end())
}

// Bytes of a chunk that is passed on.
fn chunk_length(passed: &Passed<'_>, head: &ChunkHead) -> u64
    requires cmpr { IsCmprIfAny (passing.cmpr_of passed.now) }
    requires within { body_end (head_seen head.now) ≤ (form_of passed.now).end }
    ensures length { (file : List ℕ) → (form_of passed.now).end ≤ length file → result ≡ length (bytes_of file passed.now (head_seen head.now)) }
    ensures most { result ≤ 2 ^ 50 + 12 }
{
    match cmpr_for(passed, head) {
        Some(cmpr) => prop_length(passed.form.prop(), cmpr),
        None => end_of(passed, head) - head.place,
    }
}

/// How many chunks are passed on, on one side of the sound.
pub fn chunks_count(passed: &Passed<'_>, side: Side) -> u32
    ensures count { result ≡ length (filter (goes side (form_of passed.now)) (form_of passed.now).chunks) }
    ensures most { result ≤ 1024 }
{
    let mut count = 0;
    for head in passed.form.heads() {
        if !passes(passed, side, head) {
            continue;
        }
        count += 1;
    }
    count
}

/// Bytes of the chunks that are passed on, on one side of the sound.
pub fn chunks_length(passed: &Passed<'_>, side: Side) -> u64
    requires cmpr { IsCmprIfAny (passing.cmpr_of passed.now) }
    ensures length { (file : List ℕ) → (form_of passed.now).end ≤ length file → result ≡ length (all_of side file passed.now) }
    ensures most { result ≤ 2 ^ 61 }
{
    let mut length = 0;
    for head in passed.form.heads() {
        if !passes(passed, side, head) {
            continue;
        }
        length += chunk_length(passed, head);
    }
    length
}

// Writes a chunk that is passed on: as it stands, or `PROP` with another `CMPR`.
fn pass_chunk<S: Source, K: Sink>(
    source: &mut S,
    sink: &mut K,
    passed: &Passed<'_>,
    head: &ChunkHead,
    buffer: &mut [u8],
) -> Result<(), CopyFault>
    requires buffer { 0 < length buffer.old }
    requires cmpr { IsCmprIfAny (passing.cmpr_of passed.now) }
    requires within { body_end (head_seen head.now) ≤ (form_of passed.now).end }
    requires size { (n : ℕ) × (S.known source.old ≡ Some n) × ((form_of passed.now).end ≤ n) }
    ensures bytes { S.bytes source.new ≡ S.bytes source.old }
    ensures loan { S.loan source.new ≡ S.loan source.old }
    ensures stays { S.known source.new ≡ S.known source.old }
    ensures source_later { S.faults source.old ≤ S.faults source.new }
    ensures given { S.given source.new ≤ S.given source.old + (whole_end (form_of passed.now) (head_seen head.now) - (head_seen head.now).place) }
    ensures sink_later { K.faults sink.old ≤ K.faults sink.new }
    ensures appended { OnOk result ((file : List ℕ) → (form_of passed.now).end ≤ length file → K.appended sink.new ≡ K.appended sink.old + length (bytes_of file passed.now (head_seen head.now))) }
    ensures cause { IfErr result (λ fault. FailedBy fault (S.faults source.old) (S.faults source.new) (K.faults sink.old) (K.faults sink.new)) }
    ensures written { (file : List ℕ) → S.bytes source.old ≡ Some file → MatchResult result
        (λ _. Adds (bytes_of file passed.now (head_seen head.now)) (K.written sink.old) (K.written sink.new) (K.room sink.old) (K.room sink.new))
        (λ fault. Stops (fault ≡ CopyFault.Write) (bytes_of file passed.now (head_seen head.now)) (K.written sink.old) (K.written sink.new) (K.room sink.old)) }
{
    match cmpr_for(passed, head) {
        Some(cmpr) => match write_prop(sink, passed.form.prop(), cmpr) {
            Ok(()) => Ok(()),
            Err(_) => Err(CopyFault::Write),
        },
        None => copy_range(source, sink, buffer, head.place, end_of(passed, head)),
    }
}

/// Writes the chunks that are passed on, on one side of the sound.
pub fn pass_chunks<S: Source, K: Sink>(
    source: &mut S,
    sink: &mut K,
    passed: &Passed<'_>,
    side: Side,
    buffer: &mut [u8],
) -> Result<(), CopyFault>
    requires buffer { 0 < length buffer.old }
    requires cmpr { IsCmprIfAny (passing.cmpr_of passed.now) }
    requires size { (n : ℕ) × (S.known source.old ≡ Some n) × ((form_of passed.now).end ≤ n) }
    ensures bytes { S.bytes source.new ≡ S.bytes source.old }
    ensures loan { S.loan source.new ≡ S.loan source.old }
    ensures stays { S.known source.new ≡ S.known source.old }
    ensures source_later { S.faults source.old ≤ S.faults source.new }
    ensures given { S.given source.new ≤ S.given source.old + bytes_on side (form_of passed.now) }
    ensures sink_later { K.faults sink.old ≤ K.faults sink.new }
    ensures appended { OnOk result ((file : List ℕ) → (form_of passed.now).end ≤ length file → K.appended sink.new ≡ K.appended sink.old + length (all_of side file passed.now)) }
    ensures cause { IfErr result (λ fault. FailedBy fault (S.faults source.old) (S.faults source.new) (K.faults sink.old) (K.faults sink.new)) }
    ensures written { (file : List ℕ) → S.bytes source.old ≡ Some file → MatchResult result
        (λ _. Adds (all_of side file passed.now) (K.written sink.old) (K.written sink.new) (K.room sink.old) (K.room sink.new))
        (λ fault. Stops (fault ≡ CopyFault.Write) (all_of side file passed.now) (K.written sink.old) (K.written sink.new) (K.room sink.old)) }
{
    for head in passed.form.heads() {
        if !passes(passed, side, head) {
            continue;
        }
        if let Err(fault) = pass_chunk(source, sink, passed, head, buffer) {
            return Err(fault);
        }
    }
    Ok(())
}
