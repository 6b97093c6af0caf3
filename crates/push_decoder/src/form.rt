// The chunks of a form, one after the other.
ghost use Rattle.std.specs.Prelude.{◌≡◌, ◌+◌, ◌-◌, ◌^◌, ◌<◌, ◌≤◌, ℕ, List, length, true, false, IfNone, IsSome};
ghost use Rattle.dsdiff_spec.specs.Bytes.{◌is◌};
ghost use Rattle.dsdiff_spec.specs.Chunks.{head_at, body_of, body_end};
ghost use Rattle.dsdiff_spec.specs.Streams as streams;
ghost use Rattle.dsdiff_chunks.specs.Seen.{head_seen};
ghost use Rattle.push_decoder.specs.Stages.{came_of, Tells, form_from, form_chunk_from, still_to_come, IsInForm, Stands, IsFresh, StageTells};
ghost use Rattle.push_decoder.specs.Events.{nothing_answered};
ghost use Rattle.push_decoder.specs.Reading.{AnsweredAt};

use crate::stage::{FormSoFar, Stage};
use dsdiff_chunks::{ChunkHead, read_prop};
use dsdiff_spec::FileFault;

/// Most chunks of a form.
const MOST_CHUNKS: u32 = 1024;

/// What is read at a place where a chunk begins or the form ends.
pub fn form_at(form: FormSoFar, place: u64) -> Stage
    requires form { IsInForm form }
    requires within { place ≤ form.end }
    ensures goes_on { (w version prop : List ℕ) → form_from version prop form place w ≡ still_to_come version prop result w }
    ensures stands { Stands result place }
    ensures fresh { IsFresh result place }
    ensures answered { AnsweredAt result nothing_answered }
    ensures tells { (prop : List ℕ) → Tells form prop → StageTells result prop }
{
    if place == form.end {
        return Stage::Refused(missing(form));
    }
    if form.chunks == MOST_CHUNKS {
        return Stage::Refused(FileFault::TooManyChunks);
    }
    if form.end - place < 12 {
        return Stage::Refused(FileFault::Overrun { place });
    }
    Stage::FormHead { form, place }
}

// What a form that ends before its sound lacks.
fn missing(form: FormSoFar) -> FileFault
    ensures { (version prop : List ℕ) → result ≡ streams.missing (came_of form version prop) }
{
    if form.chunks == 0 {
        return FileFault::Version;
    }
    if form.properties.is_none() {
        return FileFault::PropMissing;
    }
    FileFault::SoundMissing
}

/// What is read of the chunk at a place from `at` on, up to its end.
pub fn form_past(form: FormSoFar, place: u64, at: u64, end: u64) -> Stage
    requires form { IsInForm form }
    requires behind { place ≤ at }
    requires before { at ≤ end }
    requires within { end ≤ form.end }
    ensures goes_on { (w version prop : List ℕ) → at ≤ length w → streams.up_to w place end (form_from version prop form end w) ≡ still_to_come version prop result w }
    ensures stands { Stands result at }
    ensures fresh { IsFresh result at }
    ensures answered { AnsweredAt result nothing_answered }
    ensures tells { (prop : List ℕ) → Tells form prop → StageTells result prop }
{
    if at == end {
        return form_at(form, end);
    }
    Stage::FormRest { form, place, end }
}

/// Where a chunk in a part that ends at a place ends, with its pad byte or without it.
pub fn chunk_end(end: u64, head: ChunkHead) -> u64
    requires near { end ≤ 2 ^ 50 + 12 }
    requires within { head.place + 12 + head.size ≤ end }
    ensures { result ≡ streams.whole_end end (head_seen head) }
{
    end.min(head.place + 12 + head.size + head.size % 2)
}

// The fault of the head of a first chunk.
fn first_fault(head: ChunkHead) -> Option<FileFault>
    ensures fault { result ≡ streams.version_head_fault (head_seen head) }
    ensures size { IfNone result (head.size ≡ 4) }
    ensures id { IfNone result ((head_seen head).id is "DST " ≡ false) }
{
    if head.id != *b"FVER" || head.size != 4 {
        return Some(FileFault::Version);
    }
    None
}

// The fault of the head of a `PROP`.
fn prop_fault(form: &FormSoFar, head: ChunkHead) -> Option<FileFault>
    ensures fault { (version prop : List ℕ) → result ≡ streams.prop_head_fault (came_of form.now version prop).prop (head_seen head) }
    ensures size { IfNone result (head.size ≤ 65536) }
    ensures some { IfNone result (4 ≤ head.size) }
{
    if form.properties.is_some() {
        return Some(FileFault::PropTwice);
    }
    if head.size > 65_536 {
        return Some(FileFault::PropTooLong);
    }
    if head.size < 4 {
        return Some(FileFault::PropType);
    }
    None
}

// The fault of a `DSD `.
fn plain_fault(form: &FormSoFar) -> FileFault
    ensures { (version prop : List ℕ) → Some result ≡ streams.plain_head_fault (came_of form.now version prop).prop }
{
    if form.properties.is_some() {
        return FileFault::NotCoded;
    }
    FileFault::PropMissing
}

// The fault of the head of a `DST `.
fn sound_fault(form: &FormSoFar, head: ChunkHead) -> Option<FileFault>
    ensures fault { (version prop : List ℕ) → Tells form.now prop → result ≡ streams.sound_head_fault (came_of form.now version prop).prop (head_seen head) }
    ensures room { IfNone result (18 ≤ head.size) }
    ensures properties { IfNone result (IsSome form.now.properties) }
{
    let Some(fields) = form.properties else {
        return Some(FileFault::PropMissing);
    };
    if fields.compression != *b"DST " {
        return Some(FileFault::Compression);
    }
    if head.size < 18 {
        return Some(FileFault::FrameRate);
    }
    None
}

// The fault of the head of a chunk behind the first.
fn later_fault(form: &FormSoFar, head: ChunkHead) -> Option<FileFault>
    ensures fault { (version prop : List ℕ) → Tells form.now prop → result ≡ streams.later_head_fault (came_of form.now version prop).prop (head_seen head) }
    ensures size { IfNone result ((head_seen head).id is "PROP" ≡ true → head.size ≤ 65536) }
    ensures some { IfNone result ((head_seen head).id is "PROP" ≡ true → 4 ≤ head.size) }
    ensures room { IfNone result ((head_seen head).id is "DST " ≡ true → 18 ≤ head.size) }
    ensures properties { IfNone result ((head_seen head).id is "DST " ≡ true → IsSome form.now.properties) }
{
    if head.id == *b"PROP" {
        return prop_fault(form, head);
    }
    if head.id == *b"DSD " {
        return Some(plain_fault(form));
    }
    if head.id == *b"DST " {
        return sound_fault(form, head);
    }
    None
}

// The fault of a chunk's head.
fn head_fault(form: &FormSoFar, head: ChunkHead) -> Option<FileFault>
    requires near { form.now.end ≤ 2 ^ 50 + 12 }
    requires within { head.place + 12 ≤ form.now.end }
    ensures fault { (version prop : List ℕ) → Tells form.now prop → result ≡ streams.chunk_head_fault form.now.end (came_of form.now version prop) (head_seen head) }
    ensures within { IfNone result (head.place + 12 + head.size ≤ form.now.end) }
    ensures first { IfNone result (form.now.chunks ≡ 0 → head.size ≡ 4) }
    ensures first_id { IfNone result (form.now.chunks ≡ 0 → (head_seen head).id is "DST " ≡ false) }
    ensures size { IfNone result (0 < form.now.chunks → (head_seen head).id is "PROP" ≡ true → head.size ≤ 65536) }
    ensures some { IfNone result (0 < form.now.chunks → (head_seen head).id is "PROP" ≡ true → 4 ≤ head.size) }
    ensures room { IfNone result ((head_seen head).id is "DST " ≡ true → 18 ≤ head.size) }
    ensures properties { IfNone result ((head_seen head).id is "DST " ≡ true → IsSome form.now.properties) }
{
    if head.size > form.end - head.place - 12 {
        return Some(FileFault::Overrun { place: head.place });
    }
    if form.chunks == 0 {
        return first_fault(head);
    }
    later_fault(form, head)
}

/// What is read behind a chunk's head.
pub fn form_head(form: FormSoFar, head: ChunkHead) -> Stage
    requires form { IsInForm form }
    requires few { form.chunks < 1024 }
    requires within { head.place + 12 ≤ form.end }
    ensures goes_on { (w version prop : List ℕ) → Tells form prop → head_at w head.place ≡ head_seen head → head.place + 12 ≤ length w → form_from version prop form head.place w ≡ still_to_come version prop result w }
    ensures stands { Stands result (head.place + 12) }
    ensures fresh { IsFresh result (head.place + 12) }
    ensures answered { AnsweredAt result nothing_answered }
    ensures tells { (prop : List ℕ) → Tells form prop → StageTells result prop }
{
    if let Some(fault) = head_fault(&form, head) {
        return Stage::Refused(fault);
    }
    if head.id == *b"DST " {
        return Stage::FrameCount { form, head };
    }
    if form.chunks == 0 || head.id == *b"PROP" {
        return Stage::FormBody { form, head };
    }
    behind_chunk(form, head, head.place + 12)
}

// What is read behind a chunk that was looked at, up to the end of its body or only its head: nothing is asked of the rest.
fn behind_chunk(form: FormSoFar, head: ChunkHead, at: u64) -> Stage
    requires form { IsInForm form }
    requires few { form.chunks < 1024 }
    requires within { head.place + 12 + head.size ≤ form.end }
    requires behind { head.place ≤ at }
    requires before { at ≤ head.place + 12 + head.size }
    ensures goes_on { (w version prop : List ℕ) → at ≤ length w → streams.up_to w head.place (streams.whole_end form.end (head_seen head)) (form_from version prop (record form { chunks = form.chunks + 1 }) (streams.whole_end form.end (head_seen head)) w) ≡ still_to_come version prop result w }
    ensures stands { Stands result at }
    ensures fresh { IsFresh result at }
    ensures answered { AnsweredAt result nothing_answered }
    ensures tells { (prop : List ℕ) → Tells form prop → StageTells result prop }
{
    let end = chunk_end(form.end, head);
    let form = FormSoFar {
        end: form.end,
        chunks: form.chunks + 1,
        properties: form.properties,
    };
    form_past(form, head.place, at, end)
}

/// What is read behind the body of `FVER`, the first chunk.
pub fn version_body(form: FormSoFar, head: ChunkHead, body: &[u8]) -> Stage
    requires form { IsInForm form }
    requires first { form.chunks ≡ 0 }
    requires size { head.size ≡ 4 }
    requires long { length body.now ≡ 4 }
    requires within { head.place + 12 + head.size ≤ form.end }
    ensures goes_on { (w version prop : List ℕ) → body_of w (head_seen head) ≡ body.now → body_end (head_seen head) ≤ length w → form_chunk_from version prop form (head_seen head) w ≡ still_to_come body.now prop result w }
    ensures stands { Stands result (head.place + 12 + head.size) }
    ensures fresh { IsFresh result (head.place + 12 + head.size) }
    ensures answered { AnsweredAt result nothing_answered }
    ensures tells { (prop : List ℕ) → Tells form prop → StageTells result prop }
{
    if body[0] != 1 {
        return Stage::Refused(FileFault::Version);
    }
    behind_chunk(form, head, head.place + 12 + head.size)
}

/// What is read behind the body of `PROP`.
pub fn prop_body(form: FormSoFar, head: ChunkHead, body: &[u8]) -> Stage
    requires form { IsInForm form }
    requires few { form.chunks < 1024 }
    requires later { 0 < form.chunks }
    requires id { (head_seen head).id is "PROP" ≡ true }
    requires size { head.size ≤ 65536 }
    requires long { length body.now ≡ head.size }
    requires within { head.place + 12 + head.size ≤ form.end }
    ensures goes_on { (w version prop : List ℕ) → body_of w (head_seen head) ≡ body.now → body_end (head_seen head) ≤ length w → form_chunk_from version prop form (head_seen head) w ≡ still_to_come version body.now result w }
    ensures stands { Stands result (head.place + 12 + head.size) }
    ensures fresh { IsFresh result (head.place + 12 + head.size) }
    ensures answered { AnsweredAt result nothing_answered }
    ensures tells { StageTells result body.now }
{
    match read_prop(head.place + 12, body) {
        Ok(fields) => behind_chunk(
            FormSoFar {
                end: form.end,
                chunks: form.chunks,
                properties: Some(fields),
            },
            head,
            head.place + 12 + head.size,
        ),
        Err(fault) => Stage::Refused(fault),
    }
}
