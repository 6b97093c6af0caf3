// From one stage to the next.
ghost use Rattle.std.specs.Prelude.{◌≡◌, ◌+◌, ◌-◌, ◌^◌, ◌<◌, ◌≤◌, ℕ, List, length, true, false, IfNone};
ghost use Rattle.push_decoder.specs.Events.{Answered, nothing_answered};
ghost use Rattle.push_decoder.specs.Reading.{AnsweredAt};
ghost use Rattle.dsdiff_spec.specs.Parts.{form_size};
ghost use Rattle.dsdiff_spec.specs.Bytes.{bytes_at};
ghost use Rattle.dsdiff_spec.specs.Chunks.{head_at};
ghost use Rattle.dsdiff_spec.specs.Streams as streams;
ghost use Rattle.dsdiff_chunks.specs.Seen.{head_seen};
ghost use Rattle.push_decoder.specs.Stages.{still_to_come, part_start, part_end, is_looked_at, is_frame, lacks, IsLawful, Stands, IsFresh, HasPart, StageTells, version_then, prop_then};

use crate::form::{form_at, form_head, prop_body, version_body};
use crate::sound::{frame_count, sound_at, sound_head};
use crate::stage::{FormSoFar, Stage};
use byteorder::{BigEndian, ByteOrder};
use dsdiff_chunks::{ChunkHead, head_of};
use dsdiff_spec::FileFault;

// The fault of the first sixteen bytes.
fn start_fault(bytes: &[u8]) -> Option<FileFault>
    requires long { length bytes.now ≡ 16 }
    ensures fault { result ≡ streams.form_head_fault bytes.now }
    ensures least { IfNone result (4 ≤ form_size bytes.now) }
    ensures most { IfNone result (form_size bytes.now ≤ 2 ^ 50) }
{
    let size = BigEndian::read_u64(&bytes[4..]);
    if bytes[..4] != b"FRM8"[..] || size < 4 {
        return Some(FileFault::NotForm);
    }
    if size > 1 << 50 {
        return Some(FileFault::FormTooLarge);
    }
    if bytes[12..] != b"DSD "[..] {
        return Some(FileFault::FormType);
    }
    None
}

// What is read behind the first sixteen bytes.
fn started(bytes: &[u8]) -> Stage
    requires long { length bytes.now ≡ 16 }
    ensures goes_on { (w version prop : List ℕ) → bytes_at w 0 16 ≡ bytes.now → 16 ≤ length w → streams.stream w ≡ still_to_come version prop result w }
    ensures stands { Stands result 16 }
    ensures fresh { IsFresh result 16 }
    ensures answered { AnsweredAt result nothing_answered }
    ensures tells { (prop : List ℕ) → StageTells result prop }
{
    if let Some(fault) = start_fault(bytes) {
        return Stage::Refused(fault);
    }
    let form = FormSoFar {
        end: 12 + BigEndian::read_u64(&bytes[4..]),
        chunks: 0,
        properties: None,
    };
    form_at(form, 16)
}

// The head of a chunk, whose bytes these are.
fn head_in(place: u64, bytes: &[u8]) -> ChunkHead
    requires long { length bytes.now ≡ 12 }
    ensures head { (w : List ℕ) → bytes_at w place 12 ≡ bytes.now → head_at w place ≡ head_seen result }
    ensures place { result.place ≡ place }
{
    let mut head = [0; 12];
    head.copy_from_slice(bytes);
    head_of(place, &head)
}

/// What is read behind the part of a stage, whose bytes these are where it is looked at.
pub fn next_stage(stage: Stage, part: &[u8]) -> Stage
    requires lawful { IsLawful stage }
    requires lacks { lacks stage ≡ true }
    requires long { is_looked_at stage ≡ true → part_start stage + length part.now ≡ part_end stage }
    ensures goes_on { (w version prop : List ℕ) → StageTells stage prop → HasPart stage w part.now → still_to_come version prop stage w ≡ still_to_come (version_then stage part.now version) (prop_then stage part.now prop) result w }
    ensures stands { Stands result (part_end stage) }
    ensures fresh { is_frame stage ≡ false → IsFresh result (part_end stage) }
    ensures frame { is_frame stage ≡ true → (is_looked_at result ≡ false) × (part_start result ≡ part_start stage) }
    ensures answered { (answered : Answered) → AnsweredAt stage answered → AnsweredAt result answered }
    ensures tells { (prop : List ℕ) → StageTells stage prop → StageTells result (prop_then stage part.now prop) }
{
    match stage {
        Stage::Start => started(part),
        Stage::FormHead { form, place } => form_head(form, head_in(place, part)),
        Stage::FormBody { form, head } if form.chunks == 0 => version_body(form, head, part),
        Stage::FormBody { form, head } => prop_body(form, head, part),
        Stage::FormRest { form, end, .. } => form_at(form, end),
        Stage::FrameCount { form, head } => frame_count(form, head, part),
        Stage::SoundHead { sound, place } => sound_head(sound, head_in(place, part)),
        Stage::FrameBody { sound, head } => Stage::FrameWhole { sound, head },
        Stage::SoundRest { sound, end, .. } => sound_at(sound, end),
        _ => unreachable!(),
    }
}
