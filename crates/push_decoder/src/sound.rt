// The chunks of `DST `, one after the other.
ghost use Rattle.std.specs.Prelude.{◌≡◌, ◌+◌, ◌^◌, ◌<◌, ◌≤◌, ℕ, List, length, true, false, IfNone, IsSome};
ghost use Rattle.dsdiff_spec.specs.Bytes.{bytes_at, ◌is◌};
ghost use Rattle.dsdiff_spec.specs.Chunks.{head_at, body_of, body_end};
ghost use Rattle.dsdiff_spec.specs.Streams as streams;
ghost use Rattle.dsdiff_chunks.specs.Seen.{head_seen};
ghost use Rattle.push_decoder.specs.Stages.{came_of, Tells, frame_rules, sound_from, sound_chunk_from, still_to_come, IsInForm, IsInSound, is_due, is_frame, Stands, IsFresh, StageTells};
ghost use Rattle.push_decoder.specs.Events.{Answered, nothing_answered};
ghost use Rattle.push_decoder.specs.Reading.{AnsweredAt, HasBegun};

use crate::form::chunk_end;
use crate::stage::{FormSoFar, SoundSoFar, Stage};
use dsdiff_chunks::{ChunkHead, frame_count_in};
use dsdiff_spec::FileFault;

/// Most chunks of `DST ` behind `FRTE`, and most frames.
const MOST_CHUNKS: u32 = 4_000_000;

const MOST_FRAMES: u32 = 1_000_000;

/// What is read at a place where a chunk begins or `DST ` ends.
pub fn sound_at(sound: SoundSoFar, place: u64) -> Stage
    requires sound { IsInSound sound }
    requires within { place ≤ sound.end }
    ensures goes_on { (w version prop : List ℕ) → sound_from sound place w ≡ still_to_come version prop result w }
    ensures stands { Stands result place }
    ensures no_frame { is_frame result ≡ false }
    ensures undue { is_due result ≡ false }
    ensures fresh { IsFresh result place }
    ensures answered { (answered : Answered) → HasBegun answered sound.found → AnsweredAt result answered }
    ensures tells { (prop : List ℕ) → StageTells result prop }
{
    if place == sound.end {
        return ending(&sound);
    }
    if sound.chunks == MOST_CHUNKS {
        return Stage::Refused(FileFault::TooManyChunks);
    }
    if sound.end - place < 12 {
        return Stage::Refused(FileFault::Overrun { place });
    }
    Stage::SoundHead { sound, place }
}

// The end of `DST `.
fn ending(sound: &SoundSoFar) -> Stage
    ensures goes_on { (w version prop : List ℕ) → streams.nothing_but (streams.counted sound.now.frame_count sound.now.found) ≡ still_to_come version prop result w }
    ensures stands { (place : ℕ) → place ≤ 2 ^ 50 + 12 → Stands result place }
    ensures no_frame { is_frame result ≡ false }
    ensures undue { is_due result ≡ false }
    ensures fresh { (place : ℕ) → IsFresh result place }
    ensures answered { (answered : Answered) → AnsweredAt result answered }
    ensures tells { (prop : List ℕ) → StageTells result prop }
{
    if sound.found == sound.frame_count {
        return Stage::Ended;
    }
    Stage::Refused(FileFault::CountDiffers {
        count: sound.frame_count,
        found: sound.found,
    })
}

/// What is read of the chunk at a place from `at` on, up to its end.
pub fn sound_past(sound: SoundSoFar, place: u64, at: u64, end: u64) -> Stage
    requires sound { IsInSound sound }
    requires behind { place ≤ at }
    requires before { at ≤ end }
    requires within { end ≤ sound.end }
    ensures goes_on { (w version prop : List ℕ) → at ≤ length w → streams.up_to w place end (sound_from sound end w) ≡ still_to_come version prop result w }
    ensures stands { Stands result at }
    ensures no_frame { is_frame result ≡ false }
    ensures undue { is_due result ≡ false }
    ensures fresh { IsFresh result at }
    ensures answered { (answered : Answered) → HasBegun answered sound.found → AnsweredAt result answered }
    ensures tells { (prop : List ℕ) → StageTells result prop }
{
    if at == end {
        return sound_at(sound, end);
    }
    Stage::SoundRest { sound, place, end }
}

// The fault of the head of a frame.
fn frame_fault(sound: &SoundSoFar, head: ChunkHead) -> Option<FileFault>
    requires most { sound.now.frame_count ≤ 1000000 }
    requires some { sound.now.found ≤ sound.now.frame_count }
    ensures fault { result ≡ frame_rules sound.now.channels sound.now.frame_count sound.now.found (head_seen head) }
    ensures size { IfNone result (head.size ≤ 225794) }
    ensures more { IfNone result (sound.now.found < sound.now.frame_count) }
{
    if head.size > 2 * (sound.channels.sound_bytes() as u64 + 1) {
        return Some(FileFault::FrameTooLong {
            frame: sound.found,
            length: head.size,
        });
    }
    if sound.found == MOST_FRAMES {
        return Some(FileFault::TooManyFrames);
    }
    if sound.found == sound.frame_count {
        return Some(FileFault::CountDiffers {
            count: sound.frame_count,
            found: sound.frame_count + 1,
        });
    }
    None
}

// The fault of a chunk's head.
fn head_fault(sound: &SoundSoFar, head: ChunkHead) -> Option<FileFault>
    requires sound { IsInSound sound.now }
    requires within { head.place + 12 ≤ sound.now.end }
    ensures fault { result ≡ streams.frame_head_fault sound.now.channels sound.now.frame_count sound.now.end sound.now.found (head_seen head) }
    ensures within { IfNone result (head.place + 12 + head.size ≤ sound.now.end) }
    ensures size { IfNone result ((head_seen head).id is "DSTF" ≡ true → head.size ≤ 225794) }
    ensures more { IfNone result ((head_seen head).id is "DSTF" ≡ true → sound.now.found < sound.now.frame_count) }
{
    if head.size > sound.end - head.place - 12 {
        return Some(FileFault::Overrun { place: head.place });
    }
    if head.id == *b"DSTF" {
        return frame_fault(sound, head);
    }
    None
}

/// What is read behind a chunk's head.
pub fn sound_head(sound: SoundSoFar, head: ChunkHead) -> Stage
    requires sound { IsInSound sound }
    requires few { sound.chunks < 4000000 }
    requires within { head.place + 12 ≤ sound.end }
    ensures goes_on { (w version prop : List ℕ) → head_at w head.place ≡ head_seen head → head.place + 12 ≤ length w → sound_from sound head.place w ≡ still_to_come version prop result w }
    ensures stands { Stands result (head.place + 12) }
    ensures fresh { IsFresh result (head.place + 12) }
    ensures answered { (answered : Answered) → HasBegun answered sound.found → AnsweredAt result answered }
    ensures tells { (prop : List ℕ) → StageTells result prop }
{
    if let Some(fault) = head_fault(&sound, head) {
        return Stage::Refused(fault);
    }
    if head.id != *b"DSTF" {
        return behind_chunk(sound, head, sound.found, head.place + 12);
    }
    if head.size == 0 {
        return Stage::FrameWhole { sound, head };
    }
    Stage::FrameBody { sound, head }
}

// What is read of a chunk from `at` on, with which so many frames are found.
fn behind_chunk(sound: SoundSoFar, head: ChunkHead, found: u32, at: u64) -> Stage
    requires sound { IsInSound sound }
    requires few { sound.chunks < 4000000 }
    requires some { found ≤ sound.frame_count }
    requires within { head.place + 12 + head.size ≤ sound.end }
    requires behind { head.place ≤ at }
    requires before { at ≤ head.place + 12 + head.size }
    ensures goes_on { (w version prop : List ℕ) → at ≤ length w → streams.up_to w head.place (streams.whole_end sound.end (head_seen head)) (sound_from (record sound { chunks = sound.chunks + 1; found = found }) (streams.whole_end sound.end (head_seen head)) w) ≡ still_to_come version prop result w }
    ensures stands { Stands result at }
    ensures no_frame { is_frame result ≡ false }
    ensures undue { is_due result ≡ false }
    ensures fresh { IsFresh result at }
    ensures answered { (answered : Answered) → HasBegun answered found → AnsweredAt result answered }
    ensures tells { (prop : List ℕ) → StageTells result prop }
{
    let end = chunk_end(sound.end, head);
    let sound = SoundSoFar {
        channels: sound.channels,
        frame_count: sound.frame_count,
        end: sound.end,
        chunks: sound.chunks + 1,
        found,
    };
    sound_past(sound, head.place, at, end)
}

/// What is read behind a frame.
pub fn frame_past(sound: SoundSoFar, head: ChunkHead) -> Stage
    requires sound { IsInSound sound }
    requires few { sound.chunks < 4000000 }
    requires more { sound.found < sound.frame_count }
    requires within { head.place + 12 + head.size ≤ sound.end }
    requires frame { (head_seen head).id is "DSTF" ≡ true }
    ensures goes_on { (w version prop : List ℕ) → body_end (head_seen head) ≤ length w → sound_chunk_from sound (head_seen head) w ≡ streams.with_frame (body_of w (head_seen head)) (still_to_come version prop result w) }
    ensures stands { Stands result (head.place + 12 + head.size) }
    ensures no_frame { is_frame result ≡ false }
    ensures undue { is_due result ≡ false }
    ensures fresh { IsFresh result (head.place + 12 + head.size) }
    ensures answered { (answered : Answered) → HasBegun answered (sound.found + 1) → AnsweredAt result answered }
    ensures tells { (prop : List ℕ) → StageTells result prop }
{
    behind_chunk(sound, head, sound.found + 1, head.place + 12 + head.size)
}

/// What is read behind `FRTE`, whose bytes these are.
pub fn frame_count(form: FormSoFar, head: ChunkHead, frte: &[u8]) -> Stage
    requires form { IsInForm form }
    requires later { 0 < form.chunks }
    requires properties { IsSome form.properties }
    requires within { head.place + 12 + head.size ≤ form.end }
    requires size { 18 ≤ head.size }
    requires long { length frte.now ≡ 18 }
    ensures goes_on { (w version prop : List ℕ) → Tells form prop → bytes_at w (head.place + 12) 18 ≡ frte.now → head.place + 12 + 18 ≤ length w → streams.in_sound w (came_of form version prop) (head_seen head) ≡ still_to_come version prop result w }
    ensures stands { Stands result (head.place + 12 + 18) }
    ensures fresh { IsFresh result (head.place + 12 + 18) }
    ensures answered { AnsweredAt result nothing_answered }
    ensures tells { (prop : List ℕ) → Tells form prop → StageTells result prop }
{
    let Some(fields) = form.properties else {
        unreachable!()
    };
    let mut bytes = [0; 18];
    bytes.copy_from_slice(frte);
    match frame_count_in(&bytes) {
        Ok(frame_count) => Stage::Opened {
            sound: SoundSoFar {
                channels: fields.channels,
                frame_count,
                end: head.place + 12 + head.size,
                chunks: 0,
                found: 0,
            },
            place: head.place + 12 + 18,
        },
        Err(fault) => Stage::Refused(fault),
    }
}
