// The reader of a stream: it gathers bytes, part after part, and tells what is due.
ghost use Rattle.std.specs.Prelude.{◌≡◌, ◌+◌, ◌-◌, ◌^◌, ◌<◌, ◌≤◌, ◌++◌, ℕ, List, [], length, take, true, false, Some, None, IfNone, IfSome, IfOk};
ghost use Rattle.push_decoder.specs.Gathered as gathering;
ghost use Rattle.push_decoder.specs.Events.{Answered, nothing_answered, frame_came, frames_in, due, answered_with};
ghost use Rattle.push_decoder.specs.Reading.{HasRead};
ghost use Rattle.push_decoder.specs.Told.{TellsEvent, NothingBefore, LiesWithin, IsOwn, Lies, Answers, ReadAfter, EndsAs};
ghost use Rattle.dsdiff_spec.specs.Streams as streams;
ghost use Rattle.push_decoder.specs.Stages.{stage_ending, is_due, lacks, is_looked_at, is_frame, part_start, part_end, IsLawful, version_then, prop_then};

use crate::gathered::Gathered;
use crate::moving::next_stage;
use crate::sound::{frame_past, sound_at};
use crate::stage::Stage;
use dsdiff_spec::FileFault;
use dst_num::Channels;
use std::alloc::{AllocError, Global};
use std::marker::Model;

/// Room for the longest part that is looked at, which is a body of `PROP`, and for the longest frame.
const PART_ROOM: usize = 65_536;

const FRAME_ROOM: usize = 225_794;

/// What bytes came to.
#[derive(Clone, Copy, Debug)]
pub enum Answer {
    /// The whole piece was taken, and nothing is due.
    More,
    /// A frame lies in the piece from a place on, up to what was taken.
    Within { number: u32, from: usize },
    /// `FRTE` is whole: the channels, and the frame count.
    Head { channels: Channels, frames: u32 },
    /// A frame is whole, and was gathered.
    Frame { number: u32 },
    End,
    Fault(FileFault),
}

#[derive(Drop)]
pub struct Reader {
    stage: Stage,
    taken: u64,
    part: Gathered,
    frame: Gathered,
    version: [u8; 4],
    prop: Gathered,
}

impl Model for Reader {
    ghost use Rattle.push_decoder.specs.Reading.{Reading, IsReader};

    ghost Value = { Reading };

    ghost view = { λ r. record { stage = r.stage; taken = r.taken; part = r.part; frame = r.frame; version = r.version; prop = r.prop } };

    ghost invariant = { λ r. IsReader (record { stage = r.stage; taken = r.taken; part = r.part; frame = r.frame; version = r.version; prop = r.prop }) };
}

// Gathers bytes of a stage's part where they are gathered.
fn keep(stage: &Stage, bytes: &[u8], part: &mut Gathered, frame: &mut Gathered)
    requires part { is_looked_at stage.now ≡ true → length part.old.bytes + length bytes.now ≤ part.old.room }
    requires frame { is_frame stage.now ≡ true → length frame.old.bytes + length bytes.now ≤ frame.old.room }
    ensures part { is_looked_at stage.now ≡ true → part.new.bytes ≡ part.old.bytes ++ bytes.now }
    ensures part_stays { is_looked_at stage.now ≡ false → part.new.bytes ≡ part.old.bytes }
    ensures part_room { part.new.room ≡ part.old.room }
    ensures frame { is_frame stage.now ≡ true → frame.new.bytes ≡ frame.old.bytes ++ bytes.now }
    ensures frame_room { frame.new.room ≡ frame.old.room }
{
    match stage {
        Stage::FrameBody { .. } | Stage::FrameWhole { .. } => frame.gather(bytes),
        Stage::Start
        | Stage::FormHead { .. }
        | Stage::FormBody { .. }
        | Stage::FrameCount { .. }
        | Stage::SoundHead { .. } => part.gather(bytes),
        _ => {}
    }
}

// Keeps the body of `FVER` or of `PROP`.
fn keep_body(stage: &Stage, part: &[u8], version: &mut [u8; 4], prop: &mut Gathered)
    requires lawful { IsLawful stage.now }
    requires long { is_looked_at stage.now ≡ true → part_start stage.now + length part.now ≡ part_end stage.now }
    requires room { prop.old.room ≡ 65536 }
    ensures version { version.new ≡ version_then stage.now part.now version.old }
    ensures prop { prop.new.bytes ≡ prop_then stage.now part.now prop.old.bytes }
    ensures room { prop.new.room ≡ 65536 }
{
    if let Stage::FormBody { form, .. } = stage {
        if form.chunks == 0 {
            version.copy_from_slice(part);
        } else {
            prop.clear();
            prop.gather(part);
        }
    }
}

// Makes room for the next stage's part, or keeps the frame that is whole.
fn forget(stage: &Stage, part: &mut Gathered, frame: &mut Gathered)
    ensures part { part.new ≡ record { bytes = []; room = part.old.room } }
    ensures frame { is_frame stage.now ≡ true → frame.new.bytes ≡ frame.old.bytes }
    ensures cleared { is_frame stage.now ≡ false → frame.new.bytes ≡ [] }
    ensures room { frame.new.room ≡ frame.old.room }
{
    part.clear();
    match stage {
        Stage::FrameBody { .. } | Stage::FrameWhole { .. } => {}
        _ => frame.clear(),
    }
}

// Where the part of a stage that lacks bytes ends.
fn end_of_part(stage: &Stage) -> u64
    requires lawful { IsLawful stage.now }
    requires lacks { lacks stage.now ≡ true }
    ensures { result ≡ part_end stage.now }
{
    match stage {
        Stage::Start => 16,
        Stage::FormHead { place, .. } | Stage::SoundHead { place, .. } => *place + 12,
        Stage::FormBody { head, .. } | Stage::FrameBody { head, .. } => head.place + 12 + head.size,
        Stage::FormRest { end, .. } | Stage::SoundRest { end, .. } => *end,
        Stage::FrameCount { head, .. } => head.place + 12 + 18,
        _ => unreachable!(),
    }
}

impl Reader {
    /// At the beginning of a stream. It takes all memory.
    pub fn new(alloc: Global) -> Result<Reader, AllocError>
        ensures { IfOk result (λ d. HasRead d [] nothing_answered) }
    {
        Ok(Reader {
            stage: Stage::Start,
            taken: 0,
            part: Gathered::new(alloc, PART_ROOM)?,
            frame: Gathered::new(alloc, FRAME_ROOM)?,
            version: [0; 4],
            prop: Gathered::new(alloc, PART_ROOM)?,
        })
    }

    /// Takes bytes of the part that is read.
    pub fn gather(&mut self, bytes: &[u8])
        requires lacks { lacks self.old.stage ≡ true }
        requires within { self.old.taken + length bytes.now ≤ part_end self.old.stage }
        ensures read { (taken : List ℕ) (answered : Answered) → HasRead self.old taken answered → HasRead self.new (taken ++ bytes.now) answered }
    {
        keep(&self.stage, bytes, &mut self.part, &mut self.frame);
        self.taken += bytes.len() as u64;
        if self.taken < end_of_part(&self.stage) {
            return;
        }
        keep_body(
            &self.stage,
            self.part.as_slice(),
            &mut self.version,
            &mut self.prop,
        );
        let next = next_stage(self.stage, self.part.as_slice());
        forget(&self.stage, &mut self.part, &mut self.frame);
        self.stage = next;
    }

    /// The event that is due, unless the stage lacks bytes.
    pub fn answer(&mut self) -> Option<Answer>
        ensures lacks { IfNone result (lacks self.old.stage ≡ true) }
        ensures same { IfNone result (self.new ≡ self.old) }
        ensures own { IfSome result IsOwn }
        ensures quiet { IfNone result ((taken : List ℕ) (answered : Answered) → HasRead self.old taken answered → due taken answered ≡ None) }
        ensures event { (taken : List ℕ) (answered : Answered) → HasRead self.old taken answered → IfSome result (λ answer. (piece : List ℕ) (count : ℕ) → TellsEvent answer piece count self.new.frame.bytes answered (due taken answered)) }
        ensures read { (taken : List ℕ) (answered : Answered) → HasRead self.old taken answered → IfSome result (λ answer. HasRead self.new taken (answered_with (due taken answered) answered)) }
    {
        match self.stage {
            Stage::Opened { sound, place } => {
                let answer = Answer::Head {
                    channels: sound.channels,
                    frames: sound.frame_count,
                };
                self.stage = sound_at(sound, place);
                Some(answer)
            }
            Stage::FrameWhole { sound, head } => {
                let number = sound.found;
                self.stage = frame_past(sound, head);
                Some(Answer::Frame { number })
            }
            Stage::Ended => Some(Answer::End),
            Stage::Refused(fault) => Some(Answer::Fault(fault)),
            _ => None,
        }
    }

    /// Passes a frame that is to come and lies whole in these bytes: its number and its size.
    pub fn pass_frame(&mut self, bytes: &[u8]) -> Option<(u32, usize)>
        ensures same { IfNone result (self.new ≡ self.old) }
        ensures within { IfSome result (λ r. r.1 ≤ length bytes.now) }
        ensures before { IfSome result (λ r. (taken : List ℕ) (answered : Answered) → HasRead self.old taken answered → NothingBefore taken bytes.now answered r.1) }
        ensures number { IfSome result (λ r. (taken : List ℕ) (answered : Answered) → HasRead self.old taken answered → r.0 ≡ frames_in answered) }
        ensures event { IfSome result (λ r. (taken : List ℕ) (answered : Answered) → HasRead self.old taken answered → due (taken ++ take r.1 bytes.now) answered ≡ Some (frame_came (take r.1 bytes.now))) }
        ensures read { IfSome result (λ r. (taken : List ℕ) (answered : Answered) → HasRead self.old taken answered → HasRead self.new (taken ++ take r.1 bytes.now) (answered_with (due (taken ++ take r.1 bytes.now) answered) answered)) }
    {
        let Stage::FrameBody { sound, head } = self.stage else {
            return None;
        };
        if self.taken > head.place + 12 || head.size > bytes.len() as u64 {
            return None;
        }
        let number = sound.found;
        self.taken += head.size;
        self.stage = frame_past(sound, head);
        Some((number, head.size as usize))
    }

    // Takes bytes up to the end of the part that is read, and tells how many.
    fn gather_some(&mut self, bytes: &[u8]) -> usize
        requires lacks { lacks self.old.stage ≡ true }
        requires some { 0 < length bytes.now }
        ensures some { 0 < result }
        ensures within { result ≤ length bytes.now }
        ensures before { (taken : List ℕ) (answered : Answered) → HasRead self.old taken answered → NothingBefore taken bytes.now answered result }
        ensures read { (taken : List ℕ) (answered : Answered) → HasRead self.old taken answered → HasRead self.new (taken ++ take result bytes.now) answered }
    {
        let lacking = end_of_part(&self.stage) - self.taken;
        let count = if lacking < bytes.len() as u64 {
            lacking as usize
        } else {
            bytes.len()
        };
        self.gather(&bytes[..count]);
        count
    }

    /// Takes bytes up to the first event that is due, and tells how many.
    pub fn feed(&mut self, piece: &[u8]) -> (usize, Answer)
        ensures within { result.0 ≤ length piece.now }
        ensures inside { LiesWithin result.1 result.0 }
        ensures before { (taken : List ℕ) (answered : Answered) → HasRead self.old taken answered → NothingBefore taken piece.now answered result.0 }
        ensures event { (taken : List ℕ) (answered : Answered) → HasRead self.old taken answered → TellsEvent result.1 piece.now result.0 self.new.frame.bytes answered (due (taken ++ take result.0 piece.now) answered) }
        ensures read { (taken : List ℕ) (answered : Answered) → HasRead self.old taken answered → HasRead self.new (taken ++ take result.0 piece.now) (answered_with (due (taken ++ take result.0 piece.now) answered) answered) }
    {
        let mut count = 0;
        loop {
            if let Some(answer) = self.answer() {
                return (count, answer);
            }
            if count == piece.len() {
                return (count, Answer::More);
            }
            if let Some((number, size)) = self.pass_frame(&piece[count..]) {
                return (
                    count + size,
                    Answer::Within {
                        number,
                        from: count,
                    },
                );
            }
            count += self.gather_some(&piece[count..]);
        }
    }

    /// The bytes of the frame that was gathered last.
    pub fn frame(&self) -> &[u8]
        ensures { result.now ≡ self.now.frame.bytes }
    {
        self.frame.as_slice()
    }

    /// The body of `FVER`.
    pub fn version(&self) -> &[u8]
        ensures { result.now ≡ self.now.version }
    {
        &self.version
    }

    /// The body of `PROP`.
    pub fn prop(&self) -> &[u8]
        ensures { result.now ≡ self.now.prop.bytes }
    {
        self.prop.as_slice()
    }

    /// How many bytes were taken.
    pub fn taken(&self) -> u64
        ensures count { result ≡ self.now.taken }
        ensures most { result ≤ 2 ^ 50 + 12 }
    {
        self.taken
    }

    /// The same, with a fault set apart.
    pub fn take(&mut self, piece: &[u8]) -> Result<(usize, Answer), FileFault>
        ensures inside { IfOk result (λ r. Lies r.1 r.0 (length piece.now)) }
        ensures within { IfOk result (λ r. r.0 ≤ length piece.now) }
        ensures answer { (taken : List ℕ) (answered : Answered) → HasRead self.old taken answered → Answers result piece.now self.new.frame.bytes taken answered }
        ensures after { (taken : List ℕ) (answered : Answered) → HasRead self.old taken answered → ReadAfter result piece.now taken answered self.new }
    {
        let (count, answer) = self.feed(piece);
        match answer {
            Answer::Fault(fault) => Err(fault),
            answer => Ok((count, answer)),
        }
    }

    /// How the stream ends where no byte follows.
    pub fn ending(&self) -> Result<(), FileFault>
        ensures { (taken : List ℕ) (answered : Answered) → HasRead self.now taken answered → EndsAs result ((streams.stream taken).ending) }
    {
        match self.stage {
            Stage::Opened { sound, place } => ending_of(&sound_at(sound, place)),
            Stage::FrameWhole { sound, head } => ending_of(&frame_past(sound, head)),
            stage => ending_of(&stage),
        }
    }
}

// How a stream ends in a stage that isn't due.
fn ending_of(stage: &Stage) -> Result<(), FileFault>
    requires undue { is_due stage.now ≡ false }
    requires lawful { IsLawful stage.now }
    ensures { EndsAs result (stage_ending stage.now) }
{
    match stage {
        Stage::Start => Err(FileFault::NotForm),
        Stage::FormHead { place, .. }
        | Stage::FormRest { place, .. }
        | Stage::SoundHead { place, .. }
        | Stage::SoundRest { place, .. } => Err(FileFault::Overrun { place: *place }),
        Stage::FormBody { head, .. } | Stage::FrameBody { head, .. } => {
            Err(FileFault::Overrun { place: head.place })
        }
        Stage::FrameCount { head, .. } => Err(FileFault::Overrun {
            place: head.place + 12,
        }),
        Stage::Ended => Ok(()),
        Stage::Refused(fault) => Err(*fault),
        _ => unreachable!(),
    }
}
