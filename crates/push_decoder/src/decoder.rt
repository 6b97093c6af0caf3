// A decoder that is fed.
ghost use Rattle.std.specs.Prelude.{◌≡◌, ◌+◌, ◌^◌, ◌≤◌, ℕ, List, [], length, Option, IfOk};
ghost use Rattle.std.specs.Borrow.{sem};
ghost use Rattle.push_decoder.specs.Events.{Answered, Event, begun, nothing_answered};
ghost use Rattle.dsdiff_spec.specs.Streams.{Front, stream};
ghost use Rattle.push_decoder.specs.Decoder.{StandsFor, StepTells, Answers};
ghost use Rattle.push_decoder.specs.Told.{TellsEvent, Lies, ReadAfter, EndsAs};
ghost use Rattle.push_decoder.specs.Ends.{Ends};

use crate::reading::{Answer, Reader};
use crate::step::Step;
use dsdiff_spec::FileFault;
use std::alloc::{AllocError, Global};

/// Finds the frames of a stream that comes in pieces.
#[derive(Drop)]
pub struct PushDecoder {
    reader: Reader,
}

impl PushDecoder {
    /// A decoder of which nothing was asked. It takes all memory, and no other call takes any.
    pub fn new(alloc: Global) -> Result<PushDecoder, AllocError>
        ensures { IfOk result (λ d. StandsFor d [] nothing_answered) }
    {
        let reader = Reader::new(alloc)?;
        Ok(PushDecoder { reader })
    }

    /// Takes bytes of a piece up to the first event that is due, and tells how many and the event. An event that is due without a further byte
    /// is answered before any byte is taken; behind the end, and behind a fault, that is answered again. `More` comes where the whole piece
    /// was taken and nothing is due.
    ///
    /// A fault is the first that the bytes decide, by the rules of a stream: of the head of the form once its sixteen bytes came, of a chunk
    /// once its twelve bytes of head or its body came, at the end of a part at once. `Overrun` tells the place of a chunk that passes the end
    /// of what it stands in. What a fault means stands at `FileFault`.
    pub fn take<'a>(&'a mut self, piece: &'a [u8]) -> Result<(usize, Step<'a>), FileFault>
        ensures* after { sem 𝓛 (Ends self.entry (λ d. (taken : List ℕ) (answered : Answered) → StandsFor self.old taken answered → ReadAfter result piece.now taken answered d.reader)) }
        ensures within { IfOk result (λ r. r.0 ≤ length piece.now) }
        ensures answer { (taken : List ℕ) (answered : Answered) → StandsFor self.old taken answered → Answers result piece.now taken answered }
    {
        let (count, answer) = match self.reader.take(piece) {
            Ok(taken) => taken,
            Err(fault) => return Err(fault),
        };
        Ok((count, step_of(answer, count, piece, self.reader.frame())))
    }

    /// The body of `PROP`, behind `Head`.
    pub fn prop(&self) -> &[u8]
        ensures { (taken : List ℕ) (front : Front) (frames : List (List ℕ)) → StandsFor self.now taken (begun front frames) → result.now ≡ front.prop }
    {
        self.reader.prop()
    }

    /// The body of `FVER`, behind `Head`.
    pub fn version(&self) -> &[u8]
        ensures { (taken : List ℕ) (front : Front) (frames : List (List ℕ)) → StandsFor self.now taken (begun front frames) → result.now ≡ front.version }
    {
        self.reader.version()
    }

    /// How many bytes were taken. Behind the end of the longest form none is.
    pub fn taken(&self) -> u64
        ensures count { (taken : List ℕ) (answered : Answered) → StandsFor self.now taken answered → result ≡ length taken }
        ensures most { result ≤ 2 ^ 50 + 12 }
    {
        self.reader.taken()
    }

    /// What the stream comes to where no byte follows: Ok where its last frame came and `DST ` ends. Else the fault that was answered or
    /// is due; or, where the bytes end too early, `NotForm` of fewer than 16 bytes, and `Overrun` at the place of the chunk that has begun
    /// or is due.
    pub fn close(&mut self) -> Result<(), FileFault>
        ensures same { self.new ≡ self.old }
        ensures ending { (taken : List ℕ) (answered : Answered) → StandsFor self.old taken answered → EndsAs result (stream taken).ending }
    {
        self.reader.ending()
    }
}

// The step that an answer tells, of a piece of which so many bytes were taken, and of the frame that was gathered last.
fn step_of<'a>(answer: Answer, count: usize, piece: &'a [u8], frame: &'a [u8]) -> Step<'a>
    requires inside { Lies answer count (length piece.now) }
    ensures { (answered : Answered) (event : Option Event) → TellsEvent answer piece.now count frame.now answered event → StepTells result piece.now count answered event }
{
    match answer {
        Answer::More => Step::More,
        Answer::Within { number, from } => Step::Frame {
            number,
            bytes: &piece[from..count],
        },
        Answer::Head { channels, frames } => Step::Head {
            channels: channels.count() as u32,
            multiple: channels.multiple() as u32,
            frames,
        },
        Answer::Frame { number } => Step::Frame {
            number,
            bytes: frame,
        },
        Answer::End => Step::End,
        Answer::Fault(_) => unreachable!(),
    }
}
