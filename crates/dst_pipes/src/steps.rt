// One step of a stream: its next event, and what it asks for.
ghost use Rattle.std.specs.Prelude.{◌≡◌, ◌+◌, ◌-◌, ◌≤◌, ◌<◌, ℕ, List, ◌++◌, length, Option, Some, None, IfOk, Err, Ok};
ghost use Rattle.std.specs.declared.alloc.AllocError.{AllocError};
ghost use Rattle.dst_streams.specs.Causes.{Rose};
ghost use Rattle.push_decoder.specs.Decoder.{StandsFor};
ghost use Rattle.push_decoder.specs.Events.{Answered};
ghost use Rattle.dst_pipes.specs.States.{IsReady, Works, Wrote, events_left};
ghost use Rattle.dsdiff_spec.specs.Streams.{Front, stream};
ghost use Rattle.dst_pipes.specs.Steps.{Took, StepEnds, IsFrontOf, HasBegun, SoundEnds};
ghost use Rattle.dst_pipes.specs.declared.work.Work.{Work};
ghost use Rattle.dst_pipes.specs.declared.steps.Next.{Next};
ghost use Rattle.dst_pipes.specs.declared.faults.PipeFault.{PipeFault};

use crate::faults::PipeFault;
use crate::front::write_front;
use crate::work::Work;
use dst_frames::decode_frame;
use dst_num::{Channels, FrameFault};
use dst_streams::Sink;
use push_decoder::{FileFault, PushDecoder, Step};
use std::alloc::Global;

/// What came of a piece; a frame was decoded, or offends.
#[derive(Clone, Copy)]
pub(crate) enum Came {
    More,
    Head {
        channels: u32,
        multiple: u32,
        frames: u32,
    },
    Frame(Result<u32, FrameFault>),
    End,
}

/// What comes next: more of the piece, or a further one, or nothing.
#[derive(Clone, Copy)]
pub(crate) enum Next {
    Again,
    More,
    End,
}

// Takes bytes up to the first event, and decodes a frame where it is lent.
fn take_step(
    decoder: &mut PushDecoder,
    piece: &[u8],
    work: &mut Option<Work>,
) -> Result<(usize, Came), FileFault>
    requires ready { IsReady decoder.old work.old }
    ensures within { IfOk result (λ r. r.0 ≤ length piece.now) }
    ensures took { (taken : List ℕ) (answered : Answered) → StandsFor decoder.old taken answered → Works answered work.old → Took result piece.now taken answered decoder.new work.new }
{
    let (count, step) = match decoder.take(piece) {
        Ok(taken) => taken,
        Err(fault) => return Err(fault),
    };
    match step {
        Step::More => Ok((count, Came::More)),
        Step::Head {
            channels,
            multiple,
            frames,
        } => Ok((
            count,
            Came::Head {
                channels,
                multiple,
                frames,
            },
        )),
        Step::Frame { bytes, .. } => {
            let Some(work) = work else { unreachable!() };
            let answer = decode_frame(bytes, work.channels, &mut work.scratch, &mut work.sound);
            Ok((count, Came::Frame(answer)))
        }
        Step::End => Ok((count, Came::End)),
    }
}

/// Takes bytes of a piece up to the first event, and does what it asks for: writes the front of the plain file, or the sound of a frame.
pub(crate) fn decode_step<K: Sink>(
    alloc: Global,
    decoder: &mut PushDecoder,
    piece: &[u8],
    work: &mut Option<Work>,
    sink: &mut K,
) -> Result<(usize, Next), PipeFault>
    requires ready { IsReady decoder.old work.old }
    ensures within { IfOk result (λ r. r.0 ≤ length piece.now) }
    ensures fewer { (n : ℕ) → result ≡ Ok (n, Next.Again) → events_left work.new < events_left work.old }
    ensures ready { (n : ℕ) → result ≡ Ok (n, Next.Again) → IsReady decoder.new work.new }
    ensures later { K.faults sink.old ≤ K.faults sink.new }
    ensures write { result ≡ Err PipeFault.Write → Rose (K.faults sink.old) (K.faults sink.new) }
    ensures no_read { result ≡ Err PipeFault.Read → ⊥ }
    ensures memory { (refused : AllocError) → result ≡ Err (PipeFault.Memory refused) → (work.old ≡ None) × (sink.new ≡ sink.old) }
    ensures untouched { IfOk result (λ _. work.new ≡ None → (sink.new ≡ sink.old) × (work.old ≡ None)) }
    ensures no_front { (taken more : List ℕ) (answered : Answered) → StandsFor decoder.old taken answered → Works answered work.old →
        (stream (taken ++ (piece.now ++ more))).front ≡ None → sink.new ≡ sink.old }
    ensures ends { (taken : List ℕ) (answered : Answered) → StandsFor decoder.old taken answered → Works answered work.old →
        (old : Option (List ℕ)) (room : Option ℕ) → Wrote answered old (K.written sink.old) room (K.room sink.old) →
        StepEnds result taken piece.now decoder.new work.new old (K.written sink.new) room (K.room sink.new) }
{
    let (count, came) = match take_step(decoder, piece, work) {
        Ok(taken) => taken,
        Err(fault) => return Err(PipeFault::File(fault)),
    };
    match came {
        Came::More => Ok((count, Next::More)),
        Came::End => Ok((count, Next::End)),
        Came::Head {
            channels,
            multiple,
            frames,
        } => match begin(alloc, decoder, (channels, multiple, frames), sink) {
            Ok(begun) => {
                *work = Some(begun);
                Ok((count, Next::Again))
            }
            Err(fault) => Err(fault),
        },
        Came::Frame(answer) => match write_sound(answer, work, sink) {
            Ok(()) => Ok((count, Next::Again)),
            Err(fault) => Err(fault),
        },
    }
}

// Takes the memory for so many frames of so many channels at so many times 64 times 44.1 kHz, and writes the front of the plain file.
fn begin<K: Sink>(
    alloc: Global,
    decoder: &PushDecoder,
    properties: (u32, u32, u32),
    sink: &mut K,
) -> Result<Work, PipeFault>
    requires properties { (front : Front) × IsFrontOf front properties.0 properties.1 properties.2 decoder.now }
    ensures later { K.faults sink.old ≤ K.faults sink.new }
    ensures write { result ≡ Err PipeFault.Write → Rose (K.faults sink.old) (K.faults sink.new) }
    ensures memory { (refused : AllocError) → result ≡ Err (PipeFault.Memory refused) → sink.new ≡ sink.old }
    ensures fewer { IfOk result (λ m. m.frame_count - m.decoded < 1000002) }
    ensures begun { (front : Front) → IsFrontOf front properties.0 properties.1 properties.2 decoder.now → HasBegun result front (K.written sink.old) (K.written sink.new) (K.room sink.old) (K.room sink.new) }
{
    let (channels, multiple, frames) = properties;
    let Some(channels) = Channels::at(channels, multiple) else {
        unreachable!()
    };
    let work = match Work::new(alloc, channels, frames) {
        Ok(work) => work,
        Err(refused) => return Err(PipeFault::Memory(refused)),
    };
    let sound = u64::from(frames) * channels.sound_bytes() as u64;
    match write_front(sink, decoder.version(), decoder.prop(), sound) {
        Ok(()) => Ok(work),
        Err(_) => Err(PipeFault::Write),
    }
}

// Writes the sound of a frame that was decoded, or answers its fault.
fn write_sound<K: Sink>(
    answer: Result<u32, FrameFault>,
    work: &mut Option<Work>,
    sink: &mut K,
) -> Result<(), PipeFault>
    requires some { (m : Work) × (work.old ≡ Some m) × (m.decoded < 1000000) }
    ensures later { K.faults sink.old ≤ K.faults sink.new }
    ensures write { result ≡ Err PipeFault.Write → Rose (K.faults sink.old) (K.faults sink.new) }
    ensures sound { (m : Work) → work.old ≡ Some m → SoundEnds answer result m work.new (K.written sink.old) (K.written sink.new) (K.room sink.old) (K.room sink.new) }
{
    let Some(work) = work else { unreachable!() };
    match answer {
        Err(fault) => Err(PipeFault::Frame {
            frame: work.decoded,
            fault,
        }),
        Ok(_) => match sink.append(&work.sound) {
            Ok(()) => {
                work.decoded += 1;
                Ok(())
            }
            Err(_) => Err(PipeFault::Write),
        },
    }
}
