// A stream, decoded.
ghost use Rattle.std.specs.Prelude.{◌≡◌, ◌⊎◌, ◌+◌, ◌*◌, ◌≤◌, ◌<◌, ℕ, List, [], ◌∷◌, length, true, Some, None, IsOk, IfOk, IfErr, Err, Ok};
ghost use Rattle.std.specs.declared.alloc.AllocError.{AllocError};
ghost use Rattle.dst_spec.specs.declared.faults.FrameFault.{FrameFault};
ghost use Rattle.dst_streams.specs.Causes.{Rose};
ghost use Rattle.dst_streams.specs.Told.{IsCutShort, and_then};
ghost use Rattle.dsdiff_spec.specs.declared.faults.FileFault.{FileFault};
ghost use Rattle.dsdiff_spec.specs.Lines.{decoded_line};
ghost use Rattle.dsdiff_spec.specs.Outcome.{Answer, done, frame_refused};
ghost use Rattle.dst_spec.specs.Sample.{sound_bytes};
ghost use Rattle.dsdiff_spec.specs.Streams.{stream};
ghost use Rattle.push_decoder.specs.Decoder.{StandsFor};
ghost use Rattle.push_decoder.specs.Events.{Answered, nothing_answered, due};
ghost use Rattle.push_decoder.specs.Told.{EndsAs};
ghost use Rattle.stream_spec.specs.Outcome.{StreamOutcome, stream_refused};
ghost use Rattle.dst_pipes.specs.Endings.{PipeEnds, HasItsCause};
ghost use Rattle.dst_pipes.specs.declared.work.Work.{Work};
ghost use Rattle.dst_pipes.specs.declared.faults.PipeFault.{PipeFault};

use crate::faults::{PipeFault, Piped};
use crate::pieces::decode_piece;
use crate::work::Work;
use dst_streams::{Flow, Sink};
use push_decoder::{FileFault, PushDecoder};
use std::alloc::Global;

/// Bytes that are read at a time.
const BUFFER: usize = 65_536;

/// No stream has more bytes that are looked at: a form and its head.
const LONGEST: u64 = (1 << 50) + 12;

/// Decodes a stream: writes the plain file whose sound its frames mean.
///
/// Each frame is decoded and its sound appended once its last byte came. A stream or a frame that is refused is answered by its first fault; what is
/// written then ends behind the sound of the last frame before it. Nothing is read of the flow behind a piece in which the stream has ended. Memory is
/// taken before anything is written, and none that grows with the stream.
pub fn decode_pipe<F: Flow, K: Sink>(
    alloc: Global,
    flow: &mut F,
    sink: &mut K,
) -> Result<Piped, PipeFault>
    ensures later { (F.faults flow.old ≤ F.faults flow.new) × (K.faults sink.old ≤ K.faults sink.new) }
    // the plain file is written whole, and settled
    ensures decoded { IfOk result (λ s. (w : List ℕ) → F.left flow.old ≡ Some w →
        (out : List ℕ) × StreamOutcome w (done out (decoded_line s.frames s.bytes ∷ [])) × (K.written sink.new ≡ and_then (K.written sink.old) out)) }
    ensures settled { IfOk result (λ _. K.settled sink.new ≡ true) }
    // a refused stream, behind the sounds of all frames that came
    ensures file { (fault : FileFault) → result ≡ Err (PipeFault.File fault) → (w : List ℕ) → F.left flow.old ≡ Some w →
        (out : List ℕ) × StreamOutcome w (stream_refused fault out) × (K.written sink.new ≡ and_then (K.written sink.old) out) }
    // a refused frame, behind the sounds of all earlier ones
    ensures frame { (k : ℕ) (fault : FrameFault) → result ≡ Err (PipeFault.Frame k fault) → (w : List ℕ) → F.left flow.old ≡ Some w →
        (out : List ℕ) × StreamOutcome w (frame_refused k fault out) × (K.written sink.new ≡ and_then (K.written sink.old) out) }
    // failed devices, each by its cause; what is written then is a prefix of the defined output
    ensures read { result ≡ Err PipeFault.Read → Rose (F.faults flow.old) (F.faults flow.new) }
    ensures write { result ≡ Err PipeFault.Write → Rose (K.faults sink.old) (K.faults sink.new) }
    ensures cut_short { (result ≡ Err PipeFault.Read) ⊎ (result ≡ Err PipeFault.Write) → (w : List ℕ) → F.left flow.old ≡ Some w →
        (o : Answer) × StreamOutcome w o × IsCutShort (K.written sink.old) o.out (K.written sink.new) }
    ensures sure { result ≡ Err PipeFault.Write → (w : List ℕ) → F.left flow.old ≡ Some w → (o : Answer) → StreamOutcome w o →
        (room : ℕ) → K.room sink.old ≡ Some room → length o.out ≤ room → ⊥ }
    // want of memory, before anything is written
    ensures memory { (refused : AllocError) → result ≡ Err (PipeFault.Memory refused) → sink.new ≡ sink.old }
    // a stream that ends in front of its frames: the sink isn't called
    ensures no_front { (w : List ℕ) → F.left flow.old ≡ Some w → (stream w).front ≡ None → sink.new ≡ sink.old }
{
    let mut decoder = match PushDecoder::new(alloc) {
        Ok(decoder) => decoder,
        Err(refused) => return Err(PipeFault::Memory(refused)),
    };
    let mut buffer = match vec![in alloc; 0; BUFFER] {
        Ok(buffer) => buffer,
        Err(refused) => return Err(PipeFault::Memory(refused)),
    };
    run(alloc, flow, &mut decoder, buffer.as_mut_slice(), sink)
}

// Reads the flow piece by piece, up to the end of the stream.
fn run<F: Flow, K: Sink>(
    alloc: Global,
    flow: &mut F,
    decoder: &mut PushDecoder,
    buffer: &mut [u8],
    sink: &mut K,
) -> Result<Piped, PipeFault>
    requires fresh { StandsFor decoder.old [] nothing_answered }
    requires room { length buffer.old ≡ 65536 }
    ensures flow_later { F.faults flow.old ≤ F.faults flow.new }
    ensures sink_later { K.faults sink.old ≤ K.faults sink.new }
    ensures cause { IfErr result (λ fault. HasItsCause fault (F.faults flow.old) (F.faults flow.new) (K.faults sink.old) (K.faults sink.new)) }
    ensures settled { IfOk result (λ _. K.settled sink.new ≡ true) }
    ensures memory { (refused : AllocError) → result ≡ Err (PipeFault.Memory refused) → sink.new ≡ sink.old }
    ensures no_front { (w : List ℕ) → F.left flow.old ≡ Some w → (stream w).front ≡ None → sink.new ≡ sink.old }
    ensures ends { (w : List ℕ) → F.left flow.old ≡ Some w → PipeEnds result w (K.written sink.old) (K.written sink.new) (K.room sink.old) }
{
    let mut work = None;
    let mut read = 0;
    while read <= LONGEST {
        let Ok(count) = flow.next(buffer) else {
            return Err(PipeFault::Read);
        };
        if count == 0 {
            return Err(PipeFault::File(cut_fault(decoder)));
        }
        match decode_piece(alloc, decoder, &buffer[..count], &mut work, sink) {
            Ok(false) => read = decoder.taken(),
            Ok(true) => return finish(&work, sink),
            Err(fault) => return Err(fault),
        }
    }
    unreachable!()
}

// The fault of a stream that ends where more is due.
fn cut_fault(decoder: &mut PushDecoder) -> FileFault
    requires waits { (taken : List ℕ) × (answered : Answered) × StandsFor decoder.old taken answered × (due taken answered ≡ None) }
    ensures { (taken : List ℕ) (answered : Answered) → StandsFor decoder.old taken answered → EndsAs (Err result) (stream taken).ending }
{
    match decoder.close() {
        Ok(()) => unreachable!(),
        Err(fault) => fault,
    }
}

// Settles the plain file, of which all sound is written.
fn finish<K: Sink>(work: &Option<Work>, sink: &mut K) -> Result<Piped, PipeFault>
    requires whole { (m : Work) × (work.now ≡ Some m) × (m.frame_count ≤ 1000000) }
    ensures later { K.faults sink.old ≤ K.faults sink.new }
    ensures cause { IfErr result (λ fault. (fault ≡ PipeFault.Write) × Rose (K.faults sink.old) (K.faults sink.new)) }
    ensures settled { IfOk result (λ _. K.settled sink.new ≡ true) }
    ensures written { K.written sink.new ≡ K.written sink.old }
    ensures sure { (n : ℕ) → K.room sink.old ≡ Some n → IsOk result }
    ensures frames { (m : Work) → work.now ≡ Some m → IfOk result (λ s. s.frames ≡ m.frame_count) }
    ensures bytes { (m : Work) → work.now ≡ Some m → IfOk result (λ s. s.bytes ≡ m.frame_count * sound_bytes m.channels) }
{
    let Some(work) = work else { unreachable!() };
    let Ok(()) = sink.finish() else {
        return Err(PipeFault::Write);
    };
    Ok(Piped {
        frames: work.frame_count,
        bytes: u64::from(work.frame_count) * work.channels.sound_bytes() as u64,
    })
}
