// A piece of a stream, decoded.
ghost use Rattle.std.specs.Prelude.{◌≡◌, ◌≤◌, ℕ, List, ◌++◌, Option, None, Err, IfOk};
ghost use Rattle.std.specs.declared.alloc.AllocError.{AllocError};
ghost use Rattle.dst_streams.specs.Causes.{Rose};
ghost use Rattle.dsdiff_spec.specs.Streams.{stream};
ghost use Rattle.push_decoder.specs.Decoder.{StandsFor};
ghost use Rattle.push_decoder.specs.Events.{Answered};
ghost use Rattle.dst_pipes.specs.States.{IsReady, Works, Wrote};
ghost use Rattle.dst_pipes.specs.Steps.{PieceEnds};
ghost use Rattle.dst_pipes.specs.declared.faults.PipeFault.{PipeFault};

use crate::faults::PipeFault;
use crate::steps::{Next, decode_step};
use crate::work::Work;
use dst_streams::Sink;
use push_decoder::PushDecoder;
use std::alloc::Global;

/// Decodes a piece. True where the stream has ended; what stands behind its end isn't looked at.
pub(crate) fn decode_piece<K: Sink>(
    alloc: Global,
    decoder: &mut PushDecoder,
    piece: &[u8],
    work: &mut Option<Work>,
    sink: &mut K,
) -> Result<bool, PipeFault>
    requires ready { IsReady decoder.old work.old }
    ensures later { K.faults sink.old ≤ K.faults sink.new }
    ensures write { result ≡ Err PipeFault.Write → Rose (K.faults sink.old) (K.faults sink.new) }
    ensures no_read { result ≡ Err PipeFault.Read → ⊥ }
    ensures memory { (refused : AllocError) → result ≡ Err (PipeFault.Memory refused) → (work.old ≡ None) × (sink.new ≡ sink.old) }
    ensures untouched { IfOk result (λ _. work.new ≡ None → (sink.new ≡ sink.old) × (work.old ≡ None)) }
    ensures no_front { (taken more : List ℕ) (answered : Answered) → StandsFor decoder.old taken answered → Works answered work.old →
        (old : Option (List ℕ)) (room : Option ℕ) → Wrote answered old (K.written sink.old) room (K.room sink.old) →
        (stream (taken ++ (piece.now ++ more))).front ≡ None → sink.new ≡ sink.old }
    ensures ends { (taken : List ℕ) (answered : Answered) → StandsFor decoder.old taken answered → Works answered work.old →
        (old : Option (List ℕ)) (room : Option ℕ) → Wrote answered old (K.written sink.old) room (K.room sink.old) →
        PieceEnds result taken piece.now decoder.new work.new old (K.written sink.new) room (K.room sink.new) }
{
    let mut start = 0;
    loop {
        let (count, next) = match decode_step(alloc, decoder, &piece[start..], work, sink) {
            Ok(taken) => taken,
            Err(fault) => return Err(fault),
        };
        start += count;
        match next {
            Next::Again => {}
            Next::More => return Ok(false),
            Next::End => return Ok(true),
        }
    }
}
