// Pieces that are appended to a sink.
ghost use Rattle.std.specs.Prelude.{MatchResult};
ghost use Rattle.dst_streams.specs.Causes.{HasCause};
ghost use Rattle.dst_commands.specs.Writing.{Adds, Stops};

use dst_streams::{Failed, Sink};

/// Appends bytes where there are any: no call is made for an empty piece.
pub fn write_any<K: Sink>(sink: &mut K, piece: &[u8]) -> Result<(), Failed>
    ensures cause { HasCause (K.faults sink.old) (K.faults sink.new) result }
    ensures written { MatchResult result
        (λ _. Adds piece.now (K.written sink.old) (K.written sink.new) (K.room sink.old) (K.room sink.new))
        (λ _. Stops (Unit {0}) piece.now (K.written sink.old) (K.written sink.new) (K.room sink.old)) }
{
    if piece.is_empty() {
        Ok(())
    } else {
        sink.append(piece)
    }
}
