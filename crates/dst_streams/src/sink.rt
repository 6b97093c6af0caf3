// What a sink of bytes tells, which grows at its end.
ghost use Rattle.std.specs.Prelude.{◌≡◌, ◌+◌, ◌^◌, ◌<◌, ◌≤◌, ℕ, Bool, true, List, length, Option, Some, IsOk, OnOk, MatchResult};
ghost use Rattle.dst_streams.specs.Causes.{HasCause};
ghost use Rattle.dst_streams.specs.Told.{IsCutShort, IsSure, IsOpenIn, and_then, written_over};

use crate::Failed;

/// Bytes that are written at the end, or over what was appended, such as a file that is made.
///
/// Its counts are numbers of 64 bits. The count of faults stops at `2^64 - 1`; a call that succeeds counts none.
pub trait Sink {
    /// What is written, or None where the sink tells nothing.
    ghost written: { Self → Option (List ℕ) };

    /// How many bytes were appended by calls that succeeded.
    ghost appended: { Self → ℕ };

    /// How often the sink has failed.
    ghost faults: { Self → ℕ };

    /// How many bytes the sink is sure to take, or None.
    ghost room: { Self → Option ℕ };

    /// Whether all that is written is where the sink keeps it for good: of a real file, on its disk.
    ghost settled: { Self → Bool };

    /// Adds the piece at the end. A call that fails may have added a prefix of it.
    fn append(&mut self, piece: &[u8]) -> Result<(), Failed>
        ensures written { MatchResult result (λ _. written self.new ≡ and_then (written self.old) piece.now) (λ _. IsCutShort (written self.old) piece.now (written self.new)) }
        ensures appended { MatchResult result (λ _. appended self.new ≡ appended self.old + length piece.now) (λ _. appended self.new ≡ appended self.old) }
        ensures most { OnOk result (appended self.old + length piece.now < 2 ^ 64) }
        ensures sure { IsSure (room self.old) (room self.new) (length piece.now) result }
        ensures cause { HasCause (faults self.old) (faults self.new) result }
        ensures quiet { OnOk result (faults self.new ≡ faults self.old) };

    /// Writes the piece over the bytes from `place` on. A call that fails leaves these bytes open, and no others.
    fn overwrite(&mut self, place: u64, piece: &[u8]) -> Result<(), Failed>
        requires { place + length piece.now ≤ appended self.old }
        ensures written { MatchResult result (λ _. written self.new ≡ written_over (written self.old) place piece.now) (λ _. IsOpenIn place (length piece.now) (written self.old) (written self.new)) }
        ensures appended { appended self.new ≡ appended self.old }
        ensures sure { (n : ℕ) → room self.old ≡ Some n → IsOk result }
        ensures room { room self.new ≡ room self.old }
        ensures cause { HasCause (faults self.old) (faults self.new) result }
        ensures quiet { OnOk result (faults self.new ≡ faults self.old) };

    /// Has all that is written put where the sink keeps it for good. It leaves what is written as it is.
    ///
    /// It comes behind the last byte: no other call says that the sink is settled.
    fn finish(&mut self) -> Result<(), Failed>
        ensures written { written self.new ≡ written self.old }
        ensures appended { appended self.new ≡ appended self.old }
        ensures sure { (n : ℕ) → room self.old ≡ Some n → IsOk result }
        ensures room { room self.new ≡ room self.old }
        ensures settled { OnOk result (settled self.new ≡ true) }
        ensures cause { HasCause (faults self.old) (faults self.new) result }
        ensures quiet { OnOk result (faults self.new ≡ faults self.old) };

    /// What was appended is part of what is written.
    ghost appended_within: { (s : Self) (xs : List ℕ) → written s ≡ Some xs → appended s ≤ length xs };
}
