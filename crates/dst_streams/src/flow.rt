// What a flow of bytes tells, read from its front.
ghost use Rattle.std.specs.Prelude.{◌≡◌, ◌<◌, ◌≤◌, ℕ, List, length, take, Option, Some, IfOk, OnOk, OnErr};
ghost use Rattle.std.specs.List.{AllByRecursion};
ghost use Rattle.dst_streams.specs.Causes.{HasCause};
ghost use Rattle.dst_streams.specs.Told.{IsZeroAtEnd, after_piece};

use crate::Failed;

/// Bytes that come once, in order, such as those of a pipe.
///
/// Its count of faults is a number of 64 bits that stops at `2^64 - 1`. A call that succeeds counts none.
pub trait Flow {
    /// What is left, or None where the flow tells nothing.
    ghost left: { Self → Option (List ℕ) };

    /// How often the flow has failed.
    ghost faults: { Self → ℕ };

    /// Moves bytes from the front of what is left into the front of `out`, and answers how many: 0 exactly at the end.
    ///
    /// A call that fails moves nothing.
    fn next(&mut self, out: &mut [u8]) -> Result<usize, Failed>
        requires room { 0 < length out.old }
        ensures count { IfOk result (λ n. n ≤ length out.old) }
        ensures moved { IfOk result (λ n. left self.old ≡ after_piece (take n out.new) (left self.new)) }
        ensures end { IfOk result (λ n. IsZeroAtEnd (left self.old) n) }
        ensures stays { OnErr result (left self.new ≡ left self.old) }
        ensures cause { HasCause (faults self.old) (faults self.new) result }
        ensures quiet { OnOk result (faults self.new ≡ faults self.old) };

    /// What is told is bytes.
    ghost told_are_bytes: { (s : Self) (xs : List ℕ) → left s ≡ Some xs → AllByRecursion (λ b. b < 256) xs };
}
