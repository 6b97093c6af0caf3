// What a source of bytes tells, read by place.
ghost use Rattle.std.specs.Prelude.{◌≡◌, ◌<◌, ℕ, List, length, Option, Some, IsSome, IfOk, OnOk, OnErr, MatchResult};
ghost use Rattle.std.specs.List.{AllByRecursion};
ghost use Rattle.dst_streams.specs.Causes.{HasCause};
ghost use Rattle.dst_streams.specs.Told.{Loan, HoldsFrom, IsReadCount, counted};

/// A device failed. Want of memory inside a call of a real file or stream counts as such a failure too.
#[derive(Clone, Copy, Debug, PartialEq, Eq)]
pub struct Failed;

/// Bytes that are read by place, such as a file.
///
/// Its counts are numbers of 64 bits that stop at `2^64 - 1`. A call that succeeds counts no fault.
pub trait Source {
    /// The bytes, or None where the source tells none. No call changes them.
    ghost bytes: { Self → Option (List ℕ) };

    /// The number of bytes, or None where it isn't known yet.
    ghost known: { Self → Option ℕ };

    /// How often the source has failed.
    ghost faults: { Self → ℕ };

    /// How many bytes the source has given.
    ghost given: { Self → ℕ };

    /// The loan that the source reads through, and what the lent source tells, or None where it reads through none. No call changes it.
    ghost loan: { Self → Loan };

    /// The number of bytes, which never changes.
    fn size(&mut self) -> Result<u64, Failed>
        ensures bytes { bytes self.new ≡ bytes self.old }
        ensures loan { loan self.new ≡ loan self.old }
        ensures size { IfOk result (λ n. known self.new ≡ Some n) }
        ensures stays { (n : ℕ) → known self.old ≡ Some n → known self.new ≡ Some n }
        ensures unknown { OnErr result (known self.new ≡ known self.old) }
        ensures given { given self.new ≡ given self.old }
        ensures cause { HasCause (faults self.old) (faults self.new) result }
        ensures quiet { OnOk result (faults self.new ≡ faults self.old) };

    /// Reads bytes from `place` on into the front of `out`, and answers how many.
    ///
    /// Below the size that is at least one byte, and at or past the size none.
    fn read_at(&mut self, place: u64, out: &mut [u8]) -> Result<usize, Failed>
        requires known { IsSome (known self.old) }
        requires room { 0 < length out.old }
        ensures bytes { bytes self.new ≡ bytes self.old }
        ensures loan { loan self.new ≡ loan self.old }
        ensures stays { known self.new ≡ known self.old }
        ensures count { IfOk result (λ n. (size : ℕ) → known self.old ≡ Some size → IsReadCount size place (length out.old) n) }
        ensures read { IfOk result (λ n. HoldsFrom (bytes self.old) place n out.new) }
        ensures given { MatchResult result (λ n. given self.new ≡ counted (given self.old) n) (λ _. given self.new ≡ given self.old) }
        ensures cause { HasCause (faults self.old) (faults self.new) result }
        ensures quiet { OnOk result (faults self.new ≡ faults self.old) };

    /// The size that is known is the number of bytes that are told.
    ghost size_is_length: { (s : Self) (xs : List ℕ) (n : ℕ) → bytes s ≡ Some xs → known s ≡ Some n → n ≡ length xs };

    /// What is told is bytes.
    ghost told_are_bytes: { (s : Self) (xs : List ℕ) → bytes s ≡ Some xs → AllByRecursion (λ b. b < 256) xs };
}
