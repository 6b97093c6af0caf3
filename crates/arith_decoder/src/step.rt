// One symbol, without a branch.
ghost use Rattle.std.specs.Prelude.{◌≡◌, ◌*◌, ◌/◌, ◌%◌, ◌^◌, ◌<◌, ◌≤◌, ℕ};
ghost use Rattle.arith_core.specs.Range.{IsRange};
ghost use Rattle.arith_decoder.specs.Registers.{IsCut, IsStep, due, value_below};

use arith_core::select;

// The gap and the range, doubled where that is due.
#[inline(always)]
pub(crate) fn doubled(gap: u64, range: u64) -> (u64, u64)
    requires most { range ≤ 4095 }
    requires fits { due range gap < 2 ^ 64 }
    ensures gap { result.0 ≡ due range gap }
    ensures range { result.1 ≡ due range range }
{
    let times = 2 - (range >> 11);
    (gap * times, range * times)
}

// The registers after a symbol, and the symbol, from its part of the range. One doubling at most is due then. Symbol 0 has
// the part of the range at its top, so it is the symbol where the gap is less.
#[inline(always)]
pub(crate) fn step(gap: u64, range: u64, part: u64, factor: u64) -> (u64, u64, bool)
    requires range { IsRange range }
    requires within { gap ≤ range * 2 ^ 52 }
    requires some { 0 < gap % 2 ^ 52 }
    requires cut { (p : ℕ) × (1 ≤ p) × (p ≤ 128) × IsCut p range part factor }
    ensures within { result.0 ≤ result.1 * 2 ^ 52 }
    ensures step { (p : ℕ) → 1 ≤ p → p ≤ 128 → IsCut p range part factor
        → IsStep p (value_below range gap) range result.2 (due result.1 (value_below result.1 result.0)) (due result.1 result.1) }
{
    let (rest, zero) = gap.overflowing_sub(part << 52);
    (
        select(zero, gap.wrapping_mul(factor), rest),
        select(zero, part * factor, range - part),
        !zero,
    )
}
