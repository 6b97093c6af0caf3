// What one symbol takes, without a branch.
ghost use Rattle.std.specs.Prelude.{◌≡◌, ◌≤◌, if◌then◌else◌};
ghost use Rattle.dst_spec.specs.Interval.{scale as scale_of};
ghost use Rattle.arith_core.specs.Range.{IsRange};

/// The scale of a range, in 4096ths: what a symbol 0 of probability 1 has of it.
#[inline(always)]
pub fn scale(range: u64) -> u64
    requires { IsRange range }
    ensures scale { result ≡ scale_of range }
    ensures least { 8 ≤ result }
    ensures most { result ≤ 15 }
{
    range >> 8 | range >> 7 & 1
}

/// The first of two numbers where the test is true, else the second, by a mask: a jump on a symbol is guessed wrong too often.
#[inline(always)]
pub fn select(test: bool, first: u64, second: u64) -> u64
    ensures { result ≡ (if test then first else second) }
{
    let ones = 0u64.wrapping_sub(u64::from(test));
    second ^ ((second ^ first) & ones)
}
