// The length of a code.
ghost use Rattle.std.specs.Prelude.{◌≡◌, ℕ, ◌+◌, ◌≤◌, ◌^◌, Bool, List, [], ◌∷◌, ◌++◌, length};
ghost use Rattle.dst_spec.specs.Spell.{code_spelling};
ghost use Rattle.arith_encoder.specs.Measuring.{Measures};

use crate::narrow::narrow;
use crate::scaling::scalings;
use dst_num::Prob;
use std::marker::Model;

/// Measures a code symbol after symbol, without its bits: how many doublings there are depends on the range and the
/// probabilities alone.
#[derive(Drop)]
pub struct CodeLength {
    range: u64,
    doublings: u64,
}

impl Model for CodeLength {
    ghost use Rattle.dst_spec.specs.Interval.{Interval};
    ghost use Rattle.arith_core.specs.Range.{IsRange};

    ghost Value = { Interval };

    ghost view = { λ m. record { low = 0; range = m.range; doublings = m.doublings } };

    ghost invariant = { λ m. IsRange m.range };
}

impl CodeLength {
    /// Of a code without symbols.
    pub fn new() -> CodeLength
        ensures measures { Measures result [] }
        ensures none { result.doublings ≡ 0 }
    {
        CodeLength {
            range: 4095,
            doublings: 0,
        }
    }

    /// Adds a symbol, 1 for true, of this probability.
    #[inline(always)]
    pub fn add(&mut self, symbol: bool, p: Prob)
        requires { self.old.doublings ≤ 2 ^ 40 }
        ensures measures { (pairs : List (Bool × ℕ)) → Measures self.old pairs → Measures self.new (pairs ++ (symbol, p) ∷ []) }
        ensures few { self.new.doublings ≤ self.old.doublings + 8 }
    {
        let scaling = scalings()[(p.value() % 128) as usize];
        let part = narrow(self.range, symbol, u64::from(p.value()), scaling);
        self.range = part.range;
        self.doublings += part.doublings;
    }

    /// How many bits the code has: 13, and one for each doubling.
    pub fn bits(&self) -> u64
        requires { self.now.doublings ≤ 2 ^ 41 }
        ensures code { (pairs : List (Bool × ℕ)) → Measures self.now pairs → result ≡ length (code_spelling pairs) }
        ensures most { result ≡ 13 + self.now.doublings }
    {
        13 + self.doublings
    }
}
