// The probability of a symbol.
ghost use Rattle.std.specs.Prelude.{◌≡◌, ◌≤◌, IfNone, IfSome};

use std::marker::Model;

/// The probability of a symbol of the arithmetic code, in 256ths: 1 to 128.
#[derive(Clone, Copy, Debug, PartialEq, Eq)]
pub struct Prob {
    value: u32,
}

impl Model for Prob {
    ghost use Rattle.std.specs.Prelude.{ℕ, ◌≤◌};

    ghost Value = { ℕ };

    ghost view = { λ p. p.value };

    ghost invariant = { λ p. (1 ≤ p.value) × (p.value ≤ 128) };

    ghost inverse = { λ n. record { value = n } };
}

impl Prob {
    /// There is none unless the value is 1 to 128.
    pub fn new(value: u32) -> Option<Prob>
        ensures none { IfNone result (1 ≤ value → value ≤ 128 → ⊥) }
        ensures value { IfSome result (λ p. p ≡ value) }
        ensures least { IfSome result (λ p. 1 ≤ p) }
        ensures most { IfSome result (λ p. p ≤ 128) }
    {
        if value == 0 || value > 128 {
            return None;
        }
        Some(Prob { value })
    }

    /// So many 256ths.
    pub fn value(self) -> u32
        ensures value { result ≡ self }
        ensures least { 1 ≤ self }
        ensures most { self ≤ 128 }
    {
        self.value
    }
}
