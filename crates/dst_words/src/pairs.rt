// Pairs of numbers of a command.
ghost use Rattle.std.specs.Prelude.{◌≡◌, ◌<◌, ◌≤◌, [], ◌∷◌, ◌++◌, length};

use std::marker::Model;

/// Up to sixteen parts of the sound, each by the group at which it begins and the number of its groups. A group is eight samples
/// of each channel.
#[derive(Clone, Copy, Debug, PartialEq, Eq)]
pub struct Pairs {
    count: usize,
    pairs: [(u32, u32); 16],
}

impl Model for Pairs {
    ghost use Rattle.std.specs.Prelude.{ℕ, List};

    ghost Value = { List (ℕ × ℕ) };

    ghost use Rattle.dst_words.specs.Pairs.{pairs_seen, IsFilledUp, with_pairs, gives_back};

    ghost view = { pairs_seen };

    ghost invariant = { IsFilledUp };

    ghost inverse = { with_pairs };

    ghost inverse_ok = { gives_back };
}

impl Pairs {
    /// No parts.
    pub fn new() -> Self
        ensures { result ≡ [] }
    {
        Pairs {
            count: 0,
            pairs: [(0, 0); 16],
        }
    }

    /// One part more.
    pub fn push(&mut self, from: u32, count: u32)
        requires { length self.old < 16 }
        ensures { self.new ≡ self.old ++ (from, count) ∷ [] }
    {
        self.pairs[self.count] = (from, count);
        self.count += 1;
    }

    /// The parts in order.
    pub fn as_slice(&self) -> &[(u32, u32)]
        ensures pairs { result.now ≡ self.now }
        ensures most { length self.now ≤ 16 }
    {
        &self.pairs[..self.count]
    }
}
