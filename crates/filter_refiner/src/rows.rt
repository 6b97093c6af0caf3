// The rows of the recursion by which filters are refined.
ghost use Rattle.std.specs.Prelude.{◌≡◌, ℕ, ◌^◌, ◌<◌, ◌≤◌, pos, ◌≤ℤ◌, nat_abs, [], ◌∷◌, ◌++◌, length, get_or, take};
ghost use Rattle.level_spec.specs.Rows.{no_row};

use std::marker::Model;

/// The rows of a recursion: of each what is left to predict, and as many values as there are rows before it. There
/// are at most 128, with 24 fraction bits.
#[derive(Drop)]
pub struct Rows {
    count: usize,
    errors: [i64; 128],
    values: [[i64; 128]; 128],
}

impl Model for Rows {
    ghost use Rattle.std.specs.Prelude.{List, ◌≤◌};
    ghost use Rattle.level_spec.specs.Recursion.{State};
    ghost use Rattle.filter_refiner.specs.SideBySide.{states, AreNthRows};

    ghost Value = { List State };

    ghost view = { λ r. states r.errors r.values r.count };

    ghost invariant = { λ r. (r.count ≤ 128) × AreNthRows (states r.errors r.values r.count) };
}

impl Rows {
    /// No rows.
    pub fn new() -> Rows
        ensures { result ≡ [] }
    {
        Rows {
            count: 0,
            errors: [0; 128],
            values: [[0; 128]; 128],
        }
    }

    /// Keeps a row behind the others.
    pub fn push(&mut self, error: i64, values: &[i64])
        requires room { length self.old < 128 }
        requires long { length values.now ≡ length self.old }
        requires small { (j : ℕ) → nat_abs (get_or values.now j (pos 0)) ≤ 2 ^ 32 }
        requires least { pos 1 ≤ℤ error }
        requires most { error ≤ℤ pos (2 ^ 45) }
        ensures { self.new ≡ self.old ++ record { error = error; values = values.now } ∷ [] }
    {
        let place = self.count;
        self.errors[place] = error;
        copy_front(&mut self.values[place], values);
        self.count = place + 1;
    }

    /// How many there are.
    pub fn count(&self) -> usize
        ensures count { result ≡ length self.now }
        ensures most { result ≤ 128 }
    {
        self.count
    }

    /// What a row leaves to predict.
    pub fn error(&self, place: usize) -> i64
        requires inside { place < length self.now }
        requires most { place < 128 }
        ensures error { result ≡ (get_or self.now place no_row).error }
        ensures least { pos 1 ≤ℤ result }
        ensures most { result ≤ℤ pos (2 ^ 45) }
    {
        self.errors[place]
    }

    /// The values of a row, as many as there are rows before it.
    pub fn values(&self, place: usize) -> &[i64]
        requires inside { place < length self.now }
        requires most { place < 128 }
        ensures values { result.now ≡ (get_or self.now place no_row).values }
        ensures long { length result.now ≡ place }
        ensures small { (j : ℕ) → nat_abs (get_or result.now j (pos 0)) ≤ 2 ^ 32 }
        ensures few { length self.now ≤ 128 }
    {
        &self.values[place][..place]
    }
}

// Copies values to the front of others.
fn copy_front(to: &mut [i64; 128], values: &[i64])
    requires { length values.now ≤ 128 }
    ensures { take (length values.now) to.new ≡ values.now }
{
    for place in 0..values.len() {
        to[place] = values[place];
    }
}
