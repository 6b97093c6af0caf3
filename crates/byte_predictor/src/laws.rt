// Laws of the samples before a place, and of sums over them. The functions do nothing: their clauses are what is proved.
ghost use Rattle.std.specs.Prelude.{◌≡◌, ℕ, ◌+◌, ◌-◌, ◌*◌, ◌≤◌, ◌∷◌, ◌++◌, ℤ, pos, ◌-ℤ◌, List, length, get_or, drop, replicate};
ghost use Rattle.dst_spec.specs.Sample.{Shape, sample};
ghost use Rattle.dst_spec.specs.Guess.{sum_before};
ghost use Rattle.byte_predictor.specs.Samples.{IsBefore, rising_bits, samples_of, signed_sum};
ghost use Rattle.byte_predictor.specs.Upward.{upward_sum, size_sum, twice_ones};

/// What stands before a frame, before the next sample and before each sample of a byte, and that a filter's sum over such samples is the
/// prediction.
pub fn samples_before()
    ensures frame { (f : Shape) (sound : List ℕ) (c : ℕ) → IsBefore f sound c 0 (samples_of (replicate 16 0xaa)) }
    ensures next { (f : Shape) (sound : List ℕ) (c t : ℕ) (samples : List ℕ) → IsBefore f sound c t samples
        → IsBefore f sound c (t + 1) (sample f sound c (pos t) ∷ samples) }
    ensures byte { (f : Shape) (sound : List ℕ) (c m place : ℕ) (samples : List ℕ) → place ≤ 8 → IsBefore f sound c (8 * m) samples
        → IsBefore f sound c (8 * m + place) (drop (8 - place) (rising_bits 8 (get_or sound (m * f.channels + c) 0) ++ samples)) }
    ensures predicts { (f : Shape) (sound : List ℕ) (c t : ℕ) (samples : List ℕ) (coefs : List ℤ) → length coefs ≤ 128
        → IsBefore f sound c t samples → signed_sum coefs samples ≡ sum_before f sound c coefs (pos t) }
{}

/// A filter's sum is twice the coefficients whose sample is 1, less all of them; and so is twice what they add upward, less
/// their sizes.
pub fn sums()
    ensures ones { (coefs : List ℤ) (samples : List ℕ) → length coefs ≤ length samples
        → signed_sum coefs samples ≡ twice_ones coefs samples }
    ensures upward { (coefs : List ℤ) (samples : List ℕ) → length coefs ≤ length samples
        → pos (2 * upward_sum coefs samples) -ℤ pos (size_sum coefs) ≡ twice_ones coefs samples }
{}
