// Laws of codes. The functions do nothing: their clauses are what is proved.
ghost use Rattle.std.specs.Prelude.{◌≡◌, ℕ, ◌-◌, ◌%◌, ◌<◌, ◌≤◌, ◌&&◌, nat_lt, min, ℤ, false, if◌then◌else◌, List, length, get_or};
ghost use Rattle.dst_spec.specs.Sample.{Shape, samples};
ghost use Rattle.dst_spec.specs.Header.{Params};
ghost use Rattle.dst_spec.specs.Guess.{filter_of, probs_of, probability, as_guessed};
ghost use Rattle.frame_predictions.specs.Codes.{code_at, codes};

/// What the code of a sample says: whether it is as guessed by parameters that give its channel the filter, and its
/// probability by theirs.
pub fn code_tells()
    ensures guess { (f : Shape) (P : Params) (sound : List ℕ) (c t : ℕ)
        → as_guessed f P sound c t ≡ nat_lt (code_at f sound c (filter_of P c) t) 64 }
    ensures probability { (f : Shape) (P : Params) (sound : List ℕ) (c t : ℕ) → 1 ≤ length (probs_of P c) → length (probs_of P c) ≤ 64
        → probability f P sound c t ≡ (if get_or P.half_prob c false && nat_lt t (length (filter_of P c)) then 128
        else get_or (probs_of P c) (min (code_at f sound c (filter_of P c) t % 64) (length (probs_of P c) - 1)) 0) }
    ensures small { (f : Shape) (sound : List ℕ) (c : ℕ) (filter : List ℤ) (t : ℕ) → code_at f sound c filter t < 128 }
{}

/// The codes of a row, one by one.
pub fn row_of_codes()
    ensures each { (f : Shape) (sound : List ℕ) (c : ℕ) (filter : List ℤ) (t : ℕ) → t < samples f
        → get_or (codes f sound c filter) t 0 ≡ code_at f sound c filter t }
    ensures long { (f : Shape) (sound : List ℕ) (c : ℕ) (filter : List ℤ) → length (codes f sound c filter) ≡ samples f }
{}
