// By the rows, the values whose correlations are given.
ghost use Rattle.std.specs.Prelude.{◌≡◌, ℕ, ◌+◌, ◌-◌, ◌*◌, ◌^◌, ◌<◌, ◌≤◌, pos, ◌+ℤ◌, ◌-ℤ◌, ◌*ℤ◌, nat_abs, length, get_or, take, None, Some, IfNone, IfSome};
ghost use Rattle.level_spec.specs.Correlation.{sum_over};
ghost use Rattle.level_spec.specs.Recursion.{value, whole};
ghost use Rattle.level_spec.specs.Solving.{growth as growth_of, solved};

use crate::Rows;

// 1 with 24 fraction bits.
const ONE: i64 = 16_777_216;

/// The values whose correlations are the wanted ones, as many as there are rows, and zeros behind them. There is no answer where
/// one would grow by more than 2 ^ 62.
pub fn solve(rows: &Rows, wanted: &[i64; 128]) -> Option<[i64; 128]>
    requires { (j : ℕ) → nat_abs (get_or wanted.now j (pos 0)) ≤ 2 ^ 59 }
    ensures none { IfNone result (solved rows.now wanted.now ≡ None) }
    ensures some { IfSome result (λ d. solved rows.now wanted.now ≡ Some (take (length rows.now) d)) }
    ensures rest { IfSome result (λ d. (j : ℕ) → length rows.now ≤ j → get_or d j (pos 0) ≡ pos 0) }
    ensures most { IfSome result (λ d. (j : ℕ) → nat_abs (get_or d j (pos 0)) ≤ 2 ^ 54) }
{
    let mut grown = [0i128; 128];
    for place in 0..rows.count() {
        let growth = growth(rows, wanted, place);
        if growth.unsigned_abs() > 1 << 62 {
            return None;
        }
        follow(&mut grown, rows.values(place), growth as i64);
    }
    Some(wholes(&grown))
}

fn product(a: i64, b: i64) -> i128
    ensures { result ≡ a *ℤ b }
{
    i128::from(a) * i128::from(b)
}

// What follows from a growth, by a value of a row.
fn part(growth: i64, value: i64) -> i128
    requires growth { nat_abs growth ≤ 2 ^ 62 }
    requires value { nat_abs value ≤ 2 ^ 32 }
    ensures part { result ≡ whole (growth *ℤ value) }
    ensures most { nat_abs result ≤ 2 ^ 70 }
{
    product(growth, value) >> 24
}

// What a row leaves of a wanted one.
fn left_by(values: &[i64], wanted: &[i64; 128]) -> i128
    requires values { (j : ℕ) → nat_abs (get_or values.now j (pos 0)) ≤ 2 ^ 32 }
    requires few { length values.now < 128 }
    requires wanted { (j : ℕ) → nat_abs (get_or wanted.now j (pos 0)) ≤ 2 ^ 59 }
    ensures left { result ≡ get_or wanted.now (length values.now) (pos 0) *ℤ pos (2 ^ 24)
        -ℤ sum_over (λ j. value values.now (length values.now - j) *ℤ get_or wanted.now j (pos 0)) 0 (length values.now) }
    ensures most { nat_abs result ≤ 2 ^ 99 }
{
    let mut rest = product(wanted[values.len()], ONE);
    for j in 0..values.len() {
        rest -= product(values[values.len() - j - 1], wanted[j]);
    }
    rest
}

// By this a value grows.
fn growth(rows: &Rows, wanted: &[i64; 128], place: usize) -> i128
    requires place { place < length rows.now }
    requires few { length rows.now ≤ 128 }
    requires wanted { (j : ℕ) → nat_abs (get_or wanted.now j (pos 0)) ≤ 2 ^ 59 }
    ensures { result ≡ growth_of rows.now wanted.now place }
{
    let rest = left_by(rows.values(place), wanted);
    (rest * i128::from(ONE)).div_euclid(i128::from(rows.error(place)))
}

// The value behind those of a row grows, and those follow.
fn follow(grown: &mut [i128; 128], values: &[i64], growth: i64)
    requires values { (j : ℕ) → nat_abs (get_or values.now j (pos 0)) ≤ 2 ^ 32 }
    requires few { length values.now < 128 }
    requires growth { nat_abs growth ≤ 2 ^ 62 }
    requires grown { (j : ℕ) → nat_abs (get_or grown.old j (pos 0)) ≤ 2 ^ 77 }
    ensures before { (j : ℕ) → j < length values.now
        → get_or grown.new j (pos 0) ≡ get_or grown.old j (pos 0) -ℤ whole (growth *ℤ value values.now (length values.now - j)) }
    ensures here { get_or grown.new (length values.now) (pos 0) ≡ get_or grown.old (length values.now) (pos 0) +ℤ growth }
    ensures behind { (j : ℕ) → length values.now < j → get_or grown.new j (pos 0) ≡ get_or grown.old j (pos 0) }
    ensures most { (j : ℕ) → nat_abs (get_or grown.new j (pos 0)) ≤ nat_abs (get_or grown.old j (pos 0)) + 2 ^ 70 }
{
    for j in 0..values.len() {
        let part = part(growth, values[values.len() - j - 1]);
        grown[j] -= part;
    }
    let place = values.len();
    grown[place] += i128::from(growth);
}

// Numbers without their 24 fraction bits, rounded down.
fn wholes(numbers: &[i128; 128]) -> [i64; 128]
    requires { (j : ℕ) → nat_abs (get_or numbers.now j (pos 0)) ≤ 2 ^ 78 }
    ensures wholes { (j : ℕ) → get_or result j (pos 0) ≡ whole (get_or numbers.now j (pos 0)) }
    ensures long { length result ≡ 128 }
    ensures most { (j : ℕ) → nat_abs (get_or result j (pos 0)) ≤ 2 ^ 54 }
{
    let mut wholes = [0; 128];
    for j in 0..128usize {
        wholes[j] = (numbers[j] >> 24) as i64;
    }
    wholes
}
