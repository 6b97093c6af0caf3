// What a step takes from a filter's counts, and where it moves the filter.
ghost use Rattle.std.specs.Prelude.{◌≡◌, ℕ, ◌+◌, ◌-◌, ◌*◌, ◌^◌, ◌<◌, ◌≤◌, pos, ◌-ℤ◌, ◌*ℤ◌, ◌≤ℤ◌, ◌<ℤ◌, nat_abs, true, false, get_or, int_le, map};
ghost use Rattle.std.specs.Int.{int_div_euclid};
ghost use Rattle.std.specs.List.{range_with_len};
ghost use Rattle.level_spec.specs.Refining.{agreement as agreement_of, power as power_of, weight, pull as pull_of, target as target_of};
ghost use Rattle.level_spec.specs.Counts.{entry as entry_of};

use dst_num::FilterTable;

/// The sums of what a filter predicts: of the sizes of right predictions less those of wrong ones, and of the squares of all.
#[derive(Clone, Copy, Drop)]
pub struct Sums {
    pub agreement: i64,
    pub power: i64,
}

/// The sums of counts of codes.
pub fn sums_of(counts: &[u32; 128]) -> Sums
    requires { (q : ℕ) → get_or counts.now q 0 ≤ 6 * 150528 }
    ensures agreement { result.agreement ≡ agreement_of (λ p. get_or counts.now p 0 + get_or counts.now (p + 64) 0) (λ p. get_or counts.now (p + 64) 0) }
    ensures power { result.power ≡ power_of (λ p. get_or counts.now p 0 + get_or counts.now (p + 64) 0) }
    ensures few { nat_abs result.agreement ≤ 2 ^ 45 }
    ensures least { pos 0 ≤ℤ result.power }
    ensures most { nat_abs result.power ≤ 2 ^ 45 }
{
    let mut agreement = 0;
    let mut power = 0;
    for place in 0..64usize {
        agreement += agreement_at(counts[place], counts[place + 64], place);
        power += power_at(counts[place], counts[place + 64], place);
    }
    Sums {
        agreement,
        power: power as i64,
    }
}

// Of a place the sizes of right predictions less those of wrong ones.
fn agreement_at(right: u32, wrong: u32, place: usize) -> i64
    requires right { right ≤ 6 * 150528 }
    requires wrong { wrong ≤ 6 * 150528 }
    requires place { place < 64 }
    ensures agreement { result ≡ (pos (right + wrong) -ℤ pos (2 * wrong)) *ℤ pos (8 * place + 4) }
    ensures most { nat_abs result ≤ 2 ^ 38 }
{
    (i64::from(right) - i64::from(wrong)) * (8 * place as i64 + 4)
}

// Of a place the squares of predictions.
fn power_at(right: u32, wrong: u32, place: usize) -> u64
    requires right { right ≤ 6 * 150528 }
    requires wrong { wrong ≤ 6 * 150528 }
    requires place { place < 64 }
    ensures power { result ≡ (right + wrong) * ((8 * place + 4) * (8 * place + 4)) }
    ensures most { result ≤ 2 ^ 39 }
{
    let middle = 8 * place as u64 + 4;
    (u64::from(right) + u64::from(wrong)) * (middle * middle)
}

/// Whether the guesses agree too little for a step.
pub fn agree_little(sums: Sums) -> bool
    requires { nat_abs sums.agreement ≤ 2 ^ 45 }
    ensures { result ≡ int_le (sums.agreement *ℤ pos (2 ^ 13)) sums.power }
{
    sums.agreement * 8192 <= sums.power
}

/// Of each code its weight: how surprising its sample was, in 256ths.
pub fn weights_of(counts: &[u32; 128]) -> [u8; 128]
    requires { (q : ℕ) → get_or counts.now q 0 < 2 ^ 23 }
    ensures right { (p : ℕ) → p < 64 → get_or result p 0
        ≡ weight (λ p. get_or counts.now p 0 + get_or counts.now (p + 64) 0) (λ p. get_or counts.now (p + 64) 0) p false }
    ensures wrong { (p : ℕ) → p < 64 → get_or result (p + 64) 0
        ≡ weight (λ p. get_or counts.now p 0 + get_or counts.now (p + 64) 0) (λ p. get_or counts.now (p + 64) 0) p true }
{
    let mut weights = [0; 128];
    for place in 0..64usize {
        let wrong = counts[place + 64];
        let part = entry(counts[place] + wrong, wrong);
        weights[place] = part;
        weights[place + 64] = 255 - part + 1;
    }
    weights
}

/// The part of so many guesses that were wrong, in 256ths.
pub fn entry(total: u32, wrong: u32) -> u8
    requires total { total < 2 ^ 24 }
    requires wrong { wrong < 2 ^ 23 }
    ensures entry { result ≡ entry_of total wrong }
    ensures least { 1 ≤ result }
    ensures most { result ≤ 128 }
{
    if total == 0 {
        return 128;
    }
    ((256 * wrong + total / 2) / total).max(1).min(128) as u8
}

// A coefficient, which is 0 behind the last one.
fn coefficient(filter: &FilterTable, place: usize) -> i64
    ensures coefficient { result ≡ get_or filter.now place (pos 0) }
    ensures small { nat_abs result ≤ 256 }
{
    let coefs = filter.coefs();
    if place < coefs.len() {
        i64::from(coefs[place])
    } else {
        0
    }
}

/// What a step is solved for, from the gradient at a filter.
pub fn pulls(r0: i64, sums: Sums, gradient: &[i64; 128], filter: &FilterTable) -> [i64; 128]
    requires r0 { nat_abs r0 ≤ 2 ^ 20 }
    requires few { nat_abs sums.agreement ≤ 2 ^ 45 }
    requires power { pos 0 ≤ℤ sums.power }
    requires most { nat_abs sums.power ≤ 2 ^ 45 }
    requires agree { sums.power <ℤ (sums.agreement *ℤ pos (2 ^ 13)) }
    requires gradient { (j : ℕ) → nat_abs (get_or gradient.now j (pos 0)) ≤ 2 ^ 28 }
    ensures pulls { result ≡ map (λ j. pull_of r0 sums.agreement sums.power (get_or gradient.now j (pos 0)) (get_or filter.now j (pos 0))) (range_with_len 0 128) }
    ensures most { (j : ℕ) → nat_abs (get_or result j (pos 0)) ≤ 2 ^ 59 }
{
    let mut pulls = [0; 128];
    for lag in 0..128usize {
        let pull = pull(r0, sums, gradient[lag], coefficient(filter, lag));
        pulls[lag] = pull;
    }
    pulls
}

fn pull(r0: i64, sums: Sums, gradient: i64, coef: i64) -> i64
    requires r0 { nat_abs r0 ≤ 2 ^ 20 }
    requires few { nat_abs sums.agreement ≤ 2 ^ 45 }
    requires power { pos 0 ≤ℤ sums.power }
    requires most { nat_abs sums.power ≤ 2 ^ 45 }
    requires agree { sums.power <ℤ (sums.agreement *ℤ pos (2 ^ 13)) }
    requires gradient { nat_abs gradient ≤ 2 ^ 28 }
    requires coef { nat_abs coef ≤ 256 }
    ensures pull { result ≡ pull_of r0 sums.agreement sums.power gradient coef }
    ensures most { nat_abs result ≤ 2 ^ 59 }
{
    part(sums, gradient) - 64 * (r0 * coef)
}

// The gradient by what the filter predicts.
fn part(sums: Sums, gradient: i64) -> i64
    requires few { nat_abs sums.agreement ≤ 2 ^ 45 }
    requires power { pos 0 ≤ℤ sums.power }
    requires most { nat_abs sums.power ≤ 2 ^ 45 }
    requires agree { sums.power <ℤ (sums.agreement *ℤ pos (2 ^ 13)) }
    requires gradient { nat_abs gradient ≤ 2 ^ 28 }
    ensures part { result ≡ int_div_euclid (gradient *ℤ sums.power *ℤ pos (2 ^ 17)) sums.agreement }
    ensures most { nat_abs result ≤ 2 ^ 58 }
{
    let product = i128::from(gradient) * i128::from(sums.power);
    (product * 131_072).div_euclid(i128::from(sums.agreement)) as i64
}

/// Where a filter is moved by what solving answers.
pub fn target(filter: &FilterTable, moves: &[i64; 128]) -> [i64; 128]
    requires { (j : ℕ) → nat_abs (get_or moves.now j (pos 0)) ≤ 2 ^ 54 }
    ensures target { result ≡ target_of filter.now moves.now }
    ensures most { (j : ℕ) → nat_abs (get_or result j (pos 0)) ≤ 2 ^ 56 }
{
    let mut target = [0; 128];
    for place in 0..128usize {
        let value = coefficient(filter, place) * 16_777_216 + moves[place];
        target[place] = value;
    }
    target
}
