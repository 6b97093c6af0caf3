// From a target to the coefficients of a filter.
ghost use Rattle.std.specs.Prelude.{◌≡◌, ℕ, ◌+◌, ◌-◌, ◌*◌, ◌^◌, ◌<◌, ◌≤◌, max, pos, ◌-ℤ◌, ◌*ℤ◌, nat_abs, length, get_or, take};
ghost use Rattle.std.specs.Int.{int_div_euclid};
ghost use Rattle.level_spec.specs.Recursion.{value, whole};
ghost use Rattle.level_spec.specs.Rows.{row_value};
ghost use Rattle.level_spec.specs.Scale.{without_zeros};
ghost use Rattle.level_spec.specs.Fitting.{greatest as greatest_of, at_255 as at_255_of, nearest as nearest_of, rounding as rounding_of, fit_down, fitted};

use crate::Rows;
use dst_num::FilterTable;

// 1 with 24 fraction bits.
const ONE: i64 = 16_777_216;

/// The filter nearest to a target, with 255 for the greatest coefficient in size. The error of each rounding is fed back by the row
/// that predicts it.
pub fn fit(rows: &Rows, target: &[i64; 128]) -> FilterTable
    requires { (j : ℕ) → nat_abs (get_or target.now j (pos 0)) ≤ 2 ^ 56 }
    ensures { result ≡ fitted rows.now target.now }
{
    let most = greatest(target);
    if most == 0 {
        return FilterTable::default();
    }
    let mut values = at_255(target, most);
    let coefs = round_all(rows, &mut values);
    let length = length_without_zeros(&coefs);
    match FilterTable::new(&coefs[..length]) {
        Some(table) => table,
        None => unreachable!(),
    }
}

// The size of the greatest.
fn greatest(target: &[i64; 128]) -> u64
    requires { (j : ℕ) → nat_abs (get_or target.now j (pos 0)) ≤ 2 ^ 56 }
    ensures greatest { result ≡ greatest_of target.now }
    ensures most { result ≤ 2 ^ 56 }
{
    let mut most = 0;
    for value in target {
        most = value.unsigned_abs().max(most);
    }
    most
}

// Values with 24 fraction bits, the greatest of which is 255 in size.
fn at_255(target: &[i64; 128], most: u64) -> [i64; 128]
    requires some { 1 ≤ most }
    requires most { most ≡ greatest_of target.now }
    requires small { most ≤ 2 ^ 56 }
    ensures values { result ≡ at_255_of target.now }
    ensures small { (j : ℕ) → nat_abs (get_or result j (pos 0)) ≤ 255 * 2 ^ 24 }
{
    let mut values = [0; 128];
    for j in 0..128usize {
        values[j] = part_of(target[j], most);
    }
    values
}

// A number's part of the greatest one, of 255 with 24 fraction bits.
fn part_of(number: i64, most: u64) -> i64
    requires some { 1 ≤ most }
    requires most { most ≤ 2 ^ 56 }
    requires number { nat_abs number ≤ most }
    ensures part { result ≡ int_div_euclid (number *ℤ pos (255 * 2 ^ 24)) (pos most) }
    ensures small { nat_abs result ≤ 255 * 2 ^ 24 }
{
    (i128::from(number) * 4_278_190_080).div_euclid(i128::from(most)) as i64
}

// A value as a coefficient.
#[inline(always)]
fn nearest(value: i64) -> i64
    requires { nat_abs value ≤ 2 ^ 40 }
    ensures nearest { result ≡ nearest_of value }
    ensures small { nat_abs result ≤ 256 }
{
    ((value + (1 << 23)) >> 24).min(255).max(-256)
}

// The coefficient less the value.
fn rounding(value: i64) -> i64
    requires { nat_abs value ≤ 2 ^ 40 }
    ensures rounding { result ≡ rounding_of value }
    ensures small { nat_abs result ≤ 2 ^ 24 }
{
    (nearest(value) * ONE - value).min(ONE).max(-ONE)
}

// What follows from the error of a rounding, by a value of a row.
#[inline(always)]
fn share(error: i64, value: i64) -> i64
    requires error { nat_abs error ≤ 2 ^ 24 }
    requires value { nat_abs value ≤ 2 ^ 32 }
    ensures share { result ≡ whole (error *ℤ value) }
    ensures most { nat_abs result ≤ 2 ^ 32 }
{
    (error * value) >> 24
}

// Feeds the error of a rounding back to as many values as a row has.
fn feed_back(values: &mut [i64; 128], row: &[i64], error: i64)
    requires row { (j : ℕ) → nat_abs (get_or row.now j (pos 0)) ≤ 2 ^ 32 }
    requires few { length row.now ≤ 128 }
    requires error { nat_abs error ≤ 2 ^ 24 }
    requires values { (j : ℕ) → nat_abs (get_or values.old j (pos 0)) ≤ 2 ^ 40 }
    ensures before { (j : ℕ) → j < length row.now
        → get_or values.new j (pos 0) ≡ get_or values.old j (pos 0) -ℤ whole (error *ℤ value row.now (length row.now - j)) }
    ensures most { (j : ℕ) → nat_abs (get_or values.new j (pos 0)) ≤ nat_abs (get_or values.old j (pos 0)) + 2 ^ 32 }
{
    for j in 0..row.len() {
        let share = share(error, row[row.len() - j - 1]);
        values[j] -= share;
    }
}

// Feeds the error of a rounding back by the row of its place, where there is one.
fn feed_row(rows: &Rows, values: &mut [i64; 128], place: usize, error: i64)
    requires place { place < 128 }
    requires error { nat_abs error ≤ 2 ^ 24 }
    requires values { (j : ℕ) → nat_abs (get_or values.old j (pos 0)) ≤ 2 ^ 40 }
    ensures before { (j : ℕ) → j < place → get_or values.new j (pos 0) ≡ get_or values.old j (pos 0) -ℤ whole (error *ℤ row_value rows.now place j) }
    ensures most { (j : ℕ) → nat_abs (get_or values.new j (pos 0)) ≤ nat_abs (get_or values.old j (pos 0)) + 2 ^ 32 }
{
    if place >= rows.count() {
        return;
    }
    feed_back(values, rows.values(place), error);
}

// Rounds all values, the last one first.
fn round_all(rows: &Rows, values: &mut [i64; 128]) -> [i16; 128]
    requires { (j : ℕ) → nat_abs (get_or values.old j (pos 0)) ≤ 255 * 2 ^ 24 }
    ensures { result ≡ fit_down rows.now values.old 128 }
{
    let mut coefs = [0; 128];
    for behind in 0..128usize {
        let place = 127 - behind;
        let value = values[place];
        coefs[place] = nearest(value) as i16;
        feed_row(rows, values, place, rounding(value));
    }
    coefs
}

/// 1 and the place of the last coefficient that isn't 0, and at least 1.
pub fn length_without_zeros(coefs: &[i16]) -> usize
    ensures without { take result coefs.now ≡ without_zeros coefs.now }
    ensures least { 1 ≤ result }
    ensures most { result ≤ max 1 (length coefs.now) }
{
    let mut length = 0;
    for place in 0..coefs.len() {
        if coefs[place] != 0 {
            length = place + 1;
        }
    }
    length.max(1)
}
