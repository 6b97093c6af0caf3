// From values with 24 fraction bits to the coefficients of a filter.
ghost use Rattle.std.specs.Prelude.{◌≡◌, ℕ, ◌^◌, ◌≤◌, pos, nat_abs, length, map, get_or, take};
ghost use Rattle.level_spec.specs.Scale.{coefficient as coefficient_of, is_coefficient as is_coefficient_of, scale as scale_of, bounded as bounded_of, quantised};
ghost use Rattle.std.specs.List.{list_all};

use dst_num::FilterTable;
use filter_refiner::length_without_zeros;

/// The filter of the first values of a solution, as many as its order, at the greatest scale at which all are coefficients.
pub fn quantise(solution: &[i64; 128], order: usize) -> FilterTable
    requires least { 1 ≤ order }
    requires most { order ≤ 128 }
    requires values { (k : ℕ) → nat_abs (get_or solution.now k (pos 0)) ≤ 2 ^ 40 }
    ensures { result ≡ quantised (take order solution.now) }
{
    let values = &solution[..order];
    let coefs = coefficients(values, greatest_scale(values));
    let length = length_without_zeros(&coefs[..order]);
    match FilterTable::new(&coefs[..length]) {
        Some(table) => table,
        None => unreachable!(),
    }
}

// A value as a coefficient at a scale, rounded.
#[inline(always)]
fn coefficient(scale: u32, value: i64) -> i64
    requires scale { scale ≤ 8 }
    requires value { nat_abs value ≤ 2 ^ 40 }
    ensures { result ≡ coefficient_of scale value }
{
    (value * (1 << scale) + (1 << 23)) >> 24
}

fn is_coefficient(number: i64) -> bool
    ensures { result ≡ is_coefficient_of number }
{
    number >= -256 && number <= 255
}

// A number, or the nearer bound of coefficients.
fn bounded(number: i64) -> i16
    ensures { result ≡ bounded_of number }
{
    number.min(255).max(-256) as i16
}

fn all_are_coefficients(scale: u32, values: &[i64]) -> bool
    requires scale { scale ≤ 8 }
    requires values { (k : ℕ) → nat_abs (get_or values.now k (pos 0)) ≤ 2 ^ 40 }
    ensures { result ≡ list_all (λ a. is_coefficient_of (coefficient_of scale a)) values.now }
{
    for value in values {
        if !is_coefficient(coefficient(scale, *value)) {
            return false;
        }
    }
    true
}

// The greatest scale from 1 to 8 at which all values are coefficients, else 0.
fn greatest_scale(values: &[i64]) -> u32
    requires { (k : ℕ) → nat_abs (get_or values.now k (pos 0)) ≤ 2 ^ 40 }
    ensures scale { result ≡ scale_of 8 values.now }
    ensures most { result ≤ 8 }
{
    for less in 0..8u32 {
        if all_are_coefficients(8 - less, values) {
            return 8 - less;
        }
    }
    0
}

fn coefficients(values: &[i64], scale: u32) -> [i16; 128]
    requires scale { scale ≤ 8 }
    requires few { length values.now ≤ 128 }
    requires values { (k : ℕ) → nat_abs (get_or values.now k (pos 0)) ≤ 2 ^ 40 }
    ensures long { length result ≡ 128 }
    ensures coefs { take (length values.now) result ≡ map (λ a. bounded_of (coefficient_of scale a)) values.now }
{
    let mut coefs = [0; 128];
    for place in 0..values.len() {
        let coef = bounded(coefficient(scale, values[place]));
        coefs[place] = coef;
    }
    coefs
}
