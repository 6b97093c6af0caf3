// How many bits a filter comes to, in 4096ths.
ghost use Rattle.std.specs.Prelude.{◌≡◌, ℕ, ◌+◌, ◌-◌, ◌*◌, ◌^◌, ◌<◌, ◌≤◌, length, get_or};
ghost use Rattle.level_spec.specs.Size.{shortened, power_in as power_in_of, next_digit as next_digit_of, digits_after, bits_of as bits_of_symbol, place_bits, size};

use dst_num::{FilterTable, ProbTable};
use table_code::{Filters, Probs, best_spelling};

/// A table without its last entry, while there are more than two and it equals the one before it.
pub fn shorten(table: &ProbTable) -> ProbTable
    requires { 2 ≤ length table.now }
    ensures { result ≡ shortened table.now }
{
    let entries = table.entries();
    let mut length = 2;
    for place in 2..entries.len() {
        if entries[place] != entries[place - 1] {
            length = place + 1;
        }
    }
    match ProbTable::new(&entries[..length]) {
        Some(table) => table,
        None => unreachable!(),
    }
}

/// The bits of a filter and its table over so many channels, in 4096ths, by the counts of the filter's codes: those of both in their
/// shortest spellings, one for each of the first samples, and what all symbols come to.
pub fn filter_size(
    filter: &FilterTable,
    table: &ProbTable,
    channels: usize,
    counts: &[u32; 128],
) -> u64
    requires channels { channels ≤ 6 }
    requires counts { (q : ℕ) → get_or counts.now q 0 < 2 ^ 23 }
    ensures { result ≡ size filter.now channels (λ p. get_or counts.now p 0 + get_or counts.now (p + 64) 0)
        (λ p. get_or counts.now (p + 64) 0) table.now }
{
    let spelled = best_spelling::<Filters>(filter).1 as u64
        + best_spelling::<Probs>(table).1 as u64;
    let mut bits = 4096 * (spelled + (channels * filter.coefs().len()) as u64);
    for place in 0..64usize {
        bits += place_size(counts, table.entries(), place);
    }
    bits
}

// What the symbols of a place come to.
fn place_size(counts: &[u32; 128], entries: &[u8], place: usize) -> u64
    requires place { place < 64 }
    requires counts { (q : ℕ) → get_or counts.now q 0 < 2 ^ 23 }
    requires some { 1 ≤ length entries.now }
    requires entries { (p : ℕ) → p < length entries.now → (1 ≤ get_or entries.now p 0) × (get_or entries.now p 0 ≤ 128) }
    ensures bits { result ≡ place_bits (λ p. get_or counts.now p 0 + get_or counts.now (p + 64) 0) (λ p. get_or counts.now (p + 64) 0) entries.now place }
    ensures most { result ≤ 2 ^ 40 }
{
    let entry = u32::from(entries[place.min(entries.len() - 1)]);
    u64::from(counts[place + 64]) * bits_of(entry) + u64::from(counts[place]) * bits_of(256 - entry)
}

// The bits of a symbol of a probability in 256ths, in 4096ths.
fn bits_of(probability: u32) -> u64
    requires least { 1 ≤ probability }
    requires most { probability ≤ 255 }
    ensures bits { result ≡ bits_of_symbol probability }
    ensures most { result ≤ 2 ^ 15 }
{
    let power = power_in(probability);
    4096 * (8 - power as u64) - digits_of((probability as u64) << (31 - power))
}

// Twelve binary digits of the logarithm of a number from 1 to 2 with 31 fraction bits.
fn digits_of(number: u64) -> u64
    requires { number < 2 ^ 32 }
    ensures digits { result ≡ (digits_after 12 (record { rest = number; digits = 0 })).digits }
    ensures most { result < 4096 }
{
    let mut rest = number;
    let mut digits = 0;
    for _step in 0..12usize {
        let next = next_digit(rest, digits);
        rest = next.0;
        digits = next.1;
    }
    digits
}

// One binary digit more.
fn next_digit(rest: u64, digits: u64) -> (u64, u64)
    requires rest { rest < 2 ^ 32 }
    requires digits { digits < 4096 }
    ensures next { record { rest = result.0; digits = result.1 } ≡ next_digit_of (record { rest = rest; digits = digits }) }
    ensures rest { result.0 < 2 ^ 32 }
    ensures digits { result.1 ≤ 2 * digits + 1 }
{
    let square = rest * rest >> 31;
    if square >= 1 << 32 {
        (square / 2, 2 * digits + 1)
    } else {
        (square, 2 * digits)
    }
}

// The greatest power of 2 that isn't greater than a number.
fn power_in(number: u32) -> usize
    requires least { 1 ≤ number }
    requires most { number ≤ 255 }
    ensures power { result ≡ power_in_of number }
    ensures above { number < 2 ^ (result + 1) }
    ensures most { result ≤ 7 }
{
    let mut next = 2;
    for power in 0..7usize {
        if number < next {
            return power;
        }
        next *= 2;
    }
    7
}
