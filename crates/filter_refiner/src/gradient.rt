// How the samples of a channel, by their weights, agree with those before them.
ghost use Rattle.std.specs.Prelude.{◌≡◌, ℕ, ◌+◌, ◌-◌, ◌*◌, ◌/◌, ◌%◌, ◌^◌, ◌<◌, ◌≤◌, pos, ◌+ℤ◌, nat_abs, if◌then◌else◌, length, get_or, All};
ghost use Rattle.dst_spec.specs.Sample.{samples, sound_bytes};
ghost use Rattle.dst_spec.specs.Guess.{signed};
ghost use Rattle.level_spec.specs.Correlation.{sum_over};
ghost use Rattle.level_spec.specs.Refining.{weighted_agreement};
ghost use Rattle.filter_refiner.specs.Cells.{half as half_of, weighted, taken, in_cell, agreeing, place_before, bytes_before};

use crate::history::{BYTES, fill_history};
use dst_num::Channels;

/// Adds how the samples of a channel agree with those 1 to 128 places before, each by the weight of its code. The first samples
/// are left out; those before the frame are used.
pub fn add_gradient(
    gradient: &mut [i64; 128],
    codes: &[u8],
    weights: &[u8; 128],
    sound: &[u8],
    channels: Channels,
    channel: usize,
    first: usize,
)
    requires codes { length codes.now ≡ samples channels }
    requires small { All (λ code. code < 128) codes.now }
    requires sound { length sound.now ≡ sound_bytes channels }
    requires channel { channel < channels.channels }
    requires first { first ≤ 128 }
    requires gradient { (j : ℕ) → nat_abs (get_or gradient.old j (pos 0)) ≤ 2 ^ 40 }
    ensures gradient { (j : ℕ) → j < 128 → get_or gradient.new j (pos 0) ≡ get_or gradient.old j (pos 0)
        +ℤ weighted_agreement channels sound.now (λ c t. get_or weights.now (get_or codes.now t 0) 0) first channel j }
    ensures most { (j : ℕ) → nat_abs (get_or gradient.new j (pos 0)) ≤ nat_abs (get_or gradient.old j (pos 0)) + 150528 * 255 }
{
    let mut bytes = [170u8; BYTES];
    let octets = fill_history(&mut bytes, sound, channels, channel);
    let mut cells = [[0i32; 8]; 544];
    add_bytes(&mut cells, &bytes, octets, codes, weights, first);
    for lag in 0..128usize {
        let sum = lag_sum(&cells, lag + 1);
        gradient[lag] += sum;
    }
}

// The eight samples of a byte, each by the weight of its code.
#[inline(always)]
fn weighted_samples(
    bytes: &[u8; BYTES],
    place: usize,
    codes: &[u8],
    weights: &[u8; 128],
    first: usize,
) -> [i32; 8]
    requires place { place < 18816 }
    requires codes { 8 * place + 8 ≤ length codes.now }
    requires small { All (λ code. code < 128) codes.now }
    ensures long { length result ≡ 8 }
    ensures samples { (lane : ℕ) → lane < 8 → get_or result lane (pos 0) ≡ weighted bytes.now codes.now weights.now first (8 * place + lane) }
    ensures small { (lane : ℕ) → nat_abs (get_or result lane (pos 0)) ≤ 255 }
{
    let mut samples = [0; 8];
    for lane in 0..8usize {
        let weight = weights[usize::from(codes[8 * place + lane])];
        let is_first = 8 * place + lane < first;
        let sample = weighted_sample(bytes[place + 16], lane, weight, is_first);
        samples[lane] = sample;
    }
    samples
}

// A weight, positive where the sample of a byte is 1; 0 where the sample is left out.
#[inline(always)]
fn weighted_sample(byte: u8, lane: usize, weight: u8, left_out: bool) -> i32
    requires { lane < 8 }
    ensures sample { result ≡ (if left_out then pos 0 else signed (byte / 2 ^ (7 - lane) % 2) (pos weight)) }
    ensures small { nat_abs result ≤ 255 }
{
    if left_out {
        return 0;
    }
    if (byte >> (7 - lane)) % 2 == 1 {
        i32::from(weight)
    } else {
        -i32::from(weight)
    }
}

// For each byte its weighted samples go to the cells of the half bytes before them.
fn add_bytes(
    cells: &mut [[i32; 8]; 544],
    bytes: &[u8; BYTES],
    count: usize,
    codes: &[u8],
    weights: &[u8; 128],
    first: usize,
)
    requires count { count ≤ 18816 }
    requires codes { 8 * count ≤ length codes.now }
    requires small { All (λ code. code < 128) codes.now }
    requires zeros { (cell lane : ℕ) → in_cell cells.old cell lane ≡ pos 0 }
    ensures long { length cells.new ≡ 544 }
    ensures cells { (cell lane : ℕ) → cell < 544 → lane < 8 → in_cell cells.new cell lane
        ≡ sum_over (λ m. taken bytes.now m cell (weighted bytes.now codes.now weights.now first (8 * m + lane))) 0 count }
    ensures most { (cell lane : ℕ) → nat_abs (in_cell cells.new cell lane) ≤ 255 * count }
{
    for place in 0..count {
        let samples = weighted_samples(bytes, place, codes, weights, first);
        add_samples(cells, &samples, bytes, place);
    }
}

// Adds samples to the lanes of a cell.
#[inline(always)]
fn add_lanes(cell: &mut [i32; 8], samples: &[i32; 8])
    requires cell { (lane : ℕ) → nat_abs (get_or cell.old lane (pos 0)) ≤ 2 ^ 28 }
    requires samples { (lane : ℕ) → nat_abs (get_or samples.now lane (pos 0)) ≤ 255 }
    ensures added { (lane : ℕ) → get_or cell.new lane (pos 0) ≡ get_or cell.old lane (pos 0) +ℤ get_or samples.now lane (pos 0) }
{
    for lane in 0..8usize {
        cell[lane] += samples[lane];
    }
}

// A half byte.
#[inline(always)]
fn half(bytes: &[u8; BYTES], place: usize, back: usize) -> usize
    requires place { place < 18816 }
    requires back { back < 34 }
    ensures half { result ≡ half_of bytes.now place back }
    ensures small { result < 16 }
{
    usize::from((bytes[place + 16 - back / 2] >> (4 - 4 * (back % 2))) % 16)
}

// Adds samples to the cells of 34 half bytes, each of which has a cell for each of its 16 values.
#[inline(always)]
fn add_samples(cells: &mut [[i32; 8]; 544], samples: &[i32; 8], bytes: &[u8; BYTES], place: usize)
    requires place { place < 18816 }
    requires cells { (cell lane : ℕ) → nat_abs (in_cell cells.old cell lane) ≤ 2 ^ 28 }
    requires samples { (lane : ℕ) → nat_abs (get_or samples.now lane (pos 0)) ≤ 255 }
    ensures long { length cells.new ≡ 544 }
    ensures cells { (cell lane : ℕ) → cell < 544 → in_cell cells.new cell lane
        ≡ in_cell cells.old cell lane +ℤ taken bytes.now place cell (get_or samples.now lane (pos 0)) }
{
    for back in 0..34usize {
        let cell = 16 * back + half(bytes, place, back);
        add_lanes(&mut cells[cell], samples);
    }
}

// How all samples agree with those so many places before.
fn lag_sum(cells: &[[i32; 8]; 544], lag: usize) -> i64
    requires least { 1 ≤ lag }
    requires most { lag ≤ 128 }
    requires cells { (cell lane : ℕ) → nat_abs (in_cell cells.now cell lane) ≤ 2 ^ 28 }
    ensures sum { result ≡ sum_over (λ lane. agreeing cells.now (2 * bytes_before lane lag + place_before lane lag / 4)
        (3 - place_before lane lag % 4) lane) 0 8 }
    ensures most { nat_abs result ≤ 2 ^ 36 }
{
    let mut sum = 0;
    for lane in 0..8usize {
        let place = (lane + 136 - lag) % 8;
        let back = (lag + place - lane) / 8;
        let part = half_sum(cells, 2 * back + place / 4, 3 - place % 4, lane);
        sum += part;
    }
    sum
}

// How the samples of a lane agree with one bit of a half byte.
fn half_sum(cells: &[[i32; 8]; 544], back: usize, bit: usize, lane: usize) -> i64
    requires back { back < 34 }
    requires bit { bit < 4 }
    requires lane { lane < 8 }
    requires cells { (cell lane : ℕ) → nat_abs (in_cell cells.now cell lane) ≤ 2 ^ 28 }
    ensures sum { result ≡ agreeing cells.now back bit lane }
    ensures most { nat_abs result ≤ 2 ^ 33 }
{
    let mut sum = 0;
    for value in 0..16usize {
        let part = signed_part(value, bit, cells[16 * back + value][lane]);
        sum += part;
    }
    sum
}

// A number, positive where the bit of a value is 1.
#[inline(always)]
fn signed_part(value: usize, bit: usize, number: i32) -> i64
    requires bit { bit < 4 }
    requires number { nat_abs number ≤ 2 ^ 28 }
    ensures part { result ≡ signed (value / 2 ^ bit % 2) number }
    ensures small { nat_abs result ≤ 2 ^ 28 }
{
    if (value >> bit) % 2 == 1 {
        i64::from(number)
    } else {
        -i64::from(number)
    }
}
