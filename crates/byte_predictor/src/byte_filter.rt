// A filter as sums of eight coefficients, looked up by the byte of their samples.
ghost use Rattle.std.specs.Prelude.{◌≡◌, ℕ, ◌*◌, ◌<◌, ◌≤◌, ℤ, pos, List, length, get_or, take, drop};
ghost use Rattle.dst_spec.specs.Table.{filter_kind, IsTable};
ghost use Rattle.dst_spec.specs.Sample.{Shape};
ghost use Rattle.dst_spec.specs.Guess.{sum_before};
ghost use Rattle.byte_predictor.specs.Samples.{IsBefore, rising_bits, signed_sum};
ghost use Rattle.byte_predictor.specs.Upward.{twice_ones};
ghost use Rattle.byte_predictor.specs.Parts.{part_sum};

use crate::history::History;
use dst_num::FilterTable;
use std::marker::Model;

/// The coefficients of a filter, as sixteen tables of the sums of eight of them.
#[derive(Drop)]
pub struct ByteFilter {
    coefs: [i16; 128],
    length: usize,
    parts: [[i16; 256]; 16],
}

impl Model for ByteFilter {
    ghost use Rattle.std.specs.Prelude.{List, ℤ, ◌≤◌, take};
    ghost use Rattle.byte_predictor.specs.Parts.{HasParts};

    ghost Value = { List ℤ };

    ghost view = { λ f. take f.length f.coefs };

    ghost invariant = { λ f. HasParts (take f.length f.coefs) f.parts };
}

impl ByteFilter {
    /// Each sum is made once, by one addition to another.
    pub fn build(table: &FilterTable) -> ByteFilter
        ensures { result ≡ table.now }
    {
        let coefs = table.coefs();
        let mut parts = [[0; 256]; 16];
        for j in 0..16 {
            fill_part(&mut parts[j], coefs, 8 * j);
        }
        ByteFilter {
            coefs: with_zeros(coefs),
            length: coefs.len(),
            parts,
        }
    }

    /// The sums of the coefficients from `8 * j` to `8 * j + 7`, by the byte of their samples: coefficient `8 * j + i` is
    /// positive where bit i of the byte, counted from the least significant, is 1, and negative where it is 0. Past the
    /// last coefficient it counts as 0.
    #[inline(always)]
    pub fn part(&self, j: usize) -> &[i16; 256]
        requires { j < 16 }
        ensures { (byte : ℕ) → byte < 256 → get_or result.now byte (pos 0) ≡ part_sum self.now j byte }
    {
        &self.parts[j]
    }
}

/// The sum of the coefficients, each positive where its sample is 1 and negative where it is 0: from -32,640 to 32,768.
#[inline(always)]
pub fn predict(filter: &ByteFilter, history: &History) -> i32
    ensures plain { result ≡ signed_sum filter.now history.now }
    ensures ones { result ≡ twice_ones filter.now history.now }
    ensures before { (f : Shape) (sound : List ℕ) (c t : ℕ) → IsBefore f sound c t history.now
        → result ≡ sum_before f sound c filter.now (pos t) }
{
    let parts = &filter.parts;
    let bytes = history.bytes();
    let mut sum = 0;
    for j in 0..16 {
        sum += i32::from(parts[j][bytes[j] as usize]);
    }
    sum
}

// The coefficients in front of an array.
pub(crate) fn with_zeros(coefs: &[i16]) -> [i16; 128]
    requires { length coefs.now ≤ 128 }
    ensures { take (length coefs.now) result ≡ coefs.now }
{
    let mut all = [0; 128];
    for i in 0..coefs.len() {
        all[i] = coefs[i];
    }
    all
}

// The coefficient at a place, 0 past the last one.
pub(crate) fn coef_at(coefs: &[i16], place: usize) -> i16
    ensures { result ≡ get_or coefs.now place (pos 0) }
{
    if place < coefs.len() { coefs[place] } else { 0 }
}

fn fill_part(part: &mut [i16; 256], coefs: &[i16], first: usize)
    requires table { IsTable filter_kind coefs.now }
    requires inside { first < 128 }
    ensures { (byte : ℕ) → byte < 256 → get_or part.new byte (pos 0) ≡ signed_sum (drop first coefs.now) (rising_bits 8 byte) }
{
    part[0] = lowest(coefs, first);
    let mut half = 1;
    for i in 0..8 {
        let coef = coef_at(coefs, first + i);
        for byte in 0..half {
            part[half + byte] = part[byte] + 2 * coef;
        }
        half *= 2;
    }
}

// The sum of eight coefficients at samples 0.
fn lowest(coefs: &[i16], first: usize) -> i16
    requires table { IsTable filter_kind coefs.now }
    requires inside { first < 128 }
    ensures { result ≡ signed_sum (drop first coefs.now) (rising_bits 8 0) }
{
    let mut sum = 0;
    for i in 0..8 {
        sum -= coef_at(coefs, first + i);
    }
    sum
}
