// A filter as rows of sums, for loops over eight samples at a time.
ghost use Rattle.std.specs.Prelude.{◌≡◌, ℕ, ◌+◌, ◌*◌, ◌<◌, ◌≤◌, ℤ, pos, ◌-ℤ◌, List, [], ◌∷◌, length, get_or};
ghost use Rattle.dst_spec.specs.Table.{filter_kind, IsTable, InRange};
ghost use Rattle.byte_predictor.specs.Samples.{rising_bits, signed_sum};
ghost use Rattle.byte_predictor.specs.Upward.{upward_sum, size_sum, far, twice_ones};

use crate::byte_filter::{coef_at, with_zeros};
use crate::rows::{fill_rows, moved, zeros_sum};
use dst_num::FilterTable;
use std::marker::Model;

/// The coefficients of a filter, as rows of sums: what each byte of samples adds to the predictions of the 128 samples
/// that follow. The tables take 66 kilobytes.
#[derive(Drop)]
pub struct RowFilter {
    coefs: [i16; 128],
    length: usize,
    size: u32,
    pub(crate) near: [u16; 256],
    pub(crate) rows: [[u16; 128]; 256],
}

impl Model for RowFilter {
    ghost use Rattle.std.specs.Prelude.{List, ℤ, take};
    ghost use Rattle.byte_predictor.specs.RowSums.{HasRows};

    ghost Value = { List ℤ };

    ghost view = { λ f. take f.length f.coefs };

    ghost invariant = { λ f. HasRows (take f.length f.coefs) f.rows f.near f.size };
}

impl RowFilter {
    /// The filter of one coefficient, 0, until another one is built in its place.
    pub fn new() -> RowFilter
        ensures { result ≡ pos 0 ∷ [] }
    {
        RowFilter {
            coefs: [0; 128],
            length: 1,
            size: 0,
            near: [0; 256],
            rows: [[0; 128]; 256],
        }
    }

    /// Each sum is made once, by one addition to another.
    pub fn build(&mut self, table: &FilterTable)
        ensures { self.new ≡ table.now }
    {
        let coefs = table.coefs();
        let later = far_coefs(coefs);
        self.coefs = with_zeros(coefs);
        self.length = coefs.len();
        self.size = size_of_all(coefs);
        fill_near(&mut self.near, coefs);
        fill_rows::<128, 128>(&mut self.rows, &later);
    }

    /// The sum of the coefficients' sizes: what they add upward at the most.
    #[inline(always)]
    pub fn size(&self) -> u32
        ensures size { result ≡ size_sum self.now }
        ensures most { result ≤ 32768 }
        ensures upward { (samples : List ℕ) → upward_sum self.now samples ≤ result }
        ensures signed { (samples : List ℕ) → 128 ≤ length samples
            → signed_sum self.now samples ≡ pos (2 * upward_sum self.now samples) -ℤ pos (size_sum self.now) }
        ensures ones { (samples : List ℕ) → 128 ≤ length samples
            → pos (2 * upward_sum self.now samples) -ℤ pos (size_sum self.now) ≡ twice_ones self.now samples }
    {
        self.size
    }

    /// The prediction where the coefficients add so much upward.
    #[inline(always)]
    pub fn prediction(&self, upward: u16) -> i32
        ensures less { result ≡ pos (2 * upward) -ℤ pos (size_sum self.now) }
        ensures plain { (samples : List ℕ) → 128 ≤ length samples → upward ≡ upward_sum self.now samples
            → result ≡ signed_sum self.now samples }
        ensures ones { (samples : List ℕ) → 128 ≤ length samples → upward ≡ upward_sum self.now samples
            → result ≡ twice_ones self.now samples }
    {
        let size = self.size();
        2 * i32::from(upward) - size as i32
    }
}

/// The sum of the sizes of a filter's coefficients.
pub fn filter_size(table: &FilterTable) -> u32
    ensures { result ≡ size_sum table.now }
{
    size_of_all(table.coefs())
}

fn far_coefs(coefs: &[i16]) -> [i16; 136]
    requires { IsTable filter_kind coefs.now }
    ensures places { (j : ℕ) → get_or result j (pos 0) ≡ get_or (far coefs.now) j (pos 0) }
    ensures range { (j : ℕ) → InRange filter_kind (get_or result j (pos 0)) }
{
    let mut later = [0; 136];
    for j in 8..128 {
        let coef = coef_at(coefs, j);
        later[j] = coef;
    }
    later
}

pub(crate) fn size_of_all(coefs: &[i16]) -> u32
    requires { IsTable filter_kind coefs.now }
    ensures { result ≡ size_sum coefs.now }
{
    let mut size = 0;
    for coef in coefs {
        size += u32::from(coef.unsigned_abs());
    }
    size
}

fn fill_near(near: &mut [u16; 256], coefs: &[i16])
    requires { (j : ℕ) → InRange filter_kind (get_or coefs.now j (pos 0)) }
    ensures { (byte : ℕ) → byte < 256 → get_or near.new byte 0 ≡ upward_sum coefs.now (rising_bits 8 byte) }
{
    near[0] = zeros_sum(coefs, 0);
    let mut half = 1;
    for i in 0..8 {
        let coef = coef_at(coefs, i);
        for byte in 0..half {
            let sum = moved(near[byte], coef);
            near[half + byte] = sum;
        }
        half *= 2;
    }
}
