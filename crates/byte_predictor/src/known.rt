// Sums over samples that are known a byte at a time.
ghost use Rattle.std.specs.Prelude.{◌≡◌, ℕ, ◌+◌, ◌-◌, ◌*◌, ◌%◌, ◌<◌, ◌≤◌, ℤ, pos, ◌-ℤ◌, List, [], ◌∷◌, ◌++◌, length, get_or, drop, replicate};
ghost use Rattle.dst_spec.specs.Table.{filter_kind, IsTable, InRange};
ghost use Rattle.byte_predictor.specs.Samples.{rising_bits, samples_of, signed_sum};
ghost use Rattle.byte_predictor.specs.Upward.{upward_sum, size_sum, shifted};
ghost use Rattle.byte_predictor.specs.KnownRows.{IsReach};
ghost use Rattle.byte_predictor.specs.KnownAhead.{AreKnown};

use crate::byte_filter::{coef_at, with_zeros};
use crate::row_filter::size_of_all;
use crate::rows::{add_row, fill_rows};
use dst_num::FilterTable;
use std::marker::Model;

/// The coefficients of a filter, as rows of sums for samples that are known beforehand: what each byte of them adds to the
/// predictions of its own samples and of those that follow, as far as the coefficients reach. The table takes 70 kilobytes.
#[derive(Drop)]
pub struct KnownFilter {
    coefs: [i16; 128],
    length: usize,
    size: u32,
    // so many lanes have sums, at least those that the coefficients reach: 24, 40, 72 or all
    reach: usize,
    rows: [[u16; 136]; 256],
}

impl Model for KnownFilter {
    ghost use Rattle.std.specs.Prelude.{List, ℤ, take};
    ghost use Rattle.byte_predictor.specs.KnownRows.{HasKnownRows};

    ghost Value = { List ℤ };

    ghost view = { λ f. take f.length f.coefs };

    ghost invariant = { λ f. HasKnownRows (take f.length f.coefs) f.rows f.size f.reach };
}

impl KnownFilter {
    /// The filter of one coefficient, 0, until another one is built in its place.
    pub fn new() -> KnownFilter
        ensures { result ≡ pos 0 ∷ [] }
    {
        KnownFilter {
            coefs: [0; 128],
            length: 1,
            size: 0,
            reach: 24,
            rows: [[0; 136]; 256],
        }
    }

    /// Each sum is made once, by one addition to another.
    pub fn build(&mut self, table: &FilterTable)
        ensures { self.new ≡ table.now }
    {
        let coefs = table.coefs();
        let later = shifted_coefs(coefs);
        self.coefs = with_zeros(coefs);
        self.length = coefs.len();
        self.size = size_of_all(coefs);
        self.reach = reach_of(coefs.len());
        fill_reach(&mut self.rows, &later, self.reach);
    }

    /// The sum of the coefficients' sizes: what they add upward at the most.
    #[inline(always)]
    pub fn size(&self) -> u16
        ensures size { result ≡ size_sum self.now }
        ensures most { result ≤ 32768 }
        ensures upward { (samples : List ℕ) → upward_sum self.now samples ≤ result }
        ensures signed { (samples : List ℕ) → 128 ≤ length samples
            → signed_sum self.now samples ≡ pos (2 * upward_sum self.now samples) -ℤ pos (size_sum self.now) }
    {
        self.size as u16
    }
}

/// What the samples of a channel add to the predictions of the latest eight of them, and of those that follow.
#[derive(Drop)]
pub struct KnownAhead {
    pub(crate) lanes: [u16; 144],
}

impl KnownAhead {
    /// After the samples before a frame.
    pub fn fresh(filter: &KnownFilter) -> KnownAhead
        ensures { AreKnown filter.now (samples_of (replicate 16 0xaa)) result }
    {
        let mut lanes = [0; 144];
        let row = &filter.rows[0xaa];
        for turn in 0..16usize {
            add_reach(&mut lanes, row, filter.reach);
        }
        KnownAhead { lanes }
    }

    /// Takes a byte of samples, the earliest in the most significant bit. What the coefficients add upward to the prediction
    /// of each of them is answered, that of the earliest first.
    #[inline(always)]
    pub fn take_byte(&mut self, filter: &KnownFilter, byte: u8) -> [u16; 8]
        ensures ahead { (samples : List ℕ) → AreKnown filter.now samples self.old → AreKnown filter.now (rising_bits 8 byte ++ samples) self.new }
        ensures upward { (place : ℕ) (samples : List ℕ) → place < 8 → AreKnown filter.now samples self.old
            → get_or result place 0 ≡ upward_sum filter.now (drop (8 - place) (rising_bits 8 byte ++ samples)) }
    {
        let row = &filter.rows[byte as usize];
        add_reach(&mut self.lanes, row, filter.reach);
        first_lanes(&self.lanes)
    }
}

// How many lanes have sums for so many coefficients. Loops over a number that is known when they are compiled are written out.
fn reach_of(length: usize) -> usize
    requires { length ≤ 128 }
    ensures is { IsReach result }
    ensures all { 8 + length ≤ result }
{
    if length <= 16 {
        24
    } else if length <= 32 {
        40
    } else if length <= 64 {
        72
    } else {
        136
    }
}

// Fills so many lanes of each row.
fn fill_reach(rows: &mut [[u16; 136]; 256], later: &[i16; 144], reach: usize)
    requires range { (j : ℕ) → InRange filter_kind (get_or later.now j (pos 0)) }
    requires reach { IsReach reach }
    ensures { (byte lane : ℕ) → byte < 256 → lane < reach
        → get_or (get_or rows.new byte []) lane 0 ≡ upward_sum (drop lane later.now) (rising_bits 8 byte) }
{
    if reach == 24 {
        fill_rows::<24, 136>(rows, later);
    } else if reach == 40 {
        fill_rows::<40, 136>(rows, later);
    } else if reach == 72 {
        fill_rows::<72, 136>(rows, later);
    } else {
        fill_rows::<136, 136>(rows, later);
    }
}

// Moves the lanes on by eight samples, and adds what these add, to so many lanes.
#[inline(always)]
fn add_reach(lanes: &mut [u16; 144], row: &[u16; 136], reach: usize)
    requires { IsReach reach }
    ensures long { length lanes.new ≡ 144 }
    ensures added { (lane : ℕ) → lane < reach → get_or lanes.new lane 0 ≡ (get_or lanes.old (lane + 8) 0 + get_or row.now lane 0) % 65536 }
    ensures last { (lane : ℕ) → reach ≤ lane → get_or lanes.new lane 0 ≡ get_or lanes.old lane 0 }
{
    if reach == 24 {
        add_row::<24, 136, 144>(lanes, row);
    } else if reach == 40 {
        add_row::<40, 136, 144>(lanes, row);
    } else if reach == 72 {
        add_row::<72, 136, 144>(lanes, row);
    } else {
        add_row::<136, 136, 144>(lanes, row);
    }
}

#[inline(always)]
fn first_lanes(lanes: &[u16; 144]) -> [u16; 8]
    ensures { (place : ℕ) → place < 8 → get_or result place 0 ≡ get_or lanes.now place 0 }
{
    let mut first = [0; 8];
    for place in 0..8 {
        first[place] = lanes[place];
    }
    first
}

// The coefficients behind eight zeros.
fn shifted_coefs(coefs: &[i16]) -> [i16; 144]
    requires { IsTable filter_kind coefs.now }
    ensures places { (j : ℕ) → get_or result j (pos 0) ≡ get_or (shifted coefs.now) j (pos 0) }
    ensures range { (j : ℕ) → InRange filter_kind (get_or result j (pos 0)) }
{
    let mut later = [0; 144];
    for j in 0..128 {
        let coef = coef_at(coefs, j);
        later[j + 8] = coef;
    }
    later
}
