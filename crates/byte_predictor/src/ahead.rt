// The sums ahead of a channel.
ghost use Rattle.std.specs.Prelude.{◌≡◌, ℕ, ◌+◌, ◌*◌, ◌/◌, ◌%◌, ◌^◌, ◌<◌, ◌≤◌, ℤ, List, ◌∷◌, length, get_or, take, drop, replicate};
ghost use Rattle.dst_spec.specs.Header.{bit_of};
ghost use Rattle.byte_predictor.specs.Samples.{rising_bits, samples_of};
ghost use Rattle.byte_predictor.specs.Upward.{upward_sum, far};
ghost use Rattle.byte_predictor.specs.SumsAhead.{IsAhead};

use crate::row_filter::RowFilter;
use crate::rows::add_row;
use std::marker::Model;

/// What the samples of a channel add to the predictions of those that follow, and the newest sixteen samples.
#[derive(Drop)]
pub struct Ahead {
    lanes: [u16; 136],
    newest: u16,
}

impl Model for Ahead {
    ghost use Rattle.byte_predictor.specs.SumsAhead.{SumsAhead};

    ghost Value = { SumsAhead };

    ghost view = { λ a. record { lanes = a.lanes; newest = a.newest; late = 0 } };
}

impl Ahead {
    /// After the samples before a frame.
    pub fn fresh(rows: &RowFilter) -> Ahead
        ensures { IsAhead rows.now 0 (samples_of (replicate 16 0xaa)) result }
    {
        let mut lanes = lanes_before(rows);
        add_row::<128, 128, 136>(&mut lanes, &rows.rows[0xaa]);
        Ahead {
            lanes,
            newest: 0xaaaa,
        }
    }

    /// Takes a sample of the eight between two calls of `take_byte`.
    #[inline(always)]
    pub fn push(&mut self, sample: bool)
        ensures { (coefs : List ℤ) (place : ℕ) (samples : List ℕ) → place < 8 → IsAhead coefs place samples self.old
            → IsAhead coefs (place + 1) (bit_of sample ∷ samples) self.new }
    {
        self.newest = pushed(self.newest, u16::from(sample));
    }

    /// Adds the newest eight samples to the sums, once all eight are there.
    #[inline(always)]
    pub fn take_byte(&mut self, rows: &RowFilter)
        ensures { (samples : List ℕ) → IsAhead rows.now 8 samples self.old → IsAhead rows.now 0 samples self.new }
    {
        let row = &rows.rows[self.newest() as usize];
        add_row::<128, 128, 136>(&mut self.lanes, row);
    }

    /// What the coefficients add upward to the next sample's prediction, `place` samples after the last whole byte.
    #[inline(always)]
    pub fn upward(&self, rows: &RowFilter, place: usize) -> u16
        requires { place ≤ 8 }
        ensures { (samples : List ℕ) → IsAhead rows.now place samples self.now → result ≡ upward_sum rows.now samples }
    {
        self.lanes[place].wrapping_add(rows.near[self.newest() as usize])
    }

    /// The same for the sample after a next one, which may still be unknown: both answers can be looked up early.
    #[inline(always)]
    pub fn upward_after(&self, rows: &RowFilter, place: usize, sample: bool) -> u16
        requires { place < 8 }
        ensures { (samples : List ℕ) → IsAhead rows.now place samples self.now
            → result ≡ upward_sum rows.now (bit_of sample ∷ samples) }
    {
        let newest = pushed(self.newest, u16::from(sample)) % 256;
        self.lanes[place + 1].wrapping_add(rows.near[newest as usize])
    }

    /// The newest eight samples, the newest in the least significant bit.
    #[inline(always)]
    pub fn newest(&self) -> u8
        ensures eight { (coefs : List ℤ) (place : ℕ) (samples : List ℕ) → IsAhead coefs place samples self.now
            → rising_bits 8 result ≡ take 8 samples }
        ensures each { (coefs : List ℤ) (place : ℕ) (samples : List ℕ) → IsAhead coefs place samples self.now
            → (k : ℕ) → k < 8 → result / 2 ^ k % 2 ≡ get_or samples k 0 }
    {
        (self.newest % 256) as u8
    }
}

/// The sums after fifteen of the sixteen bytes before a frame.
pub(crate) fn lanes_before(rows: &RowFilter) -> [u16; 136]
    ensures long { length result ≡ 136 }
    ensures sums { (lane : ℕ) → lane < 136 → get_or result lane 0 ≡ upward_sum (drop lane (far rows.now)) (samples_of (replicate 15 0xaa)) }
{
    let mut lanes = [0; 136];
    let row = &rows.rows[0xaa];
    for turn in 0..15usize {
        add_row::<128, 128, 136>(&mut lanes, row);
    }
    lanes
}

/// The newest sixteen samples with one more, 1 where the low bit of what is given is 1.
#[inline(always)]
pub(crate) fn pushed(newest: u16, given: u16) -> u16
    ensures { result ≡ newest % 32768 * 2 + given % 2 }
{
    newest.wrapping_mul(2).wrapping_add(given % 2)
}
