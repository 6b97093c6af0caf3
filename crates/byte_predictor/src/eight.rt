// The sums ahead of one channel of eight frames side by side.
ghost use Rattle.std.specs.Prelude.{◌≡◌, ◌≢◌, ℕ, ◌+◌, ◌*◌, ◌/◌, ◌%◌, ◌^◌, ◌<◌, ◌≤◌, ℤ, List, ◌∷◌, nat_eq, get_or, replicate};
ghost use Rattle.dst_spec.specs.Header.{bit_of};
ghost use Rattle.byte_predictor.specs.Samples.{samples_of};
ghost use Rattle.byte_predictor.specs.Upward.{upward_sum};
ghost use Rattle.byte_predictor.specs.SumsAhead.{IsAhead};
ghost use Rattle.byte_predictor.specs.Eight.{ahead_at};

use crate::ahead::{lanes_before, pushed};
use crate::row_filter::RowFilter;
use crate::rows::{add_front, add_rest};

/// What [`Ahead`](crate::Ahead) has, of one channel of eight frames side by side. The newest samples of all eight are in one array, so that a
/// plain loop takes the next one of each. Most of a byte's row is added while the next byte's samples are taken, that of frame `n` beside
/// its sample `n`: the processor then fetches a row beside other work.
#[derive(Drop)]
pub struct EightAhead {
    sums: [[u16; 136]; 8],
    // the newest sixteen samples of each frame
    newest: [u16; 8],
}

impl EightAhead {
    /// Of frames that haven't begun.
    pub fn new() -> EightAhead {
        EightAhead {
            sums: [[0; 136]; 8],
            newest: [0; 8],
        }
    }

    /// Frame `n` begins, after the samples before a frame.
    pub fn begin(&mut self, n: usize, rows: &RowFilter)
        requires { n < 8 }
        ensures fresh { IsAhead rows.now 0 (samples_of (replicate 16 0xaa)) (ahead_at self.new n) }
        ensures others { (m : ℕ) → m ≢ n → ahead_at self.new m ≡ ahead_at self.old m }
    {
        let mut lanes = lanes_before(rows);
        add_front(&mut lanes, &rows.rows[0xaa]);
        self.sums[n] = lanes;
        self.newest[n] = 0xaaaa;
    }

    /// Takes a sample of each frame, of the eight between two calls of `take_byte`: 1 where the low bit of what is given is 1. `rows`
    /// are those of the frame whose number is the place.
    #[inline(always)]
    pub fn push(&mut self, given: &[u16; 8], place: usize, rows: &RowFilter)
        requires { place < 8 }
        ensures own { (samples : List ℕ) → IsAhead rows.now place samples (ahead_at self.old place)
            → IsAhead rows.now (place + 1) (bit_of (nat_eq (get_or given.now place 0 % 2) 1) ∷ samples) (ahead_at self.new place) }
        ensures others { (n : ℕ) (coefs : List ℤ) (samples : List ℕ) → n < 8 → n ≢ place → IsAhead coefs place samples (ahead_at self.old n)
            → IsAhead coefs (place + 1) (bit_of (nat_eq (get_or given.now n 0 % 2) 1) ∷ samples) (ahead_at self.new n) }
    {
        let byte = (self.newest[place] >> place) % 256;
        add_rest(&mut self.sums[place], &rows.rows[byte as usize]);
        push_each(&mut self.newest, given);
    }

    /// Adds the newest eight samples of frame `n` to its sums, once all eight are there: to the first ones at once.
    #[inline(always)]
    pub fn take_byte(&mut self, n: usize, rows: &RowFilter)
        requires { n < 8 }
        ensures added { (samples : List ℕ) → IsAhead rows.now 8 samples (ahead_at self.old n) → IsAhead rows.now 0 samples (ahead_at self.new n) }
        ensures others { (m : ℕ) → m ≢ n → ahead_at self.new m ≡ ahead_at self.old m }
    {
        let newest = self.newest(n);
        let row = &rows.rows[newest as usize];
        add_front(&mut self.sums[n], row);
    }

    /// What the coefficients add upward to the prediction of frame `n`'s next sample, `place` samples after the last whole byte.
    #[inline(always)]
    pub fn upward(&self, n: usize, rows: &RowFilter, place: usize) -> u16
        requires frame { n < 8 }
        requires place { place ≤ 8 }
        ensures { (samples : List ℕ) → IsAhead rows.now place samples (ahead_at self.now n) → result ≡ upward_sum rows.now samples }
    {
        let newest = self.newest(n);
        self.sums[n][place].wrapping_add(rows.near[newest as usize])
    }

    /// The newest eight samples of frame `n`, the newest in the least significant bit.
    #[inline(always)]
    pub fn newest(&self, n: usize) -> u8
        requires { n < 8 }
        ensures value { result ≡ (ahead_at self.now n).newest % 256 }
        ensures each { (coefs : List ℤ) (place : ℕ) (samples : List ℕ) → IsAhead coefs place samples (ahead_at self.now n)
            → (k : ℕ) → k < 8 → result / 2 ^ k % 2 ≡ get_or samples k 0 }
    {
        (self.newest[n] % 256) as u8
    }
}

// One more of the newest samples of each frame.
#[inline(always)]
fn push_each(newest: &mut [u16; 8], given: &[u16; 8])
    ensures { (n : ℕ) → n < 8 → get_or newest.new n 0 ≡ get_or newest.old n 0 % 32768 * 2 + get_or given.now n 0 % 2 }
{
    for n in 0..8usize {
        let more = pushed(newest[n], given[n]);
        newest[n] = more;
    }
}
