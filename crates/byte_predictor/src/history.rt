// The latest 128 samples of a channel.
ghost use Rattle.std.specs.Prelude.{◌≡◌, ℕ, ◌+◌, ◌*◌, ◌/◌, ◌%◌, ◌^◌, ◌<◌, get_or, ◌∷◌, ◌++◌, [], length, take, List, pos, replicate};
ghost use Rattle.dst_spec.specs.Sample.{Shape, sample as sample_of};
ghost use Rattle.dst_spec.specs.Header.{bit_of};
ghost use Rattle.byte_predictor.specs.Samples.{IsBefore, samples_of};

use std::marker::Model;

/// The latest 128 samples of a channel, the newest first, in sixteen bytes.
#[derive(Drop)]
pub struct History {
    bytes: [u8; 16],
}

impl Model for History {
    ghost use Rattle.std.specs.Prelude.{◌≡◌, List, ℕ, length};
    ghost use Rattle.byte_predictor.specs.Samples.{samples_of};

    ghost Value = { List ℕ };

    ghost view = { λ h. samples_of h.bytes };

    ghost invariant = { λ h. length h.bytes ≡ 16 };
}

impl History {
    /// The samples before a frame: 0, 1, 0, 1 and so on in turn, the newest first.
    #[inline(always)]
    pub fn fresh() -> History
        ensures alternating { result ≡ samples_of (replicate 16 0xaa) }
        ensures before { (f : Shape) (sound : List ℕ) (c : ℕ) → IsBefore f sound c 0 result }
    {
        History { bytes: [0xaa; 16] }
    }

    /// Takes the next sample, and lets the oldest one go.
    #[inline(always)]
    pub fn push(&mut self, sample: bool)
        ensures newest { self.new ≡ bit_of sample ∷ take 127 self.old }
        ensures before { (f : Shape) (sound : List ℕ) (c t : ℕ) → bit_of sample ≡ sample_of f sound c (pos t)
            → IsBefore f sound c t self.old → IsBefore f sound c (t + 1) self.new }
    {
        shift_in(&mut self.bytes, sample);
    }

    /// The samples as bytes: bit i of byte j, counted from the least significant, is the sample with `8 * j + i` newer ones.
    #[inline(always)]
    pub fn bytes(&self) -> &[u8; 16]
        ensures samples { samples_of result.now ≡ self.now }
        ensures each { (j i : ℕ) → j < 16 → i < 8 → get_or result.now j 0 / 2 ^ i % 2 ≡ get_or self.now (8 * j + i) 0 }
        ensures long { length self.now ≡ 128 }
    {
        &self.bytes
    }
}

// Moves all samples by one place, the oldest one out.
#[inline(always)]
fn shift_in(bytes: &mut [u8; 16], sample: bool) -> u8
    ensures moved { bit_of sample ∷ samples_of bytes.old ≡ samples_of bytes.new ++ result ∷ [] }
    ensures long { length bytes.new ≡ 16 }
{
    let mut carry = u8::from(sample);
    for j in 0..16 {
        let byte = bytes[j];
        bytes[j] = byte % 128 * 2 + carry;
        carry = byte / 128;
    }
    carry
}
