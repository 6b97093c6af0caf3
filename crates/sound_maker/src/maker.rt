// The maker of sound, frame by frame.
ghost use Rattle.std.specs.Prelude.{◌≡◌, ℕ, ◌+◌, ◌*◌, ◌%◌, ◌<◌, ◌≤◌, ◌++◌, length, get_or, take};
ghost use Rattle.dst_spec.specs.Bits.{number_from};
ghost use Rattle.dst_spec.specs.Sample.{sound_bytes};
ghost use Rattle.dsdiff_spec.specs.Samples.{eight};
ghost use Rattle.dsdiff_spec.specs.Made.{at_time};
ghost use Rattle.sound_maker.specs.Making.{moment, later, sample_from, frame_of, after_frame, maker_after};

use crate::wave::{Numbers, height};
use dst_num::Channels;
use rand_core::SeedableRng;
use rand_core::utils::NextWord;
use rand_pcg::Lcg64Xsh32;
use std::marker::Model;

/// The samples of one period of the wave.
const PERIOD: u32 = 6400;

/// Makes sound, one frame after another.
#[derive(Drop)]
pub struct SoundMaker {
    channels: usize,
    octets: usize,
    time: u32,
    waves: [Numbers; 6],
    generator: Lcg64Xsh32,
}

impl Model for SoundMaker {
    ghost use Rattle.std.specs.Prelude.{◌<◌, ◌≤◌, take};
    ghost use Rattle.sound_maker.specs.Making.{Maker, moment};

    ghost Value = { Maker };

    ghost view = { λ m. record {
      shape = record { channels = m.channels; octets = m.octets };
      moment = moment m.time (take m.channels m.waves) m.generator;
    } };

    ghost invariant = { λ m. (m.channels ≤ 6) × (m.octets ≤ 18816) × (m.time < 6400) };
}

impl SoundMaker {
    /// Begins the sound that the number `start` gives.
    pub fn new(start: u32, channels: Channels) -> SoundMaker
        ensures { result ≡ maker_after start 0 channels }
    {
        SoundMaker {
            channels: channels.count(),
            octets: 4704 * channels.multiple(),
            time: 0,
            waves: [Numbers::still(); 6],
            generator: Lcg64Xsh32::seed_from_u64(u64::from(start)),
        }
    }

    /// Makes the next frame: in `out` the channels' bytes stand in turn, eight samples in each, the earliest in the most
    /// significant bit.
    pub fn next_frame(&mut self, out: &mut [u8])
        requires { length out.old ≡ sound_bytes self.old.shape }
        ensures frame { out.new ≡ frame_of self.old }
        ensures later { self.new ≡ after_frame self.old }
    {
        let mut row = 0;
        for octet in 0..self.octets {
            let bytes = eight_samples(
                &mut self.waves,
                &mut self.generator,
                self.channels,
                &mut self.time,
            );
            put_row(out, row, &bytes, self.channels);
            row += self.channels;
        }
    }
}

// Puts the first bytes at a place.
#[inline(always)]
fn put_row(out: &mut [u8], row: usize, bytes: &[u8; 6], count: usize)
    requires count { count ≤ 6 }
    requires room { row + count ≤ length out.old }
    ensures long { length out.new ≡ length out.old }
    ensures put { take (row + count) out.new ≡ take row out.old ++ take count bytes.now }
{
    out[row..row + count].copy_from_slice(&bytes[..count]);
}

// Eight samples of each channel as one byte of each.
#[inline(always)]
fn eight_samples(
    waves: &mut [Numbers; 6],
    generator: &mut Lcg64Xsh32,
    count: usize,
    time: &mut u32,
) -> [u8; 6]
    requires count { count ≤ 6 }
    requires time { time.old < 6400 }
    ensures later { moment time.new (take count waves.new) generator.new
        ≡ later 8 (moment time.old (take count waves.old) generator.old) }
    ensures time { time.new < 6400 }
    ensures bytes { (c : ℕ) → c < count → get_or result c 0
        ≡ number_from (eight (sample_from (moment time.old (take count waves.old) generator.old)) c 0) 0 8 }
{
    let mut bytes = [0; 6];
    for place in 0..8usize {
        sample_each(waves, generator, count, *time, &mut bytes);
        *time = (*time + 1) % PERIOD;
    }
    bytes
}

// One sample of each channel, shifted into its byte.
#[inline(always)]
fn sample_each(
    waves: &mut [Numbers; 6],
    generator: &mut Lcg64Xsh32,
    count: usize,
    time: u32,
    bytes: &mut [u8; 6],
)
    requires count { count ≤ 6 }
    requires time { time < 6400 }
    ensures waves { take count waves.new ≡ (at_time time 0 (take count waves.old) generator.old).waves }
    ensures generator { generator.new ≡ (at_time time 0 (take count waves.old) generator.old).generator }
    ensures bytes { (c : ℕ) → c < count → get_or bytes.new c 0
        ≡ get_or bytes.old c 0 % 128 * 2 + get_or (at_time time 0 (take count waves.old) generator.old).samples c 0 }
{
    for channel in 0..count {
        let random = generator.next_word();
        let mut numbers = waves[channel];
        let sample = numbers.next(random, height(time, channel));
        waves[channel] = numbers;
        bytes[channel] = bytes[channel] % 128 * 2 + sample;
    }
}
