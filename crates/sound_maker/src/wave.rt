// The wave of a channel, and the two numbers behind its samples.
ghost use Rattle.std.specs.Prelude.{◌≡◌, ◌<◌, ◌≤◌, ◌+ℤ◌, ◌-ℤ◌, if◌then◌else◌, pos, nat_abs};
ghost use Rattle.std.specs.Int.{is_negative};
ghost use Rattle.dsdiff_spec.specs.Made.{Wave, bounded, height, dither, sample_of, level_of, next_wave};

use std::marker::Model;

/// The bound of both numbers, downward and upward.
const BOUND: i32 = 16_777_216;

/// The two numbers of a channel.
#[derive(Clone, Copy)]
pub(crate) struct Numbers {
    u: i32,
    w: i32,
}

impl Model for Numbers {
    ghost use Rattle.std.specs.Prelude.{◌≤◌, nat_abs};
    ghost use Rattle.dsdiff_spec.specs.Made.{Wave};
    ghost use Rattle.sound_maker.specs.Waves.{IsBounded};

    ghost Value = { Wave };

    ghost view = { λ n. record { u = n.u; w = n.w } };

    ghost invariant = { λ n. IsBounded (record { u = n.u; w = n.w }) };

    ghost inverse = { λ v. record { u = v.u; w = v.w } };
}

impl Numbers {
    /// Before the first sample.
    pub(crate) fn still() -> Numbers
        ensures { result ≡ record { u = pos 0; w = pos 0 } }
    {
        Numbers { u: 0, w: 0 }
    }

    /// The next sample, 0 or 1, with a random number for its dither, where the wave has a height.
    #[inline(always)]
    pub(crate) fn next(&mut self, random: u32, height: i32) -> u8
        requires { nat_abs height ≤ 16000 }
        ensures sample { result ≡ sample_of self.old (dither random) }
        ensures bit { result < 2 }
        ensures later { self.new ≡ next_wave self.old height (level_of result) }
    {
        let sample = sample_of(self.w, random);
        let level = level_of(sample);
        let u = moved(self.u, height, level);
        let w = moved(self.w, u, level);
        self.u = u;
        self.w = w;
        sample
    }
}

// The sample at a number, with the dither of a random number.
#[inline(always)]
fn sample_of(w: i32, random: u32) -> u8
    requires { nat_abs w ≤ 16777216 }
    ensures value { result ≡ (if is_negative (w +ℤ dither random) then 0 else 1) }
    ensures bit { result < 2 }
{
    let sum = w + ((random % 4096) as i32 - 2048);
    if sum < 0 { 0 } else { 1 }
}

// What a sample stands for.
#[inline(always)]
fn level_of(sample: u8) -> i32
    ensures value { result ≡ level_of sample }
    ensures small { nat_abs result ≤ 32768 }
{
    if sample == 0 { -32768 } else { 32768 }
}

// A number moved up and down, and into the bounds where it lies outside them.
#[inline(always)]
fn moved(x: i32, up: i32, down: i32) -> i32
    requires x { nat_abs x ≤ 16777216 }
    requires up { nat_abs up ≤ 16777216 }
    requires down { nat_abs down ≤ 32768 }
    ensures value { result ≡ bounded (x +ℤ up -ℤ down) }
    ensures small { nat_abs result ≤ 16777216 }
{
    bounded(x + up - down)
}

// The nearest number within the bounds.
#[inline(always)]
fn bounded(x: i32) -> i32
    ensures value { result ≡ bounded x }
    ensures small { nat_abs result ≤ 16777216 }
{
    if x < -BOUND {
        -BOUND
    } else if x > BOUND {
        BOUND
    } else {
        x
    }
}

/// The height of the wave of a channel.
#[inline(always)]
pub(crate) fn height(time: u32, channel: usize) -> i32
    requires time { time < 6400 }
    requires channel { channel < 6 }
    ensures value { result ≡ height time channel }
    ensures small { nat_abs result ≤ 16000 }
{
    let phase = (time + 800 * channel as u32) % 6400;
    10 * (1600 - phase.abs_diff(3200) as i32)
}
