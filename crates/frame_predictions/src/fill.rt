// The codes of a channel's samples.
ghost use Rattle.std.specs.Prelude.{◌≡◌, ℕ, ◌+◌, ◌-◌, ◌*◌, ◌/◌, ◌%◌, ◌^◌, ◌<◌, ◌≤◌, ◌==◌, pos, ◌-ℤ◌, Bool, if◌then◌else◌, length, get_or};
ghost use Rattle.dst_spec.specs.Sample.{Shape};
ghost use Rattle.frame_predictions.specs.Codes.{code_of as code_from, codes as codes_of};

use byte_predictor::{KnownAhead, KnownFilter};

/// Writes the codes of a channel's samples with a filter, the channel having so many bytes.
pub(crate) fn fill(
    codes: &mut [u8],
    filter: &KnownFilter,
    sound: &[u8],
    channels: usize,
    channel: usize,
    octets: usize,
)
    requires filter { length filter.now ≤ 128 }
    requires channel { channel < channels }
    requires long { length codes.old ≡ 8 * octets }
    requires sound { length sound.now ≡ octets * channels }
    requires short { octets < 2 ^ 32 }
    ensures { (f : Shape) → f.channels ≡ channels → f.octets ≡ octets → codes.new ≡ codes_of f sound.now channel filter.now }
{
    let mut ahead = KnownAhead::fresh(filter);
    for byte in 0..octets {
        let samples = sound[byte * channels + channel];
        let size = filter.size();
        let upward = ahead.take_byte(filter, samples);
        write_byte(&mut codes[8 * byte..8 * byte + 8], &upward, size, samples);
    }
}

// The codes of the eight samples of a byte, by what goes upward to the prediction of each.
#[inline(always)]
fn write_byte(codes: &mut [u8], upward: &[u16; 8], size: u16, samples: u8)
    requires upward { (place : ℕ) → place < 8 → get_or upward.now place 0 ≤ size }
    requires size { size ≤ 32768 }
    requires eight { length codes.old ≡ 8 }
    ensures eight { length codes.new ≡ 8 }
    ensures each { (place : ℕ) → place < 8 → get_or codes.new place 0
        ≡ code_from (pos (2 * get_or upward.now place 0) -ℤ pos size) (samples / 2 ^ (7 - place) % 2 == 1) }
{
    for place in 0..8usize {
        let one = mark_at(samples, place);
        codes[place] = code_of(upward[place], size, one) as u8;
    }
}

// The code of a sample whose prediction is twice what goes upward, less all sizes. `one` is 64 where the sample is 1, and 0
// where it is 0. All are numbers of sixteen bits, so that eight samples are worked at once.
#[inline(always)]
fn code_of(upward: u16, size: u16, one: u16) -> u16
    requires upward { upward ≤ size }
    requires size { size ≤ 32768 }
    ensures { (sample : Bool) → one ≡ (if sample then 64 else 0) → result ≡ code_from (pos (2 * upward) -ℤ pos size) sample }
{
    let downward = size - upward;
    let place = (upward.abs_diff(downward) / 8).min(63);
    let guess = if upward >= downward { 64 } else { 0 };
    if one == guess { place } else { place + 64 }
}

// The earliest sample is in the most significant bit.
#[inline(always)]
fn mark_at(samples: u8, place: usize) -> u16
    requires { place < 8 }
    ensures { result ≡ (if samples / 2 ^ (7 - place) % 2 == 1 then 64 else 0) }
{
    (u16::from(samples) << place) / 128 % 2 * 64
}
