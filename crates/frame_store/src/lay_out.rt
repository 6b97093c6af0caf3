// The symbols of a sound in order, as bytes.
ghost use Rattle.std.specs.Prelude.{◌≡◌, ◌≢◌, ℕ, ◌+◌, ◌*◌, ◌<◌, ◌≤◌, ◌^◌, nat_lt, true, false, pos, map, length, get_or, All};
ghost use Rattle.dst_spec.specs.Table.{prob_kind, IsTable};
ghost use Rattle.dst_spec.specs.Sample.{sound_bytes};
ghost use Rattle.dst_spec.specs.Symbols.{symbols as symbols_of};
ghost use Rattle.frame_store.specs.Pairs.{byte_of as byte_from, symbol_byte, all_pairs};

use channel_params::{channel_filter, channel_half_prob, channel_probs};
use dst_num::Params;
use frame_predictions::Predictions;
use frame_predictions::laws::{code_tells, row_of_codes};

/// Lays out the symbols of the sound with these parameters, but for the reserved one: one byte each, a symbol 1 in the highest
/// bit and its probability in the others.
pub(crate) fn lay_out(params: &Params, predictions: &mut Predictions, symbols: &mut [u8])
    requires channels { length params.now.half_prob ≡ predictions.old.channels.channels }
    requires many { length symbols.old ≡ 8 * sound_bytes predictions.old.channels }
    ensures symbols { all_pairs params.now symbols.new ≡ symbols_of predictions.old.channels params.now predictions.old.sound false }
    ensures long { length symbols.new ≡ 8 * sound_bytes predictions.old.channels }
    ensures many { length symbols.new ≡ length symbols.old }
    ensures sound { predictions.new.sound ≡ predictions.old.sound }
    ensures channels { predictions.new.channels ≡ predictions.old.channels }
{
    let channels = predictions.channels().count();
    code_tells();
    row_of_codes();
    for c in 0..channels {
        let filter = channel_filter(params, c);
        let early = if channel_half_prob(params, c) {
            filter.coefs().len()
        } else {
            0
        };
        let probs = channel_probs(params, c).entries();
        let row = predictions.row(c, filter);
        spread(symbols, predictions.codes(row), probs, early, c, channels);
    }
}

// Lays out the symbols of one channel.
fn spread(symbols: &mut [u8], codes: &[u8], probs: &[u8], early: usize, c: usize, channels: usize)
    requires probs { IsTable prob_kind (map pos probs.now) }
    requires codes { All (λ code. code < 128) codes.now }
    requires channel { c < channels }
    requires few { channels ≤ 6 }
    requires long { length symbols.old ≡ length codes.now * channels }
    requires short { length codes.now < 2 ^ 32 }
    ensures long { length symbols.new ≡ length symbols.old }
    ensures here { (t : ℕ) → t < length codes.now
        → get_or symbols.new (t * channels + c) 0 ≡ symbol_byte probs.now (nat_lt t early) (get_or codes.now t 0) }
    ensures others { (t d : ℕ) → t < length codes.now → d < channels → d ≢ c → get_or symbols.new (t * channels + d) 0 ≡ get_or symbols.old (t * channels + d) 0 }
{
    let (first, later) = tables(probs);
    for t in 0..codes.len() {
        let code = codes[t] as usize;
        symbols[t * channels + c] = if t < early { first[code] } else { later[code] };
    }
}

// The byte of each code, of an early sample and of another one.
fn tables(probs: &[u8]) -> ([u8; 128], [u8; 128])
    requires { IsTable prob_kind (map pos probs.now) }
    ensures first { (code : ℕ) → code < 128 → get_or result.0 code 0 ≡ symbol_byte probs.now true code }
    ensures later { (code : ℕ) → code < 128 → get_or result.1 code 0 ≡ symbol_byte probs.now false code }
{
    let mut first = [0; 128];
    let mut later = [0; 128];
    for code in 0..128usize {
        let p = probs[(code % 64).min(probs.len() - 1)];
        first[code] = byte_of(code, 128);
        later[code] = byte_of(code, p);
    }
    (first, later)
}

// The byte of a code with a probability.
fn byte_of(code: usize, p: u8) -> u8
    ensures { result ≡ byte_from code p }
{
    let low = p % 128;
    if code < 64 { low + 128 } else { low }
}
