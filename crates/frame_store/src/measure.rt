// The length of a spelling.
ghost use Rattle.std.specs.Prelude.{◌≡◌, ℕ, ◌+◌, ◌*◌, ◌/◌, ◌%◌, ◌<◌, ◌≤◌, ◌^◌, nat_lt, not, false, ◌∷◌, map, length, get_or, All};
ghost use Rattle.dst_spec.specs.Sample.{IsShape, sound_bytes};
ghost use Rattle.dst_spec.specs.Header.{IsParams, Params as Parameters};
ghost use Rattle.dst_spec.specs.Spell.{code_spelling, header_spelling, spell};
ghost use Rattle.frame_store.specs.Pairs.{pair_of, all_pairs};
ghost use Rattle.frame_store.specs.Probs.{prob_in};

use crate::coded::{ChannelSteps, code_group};
use crate::lanes::code_lengths;
use crate::lay_out::lay_out;
use crate::within::prob_within;
use arith_encoder::CodeLength;
use channel_params::reserved_probability;
use dst_num::{Params, Prob};
use frame_header::header_length;
use frame_predictions::Predictions;

// How many bytes the spelling by these parameters has, the symbols being laid out.
fn spelling_length(params: &Params, symbols: &[u8]) -> u64
    requires some { 0 < length params.now.half_prob }
    requires few { length symbols.now ≤ 2 ^ 30 }
    ensures { result ≡ (length (header_spelling params.now) + length (code_spelling (all_pairs params.now symbols.now)) + 7) / 8 }
{
    let code = code_length(reserved_probability(params), symbols);
    (header_length(params) + code + 7) / 8
}

/// How many bytes the spellings by up to eight parameters have. There is room for the symbols of one.
pub(crate) fn spelling_lengths(
    group: &[Params],
    predictions: &mut Predictions,
    symbols: &mut [u8],
    steps: &mut [[u16; 8]],
) -> [u64; 8]
    requires some { 0 < length group.now }
    requires few { length group.now ≤ 8 }
    requires lawful { All (IsParams predictions.old.channels.channels) group.now }
    requires shape { IsShape predictions.old.channels }
    requires many { length symbols.old ≡ 8 * sound_bytes predictions.old.channels }
    requires steps { 6 ≤ length steps.old }
    requires most { length steps.old ≤ 8000 }
    ensures lengths { (lane : ℕ) (other : Parameters) → lane < length group.now
        → get_or result lane 0 ≡ length (spell predictions.old.channels (get_or group.now lane other) predictions.old.sound) }
    ensures many { length symbols.new ≡ length symbols.old }
    ensures steps { length steps.new ≡ length steps.old }
    ensures sound { predictions.new.sound ≡ predictions.old.sound }
    ensures channels { predictions.new.channels ≡ predictions.old.channels }
{
    if group.len() == 1 {
        lay_out(&group[0], predictions, symbols);
        return [spelling_length(&group[0], symbols); 8];
    }
    predictions.release();
    let mut lanes = [[ChannelSteps::new(); 6]; 8];
    let reserved = code_group(group, predictions, &mut lanes);
    let codes = code_lengths(&reserved, &lanes[..group.len()], predictions, steps);
    let mut lengths = [0; 8];
    for lane in 0..group.len() {
        lengths[lane] = (header_length(&group[lane]) + codes[lane] + 7) / 8;
    }
    lengths
}

// How many bits the code of laid out symbols has, the reserved one being in front of them.
fn code_length(reserved: Prob, symbols: &[u8]) -> u64
    requires { length symbols.now ≤ 2 ^ 30 }
    ensures code { result ≡ length (code_spelling ((false, reserved) ∷ map pair_of symbols.now)) }
    ensures most { result ≤ 2 ^ 36 }
{
    let mut length = CodeLength::new();
    length.add(false, reserved);
    for byte in symbols {
        length.add(symbol_in(*byte), prob_of(*byte));
    }
    length.bits()
}

/// The symbol in a byte.
#[inline(always)]
pub(crate) fn symbol_in(byte: u8) -> bool
    ensures { result ≡ not (nat_lt byte 128) }
{
    byte >= 128
}

/// The probability in a byte.
#[inline(always)]
pub(crate) fn prob_of(byte: u8) -> Prob
    ensures { result ≡ prob_in (byte % 128) }
{
    prob_within(byte % 128)
}
