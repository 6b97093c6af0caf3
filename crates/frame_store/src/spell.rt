// A sound, spelled.
ghost use Rattle.std.specs.Prelude.{◌≡◌, ◌+◌, ◌*◌, ◌%◌, ◌/◌, ◌<◌, ◌≤◌, ◌↔◌, ◌++◌, false, [], ◌∷◌, length, map, IfOk, IfErr, IsTrue};
ghost use Rattle.dst_spec.specs.Bits.{octets};
ghost use Rattle.dst_spec.specs.Sample.{IsShape, sound_bytes};
ghost use Rattle.dst_spec.specs.Interval.{interval};
ghost use Rattle.dst_spec.specs.Spell.{code_spelling, header_spelling, spell};
ghost use Rattle.arith_encoder.specs.Encoding.{StandsFor};
ghost use Rattle.frame_store.specs.Pairs.{pair_of, all_pairs};
ghost use Rattle.frame_store.specs.Storing.{written, IsWriter};

use crate::lay_out::lay_out;
use crate::measure::{prob_of, symbol_in};
use crate::scratch::{Latest, StoreScratch};
use arith_encoder::ArithEncoder;
use bit_io::BitWriter;
use channel_params::reserved_probability;
use dst_num::{Channels, Params, Prob};
use frame_header::write_header;
use frame_predictions::Predictions;

/// Spells a sound with these parameters. False, with nothing spelled, where the spelling is longer than the plain form.
///
/// A frame that was stored is let go.
pub fn spell_frame(params: &Params, sound: &[u8], scratch: &mut StoreScratch) -> bool
    requires channels { length params.now.half_prob ≡ scratch.old.channels.channels }
    requires sound { length sound.now ≡ sound_bytes scratch.old.channels }
    ensures fits { IsTrue result ↔ (length (spell scratch.old.channels params.now sound.now) ≤ 1 + sound_bytes scratch.old.channels) }
    ensures spelled { IsTrue result → scratch.new.spelled ≡ spell scratch.old.channels params.now sound.now }
    ensures nothing { result ≡ false → scratch.new.spelled ≡ [] }
    ensures no_frame { scratch.new.stored ≡ [] }
    ensures channels { scratch.new.channels ≡ scratch.old.channels }
{
    let channels = scratch.channels;
    scratch.predictions.begin(sound);
    scratch.latest = Latest::Spelling;
    let symbols = scratch.symbols.as_mut_slice();
    lay_out(params, &mut scratch.predictions, symbols);
    write_into(params, symbols, channels, &mut scratch.writer)
}

/// Writes the spelling by these parameters in place of what the writer has. False where it isn't shorter than the plain form.
pub(crate) fn spell_shorter(
    params: &Params,
    predictions: &mut Predictions,
    symbols: &mut [u8],
    writer: &mut Option<BitWriter>,
) -> bool
    requires channels { length params.now.half_prob ≡ predictions.old.channels.channels }
    requires shape { IsShape predictions.old.channels }
    requires many { length symbols.old ≡ 8 * sound_bytes predictions.old.channels }
    requires writer { IsWriter predictions.old.channels writer.old }
    ensures shorter { IsTrue result ↔ (length (spell predictions.old.channels params.now predictions.old.sound) ≤ sound_bytes predictions.old.channels) }
    ensures written { IsTrue result → written writer.new ≡ spell predictions.old.channels params.now predictions.old.sound }
    ensures writer { IsWriter predictions.old.channels writer.new }
    ensures many { length symbols.new ≡ length symbols.old }
    ensures sound { predictions.new.sound ≡ predictions.old.sound }
    ensures channels { predictions.new.channels ≡ predictions.old.channels }
{
    let channels = predictions.channels();
    lay_out(params, predictions, symbols);
    if !write_into(params, symbols, channels, writer) {
        return false;
    }
    bytes_in(writer, channels) <= channels.sound_bytes()
}

// How many bytes a writer that is there has.
fn bytes_in(writer: &Option<BitWriter>, channels: Channels) -> usize
    requires { IsWriter channels writer.now }
    ensures { result ≡ length (written writer.now) }
{
    match writer {
        Some(writer) => writer.bytes().len(),
        None => unreachable!(),
    }
}

/// Writes the spelling of laid out symbols in place of what the writer has. False, with nothing written, where it is longer than
/// the plain form.
pub(crate) fn write_into(
    params: &Params,
    symbols: &[u8],
    channels: Channels,
    writer: &mut Option<BitWriter>,
) -> bool
    requires some { 0 < length params.now.half_prob }
    requires writer { IsWriter channels writer.old }
    requires symbols { length symbols.now ≡ 8 * sound_bytes channels }
    ensures fits { IsTrue result ↔ (length (header_spelling params.now)
        + length (code_spelling (all_pairs params.now symbols.now)) ≤ 8 * (1 + sound_bytes channels)) }
    ensures written { IsTrue result → written writer.new
        ≡ octets (header_spelling params.now ++ code_spelling (all_pairs params.now symbols.now)) }
    ensures nothing { result ≡ false → written writer.new ≡ [] }
    ensures writer { IsWriter channels writer.new }
{
    let Some(mut old) = writer.take() else {
        unreachable!();
    };
    old.clear();
    match write_spelling(params, symbols, old) {
        Ok(new) => {
            *writer = Some(new);
            true
        }
        Err(new) => {
            *writer = Some(new);
            false
        }
    }
}

// Writes the spelling of laid out symbols. Where it doesn't fit the writer comes back without bits.
fn write_spelling(
    params: &Params,
    symbols: &[u8],
    writer: BitWriter,
) -> Result<BitWriter, BitWriter>
    requires some { 0 < length params.now.half_prob }
    requires empty { writer.bits ≡ [] }
    ensures bytes { IfOk result (λ w. octets w.bits ≡ octets (header_spelling params.now ++ code_spelling (all_pairs params.now symbols.now))) }
    ensures fits { IfOk result (λ _. length (header_spelling params.now) + length (code_spelling (all_pairs params.now symbols.now)) ≤ writer.room) }
    ensures whole { IfOk result (λ w. length w.bits % 8 ≡ 0) }
    ensures room { IfOk result (λ w. w.room + length w.bits ≡ writer.room) }
    ensures long { IfErr result (λ _. writer.room < length (header_spelling params.now) + length (code_spelling (all_pairs params.now symbols.now))) }
    ensures cleared { IfErr result (λ w. w.bits ≡ []) }
    ensures same_room { IfErr result (λ w. w.room ≡ writer.room) }
{
    let mut writer = writer;
    if !write_header(params, &mut writer) {
        return Err(writer);
    }
    let mut encoder = match ArithEncoder::new(writer) {
        Ok(encoder) => encoder,
        Err(full) => {
            let mut full = full;
            full.clear();
            return Err(full);
        }
    };
    if encode_all(&mut encoder, reserved_probability(params), symbols) {
        Ok(encoder.finish())
    } else {
        Err(encoder.abandon())
    }
}

// Encodes laid out symbols, the reserved one, which is 0, in front of them. False as soon as one doesn't fit.
fn encode_all(encoder: &mut ArithEncoder, reserved: Prob, symbols: &[u8]) -> bool
    requires { StandsFor encoder.old [] }
    ensures stands { IsTrue result → StandsFor encoder.new ((false, reserved) ∷ map pair_of symbols.now) }
    ensures fits { IsTrue result → 13 + (interval ((false, reserved) ∷ map pair_of symbols.now)).doublings ≤ encoder.old.room }
    ensures long { result ≡ false → encoder.old.room < 13 + (interval ((false, reserved) ∷ map pair_of symbols.now)).doublings }
    ensures before { encoder.new.before ≡ encoder.old.before }
    ensures room { encoder.new.room ≡ encoder.old.room }
{
    if !encoder.encode(false, reserved) {
        return false;
    }
    for byte in symbols {
        if !encoder.encode(symbol_in(*byte), prob_of(*byte)) {
            return false;
        }
    }
    true
}
