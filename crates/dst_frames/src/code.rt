// The sound of a coded frame.
ghost use Rattle.std.specs.Prelude.{◌≡◌, ℕ, ◌*◌, ◌<◌, ◌≤◌, ◌^◌, length, get_or, replicate, IfOk, IfErr};
ghost use Rattle.dst_spec.specs.Bits.{bits};
ghost use Rattle.dst_spec.specs.Sample.{Shape};
ghost use Rattle.dst_spec.specs.Guess.{filter_of, probs_of};
ghost use Rattle.byte_predictor.specs.Samples.{samples_of};
ghost use Rattle.arith_decoder.specs.Decoding.{IsCodeFault};
ghost use Rattle.dst_frames.specs.Tables.{AreBuilt};
ghost use Rattle.dst_frames.specs.Ready.{IsReady};
ghost use Rattle.dst_frames.specs.Coded.{IsCodeOfSound};

use crate::samples::decode_samples;
use crate::state::ChannelState;
use crate::tables::ChannelTables;
use arith_decoder::ArithDecoder;
use arith_decoder::laws::decoded_code;
use bit_io::BitSlice;
use channel_params::reserved_probability;
use dst_num::{FrameFault, Params};

/// Decodes the sound, as many bytes of each channel. Gives how many bits of the code are used.
pub(crate) fn decode_code(
    code: BitSlice,
    params: &Params,
    tables: &mut [ChannelTables],
    states: &mut [ChannelState],
    octets: usize,
    out: &mut [u8],
) -> Result<u64, FrameFault>
    requires short { length code.bytes.now ≤ 2 ^ 50 }
    requires early { code.first < 2 ^ 61 }
    requires channels { length params.now.half_prob ≡ length tables.old }
    requires states { length states.old ≡ length tables.old }
    requires some { 0 < length tables.old }
    requires few { length tables.old ≤ 6 }
    requires least { 16 ≤ octets }
    requires most { octets < 2 ^ 20 }
    requires out { length out.old ≡ octets * length tables.old }
    ensures sound { IfOk result (λ used. (f : Shape) → f.channels ≡ length tables.old → f.octets ≡ octets
        → IsCodeOfSound f params.now (bits code.entry.bytes.now) code.entry.first out.new used) }
    ensures first_bit { IfOk result (λ _. get_or (bits code.entry.bytes.now) code.entry.first 0 ≡ 0) }
    ensures few_bits { IfOk result (λ used. used ≤ 2 ^ 32) }
    ensures fault { IfErr result (IsCodeFault (bits code.entry.bytes.now) code.entry.first) }
{
    let mut decoder = match ArithDecoder::new(code) {
        Ok(decoder) => decoder,
        Err(fault) => return Err(fault),
    };
    build_all(tables, states, params);
    decoder.decode(reserved_probability(params));
    match tables.len() {
        1 => decode_samples(&mut decoder, tables, states, 1, out, octets),
        channels => decode_samples(&mut decoder, tables, states, channels, out, octets),
    }
    decoded_code();
    Ok(decoder.used())
}

// The tables of each channel, and no samples yet.
pub(crate) fn build_all(tables: &mut [ChannelTables], states: &mut [ChannelState], params: &Params)
    requires channels { length params.now.half_prob ≡ length tables.old }
    requires states { length states.old ≡ length tables.old }
    ensures built { (f : Shape) → f.channels ≡ length tables.old → AreBuilt f params.now tables.new }
    ensures fresh { (c : ℕ) (other : ChannelState) → c < length tables.old
        → IsReady (filter_of params.now c) (probs_of params.now c) 0 (samples_of (replicate 16 0xaa)) (get_or states.new c other) }
{
    for c in 0..tables.len() {
        let channel = &mut tables[c];
        channel.build(params, c);
        states[c] = ChannelState::fresh(channel);
    }
}
