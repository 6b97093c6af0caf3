// The samples of a frame, symbol after symbol.
ghost use Rattle.std.specs.Prelude.{◌≡◌, ℕ, ◌+◌, ◌*◌, ◌/◌, ◌%◌, ◌<◌, ◌≤◌, ◌^◌, false, ℤ, List, length, get_or};
ghost use Rattle.dst_frames.specs.Ready.{IsReady};
ghost use Rattle.dst_frames.specs.Underway.{IsFurther, IsNext, AreDecoded};
ghost use Rattle.dst_frames.specs.declared.state.ChannelState.{ChannelState};

use crate::state::ChannelState;
use crate::tables::{ChannelTables, prob_above};
use arith_decoder::ArithDecoder;
use byte_predictor::laws::samples_before;

/// All samples of a frame, `octets` bytes of each channel. Only the first sixteen bytes of a channel can have early samples, since no
/// filter is longer than 128. The caller has a copy of this for one channel, whose state then stays in registers.
#[inline(always)]
pub(crate) fn decode_samples(
    decoder: &mut ArithDecoder,
    tables: &[ChannelTables],
    states: &mut [ChannelState],
    channels: usize,
    out: &mut [u8],
    octets: usize,
)
    requires channels { channels ≡ length tables.now }
    requires states { length states.old ≡ length tables.now }
    requires least { 16 ≤ octets }
    requires most { octets < 2 ^ 20 }
    requires few { length tables.now ≤ 6 }
    requires inside { octets * length tables.now ≤ length out.old }
    requires room { decoder.old.used ≤ 2 ^ 16 }
    ensures sound { AreDecoded tables.now 0 octets out.old out.new decoder.old decoder.new states.old states.new }
    ensures code { IsFurther decoder.old decoder.new (384 * octets) }
{
    for byte in 0..16 {
        decode_byte(decoder, tables, states, channels, out, byte, true);
    }
    for byte in 16..octets {
        decode_byte(decoder, tables, states, channels, out, byte, false);
    }
}

// The next eight samples of each channel, one byte of each.
#[inline(always)]
fn decode_byte(
    decoder: &mut ArithDecoder,
    tables: &[ChannelTables],
    states: &mut [ChannelState],
    channels: usize,
    out: &mut [u8],
    byte: usize,
    start: bool,
)
    requires channels { channels ≡ length tables.now }
    requires states { length states.old ≡ length tables.now }
    requires byte { byte < 2 ^ 20 }
    requires start { start ≡ false → 16 ≤ byte }
    requires few { length tables.now ≤ 6 }
    requires inside { (byte + 1) * length tables.now ≤ length out.old }
    requires room { decoder.old.used + 384 ≤ 2 ^ 40 }
    ensures sound { AreDecoded tables.now byte (byte + 1) out.old out.new decoder.old decoder.new states.old states.new }
    ensures code { IsFurther decoder.old decoder.new 384 }
{
    samples_before();
    for place in 0..8 {
        for c in 0..channels {
            let channel = &tables[c];
            let early = channel.is_early(byte, place, start);
            let alone = channels == 1;
            decode_sample(decoder, channel, &mut states[c], place, early, alone);
        }
    }
    let first = byte * channels;
    finish_byte(tables, states, channels, &mut out[first..first + channels]);
}

// The next sample of a channel. An early one has the probability 128.
#[inline(always)]
fn decode_sample(
    decoder: &mut ArithDecoder,
    tables: &ChannelTables,
    state: &mut ChannelState,
    place: usize,
    early: bool,
    alone: bool,
) -> bool
    requires place { place < 8 }
    requires room { decoder.old.used ≤ 2 ^ 40 }
    ensures next { IsNext tables.now place early decoder.old decoder.new state.old state.new result }
    ensures code { IsFurther decoder.old decoder.new 8 }
{
    let entry = state.next;
    let ahead = state.look_ahead(tables, place, alone);
    let low = if early { 127 } else { entry % 128 };
    let symbol = decoder.decode(prob_above(low));
    let sample = symbol == (entry >= 128);
    state.next = match ahead {
        Some((next_0, next_1)) => { if sample { next_1 } else { next_0 } }
        None => state.entry_behind(tables, place, sample),
    };
    state.ahead.push(sample);
    sample
}

/// Gives out the eight samples of each channel, and adds them to the sums ahead.
#[inline(always)]
pub(crate) fn finish_byte(
    tables: &[ChannelTables],
    states: &mut [ChannelState],
    channels: usize,
    out: &mut [u8],
)
    requires channels { channels ≡ length tables.now }
    requires states { length states.old ≡ length tables.now }
    requires room { length out.old ≡ length tables.now }
    ensures newest { (c : ℕ) (other : ChannelState) (filter : List ℤ) (probs samples : List ℕ) (place : ℕ) → c < length tables.now
        → IsReady filter probs place samples (get_or states.old c other)
        → (k : ℕ) → k < 8 → get_or out.new c 0 / 2 ^ k % 2 ≡ get_or samples k 0 }
    ensures added { (c : ℕ) (table : ChannelTables) (other : ChannelState) (probs samples : List ℕ) → c < length tables.now
        → IsReady (get_or tables.now c table).filter probs 8 samples (get_or states.old c other)
        → IsReady (get_or tables.now c table).filter probs 0 samples (get_or states.new c other) }
    ensures next { (c : ℕ) (other : ChannelState) → (get_or states.new c other).next ≡ (get_or states.old c other).next }
{
    for c in 0..channels {
        let ahead = &mut states[c].ahead;
        out[c] = ahead.newest();
        ahead.take_byte(&tables[c].filter);
    }
}
