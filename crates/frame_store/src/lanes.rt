// The lengths of eight codes, measured side by side.
ghost use Rattle.std.specs.Prelude.{◌≡◌, ◌≢◌, ℕ, ◌+◌, ◌*◌, ◌<◌, ◌≤◌, ◌^◌, [], length, get_or, All, false};
ghost use Rattle.dst_spec.specs.Sample.{samples};
ghost use Rattle.dst_spec.specs.Header.{Params as Parameters};
ghost use Rattle.dst_spec.specs.Symbols.{reserved_probability as reserved_from, symbols as symbols_of};
ghost use Rattle.dst_spec.specs.Spell.{code_spelling};
ghost use Rattle.arith_encoder.specs.Lanes.{IsStep};
ghost use Rattle.frame_store.specs.Coded.{AreCoded, step_at};

use crate::coded::{ChannelSteps, steps_of_codes};
use arith_encoder::narrow_lanes;
use frame_predictions::Predictions;
use frame_predictions::laws::{code_tells, row_of_codes};

// Puts what the codes of a channel take from one sample on into a lane, where the channels of each sample stand side by side.
fn fill_run(
    steps: &mut [[u16; 8]],
    codes: &[u8],
    table: &[u16; 128],
    lane: usize,
    c: usize,
    channels: usize,
    begin: usize,
)
    requires codes { All (λ code. code < 128) codes.now }
    requires lane { lane < 8 }
    requires channel { c < channels }
    requires room { length codes.now * channels ≤ length steps.old }
    requires short { length steps.old ≤ 8000 }
    ensures long { length steps.new ≡ length steps.old }
    ensures here { (t : ℕ) → begin ≤ t → t < length codes.now
        → get_or (get_or steps.new (t * channels + c) []) lane 0 ≡ get_or table.now (get_or codes.now t 0) 0 }
    ensures before { (t : ℕ) → t < begin → get_or (get_or steps.new (t * channels + c) []) lane 0 ≡ get_or (get_or steps.old (t * channels + c) []) lane 0 }
    ensures channels { (t d : ℕ) → d < channels → d ≢ c
        → get_or (get_or steps.new (t * channels + d) []) lane 0 ≡ get_or (get_or steps.old (t * channels + d) []) lane 0 }
    ensures lanes { (k other : ℕ) → other ≢ lane → get_or (get_or steps.new k []) other 0 ≡ get_or (get_or steps.old k []) other 0 }
{
    for t in begin..codes.len() {
        steps[t * channels + c][lane] = table[codes[t] as usize];
    }
}

// Puts what the samples of one candidate from sample `from` on take into its lane; an early sample's code takes it by the first table.
fn fill_lane(
    steps: &mut [[u16; 8]],
    predictions: &Predictions,
    coded: &[ChannelSteps; 6],
    first: &[u16; 128],
    lane: usize,
    from: usize,
    count: usize,
)
    requires lane { lane < 8 }
    requires rows { (c : ℕ) (other : ChannelSteps) → c < predictions.now.channels.channels → (get_or coded.now c other).row < length predictions.now.rows }
    requires inside { from + count ≤ samples predictions.now.channels }
    requires room { count * predictions.now.channels.channels ≤ length steps.old }
    requires short { length steps.old ≤ 8000 }
    ensures long { length steps.new ≡ length steps.old }
    ensures here { (t c : ℕ) (other : ChannelSteps) → t < count → c < predictions.now.channels.channels
        → get_or (get_or steps.new (t * predictions.now.channels.channels + c) []) lane 0
        ≡ step_at predictions.now.channels predictions.now.sound predictions.now.rows first.now (get_or coded.now c other) (from + t) }
    ensures lanes { (k other : ℕ) → other ≢ lane → get_or (get_or steps.new k []) other 0 ≡ get_or (get_or steps.old k []) other 0 }
{
    let channels = predictions.channels().count();
    for c in 0..channels {
        let channel = &coded[c];
        let codes = &predictions.codes(channel.row)[from..from + count];
        let early = channel.early.saturating_sub(from).min(count);
        fill_run(steps, &codes[..early], first, lane, c, channels, 0);
        fill_run(steps, codes, &channel.later, lane, c, channels, early);
    }
}

// The same of each candidate, side by side.
fn fill_part(
    steps: &mut [[u16; 8]],
    predictions: &Predictions,
    lanes: &[[ChannelSteps; 6]],
    first: &[u16; 128],
    from: usize,
    count: usize,
)
    requires few { length lanes.now ≤ 8 }
    requires rows { (lane c : ℕ) (other : ChannelSteps) → lane < length lanes.now → c < predictions.now.channels.channels
        → (get_or (get_or lanes.now lane []) c other).row < length predictions.now.rows }
    requires inside { from + count ≤ samples predictions.now.channels }
    requires room { count * predictions.now.channels.channels ≤ length steps.old }
    requires short { length steps.old ≤ 8000 }
    ensures long { length steps.new ≡ length steps.old }
    ensures here { (lane t c : ℕ) (other : ChannelSteps) → lane < length lanes.now → t < count → c < predictions.now.channels.channels
        → get_or (get_or steps.new (t * predictions.now.channels.channels + c) []) lane 0
        ≡ step_at predictions.now.channels predictions.now.sound predictions.now.rows first.now (get_or (get_or lanes.now lane []) c other) (from + t) }
{
    for lane in 0..lanes.len() {
        fill_lane(steps, predictions, &lanes[lane], first, lane, from, count);
    }
}

// How many samples of each channel are in a part, of those that are left.
fn part_samples(left: usize, room: usize, channels: usize) -> usize
    requires some { 0 < left }
    requires least { 0 < channels }
    requires room { channels ≤ room }
    ensures some { 0 < result }
    ensures inside { result ≤ left }
    ensures room { result * channels ≤ room }
{
    left.min(room / channels)
}

// Adds the doublings of each code to those before.
fn add_each(totals: &mut [u64; 8], more: &[u16; 8])
    requires { (lane : ℕ) → get_or totals.old lane 0 ≤ 2 ^ 50 }
    ensures added { (lane : ℕ) → lane < 8 → get_or totals.new lane 0 ≡ get_or totals.old lane 0 + get_or more.now lane 0 }
    ensures most { (lane : ℕ) → get_or totals.new lane 0 ≤ get_or totals.old lane 0 + 65535 }
{
    for lane in 0..8 {
        totals[lane] += u64::from(more[lane]);
    }
}

/// How many bits the code of each candidate has. `reserved` has what the reserved symbols in front of them take, and `lanes` their
/// channels.
pub(crate) fn code_lengths(
    reserved: &[u16; 8],
    lanes: &[[ChannelSteps; 6]],
    predictions: &Predictions,
    steps: &mut [[u16; 8]],
) -> [u64; 8]
    requires few { length lanes.now ≤ 8 }
    requires rows { (lane c : ℕ) (other : ChannelSteps) → lane < length lanes.now → c < predictions.now.channels.channels
        → (get_or (get_or lanes.now lane []) c other).row < length predictions.now.rows }
    requires some { 6 ≤ length steps.old }
    requires most { length steps.old ≤ 8000 }
    ensures lengths { (lane : ℕ) (P : Parameters) → lane < length lanes.now → IsStep false (reserved_from P) (get_or reserved.now lane 0)
        → AreCoded P predictions.now.rows (get_or lanes.now lane []) predictions.now.channels.channels
        → get_or result lane 0 ≡ length (code_spelling (symbols_of predictions.now.channels P predictions.now.sound false)) }
    ensures most { (lane : ℕ) → get_or result lane 0 ≤ 2 ^ 50 }
    ensures long { length steps.new ≡ length steps.old }
{
    code_tells();
    row_of_codes();
    let first = steps_of_codes(&[128]);
    let channels = predictions.channels().count();
    let samples = 8 * 4704 * predictions.channels().multiple();
    let mut ranges = [4095; 8];
    let mut totals = [13; 8];
    steps[0] = *reserved;
    let doublings = narrow_lanes(&mut ranges, &steps[..1]);
    add_each(&mut totals, &doublings);
    let mut from = 0;
    while from < samples {
        let count = part_samples(samples - from, steps.len(), channels);
        fill_part(steps, predictions, lanes, &first, from, count);
        let more = narrow_lanes(&mut ranges, &steps[..count * channels]);
        add_each(&mut totals, &more);
        from += count;
    }
    totals
}
