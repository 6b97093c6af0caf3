// Candidates by the codes of their predictions.
ghost use Rattle.std.specs.Prelude.{◌≡◌, ℕ, ◌+◌, ◌*◌, ◌<◌, ◌≤◌, [], false, length, get_or, map, pos, All};
ghost use Rattle.dst_spec.specs.Table.{prob_kind, IsTable};
ghost use Rattle.dst_spec.specs.Sample.{IsShape};
ghost use Rattle.dst_spec.specs.Header.{IsParams, Params as Parameters};
ghost use Rattle.dst_spec.specs.Symbols.{reserved_probability as reserved_from};
ghost use Rattle.arith_encoder.specs.Lanes.{IsStep};
ghost use Rattle.frame_store.specs.Coded.{AreCodeSteps, IsCoded, AreCoded, Stay};

use crate::within::prob_within;
use arith_encoder::step_of;
use channel_params::{channel_filter, channel_half_prob, channel_probs, reserved_probability};
use dst_num::Params;
use frame_predictions::Predictions;

/// A channel by the parameters of a candidate: the row of its codes, how many samples are early, and what each code of a later
/// one takes of a range.
#[derive(Clone, Copy)]
pub(crate) struct ChannelSteps {
    pub(crate) row: usize,
    pub(crate) early: usize,
    pub(crate) later: [u16; 128],
}

impl ChannelSteps {
    /// Of no channel yet.
    pub(crate) fn new() -> ChannelSteps {
        ChannelSteps {
            row: 0,
            early: 0,
            later: [0; 128],
        }
    }
}

/// What each code takes of a range, with a table of probabilities.
pub(crate) fn steps_of_codes(probs: &[u8]) -> [u16; 128]
    requires { IsTable prob_kind (map pos probs.now) }
    ensures { AreCodeSteps probs.now result }
{
    let mut steps = [0; 128];
    for code in 0..128usize {
        let p = probs[(code % 64).min(probs.len() - 1)];
        steps[code] = step_of(code < 64, prob_within(p % 128));
    }
    steps
}

/// The channels by the parameters of up to eight candidates, and what their reserved symbols take.
pub(crate) fn code_group(
    group: &[Params],
    predictions: &mut Predictions,
    lanes: &mut [[ChannelSteps; 6]; 8],
) -> [u16; 8]
    requires few { length group.now ≤ 8 }
    requires lawful { All (IsParams predictions.old.channels.channels) group.now }
    requires shape { IsShape predictions.old.channels }
    requires none { predictions.old.rows ≡ [] }
    ensures reserved { (lane : ℕ) (other : Parameters) → lane < length group.now → IsStep false (reserved_from (get_or group.now lane other)) (get_or result lane 0) }
    ensures coded { (lane : ℕ) (other : Parameters) → lane < length group.now
        → AreCoded (get_or group.now lane other) predictions.new.rows (get_or lanes.new lane []) predictions.old.channels.channels }
    ensures sound { predictions.new.sound ≡ predictions.old.sound }
    ensures channels { predictions.new.channels ≡ predictions.old.channels }
{
    let mut reserved = [0; 8];
    for lane in 0..group.len() {
        let params = &group[lane];
        code_channels(params, predictions, &mut lanes[lane]);
        reserved[lane] = step_of(false, reserved_probability(params));
    }
    reserved
}

// The channels by the parameters of one candidate.
fn code_channels(params: &Params, predictions: &mut Predictions, coded: &mut [ChannelSteps; 6])
    requires channels { length params.now.half_prob ≡ predictions.old.channels.channels }
    requires shape { IsShape predictions.old.channels }
    requires room { length predictions.old.rows + predictions.old.channels.channels ≤ 8 * predictions.old.channels.channels }
    ensures coded { AreCoded params.now predictions.new.rows coded.new predictions.old.channels.channels }
    ensures stay { Stay predictions.old.rows predictions.new.rows }
    ensures few { length predictions.new.rows ≤ length predictions.old.rows + predictions.old.channels.channels }
    ensures sound { predictions.new.sound ≡ predictions.old.sound }
    ensures channels { predictions.new.channels ≡ predictions.old.channels }
{
    let channels = predictions.channels().count();
    for c in 0..channels {
        coded[c] = code_channel(params, predictions, c);
    }
}

// One channel by the parameters of a candidate.
fn code_channel(params: &Params, predictions: &mut Predictions, c: usize) -> ChannelSteps
    requires channels { length params.now.half_prob ≡ predictions.old.channels.channels }
    requires inside { c < predictions.old.channels.channels }
    requires room { length predictions.old.rows < 8 * predictions.old.channels.channels }
    ensures coded { IsCoded params.now predictions.new.rows c result }
    ensures stay { Stay predictions.old.rows predictions.new.rows }
    ensures few { length predictions.new.rows ≤ length predictions.old.rows + 1 }
    ensures sound { predictions.new.sound ≡ predictions.old.sound }
    ensures channels { predictions.new.channels ≡ predictions.old.channels }
{
    let filter = channel_filter(params, c);
    let early = if channel_half_prob(params, c) {
        filter.coefs().len()
    } else {
        0
    };
    let later = steps_of_codes(channel_probs(params, c).entries());
    let row = predictions.row(c, filter);
    ChannelSteps { row, early, later }
}
