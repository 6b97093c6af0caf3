// The parameters of a level.
ghost use Rattle.std.specs.Prelude.{◌≡◌, ℕ, ◌+◌, ◌-◌, ◌*◌, ◌<◌, ◌≤◌, ◌==◌, true, [], ◌∷◌, length, get_or, take, replicate};
ghost use Rattle.std.specs.List.{range_with_len, count_by};
ghost use Rattle.dst_spec.specs.Sample.{IsShape, samples};
ghost use Rattle.dst_spec.specs.Header.{IsParams};
ghost use Rattle.dst_num.specs.Map.{params_of};
ghost use Rattle.level_spec.specs.Correlation.{correlations};
ghost use Rattle.level_spec.specs.Recursion.{solution};
ghost use Rattle.level_spec.specs.Counts.{counted};
ghost use Rattle.level_spec.specs.Picks.{channels_of, per_channel as per_channel_of, shared as shared_of};
ghost use Rattle.frame_predictions.specs.Codes.{code_at};
ghost use Rattle.filter_analyser.specs.Run.{padded};

use crate::counts::{count_codes, table_from};
use crate::lags::correlate;
use crate::recursion::{solve_all, solve_filter};
use crate::scale::quantise;
use arrayvec::ArrayVec;
use dst_num::{Channels, FilterTable, Map, Params, ProbTable};
use frame_predictions::Predictions;

/// Parameters with a filter and a table for each channel.
pub(crate) fn per_channel(
    solved: &[[i64; 128]; 6],
    order: usize,
    channels: Channels,
    predictions: &mut Predictions,
) -> Params
    requires least { 1 ≤ order }
    requires most { order ≤ 128 }
    requires channels { predictions.old.channels ≡ channels }
    requires solved { (c : ℕ) → c < channels.channels
        → get_or solved.now c [] ≡ padded (solution (correlations channels predictions.old.sound (c ∷ [])) order) }
    ensures params { result ≡ per_channel_of channels predictions.old.sound order }
    ensures sound { predictions.new.sound ≡ predictions.old.sound }
    ensures channels { predictions.new.channels ≡ predictions.old.channels }
{
    let count = channels.count();
    let mut filters = ArrayVec::new();
    let mut probs = ArrayVec::new();
    for c in 0..count {
        let filter = quantise(&solved[c], order);
        probs.push(channel_table(predictions, c, &filter));
        filters.push(filter);
    }
    parameters(
        &[0, 1, 2, 3, 4, 5],
        &[0, 1, 2, 3, 4, 5],
        channels,
        filters,
        probs,
    )
}

/// Parameters with one filter and one table for all channels.
pub(crate) fn shared(
    solved: &[i64; 128],
    order: usize,
    channels: Channels,
    predictions: &mut Predictions,
) -> Params
    requires least { 1 ≤ order }
    requires most { order ≤ 128 }
    requires shape { IsShape channels }
    requires channels { predictions.old.channels ≡ channels }
    requires solved { solved.now ≡ padded (solution (correlations channels predictions.old.sound (channels_of channels)) order) }
    ensures params { result ≡ shared_of channels predictions.old.sound order }
    ensures sound { predictions.new.sound ≡ predictions.old.sound }
    ensures channels { predictions.new.channels ≡ predictions.old.channels }
{
    let filter = quantise(solved, order);
    let mut probs = ArrayVec::new();
    probs.push(joint_table(predictions, channels, &filter));
    let mut filters = ArrayVec::new();
    filters.push(filter);
    parameters(&[0; 6], &[0; 6], channels, filters, probs)
}

// The probabilities of a filter's guesses in one channel.
fn channel_table(predictions: &mut Predictions, channel: usize, filter: &FilterTable) -> ProbTable
    requires channel { channel < predictions.old.channels.channels }
    requires shape { IsShape predictions.old.channels }
    ensures table { result ≡ counted predictions.old.channels predictions.old.sound (channel ∷ []) filter.now }
    ensures sound { predictions.new.sound ≡ predictions.old.sound }
    ensures channels { predictions.new.channels ≡ predictions.old.channels }
{
    let mut counts = [0; 128];
    count_row(&mut counts, predictions, channel, filter);
    table_from(&counts)
}

// The probabilities of a filter's guesses in all channels.
fn joint_table(predictions: &mut Predictions, channels: Channels, filter: &FilterTable) -> ProbTable
    requires channels { predictions.old.channels ≡ channels }
    ensures table { result ≡ counted channels predictions.old.sound (channels_of channels) filter.now }
    ensures sound { predictions.new.sound ≡ predictions.old.sound }
    ensures channels { predictions.new.channels ≡ predictions.old.channels }
{
    let count = channels.count();
    let mut counts = [0; 128];
    for c in 0..count {
        count_row(&mut counts, predictions, c, filter);
    }
    table_from(&counts)
}

// Counts the codes of a channel with a filter, but for the first ones, as many as the filter is long.
pub(crate) fn count_row(
    counts: &mut [u32; 128],
    predictions: &mut Predictions,
    channel: usize,
    filter: &FilterTable,
)
    requires channel { channel < predictions.old.channels.channels }
    requires shape { IsShape predictions.old.channels }
    requires room { (q : ℕ) → q < 128 → get_or counts.old q 0 ≤ 5 * 150528 }
    ensures long { length counts.new ≡ 128 }
    ensures counts { (q : ℕ) → q < 128 → get_or counts.new q 0 ≡ get_or counts.old q 0
        + count_by (λ t. code_at predictions.old.channels predictions.old.sound channel filter.now t == q)
        (range_with_len (length filter.now) (samples predictions.old.channels - length filter.now)) }
    ensures most { (q : ℕ) → get_or counts.new q 0 ≤ get_or counts.old q 0 + 150528 }
    ensures sound { predictions.new.sound ≡ predictions.old.sound }
    ensures channels { predictions.new.channels ≡ predictions.old.channels }
{
    let row = predictions.row(channel, filter);
    let codes = predictions.codes(row);
    count_codes(counts, &codes[filter.coefs().len()..]);
}

// Parameters with half bits 1 whose two maps begin as these elements.
pub(crate) fn parameters(
    filter_elements: &[u8; 6],
    prob_elements: &[u8; 6],
    channels: Channels,
    filters: ArrayVec<FilterTable, 6>,
    probs: ArrayVec<ProbTable, 6>,
) -> Params
    requires lawful { IsParams channels.channels
        (params_of (take channels.channels filter_elements.now) (take channels.channels prob_elements.now) (replicate channels.channels true) filters.items probs.items) }
    ensures { result ≡ params_of (take channels.channels filter_elements.now) (take channels.channels prob_elements.now) (replicate channels.channels true) filters.items probs.items }
{
    let count = channels.count();
    let mut half_prob = ArrayVec::new();
    for _c in 0..count {
        half_prob.push(true);
    }
    let (Some(filter_map), Some(prob_map)) = (
        Map::new(&filter_elements[..count]),
        Map::new(&prob_elements[..count]),
    ) else {
        unreachable!()
    };
    match Params::new(filter_map, prob_map, half_prob, filters, probs) {
        Some(params) => params,
        None => unreachable!(),
    }
}
