// Filters that are refined step by step.
ghost use Rattle.std.specs.Prelude.{◌≡◌, ℕ, ◌+◌, ◌*◌, ◌^◌, ◌<◌, ◌≤◌, ◌==◌, pos, ◌+ℤ◌, nat_abs, length, get_or, None, Some, IfNone, IfSome};
ghost use Rattle.std.specs.List.{range_with_len};
ghost use Rattle.dst_spec.specs.Sample.{IsShape};
ghost use Rattle.level_spec.specs.Correlation.{correlations};
ghost use Rattle.level_spec.specs.Recursion.{lag};
ghost use Rattle.level_spec.specs.Counts.{count_from, table_of};
ghost use Rattle.level_spec.specs.Rows.{rows as rows_of};
ghost use Rattle.level_spec.specs.Size.{shortened, size};
ghost use Rattle.level_spec.specs.Refining.{weighted_agreement, gradient, next_filter as next_filter_of, refined_from};
ghost use Rattle.frame_predictions.specs.Codes.{code_at};

use crate::counts::table_from;
use crate::picks::count_row;
use dst_num::{Channels, FilterTable, ProbTable};
use filter_refiner::{
    Rows, add_gradient, agree_little, filter_size, fit, pulls, shorten, solve, sums_of, target,
    weights_of,
};
use frame_predictions::Predictions;

/// Channels from one on.
#[derive(Clone, Copy, Drop)]
pub(crate) struct Members {
    pub(crate) first: usize,
    pub(crate) count: usize,
}

/// The first filter of the least size, and the last one.
#[derive(Drop)]
pub(crate) struct Refined {
    pub(crate) best: FilterTable,
    pub(crate) last: FilterTable,
}

/// Refines a filter by so many steps, or fewer where refining ends.
pub(crate) fn refine(
    predictions: &mut Predictions,
    channels: Channels,
    members: Members,
    r0: i64,
    rows: &Rows,
    first: &FilterTable,
    steps: usize,
) -> Refined
    requires channels { predictions.old.channels ≡ channels }
    requires some { 1 ≤ members.count }
    requires within { members.first + members.count ≤ channels.channels }
    requires r0 { r0 ≡ lag (correlations channels predictions.old.sound (range_with_len members.first members.count)) 0 }
    requires rows { rows.now ≡ rows_of (correlations channels predictions.old.sound (range_with_len members.first members.count)) 128 }
    ensures best { result.best ≡ (refined_from channels predictions.old.sound (range_with_len members.first members.count) steps first.now).best }
    ensures last { result.last ≡ (refined_from channels predictions.old.sound (range_with_len members.first members.count) steps first.now).last }
    ensures sound { predictions.new.sound ≡ predictions.old.sound }
    ensures channels { predictions.new.channels ≡ predictions.old.channels }
{
    let mut best = first.copy();
    let mut last = first.copy();
    let mut counts = count_members(predictions, channels, members, first);
    let mut least = size_of(first, members, &counts);
    for _step in 0..steps {
        let Some(next) = next_filter(predictions, channels, members, r0, rows, &last, &counts)
        else {
            break;
        };
        counts = count_members(predictions, channels, members, &next);
        let size = size_of(&next, members, &counts);
        if size < least {
            least = size;
            best = next.copy();
        }
        last = next;
    }
    Refined { best, last }
}

// The filter that a step moves one to; none where refining ends.
fn next_filter(
    predictions: &mut Predictions,
    channels: Channels,
    members: Members,
    r0: i64,
    rows: &Rows,
    filter: &FilterTable,
    counts: &[u32; 128],
) -> Option<FilterTable>
    requires channels { predictions.old.channels ≡ channels }
    requires shape { IsShape channels }
    requires some { 1 ≤ members.count }
    requires within { members.first + members.count ≤ channels.channels }
    requires r0 { r0 ≡ lag (correlations channels predictions.old.sound (range_with_len members.first members.count)) 0 }
    requires rows { rows.now ≡ rows_of (correlations channels predictions.old.sound (range_with_len members.first members.count)) 128 }
    requires counts { (q : ℕ) → q < 128 → get_or counts.now q 0 ≡ count_from (length filter.now) channels
        (λ c t. code_at channels predictions.old.sound c filter.now t == q) (range_with_len members.first members.count) }
    requires few { (q : ℕ) → get_or counts.now q 0 ≤ 6 * 150528 }
    ensures none { IfNone result (next_filter_of channels predictions.old.sound (range_with_len members.first members.count) filter.now ≡ None) }
    ensures some { IfSome result (λ q. next_filter_of channels predictions.old.sound (range_with_len members.first members.count) filter.now ≡ Some q) }
    ensures sound { predictions.new.sound ≡ predictions.old.sound }
    ensures channels { predictions.new.channels ≡ predictions.old.channels }
{
    let sums = sums_of(counts);
    if agree_little(sums) {
        return None;
    }
    let gradient = gradient_of(predictions, channels, members, filter, &weights_of(counts));
    match solve(rows, &pulls(r0, sums, &gradient, filter)) {
        None => None,
        Some(moves) => Some(fit(rows, &target(filter, &moves))),
    }
}

// How the samples of channels agree with those before them, by the weights of their codes with a filter.
fn gradient_of(
    predictions: &mut Predictions,
    channels: Channels,
    members: Members,
    filter: &FilterTable,
    weights: &[u8; 128],
) -> [i64; 128]
    requires channels { predictions.old.channels ≡ channels }
    requires shape { IsShape channels }
    requires within { members.first + members.count ≤ channels.channels }
    ensures gradient { (j : ℕ) → j < 128 → get_or result j (pos 0) ≡ gradient channels predictions.old.sound
        (λ c t. get_or weights.now (code_at channels predictions.old.sound c filter.now t) 0) (length filter.now)
        (range_with_len members.first members.count) j }
    ensures small { (j : ℕ) → nat_abs (get_or result j (pos 0)) ≤ 2 ^ 28 }
    ensures sound { predictions.new.sound ≡ predictions.old.sound }
    ensures channels { predictions.new.channels ≡ predictions.old.channels }
{
    let mut gradient = [0; 128];
    for c in 0..members.count {
        let channel = members.first + c;
        add_channel(
            &mut gradient,
            predictions,
            channels,
            channel,
            filter,
            weights,
        );
    }
    gradient
}

// Adds how the samples of one channel agree with those before them.
fn add_channel(
    gradient: &mut [i64; 128],
    predictions: &mut Predictions,
    channels: Channels,
    channel: usize,
    filter: &FilterTable,
    weights: &[u8; 128],
)
    requires channels { predictions.old.channels ≡ channels }
    requires channel { channel < channels.channels }
    requires gradient { (j : ℕ) → nat_abs (get_or gradient.old j (pos 0)) ≤ 2 ^ 40 }
    ensures gradient { (j : ℕ) → j < 128 → get_or gradient.new j (pos 0) ≡ get_or gradient.old j (pos 0)
        +ℤ weighted_agreement channels predictions.old.sound
        (λ c t. get_or weights.now (code_at channels predictions.old.sound c filter.now t) 0) (length filter.now) channel j }
    ensures most { (j : ℕ) → nat_abs (get_or gradient.new j (pos 0)) ≤ nat_abs (get_or gradient.old j (pos 0)) + 150528 * 255 }
    ensures sound { predictions.new.sound ≡ predictions.old.sound }
    ensures channels { predictions.new.channels ≡ predictions.old.channels }
{
    let row = predictions.row(channel, filter);
    let codes = predictions.codes(row);
    let first = filter.coefs().len();
    add_gradient(
        gradient,
        codes,
        weights,
        predictions.sound(),
        channels,
        channel,
        first,
    );
}

/// The counts of the codes of channels with a filter.
pub(crate) fn count_members(
    predictions: &mut Predictions,
    channels: Channels,
    members: Members,
    filter: &FilterTable,
) -> [u32; 128]
    requires channels { predictions.old.channels ≡ channels }
    requires within { members.first + members.count ≤ channels.channels }
    ensures counts { (q : ℕ) → q < 128 → get_or result q 0 ≡ count_from (length filter.now) channels
        (λ c t. code_at channels predictions.old.sound c filter.now t == q) (range_with_len members.first members.count) }
    ensures most { (q : ℕ) → get_or result q 0 ≤ 6 * 150528 }
    ensures sound { predictions.new.sound ≡ predictions.old.sound }
    ensures channels { predictions.new.channels ≡ predictions.old.channels }
    ensures shape { IsShape channels }
{
    let _all = channels.count();
    let mut counts = [0; 128];
    for c in 0..members.count {
        count_row(&mut counts, predictions, members.first + c, filter);
    }
    counts
}

/// The short table of counts.
pub(crate) fn short_table(counts: &[u32; 128]) -> ProbTable
    requires { (q : ℕ) → get_or counts.now q 0 < 2 ^ 23 }
    ensures { result ≡ shortened (table_of (λ p. get_or counts.now p 0 + get_or counts.now (p + 64) 0) (λ p. get_or counts.now (p + 64) 0)) }
{
    shorten(&table_from(counts))
}

// What a filter with its short table comes to.
fn size_of(filter: &FilterTable, members: Members, counts: &[u32; 128]) -> u64
    requires members { members.count ≤ 6 }
    requires counts { (q : ℕ) → get_or counts.now q 0 < 2 ^ 23 }
    ensures { result ≡ size filter.now members.count (λ p. get_or counts.now p 0 + get_or counts.now (p + 64) 0) (λ p. get_or counts.now (p + 64) 0)
        (shortened (table_of (λ p. get_or counts.now p 0 + get_or counts.now (p + 64) 0) (λ p. get_or counts.now (p + 64) 0))) }
{
    filter_size(filter, &short_table(counts), members.count, counts)
}
