// The refined parameters of level 3.
ghost use Rattle.std.specs.Prelude.{◌≡◌, ◌<◌, ◌≤◌, [], ◌∷◌, length, map};
ghost use Rattle.dst_spec.specs.Sample.{IsShape, sound_bytes};
ghost use Rattle.level_spec.specs.Refining.{refined_from};
ghost use Rattle.level_spec.specs.Picks.{channels_of, refined_together, refined_alone, refined_shared, refined_own, one_table as one_table_of, refined_own_with_one_table};

use crate::lags::correlate;
use crate::picker::solve_channels;
use crate::picks::{count_row, parameters};
use crate::recursion::keep_rows;
use crate::refining::{Members, Refined, count_members, refine, short_table};
use arrayvec::ArrayVec;
use dst_num::{Channels, FilterTable, Params, ProbTable};
use filter_refiner::fit;
use frame_predictions::Predictions;

/// The refined parameters.
#[derive(Drop)]
pub(crate) struct RefinedPicks {
    /// One filter and one table for all channels.
    pub(crate) shared: Params,
    /// A filter and a table for each channel.
    pub(crate) own: Params,
    /// A filter for each channel, and one table for all.
    pub(crate) own_with_one_table: Params,
}

/// Refines filters for all channels together and for each alone.
pub(crate) fn refined_picks(
    sound: &[u8],
    channels: Channels,
    predictions: &mut Predictions,
) -> RefinedPicks
    requires sound { length sound.now ≡ sound_bytes channels }
    requires begun { predictions.old.sound ≡ sound.now }
    requires channels { predictions.old.channels ≡ channels }
    ensures shared { result.shared ≡ refined_shared channels sound.now }
    ensures own { result.own ≡ refined_own channels sound.now }
    ensures one { result.own_with_one_table ≡ refined_own_with_one_table channels sound.now }
    ensures sound { predictions.new.sound ≡ predictions.old.sound }
    ensures channels { predictions.new.channels ≡ predictions.old.channels }
{
    let together = refine_together(sound, channels, predictions);
    let each = refine_each(sound, channels, predictions, &together.last);
    let shared = shared_picks(channels, predictions, &together.best);
    let own = own_picks(channels, predictions, each.as_slice());
    let own_with_one_table = joint_picks(channels, predictions, each.as_slice());
    RefinedPicks {
        shared,
        own,
        own_with_one_table,
    }
}

// Refines a filter for all channels together.
fn refine_together(sound: &[u8], channels: Channels, predictions: &mut Predictions) -> Refined
    requires sound { length sound.now ≡ sound_bytes channels }
    requires begun { predictions.old.sound ≡ sound.now }
    requires channels { predictions.old.channels ≡ channels }
    ensures best { result.best ≡ (refined_together channels sound.now).best }
    ensures last { result.last ≡ (refined_together channels sound.now).last }
    ensures sound { predictions.new.sound ≡ predictions.old.sound }
    ensures channels { predictions.new.channels ≡ predictions.old.channels }
{
    let mut solved = [[[0; 128]; 4]; 6];
    let mut lags = [0; 129];
    solve_channels(sound, channels, &mut solved, &mut lags);
    let rows = keep_rows(&lags);
    let first = fit(&rows.0, &rows.1);
    let all = Members {
        first: 0,
        count: channels.count(),
    };
    refine(predictions, channels, all, lags[0], &rows.0, &first, 10)
}

// Refines a filter for each channel alone.
fn refine_each(
    sound: &[u8],
    channels: Channels,
    predictions: &mut Predictions,
    first: &FilterTable,
) -> ArrayVec<FilterTable, 6>
    requires sound { length sound.now ≡ sound_bytes channels }
    requires begun { predictions.old.sound ≡ sound.now }
    requires channels { predictions.old.channels ≡ channels }
    ensures filters { result.items ≡ map (λ c. (refined_from channels sound.now (c ∷ []) 6 first.now).best) (channels_of channels) }
    ensures sound { predictions.new.sound ≡ predictions.old.sound }
    ensures channels { predictions.new.channels ≡ predictions.old.channels }
{
    let mut own = ArrayVec::new();
    for c in 0..channels.count() {
        own.push(refine_alone(sound, channels, predictions, c, first));
    }
    own
}

// Refines a filter for a channel alone.
fn refine_alone(
    sound: &[u8],
    channels: Channels,
    predictions: &mut Predictions,
    c: usize,
    first: &FilterTable,
) -> FilterTable
    requires sound { length sound.now ≡ sound_bytes channels }
    requires begun { predictions.old.sound ≡ sound.now }
    requires channels { predictions.old.channels ≡ channels }
    requires shape { IsShape channels }
    requires channel { c < channels.channels }
    ensures filter { result ≡ (refined_from channels sound.now (c ∷ []) 6 first.now).best }
    ensures sound { predictions.new.sound ≡ predictions.old.sound }
    ensures channels { predictions.new.channels ≡ predictions.old.channels }
{
    let mut lags = [0; 129];
    correlate(sound, channels, c, &mut lags);
    let rows = keep_rows(&lags);
    let alone = Members { first: c, count: 1 };
    refine(predictions, channels, alone, lags[0], &rows.0, first, 6).best
}

// One filter and one table for all channels.
fn shared_picks(channels: Channels, predictions: &mut Predictions, filter: &FilterTable) -> Params
    requires channels { predictions.old.channels ≡ channels }
    requires filter { filter.now ≡ (refined_together channels predictions.old.sound).best }
    ensures params { result ≡ refined_shared channels predictions.old.sound }
    ensures sound { predictions.new.sound ≡ predictions.old.sound }
    ensures channels { predictions.new.channels ≡ predictions.old.channels }
{
    let all = Members {
        first: 0,
        count: channels.count(),
    };
    let mut probs = ArrayVec::new();
    probs.push(short_table(&count_members(predictions, channels, all, filter)));
    let mut filters = ArrayVec::new();
    filters.push(filter.copy());
    parameters(&[0; 6], &[0; 6], channels, filters, probs)
}

// A filter and a table for each channel.
fn own_picks(channels: Channels, predictions: &mut Predictions, own: &[FilterTable]) -> Params
    requires channels { predictions.old.channels ≡ channels }
    requires own { own.now ≡ map (refined_alone channels predictions.old.sound) (channels_of channels) }
    ensures params { result ≡ refined_own channels predictions.old.sound }
    ensures sound { predictions.new.sound ≡ predictions.old.sound }
    ensures channels { predictions.new.channels ≡ predictions.old.channels }
{
    let mut probs = ArrayVec::new();
    for c in 0..channels.count() {
        let alone = Members { first: c, count: 1 };
        probs.push(short_table(&count_members(predictions, channels, alone, &own[c])));
    }
    parameters(
        &[0, 1, 2, 3, 4, 5],
        &[0, 1, 2, 3, 4, 5],
        channels,
        copies(own),
        probs,
    )
}

// A filter for each channel, and one table for all.
fn joint_picks(channels: Channels, predictions: &mut Predictions, own: &[FilterTable]) -> Params
    requires channels { predictions.old.channels ≡ channels }
    requires own { own.now ≡ map (refined_alone channels predictions.old.sound) (channels_of channels) }
    ensures params { result ≡ refined_own_with_one_table channels predictions.old.sound }
    ensures sound { predictions.new.sound ≡ predictions.old.sound }
    ensures channels { predictions.new.channels ≡ predictions.old.channels }
{
    let mut probs = ArrayVec::new();
    probs.push(one_table(channels, predictions, own));
    parameters(&[0, 1, 2, 3, 4, 5], &[0; 6], channels, copies(own), probs)
}

// The short table of all channels, each with a filter of its own.
fn one_table(channels: Channels, predictions: &mut Predictions, own: &[FilterTable]) -> ProbTable
    requires channels { predictions.old.channels ≡ channels }
    requires own { own.now ≡ map (refined_alone channels predictions.old.sound) (channels_of channels) }
    ensures table { result ≡ one_table_of channels predictions.old.sound (refined_alone channels predictions.old.sound) }
    ensures sound { predictions.new.sound ≡ predictions.old.sound }
    ensures channels { predictions.new.channels ≡ predictions.old.channels }
    ensures shape { IsShape channels }
{
    let mut counts = [0; 128];
    for c in 0..channels.count() {
        count_row(&mut counts, predictions, c, &own[c]);
    }
    short_table(&counts)
}

// The same filters once more.
fn copies(filters: &[FilterTable]) -> ArrayVec<FilterTable, 6>
    requires { length filters.now ≤ 6 }
    ensures { result.items ≡ filters.now }
{
    let mut copies = ArrayVec::new();
    for filter in filters {
        copies.push(filter.copy());
    }
    copies
}
