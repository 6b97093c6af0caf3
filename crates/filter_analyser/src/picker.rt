// The picker of a level.
ghost use Rattle.std.specs.Prelude.{◌≡◌, ℕ, ◌+◌, ◌^◌, ◌<◌, ◌≤◌, pos, ◌+ℤ◌, nat_abs, [], ◌∷◌, length, map, get_or, IfNone, IfSome};
ghost use Rattle.dst_spec.specs.Sample.{IsShape, sound_bytes};
ghost use Rattle.level_spec.specs.Correlation.{correlations};
ghost use Rattle.level_spec.specs.Recursion.{solution};
ghost use Rattle.level_spec.specs.Laws.{AreCorrelations};
ghost use Rattle.level_spec.specs.Picks.{channels_of, orders, level_picks};
ghost use Rattle.filter_analyser.specs.Run.{padded};

use crate::lags::{correlate, correlate_first};
use crate::picks::{per_channel, shared};
use crate::recursion::{solve_all, solve_filter};
use crate::refined::refined_picks;
use dst_num::Channels;
use frame_predictions::Predictions;
use frame_store::{Candidates, Picker};
use std::marker::Model;

/// The orders of the filters of level 2.
const ORDERS: [usize; 4] = [16, 32, 64, 128];

/// Picks the parameters of a level: none at level 0, filters of order 32 for each channel at level 1, filters of the orders 16, 32,
/// 64 and 128, for each channel and then shared, at level 2, and those and then refined filters, shared and then for each channel
/// with one table each and with one for all, at level 3.
#[derive(Drop)]
pub struct LevelPicker {
    level: u32,
}

impl Model for LevelPicker {
    ghost use Rattle.std.specs.Prelude.{ℕ, ◌≤◌};

    ghost Value = { ℕ };

    ghost view = { λ p. p.level };

    ghost invariant = { λ p. p.level ≤ 3 };

    ghost inverse = { λ n. record { level = n } };
}

impl LevelPicker {
    /// There is none unless the level is 0, 1, 2 or 3.
    pub fn new(level: u32) -> Option<LevelPicker>
        ensures none { IfNone result (3 < level) }
        ensures level { IfSome result (λ p. p ≡ level) }
        ensures most { IfSome result (λ p. p ≤ 3) }
    {
        if level > 3 {
            return None;
        }
        Some(LevelPicker { level })
    }
}

impl Picker for LevelPicker {
    ghost use Rattle.level_spec.specs.Picks.{level_picks};

    ghost picks = { level_picks };

    fn pick(
        &self,
        sound: &[u8],
        channels: Channels,
        predictions: &mut Predictions,
        found: &mut Candidates,
    ) {
        level_spec::laws::picks_law();
        found.clear();
        match self.level {
            0 => {}
            1 => pick_one(sound, channels, predictions, found),
            2 => pick_all(sound, channels, predictions, found),
            _ => pick_refined(sound, channels, predictions, found),
        }
    }
}

// The parameters of level 1.
fn pick_one(sound: &[u8], channels: Channels, predictions: &mut Predictions, found: &mut Candidates)
    requires sound { length sound.now ≡ sound_bytes channels }
    requires begun { predictions.old.sound ≡ sound.now }
    requires channels { predictions.old.channels ≡ channels }
    requires empty { found.old.items ≡ [] }
    ensures found { found.new.items ≡ level_picks 1 sound.now channels }
    ensures sound { predictions.new.sound ≡ predictions.old.sound }
    ensures channels { predictions.new.channels ≡ predictions.old.channels }
{
    let mut solved = [[0; 128]; 6];
    for c in 0..channels.count() {
        solved[c] = solve_short(sound, channels, c);
    }
    found.push(per_channel(&solved, 32, channels, predictions));
}

// The values of a channel's filter of order 32, with zeros behind them. They need the correlations up to lag 32 alone.
fn solve_short(sound: &[u8], channels: Channels, channel: usize) -> [i64; 128]
    requires sound { length sound.now ≡ sound_bytes channels }
    requires channel { channel < channels.channels }
    ensures { result ≡ padded (solution (correlations channels sound.now (channel ∷ [])) 32) }
{
    let mut lags = [0; 129];
    correlate_first(sound, channels, channel, 4, &mut lags);
    solve_filter(&lags, 32)
}

// The parameters of level 2.
fn pick_all(sound: &[u8], channels: Channels, predictions: &mut Predictions, found: &mut Candidates)
    requires sound { length sound.now ≡ sound_bytes channels }
    requires begun { predictions.old.sound ≡ sound.now }
    requires channels { predictions.old.channels ≡ channels }
    requires empty { found.old.items ≡ [] }
    ensures found { found.new.items ≡ level_picks 2 sound.now channels }
    ensures sound { predictions.new.sound ≡ predictions.old.sound }
    ensures channels { predictions.new.channels ≡ predictions.old.channels }
{
    let mut solved = [[[0; 128]; 4]; 6];
    let mut joint = [0; 129];
    solve_channels(sound, channels, &mut solved, &mut joint);
    for own in 0..4usize {
        let each = of_order(&solved, own);
        found.push(per_channel(&each, ORDERS[own], channels, predictions));
    }
    let together = solve_all(&joint);
    for place in 0..4usize {
        found.push(shared(&together[place], ORDERS[place], channels, predictions));
    }
}

// The parameters of level 3.
fn pick_refined(
    sound: &[u8],
    channels: Channels,
    predictions: &mut Predictions,
    found: &mut Candidates,
)
    requires sound { length sound.now ≡ sound_bytes channels }
    requires begun { predictions.old.sound ≡ sound.now }
    requires channels { predictions.old.channels ≡ channels }
    requires empty { found.old.items ≡ [] }
    ensures found { found.new.items ≡ level_picks 3 sound.now channels }
    ensures sound { predictions.new.sound ≡ predictions.old.sound }
    ensures channels { predictions.new.channels ≡ predictions.old.channels }
{
    let refined = refined_picks(sound, channels, predictions);
    pick_all(sound, channels, predictions, found);
    found.push(refined.shared);
    found.push(refined.own);
    found.push(refined.own_with_one_table);
}

// Solves each channel's correlations for all orders, and adds them up.
pub(crate) fn solve_channels(
    sound: &[u8],
    channels: Channels,
    solved: &mut [[[i64; 128]; 4]; 6],
    joint: &mut [i64; 129],
)
    requires sound { length sound.now ≡ sound_bytes channels }
    requires zeros { (k : ℕ) → get_or joint.old k (pos 0) ≡ pos 0 }
    ensures solved { (c : ℕ) → c < channels.channels
        → get_or solved.new c [] ≡ map (λ order. padded (solution (correlations channels sound.now (c ∷ [])) order)) orders }
    ensures joint { joint.new ≡ correlations channels sound.now (channels_of channels) }
    ensures lawful { AreCorrelations joint.new }
    ensures shape { IsShape channels }
{
    let mut lags = [0; 129];
    for c in 0..channels.count() {
        correlate(sound, channels, c, &mut lags);
        solved[c] = solve_all(&lags);
        add_lags(joint, &lags);
    }
}

fn add_lags(joint: &mut [i64; 129], lags: &[i64; 129])
    requires joint { (k : ℕ) → nat_abs (get_or joint.old k (pos 0)) ≤ 2 ^ 40 }
    requires lags { (k : ℕ) → nat_abs (get_or lags.now k (pos 0)) ≤ 2 ^ 40 }
    ensures long { length joint.new ≡ 129 }
    ensures sum { (k : ℕ) → k < 129 → get_or joint.new k (pos 0) ≡ get_or joint.old k (pos 0) +ℤ get_or lags.now k (pos 0) }
{
    for lag in 0..129 {
        joint[lag] += lags[lag];
    }
}

// The solutions of one of the orders.
fn of_order(solved: &[[[i64; 128]; 4]; 6], place: usize) -> [[i64; 128]; 6]
    requires { place < 4 }
    ensures { (c : ℕ) → c < 6 → get_or result c [] ≡ get_or (get_or solved.now c []) place [] }
{
    let mut own = [[0; 128]; 6];
    for c in 0..6usize {
        own[c] = solved[c][place];
    }
    own
}
