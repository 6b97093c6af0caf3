// How far a channel's samples agree with those some places before.
ghost use Rattle.std.specs.Prelude.{◌≡◌, ℕ, ◌*◌, ◌<◌, ◌≤◌, pos, List, [], ◌∷◌, length, get_or};
ghost use Rattle.dst_spec.specs.Sample.{Shape, IsShape, sound_bytes};
ghost use Rattle.level_spec.specs.Correlation.{correlation, correlations};
ghost use Rattle.filter_analyser.specs.Stretches.{HasSamples};

use crate::stretches::{compare, pack};
use dst_num::Channels;

/// The stretches of a channel at the highest rate.
const STRETCHES: usize = 2352;

/// The correlations of a channel of a frame's sound at the lags 0 to 128: the number of pairs of samples so many places apart
/// that agree, less that of those that differ.
pub fn correlate(sound: &[u8], channels: Channels, channel: usize, lags: &mut [i64; 129])
    requires sound { length sound.now ≡ sound_bytes channels }
    requires channel { channel < channels.channels }
    ensures { lags.new ≡ correlations channels sound.now (channel ∷ []) }
{
    correlate_first(sound, channels, channel, 16, lags);
}

/// The same at the lags from 0 to eight times the number of turns. What stands behind them stays.
pub(crate) fn correlate_first(
    sound: &[u8],
    channels: Channels,
    channel: usize,
    turns: usize,
    lags: &mut [i64; 129],
)
    requires sound { length sound.now ≡ sound_bytes channels }
    requires channel { channel < channels.channels }
    requires turns { turns ≤ 16 }
    ensures long { length lags.new ≡ 129 }
    ensures lags { (k : ℕ) → k ≤ 8 * turns → get_or lags.new k (pos 0) ≡ correlation channels sound.now channel k }
    ensures behind { (k : ℕ) → 8 * turns < k → get_or lags.new k (pos 0) ≡ get_or lags.old k (pos 0) }
    ensures shape { IsShape channels }
{
    let count = 588 * channels.multiple();
    let mut stretches = [0u64; STRETCHES];
    pack(&mut stretches[..count], sound, channels.count(), channel);
    let mut behind = stretches;
    correlate_stretches(&stretches[..count], &mut behind[..count], turns, lags);
}

// The correlations of the samples of stretches, at eight more lags in each turn.
fn correlate_stretches(stretches: &[u64], behind: &mut [u64], turns: usize, lags: &mut [i64; 129])
    requires same { behind.old ≡ stretches.now }
    requires least { 2 ≤ length stretches.now }
    requires most { length stretches.now ≤ 2352 }
    requires turns { turns ≤ 16 }
    ensures long { length lags.new ≡ 129 }
    ensures lags { (f : Shape) (sound : List ℕ) (c : ℕ) → HasSamples f sound c stretches.now → (k : ℕ) → k ≤ 8 * turns
        → get_or lags.new k (pos 0) ≡ correlation f sound c k }
    ensures behind { (k : ℕ) → 8 * turns < k → get_or lags.new k (pos 0) ≡ get_or lags.old k (pos 0) }
{
    let samples = 64 * stretches.len();
    lags[0] = samples as i64;
    let mut early = 0;
    for turn in 0..turns {
        let counts = compare(stretches, behind);
        for place in 0..8usize {
            let last = 8 * turn + place;
            early += (stretches[last / 64] >> (63 - last % 64) & 1) as u32;
            let agreeing = (samples - last - 1) as i64;
            lags[last + 1] = agreeing - 2 * i64::from(counts[place] - early);
        }
    }
}
