// The tables of a channel, and the channels that have the same.
ghost use Rattle.std.specs.Prelude.{◌≡◌, ◌<◌, ◌≤◌, ℕ, true, false, length, get_or};
ghost use Rattle.dst_spec.specs.Guess.{filter_of, probs_of};
ghost use Rattle.channel_params.specs.Alike.{AreAlike};

use dst_num::{FilterTable, Params, ProbTable};

/// The filter of channel `c`.
pub fn channel_filter(params: &Params, c: usize) -> &FilterTable
    requires { c < length params.now.half_prob }
    ensures { result.now ≡ filter_of params.now c }
{
    let number = params.filter_map.elements()[c];
    let filters = params.filters.as_slice();
    &filters[number as usize]
}

/// The probability table of channel `c`.
pub fn channel_probs(params: &Params, c: usize) -> &ProbTable
    requires { c < length params.now.half_prob }
    ensures { result.now ≡ probs_of params.now c }
{
    let number = params.prob_map.elements()[c];
    let probs = params.probs.as_slice();
    &probs[number as usize]
}

/// Whether the first samples of channel `c`, as many as its filter is long, have the probability 128.
pub fn channel_half_prob(params: &Params, c: usize) -> bool
    requires { c < length params.now.half_prob }
    ensures { result ≡ get_or params.now.half_prob c false }
{
    params.half_prob.as_slice()[c]
}

/// The first channel that has the filter, the probability table and the half bit of channel `c`: `c` itself where none before it has.
pub fn alike_channel(params: &Params, c: usize) -> usize
    requires { c < length params.now.half_prob }
    ensures before { result ≤ c }
    ensures alike { AreAlike params.now result c }
    ensures first { (d : ℕ) → d < result → AreAlike params.now d c → ⊥ }
{
    for d in 0..c {
        if are_alike(params, d, c) {
            return d;
        }
    }
    c
}

// Whether two channels have the same filter, the same probability table and the same half bit.
fn are_alike(params: &Params, d: usize, c: usize) -> bool
    requires first { d < length params.now.half_prob }
    requires second { c < length params.now.half_prob }
    ensures alike { result ≡ true → AreAlike params.now d c }
    ensures other { result ≡ false → AreAlike params.now d c → ⊥ }
{
    let filters = params.filter_map.elements();
    let probs = params.prob_map.elements();
    let half = params.half_prob.as_slice();
    filters[d] == filters[c] && probs[d] == probs[c] && half[d] == half[c]
}
