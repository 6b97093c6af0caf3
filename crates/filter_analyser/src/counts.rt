// From a filter's predictions to a table of probabilities.
ghost use Rattle.std.specs.Prelude.{◌≡◌, ℕ, ◌+◌, ◌^◌, ◌<◌, ◌≤◌, ◌==◌, length, get_or, All};
ghost use Rattle.std.specs.List.{count_by};
ghost use Rattle.dst_spec.specs.Sample.{samples, sound_bytes};
ghost use Rattle.level_spec.specs.Counts.{count_from, entry as entry_of, table_of, counted};
ghost use Rattle.frame_predictions.specs.Codes.{code_at};

use byte_predictor::KnownFilter;
use dst_num::{Channels, FilterTable, ProbTable};
use frame_predictions::write_codes;

/// Samples of a channel at the highest rate.
const SAMPLES: usize = 150_528;

/// The probabilities of a filter's guesses over channels: by the place of a prediction the part that was guessed wrong. Of each
/// channel the first samples, as many as the filter is long, aren't counted.
pub fn count_table(
    sound: &[u8],
    channels: Channels,
    members: &[usize],
    filter: &FilterTable,
) -> ProbTable
    requires sound { length sound.now ≡ sound_bytes channels }
    requires members { All (λ c. c < channels.channels) members.now }
    requires few { length members.now ≤ 6 }
    ensures { result ≡ counted channels sound.now members.now filter.now }
{
    let mut known = KnownFilter::new();
    known.build(filter);
    let mut codes = [0u8; SAMPLES];
    let row = &mut codes[..37_632 * channels.multiple()];
    let counts = count_channels(row, &known, sound, channels, members, filter.coefs().len());
    table_from(&counts)
}

// Counts the codes of channels, of each those from a sample on. The row has room for the codes of a channel.
fn count_channels(
    row: &mut [u8],
    known: &KnownFilter,
    sound: &[u8],
    channels: Channels,
    members: &[usize],
    first: usize,
) -> [u32; 128]
    requires filter { length known.now ≤ 128 }
    requires row { length row.old ≡ samples channels }
    requires short { length row.old ≤ 150528 }
    requires sound { length sound.now ≡ sound_bytes channels }
    requires members { All (λ c. c < channels.channels) members.now }
    requires few { length members.now ≤ 6 }
    requires first { first ≤ length row.old }
    ensures long { length result ≡ 128 }
    ensures counts { (q : ℕ) → q < 128 → get_or result q 0
        ≡ count_from first channels (λ c t. code_at channels sound.now c known.now t == q) members.now }
    ensures most { (q : ℕ) → get_or result q 0 < 2 ^ 23 }
{
    let mut counts = [0; 128];
    for member in members {
        write_codes(row, known, sound, channels, *member);
        count_codes(&mut counts, &row[first..]);
    }
    counts
}

/// Counts codes.
pub(crate) fn count_codes(counts: &mut [u32; 128], codes: &[u8])
    requires small { All (λ code. code < 128) codes.now }
    requires room { (q : ℕ) → q < 128 → get_or counts.old q 0 + length codes.now < 2 ^ 32 }
    ensures long { length counts.new ≡ 128 }
    ensures counts { (q : ℕ) → q < 128 → get_or counts.new q 0 ≡ get_or counts.old q 0 + count_by (λ code. code == q) codes.now }
{
    for code in codes {
        counts[usize::from(*code)] += 1;
    }
}

/// The table of counts by code: below 64 a code is a place, from 64 on a place whose sample was guessed wrong.
pub(crate) fn table_from(counts: &[u32; 128]) -> ProbTable
    requires { (q : ℕ) → get_or counts.now q 0 < 2 ^ 23 }
    ensures { result ≡ table_of (λ p. get_or counts.now p 0 + get_or counts.now (p + 64) 0) (λ p. get_or counts.now (p + 64) 0) }
{
    let mut entries = [0; 64];
    let mut length = 0;
    for place in 0..64usize {
        let wrong = counts[place + 64];
        let total = counts[place] + wrong;
        if total > 0 {
            length = place + 1;
        }
        let part = entry(total, wrong);
        entries[place] = part;
    }
    match ProbTable::new(&entries[..length.max(2)]) {
        Some(table) => table,
        None => unreachable!(),
    }
}

// The part of the guesses at a place that were wrong, in 256ths.
fn entry(total: u32, wrong: u32) -> u8
    requires total { total < 2 ^ 24 }
    requires wrong { wrong < 2 ^ 23 }
    ensures { result ≡ entry_of total wrong }
{
    if total == 0 {
        return 128;
    }
    ((256 * wrong + total / 2) / total).max(1).min(128) as u8
}
