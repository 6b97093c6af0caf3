// A row of codes.
ghost use Rattle.std.specs.Prelude.{◌≡◌, ◌≢◌, ℕ, ◌+◌, ◌*◌, ◌<◌, ◌≤◌, max, true, false, length, get_or};
ghost use Rattle.dst_spec.specs.Sample.{samples, sound_bytes};
ghost use Rattle.frame_predictions.specs.Codes.{codes as codes_of};
ghost use Rattle.frame_predictions.specs.Rows.{predicted, AreFilled};

use crate::fill::fill;
use byte_predictor::KnownFilter;
use dst_num::{Channels, FilterTable};

/// The codes of a channel's samples with a filter.
#[derive(Drop)]
pub(crate) struct Row {
    pub(crate) channel: usize,
    pub(crate) filter: FilterTable,
    pub(crate) codes: Vec<u8>,
}

// The first place of a channel's row with a filter among the first so many rows, and that number where it isn't there.
fn find(rows: &[Row], filled: usize, channel: usize, filter: &FilterTable) -> usize
    requires { filled ≤ length rows.now }
    ensures most { result ≤ filled }
    ensures channel { (other : Row) → result < filled → (get_or rows.now result other).channel ≡ channel }
    ensures filter { (other : Row) → result < filled → (get_or rows.now result other).filter ≡ filter.now }
    ensures first { (k : ℕ) (other : Row) → k < result → predicted (get_or rows.now k other) ≡ record { channel = channel; filter = filter.now } → ⊥ }
{
    for place in 0..filled {
        if is_of(&rows[place], channel, filter) {
            return place;
        }
    }
    filled
}

// Whether a row is that of a channel with a filter.
fn is_of(row: &Row, channel: usize, filter: &FilterTable) -> bool
    ensures channel { result ≡ true → row.now.channel ≡ channel }
    ensures filter { result ≡ true → row.now.filter ≡ filter.now }
    ensures another { result ≡ false → predicted row.now ≡ record { channel = channel; filter = filter.now } → ⊥ }
{
    row.channel == channel && row.filter.coefs() == filter.coefs()
}

/// The place of a channel's row with a filter. It is made where it isn't there, behind the filled ones, or in place of the last
/// one where all are filled.
pub(crate) fn provide(
    rows: &mut [Row],
    known: &mut KnownFilter,
    sound: &[u8],
    channels: Channels,
    filled: usize,
    channel: usize,
    filter: &FilterTable,
) -> usize
    requires some { 0 < length rows.old }
    requires channel { channel < channels.channels }
    requires sound { length sound.now ≡ sound_bytes channels }
    requires filled { AreFilled channels sound.now rows.old filled }
    ensures inside { result < length rows.new }
    ensures next { result ≤ filled }
    ensures first { (k : ℕ) (other : Row) → k < result → predicted (get_or rows.old k other) ≡ record { channel = channel; filter = filter.now } → ⊥ }
    ensures behind { (k : ℕ) → k < length rows.old → k ≤ filled → result < k → rows.new ≡ rows.old }
    ensures others { (k : ℕ) (other : Row) → k ≢ result → get_or rows.new k other ≡ get_or rows.old k other }
    ensures long { length rows.new ≡ length rows.old }
    ensures is { (other : Row) → predicted (get_or rows.new result other) ≡ record { channel = channel; filter = filter.now } }
    ensures filled { AreFilled channels sound.now rows.new (max filled (result + 1)) }
{
    let place = find(rows, filled, channel, filter);
    if place < filled {
        return place;
    }
    let place = place.min(rows.len() - 1);
    known.build(filter);
    make(&mut rows[place], known, sound, channels, channel, filter);
    place
}

// Makes a row that of a channel with a filter, which the known one is.
fn make(
    row: &mut Row,
    known: &KnownFilter,
    sound: &[u8],
    channels: Channels,
    channel: usize,
    filter: &FilterTable,
)
    requires known { known.now ≡ filter.now }
    requires channel { channel < channels.channels }
    requires sound { length sound.now ≡ sound_bytes channels }
    requires long { length row.old.codes.items ≡ samples channels }
    ensures channel { row.new.channel ≡ channel }
    ensures filter { row.new.filter ≡ filter.now }
    ensures codes { row.new.codes.items ≡ codes_of channels sound.now channel filter.now }
{
    row.channel = channel;
    row.filter = filter.copy();
    let octets = 4704 * channels.multiple();
    let count = channels.count();
    fill(
        row.codes.as_mut_slice(),
        known,
        sound,
        count,
        channel,
        octets,
    );
}
