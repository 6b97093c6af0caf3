// A table of entries, filled.
ghost use Rattle.std.specs.Prelude.{◌≡◌, ℕ, ◌*◌, ◌<◌, ◌≤◌, pos, ◌-ℤ◌, List, map, length};
ghost use Rattle.dst_spec.specs.Table.{prob_kind, IsTable};
ghost use Rattle.byte_predictor.specs.Samples.{signed_sum};
ghost use Rattle.byte_predictor.specs.Upward.{upward_sum, size_sum};
ghost use Rattle.dst_frames.specs.Entries.{entry_for};
ghost use Rattle.dst_frames.specs.Tables.{prob_at, IsEntry};

use crate::entry_table::EntryTable;
use byte_predictor::RowFilter;

/// The entry of each sum of a filter, by a probability table.
pub(crate) fn fill_table(table: &mut EntryTable, filter: &RowFilter, probs: &[u8])
    requires { IsTable prob_kind (map pos probs.now) }
    ensures { (samples : List ℕ) → 128 ≤ length samples
        → IsEntry (signed_sum filter.now samples) probs.now (entry_for table.new (upward_sum filter.now samples)) }
{
    fill_entries(&mut table.entries, filter, probs);
}

// Few sums have a prediction within the places of a probability table; those on each side of them have one entry.
fn fill_entries(entries: &mut [u8; 32768], filter: &RowFilter, probs: &[u8])
    requires { IsTable prob_kind (map pos probs.now) }
    ensures { (samples : List ℕ) → 128 ≤ length samples
        → IsEntry (signed_sum filter.now samples) probs.now (entry_for entries.new (upward_sum filter.now samples)) }
{
    let size = filter.size();
    let end = (size + 1).min(32768);
    let first = size.saturating_sub(512) / 2;
    let last = (size / 2 + 256).min(end);
    let least = entry_at(filter, probs, 0);
    let greatest = entry_at(filter, probs, end - 1);
    for below in 0..first {
        entries[below as usize] = least;
    }
    for upward in first..last {
        let own = entry_at(filter, probs, upward);
        entries[upward as usize] = own;
    }
    for above in last..end {
        entries[above as usize] = greatest;
    }
}

fn entry_at(filter: &RowFilter, probs: &[u8], upward: u32) -> u8
    requires table { IsTable prob_kind (map pos probs.now) }
    requires sum { upward < 32768 }
    ensures { IsEntry (pos (2 * upward) -ℤ pos (size_sum filter.now)) probs.now result }
{
    entry_of(filter.prediction(upward as u16), probs)
}

// The entry of a prediction: the probability less 1, and whether it is 0 or greater.
fn entry_of(prediction: i32, probs: &[u8]) -> u8
    requires { IsTable prob_kind (map pos probs.now) }
    ensures { IsEntry prediction probs.now result }
{
    let low = prob_of(prediction, probs) - 1;
    if prediction < 0 { low } else { low + 128 }
}

fn prob_of(prediction: i32, probs: &[u8]) -> u8
    requires { IsTable prob_kind (map pos probs.now) }
    ensures value { result ≡ prob_at probs.now prediction }
    ensures least { 1 ≤ result }
    ensures most { result ≤ 128 }
{
    let place = (prediction.unsigned_abs() / 8) as usize;
    probs[place.min(probs.len() - 1)]
}
