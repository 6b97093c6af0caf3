// The entries of the sums that a filter can give.
ghost use Rattle.std.specs.Prelude.{◌≡◌, ◌<◌};
ghost use Rattle.dst_frames.specs.Entries.{entry_for};

use std::marker::Model;

/// An entry for each sum that a filter can give: the probability less 1 in its low seven bits, and above them the guess. The greatest
/// sum of all, 32,768, has the entry of the one before it: both predictions are beyond all places of a probability table.
#[derive(Drop)]
pub(crate) struct EntryTable {
    pub(crate) entries: [u8; 32768],
}

impl Model for EntryTable {
    ghost use Rattle.std.specs.Prelude.{List, ℕ};

    ghost Value = { List ℕ };

    ghost view = { λ t. t.entries };
}

impl EntryTable {
    /// Of no filter yet.
    pub(crate) fn new() -> EntryTable {
        EntryTable {
            entries: [0; 32768],
        }
    }

    /// The entry of a sum.
    #[inline(always)]
    pub(crate) fn entry(&self, upward: u16) -> u8
        ensures { result ≡ entry_for self.now upward }
    {
        self.entries[upward.min(32767) as usize]
    }

    /// The entry of a sum that is not the greatest of all.
    #[inline(always)]
    pub(crate) fn narrow_entry(&self, upward: u16) -> u8
        ensures { upward < 32768 → result ≡ entry_for self.now upward }
    {
        self.entries[(upward % 32768) as usize]
    }
}
