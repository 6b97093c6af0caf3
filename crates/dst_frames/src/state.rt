// What changes of a channel from sample to sample.
ghost use Rattle.std.specs.Prelude.{ℕ, ◌<◌, ℤ, Bool, true, false, List, ◌∷◌, replicate, IfSome};
ghost use Rattle.dst_spec.specs.Header.{bit_of};
ghost use Rattle.byte_predictor.specs.Samples.{samples_of, signed_sum};
ghost use Rattle.dst_frames.specs.Tables.{IsBuilt, IsEntry};
ghost use Rattle.dst_frames.specs.Ready.{IsReady};

use crate::tables::ChannelTables;
use byte_predictor::Ahead;

/// A channel between two samples.
#[derive(Drop)]
pub(crate) struct ChannelState {
    pub(crate) ahead: Ahead,
    /// The entry of the next sample.
    pub(crate) next: u8,
}

impl ChannelState {
    /// Before the first sample of a frame.
    pub(crate) fn fresh(tables: &ChannelTables) -> ChannelState
        ensures { (filter : List ℤ) (probs : List ℕ) (half_prob : Bool) → IsBuilt filter probs half_prob tables.now
            → IsReady filter probs 0 (samples_of (replicate 16 0xaa)) result }
    {
        let ahead = Ahead::fresh(&tables.filter);
        let upward = ahead.upward(&tables.filter, 0);
        ChannelState {
            next: tables.entries.entry(upward),
            ahead,
        }
    }

    /// The entry of the sample behind the next one, which may still be unknown.
    #[inline(always)]
    pub(crate) fn entry_behind(&self, tables: &ChannelTables, place: usize, sample: bool) -> u8
        requires { place < 8 }
        ensures { (filter : List ℤ) (probs samples : List ℕ) (half_prob : Bool) → IsBuilt filter probs half_prob tables.now
            → IsReady filter probs place samples self.now → IsEntry (signed_sum filter (bit_of sample ∷ samples)) probs result }
    {
        let behind = self.ahead.upward_after(&tables.filter, place, sample);
        tables.entries.entry(behind)
    }

    /// Both these entries, where the channel is alone: it needs the next one at once. Among others it doesn't, since their samples
    /// come in between, and one look-up of the value that is known is enough.
    #[inline(always)]
    pub(crate) fn look_ahead(
        &self,
        tables: &ChannelTables,
        place: usize,
        alone: bool,
    ) -> Option<(u8, u8)>
        requires { place < 8 }
        ensures { IfSome result (λ both. (filter : List ℤ) (probs samples : List ℕ) (half_prob : Bool) → IsBuilt filter probs half_prob tables.now
            → IsReady filter probs place samples self.now
            → IsEntry (signed_sum filter (bit_of false ∷ samples)) probs both.0 × IsEntry (signed_sum filter (bit_of true ∷ samples)) probs both.1) }
    {
        if !alone {
            return None;
        }
        let next_0 = self.entry_behind(tables, place, false);
        let next_1 = self.entry_behind(tables, place, true);
        Some((next_0, next_1))
    }
}
