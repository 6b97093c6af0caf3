// The tables that the samples of a channel are decoded by.
ghost use Rattle.std.specs.Prelude.{◌≡◌, ◌+◌, ◌*◌, ◌^◌, ◌<◌, ◌&&◌, nat_lt, false, length, get_or};
ghost use Rattle.dst_spec.specs.Guess.{filter_of, probs_of};
ghost use Rattle.byte_predictor.specs.Upward.{size_sum};
ghost use Rattle.dst_frames.specs.Tables.{IsBuilt};

use crate::entry_table::EntryTable;
use crate::fill::fill_table;
use byte_predictor::RowFilter;
use channel_params::{channel_filter, channel_half_prob, channel_probs};
use dst_num::{FilterTable, Params, Prob, ProbTable};

/// The filter of a channel, and for each sum that it can give the entry of its probability and its guess.
#[derive(Drop)]
pub(crate) struct ChannelTables {
    pub(crate) filter: RowFilter,
    pub(crate) entries: EntryTable,
    /// How many samples at the beginning have the probability 128.
    pub(crate) early: usize,
}

impl ChannelTables {
    /// Of no filter yet, and without early samples.
    pub(crate) fn new() -> ChannelTables
        ensures early { result.early ≡ 0 }
        ensures narrow { size_sum result.filter < 32768 }
    {
        let filter = RowFilter::new();
        ChannelTables {
            filter,
            entries: EntryTable::new(),
            early: 0,
        }
    }

    /// The tables of channel `c` of a frame with these parameters.
    pub(crate) fn build(&mut self, params: &Params, c: usize)
        requires { c < length params.now.half_prob }
        ensures { IsBuilt (filter_of params.now c) (probs_of params.now c) (get_or params.now.half_prob c false) self.new }
    {
        self.take(
            channel_filter(params, c),
            channel_probs(params, c),
            channel_half_prob(params, c),
        );
    }

    /// Of no filter again, where that gives the greatest of all sums.
    pub(crate) fn keep_narrow(&mut self)
        ensures { size_sum self.new.filter < 32768 }
    {
        if self.filter.size() > 32767 {
            let none = RowFilter::new();
            self.filter = none;
        }
    }

    fn take(&mut self, filter: &FilterTable, probs: &ProbTable, half_prob: bool)
        ensures { IsBuilt filter.now probs.now half_prob self.new }
    {
        let length = filter.coefs().len();
        self.filter.build(filter);
        fill_table(&mut self.entries, &self.filter, probs.entries());
        self.early = if half_prob { length } else { 0 };
    }

    /// Whether the sample of this place in this byte has the probability 128. Only the bytes at the start have such ones.
    #[inline(always)]
    pub(crate) fn is_early(&self, byte: usize, place: usize, start: bool) -> bool
        requires { 8 * byte + place < 2 ^ 64 }
        ensures { result ≡ (start && nat_lt (8 * byte + place) self.now.early) }
    {
        start && 8 * byte + place < self.early
    }
}

/// The probability in the low seven bits of an entry.
#[inline(always)]
pub(crate) fn prob_above(low: u8) -> Prob
    requires { low < 128 }
    ensures { result ≡ low + 1 }
{
    match Prob::new(u32::from(low) + 1) {
        Some(prob) => prob,
        None => unreachable!(),
    }
}
