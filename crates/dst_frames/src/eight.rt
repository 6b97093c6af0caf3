// What the frames of a batch are decoded with: their tables, and one channel of eight frames, sample after sample.
ghost use Rattle.std.specs.Prelude.{◌≡◌, ◌≢◌, ◌<◌, ◌≤◌, ◌+◌, ◌*◌, ◌/◌, ◌%◌, ◌^◌, ℕ, ℤ, Bool, List, ◌&&◌, nat_lt, length, get_or, replicate, if◌then◌else◌};
ghost use Rattle.std.specs.Prelude.{IfOk, vec_len, vec_capacity};
ghost use Rattle.arith_lanes.specs.Chances.{IsChance};
ghost use Rattle.arith_lanes.specs.Lanes.{IsLane, decoding_at, used_at, ahead_at as bits_ahead};
ghost use Rattle.byte_predictor.specs.Samples.{samples_of, signed_sum};
ghost use Rattle.byte_predictor.specs.SumsAhead.{IsAhead};
ghost use Rattle.byte_predictor.specs.Upward.{size_sum};
ghost use Rattle.byte_predictor.specs.Eight.{ahead_at};
ghost use Rattle.dst_frames.specs.Tables.{IsBuilt, IsEntry};
ghost use Rattle.dst_frames.specs.Ready.{IsReady};
ghost use Rattle.dst_frames.specs.Eight.{entry_in, state_in, table_at};
ghost use Rattle.dst_frames.specs.Batch.{IsChanceOf, LaneTakes, LaneSteps, IsLaneFurther};
ghost use Rattle.dst_frames.specs.Running.{AreNarrow, IsFresh, IsGrown, IsPool};

use crate::tables::ChannelTables;
use arith_lanes::{ArithLanes, chance};
use byte_predictor::EightAhead;
use std::alloc::{AllocError, Global};

/// The tables that the frames of a batch are decoded by, in a pool. A channel of a frame takes the next one, or that of a channel
/// before it with the same parameters: often all channels of a frame have one filter.
#[derive(Drop)]
pub(crate) struct EightTables {
    /// At least one. A table is added where a batch takes more of them than any before it.
    pub(crate) tables: Vec<ChannelTables>,
    /// Those of each channel.
    pub(crate) numbers: Vec<TableNumbers>,
    /// How many tables this batch has taken.
    pub(crate) taken: usize,
}

/// For each of eight frames the number of the table that a channel is decoded by.
#[derive(Drop)]
pub(crate) struct TableNumbers {
    pub(crate) of: [usize; 8],
}

impl TableNumbers {
    /// This number for frame `n`.
    pub(crate) fn set(&mut self, n: usize, number: usize)
        requires { n < 8 }
        ensures own { get_or self.new.of n 0 ≡ number }
        ensures others { (m : ℕ) → m ≢ n → get_or self.new.of m 0 ≡ get_or self.old.of m 0 }
    {
        self.of[n] = number;
    }
}

impl EightTables {
    /// One table, and room for one of each channel of eight frames.
    pub(crate) fn new(alloc: Global, channels: usize) -> Result<EightTables, AllocError>
        requires { channels ≤ 6 }
        ensures { IfOk result (λ t. IsPool t channels) }
    {
        let mut tables = Vec::with_capacity(alloc, 8 * channels)?;
        let mut numbers = Vec::with_capacity(alloc, channels)?;
        tables.push(ChannelTables::new())?;
        for _ in 0..channels {
            numbers.push(TableNumbers { of: [0; 8] })?;
        }
        Ok(EightTables {
            tables,
            numbers,
            taken: 0,
        })
    }
}

/// Adds tables of no filter where there are fewer than this.
pub(crate) fn grow_to(tables: &mut Vec<ChannelTables>, count: usize)
    requires { count ≤ vec_capacity tables.old }
    ensures grown { IsGrown tables.old.items tables.new.items count }
    ensures capacity { vec_capacity tables.new ≡ vec_capacity tables.old }
{
    for _ in tables.len()..count {
        add_table(tables);
    }
}

// Apart, so that only its calls need place on the stack for a table.
#[inline(never)]
fn add_table(tables: &mut Vec<ChannelTables>)
    requires { vec_len tables.old < vec_capacity tables.old }
    ensures grown { IsGrown tables.old.items tables.new.items (length tables.old.items + 1) }
    ensures one { length tables.new.items ≡ length tables.old.items + 1 }
    ensures capacity { vec_capacity tables.new ≡ vec_capacity tables.old }
{
    tables.push_reserved(ChannelTables::new());
}

/// Of no filter again, where that gives the greatest of all sums.
pub(crate) fn keep_narrow(tables: &mut [ChannelTables])
    ensures { AreNarrow tables.new }
{
    for k in 0..tables.len() {
        tables[k].keep_narrow();
    }
}

/// The table by which a channel of frame `n` is decoded.
#[inline(always)]
pub(crate) fn table_of<'a>(
    tables: &'a [ChannelTables],
    from: &[usize; 8],
    n: usize,
) -> &'a ChannelTables
    requires frame { n < 8 }
    requires narrow { AreNarrow tables.now }
    requires from { get_or from.now n 0 < length tables.now }
    ensures is { result.now ≡ table_at tables.now from.now n }
    ensures narrow { size_sum result.now.filter < 32768 }
{
    &tables[from[n]]
}

/// One channel of eight frames between two samples.
#[derive(Drop)]
pub(crate) struct EightStates {
    pub(crate) ahead: EightAhead,
    /// The chance of each frame's next sample.
    pub(crate) chances: [u16; 8],
}

impl EightStates {
    /// Of no frames: their chances have the probability 1.
    pub(crate) fn new() -> EightStates
        ensures { IsFresh result }
    {
        let chances = [chance(0); 8];
        EightStates {
            ahead: EightAhead::new(),
            chances,
        }
    }

    /// Before the first sample of frame `n`.
    pub(crate) fn begin(&mut self, n: usize, tables: &ChannelTables)
        requires frame { n < 8 }
        requires narrow { size_sum tables.now.filter < 32768 }
        ensures fresh { (filter : List ℤ) (probs : List ℕ) (half_prob : Bool) → IsBuilt filter probs half_prob tables.now
            → IsReady filter probs 0 (samples_of (replicate 16 0xaa)) (state_in self.new n) }
        ensures chance { IsChanceOf (state_in self.new n).next (get_or self.new.chances n 0) }
        ensures others { (m : ℕ) → m ≢ n → state_in self.new m ≡ state_in self.old m }
        ensures chances { (m : ℕ) → m ≢ n → get_or self.new.chances m 0 ≡ get_or self.old.chances m 0 }
    {
        self.ahead.begin(n, &tables.filter);
        let next = self.chance_at(n, tables, 0);
        self.chances[n] = next;
    }

    // The chance of the sample of frame `n` at a place of a byte.
    #[inline(always)]
    fn chance_at(&self, n: usize, tables: &ChannelTables, place: usize) -> u16
        requires frame { n < 8 }
        requires place { place ≤ 8 }
        requires narrow { size_sum tables.now.filter < 32768 }
        ensures entry { (filter : List ℤ) (probs samples : List ℕ) (half_prob : Bool) → IsBuilt filter probs half_prob tables.now
            → IsAhead filter place samples (ahead_at self.now.ahead n) → IsEntry (signed_sum filter samples) probs (entry_in result) }
        ensures chance { IsChanceOf (entry_in result) result }
    {
        let upward = self.ahead.upward(n, &tables.filter, place);
        chance(tables.entries.narrow_entry(upward))
    }

    // Takes the next sample of each frame, 1 where the low bit of what is given is 1. The chances of the first frames become those
    // of their next samples.
    #[inline(always)]
    fn take(
        &mut self,
        tables: &[ChannelTables],
        from: &[usize; 8],
        count: usize,
        place: usize,
        given: &[u16; 8],
    )
        requires place { place < 8 }
        requires few { count ≤ 8 }
        requires narrow { AreNarrow tables.now }
        requires from { (n : ℕ) → n < 8 → get_or from.now n 0 < length tables.now }
        ensures taken { (n : ℕ) → n < count
            → LaneTakes place (get_or given.now n 0) (table_at tables.now from.now n) (state_in self.old n) (state_in self.new n) (get_or self.new.chances n 0) }
        ensures others { (n : ℕ) → count ≤ n → get_or self.new.chances n 0 ≡ get_or self.old.chances n 0 }
    {
        let own = table_of(tables, from, place);
        self.ahead.push(given, place, &own.filter);
        for n in 0..count {
            let table = table_of(tables, from, n);
            let next = self.chance_at(n, table, place + 1);
            self.chances[n] = next;
        }
    }

    /// Gives out the eight samples of frame `n`, and adds them to its sums ahead.
    #[inline(always)]
    pub(crate) fn finish(&mut self, n: usize, tables: &ChannelTables) -> u8
        requires { n < 8 }
        ensures newest { (filter : List ℤ) (probs samples : List ℕ) (place : ℕ) → IsReady filter probs place samples (state_in self.old n)
            → (k : ℕ) → k < 8 → result / 2 ^ k % 2 ≡ get_or samples k 0 }
        ensures added { (probs samples : List ℕ) → IsReady tables.now.filter probs 8 samples (state_in self.old n)
            → IsReady tables.now.filter probs 0 samples (state_in self.new n) }
        ensures others { (m : ℕ) → m ≢ n → state_in self.new m ≡ state_in self.old m }
        ensures chances { self.new.chances ≡ self.old.chances }
    {
        let newest = self.ahead.newest(n);
        self.ahead.take_byte(n, &tables.filter);
        newest
    }
}

// The chances of the samples before sample `t`, with the probability 128 in those that are early.
#[inline(always)]
fn early_chances(
    tables: &[ChannelTables],
    from: &[usize; 8],
    count: usize,
    t: usize,
    chances: &[u16; 8],
) -> [u16; 8]
    requires few { count ≤ 8 }
    requires narrow { AreNarrow tables.now }
    requires from { (n : ℕ) → n < 8 → get_or from.now n 0 < length tables.now }
    ensures early { (n p : ℕ) → n < count → IsChance p (get_or chances.now n 0)
        → IsChance (if nat_lt t (table_at tables.now from.now n).early then 128 else p) (get_or result n 0) }
    ensures mark { (n : ℕ) → get_or result n 0 / 128 % 2 ≡ get_or chances.now n 0 / 128 % 2 }
    ensures others { (n : ℕ) → count ≤ n → get_or result n 0 ≡ get_or chances.now n 0 }
{
    let mut early = *chances;
    for n in 0..count {
        let own = chances[n];
        early[n] = early_chance(t < table_of(tables, from, n).early, own);
    }
    early
}

// The chance with the probability 128 in place of its own where the sample is early.
#[inline(always)]
fn early_chance(early: bool, own: u16) -> u16
    ensures prob { (p : ℕ) → IsChance p own → IsChance (if early then 128 else p) result }
    ensures mark { result / 128 % 2 ≡ own / 128 % 2 }
{
    if early {
        chance((own % 256 / 128 * 128 + 127) as u8)
    } else {
        own
    }
}

// The chances of the samples before sample `t`. Only at the start there are early ones.
#[inline(always)]
fn chances_at(
    tables: &[ChannelTables],
    from: &[usize; 8],
    count: usize,
    t: usize,
    start: bool,
    chances: &[u16; 8],
) -> [u16; 8]
    requires few { count ≤ 8 }
    requires narrow { AreNarrow tables.now }
    requires from { (n : ℕ) → n < 8 → get_or from.now n 0 < length tables.now }
    ensures prob { (n p : ℕ) → n < count → IsChance p (get_or chances.now n 0)
        → IsChance (if (start && nat_lt t (table_at tables.now from.now n).early) then 128 else p) (get_or result n 0) }
    ensures mark { (n : ℕ) → get_or result n 0 / 128 % 2 ≡ get_or chances.now n 0 / 128 % 2 }
    ensures others { (n : ℕ) → count ≤ n → get_or result n 0 ≡ get_or chances.now n 0 }
{
    if start {
        early_chances(tables, from, count, t, chances)
    } else {
        *chances
    }
}

/// Decodes the next sample of one channel of the first `count` frames, sample `t` of the channel.
#[inline(always)]
pub(crate) fn decode_next(
    lanes: &mut ArithLanes,
    tables: &[ChannelTables],
    from: &[usize; 8],
    row: &mut EightStates,
    count: usize,
    place: usize,
    t: usize,
    start: bool,
)
    requires place { place < 8 }
    requires few { count ≤ 8 }
    requires narrow { AreNarrow tables.now }
    requires from { (n : ℕ) → n < 8 → get_or from.now n 0 < length tables.now }
    ensures steps { (n : ℕ) (bytes : List ℕ) → n < count → IsLane lanes.old n bytes
        → 8 ≤ bits_ahead lanes.old n → used_at lanes.old n ≤ 2 ^ 40
        → IsChanceOf (state_in row.old n).next (get_or row.old.chances n 0)
        → LaneSteps place (start && nat_lt t (table_at tables.now from.now n).early) (table_at tables.now from.now n) (state_in row.old n) (state_in row.new n)
        (decoding_at lanes.old n bytes) (decoding_at lanes.new n bytes) (get_or row.new.chances n 0) }
    ensures further { (n p : ℕ) (bytes : List ℕ) → n < 8 → IsLane lanes.old n bytes → 8 ≤ bits_ahead lanes.old n
        → used_at lanes.old n ≤ 2 ^ 40 → IsChance p (get_or row.old.chances n 0) → IsLaneFurther lanes.old lanes.new n bytes 8 }
    ensures others { (n : ℕ) → count ≤ n → get_or row.new.chances n 0 ≡ get_or row.old.chances n 0 }
{
    let now = chances_at(tables, from, count, t, start, &row.chances);
    let given = lanes.decode(&now);
    row.take(tables, from, count, place, &given);
}
