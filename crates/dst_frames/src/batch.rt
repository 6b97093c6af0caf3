// Up to eight frames, decoded side by side.
ghost use Rattle.std.specs.Prelude.{◌≡◌, ◌≢◌, true, false, ◌<◌, ◌≤◌, ◌+◌, ◌*◌, ◌^◌, ℕ, [], length, take, get_or, replicate, Ok, IfSome, All, vec_capacity};
ghost use Rattle.dst_spec.specs.Bits.{bits};
ghost use Rattle.dst_spec.specs.Sample.{Shape, sound_bytes};
ghost use Rattle.dst_spec.specs.Header.{Params, HasHeader};
ghost use Rattle.dst_spec.specs.Guess.{filter_of, probs_of};
ghost use Rattle.dst_spec.specs.Means.{MeansWithTail};
ghost use Rattle.byte_predictor.specs.Samples.{samples_of};
ghost use Rattle.byte_predictor.specs.Upward.{size_sum};
ghost use Rattle.dst_spec.specs.Symbols.{reserved_probability as probability_of};
ghost use Rattle.arith_lanes.specs.Chances.{IsChance};
ghost use Rattle.arith_lanes.specs.Lanes.{IsUnchanged, Begins};
ghost use Rattle.dst_frames.specs.Coded.{IsCodeOfSound};
ghost use Rattle.dst_frames.specs.Tables.{IsBuilt, AreBuilt};
ghost use Rattle.dst_frames.specs.Ready.{IsReady};
ghost use Rattle.dst_frames.specs.Batch.{IsDecoded, IsLaneFurther, AreLanes, HasBegun, stored_in, code_at};
ghost use Rattle.dst_frames.specs.Eight.{states_at, table_at, tables_at, tables_in};
ghost use Rattle.dst_frames.specs.Running.{AreStored, AreNarrow, AreEight, IsPool, AreTaken, IsFresh, AreChances, LaneDecoded};
ghost use Rattle.dst_frames.specs.declared.state.ChannelState.{ChannelState};
ghost use Rattle.dst_frames.specs.declared.eight.TableNumbers.{TableNumbers};
ghost use Rattle.dst_frames.specs.declared.stored.StoredFrame.{StoredFrame};
ghost use Rattle.dst_frames.specs.declared.stored.DecodedFrame.{DecodedFrame};

use crate::batch_scratch::BatchScratch;
use crate::eight::{EightStates, EightTables, TableNumbers, grow_to, keep_narrow, table_of};
use crate::frame::{decode_with, unread};
use crate::octets::decode_octets;
use crate::state::ChannelState;
use crate::stored::{DecodedFrame, StoredFrame};
use crate::tables::ChannelTables;
use arith_decoder::laws::decoded_code;
use arith_lanes::{ArithLanes, chance};
use byte_predictor::filter_size;
use channel_params::{alike_channel, channel_filter, reserved_probability};
use dst_num::{Channels, Params};
use frame_header::{FrameView, view_frame};

/// Decodes up to eight frames, each as `decode_frame` does: where three or more are coded frames, and each one is, their codes
/// side by side, else one by one. What the sound of a refused frame then holds isn't said.
pub fn decode_batch(
    frames: &[StoredFrame],
    channels: Channels,
    scratch: &mut BatchScratch,
    heard: &mut [DecodedFrame],
)
    requires scratch { scratch.old.channels ≡ channels }
    requires few { length frames.now ≤ 8 }
    requires same { length heard.old ≡ length frames.now }
    requires stored { AreStored frames.now }
    requires frames { (n : ℕ) (other : StoredFrame) → n < length frames.now → (get_or frames.now n other).size ≤ 2 * (sound_bytes channels + 1) }
    requires sounds { (n : ℕ) (other : DecodedFrame) → n < length frames.now → length (get_or heard.old n other).sound.items ≡ sound_bytes channels }
    ensures decoded { (n : ℕ) (frame : StoredFrame) (other : DecodedFrame) → n < length frames.now
        → IsDecoded channels (stored_in (get_or frames.now n frame)) (get_or heard.new n other).sound.items (get_or heard.new n other).answer }
    ensures long { (n : ℕ) (other : DecodedFrame) → n < length frames.now → length (get_or heard.new n other).sound.items ≡ sound_bytes channels }
    ensures channels { scratch.new.channels ≡ scratch.old.channels }
{
    let eight = &mut scratch.eight;
    let states = scratch.states.as_mut_slice();
    if !decode_front(frames, channels, eight, heard) {
        decode_each(frames, channels, &mut eight.tables, states, heard);
    }
}

// Decodes frames one by one, with the first tables of the pool.
fn decode_each(
    frames: &[StoredFrame],
    channels: Channels,
    tables: &mut Vec<ChannelTables>,
    states: &mut [ChannelState],
    heard: &mut [DecodedFrame],
)
    requires same { length heard.old ≡ length frames.now }
    requires stored { AreStored frames.now }
    requires frames { (n : ℕ) (other : StoredFrame) → n < length frames.now → (get_or frames.now n other).size ≤ 2 * (sound_bytes channels + 1) }
    requires sounds { (n : ℕ) (other : DecodedFrame) → n < length frames.now → length (get_or heard.old n other).sound.items ≡ sound_bytes channels }
    requires room { channels.channels ≤ vec_capacity tables.old }
    requires states { length states.old ≡ channels.channels }
    ensures decoded { (n : ℕ) (frame : StoredFrame) (other : DecodedFrame) → n < length frames.now
        → IsDecoded channels (stored_in (get_or frames.now n frame)) (get_or heard.new n other).sound.items (get_or heard.new n other).answer }
    ensures long { (n : ℕ) (other : DecodedFrame) → n < length frames.now → length (get_or heard.new n other).sound.items ≡ sound_bytes channels }
    ensures tables { length tables.old.items ≤ length tables.new.items }
    ensures narrow { AreNarrow tables.new.items }
    ensures capacity { vec_capacity tables.new ≡ vec_capacity tables.old }
{
    grow_to(tables, states.len());
    let all = tables.as_mut_slice();
    decode_apart(frames, channels, all, states, heard);
    keep_narrow(all);
}

fn decode_apart(
    frames: &[StoredFrame],
    channels: Channels,
    all: &mut [ChannelTables],
    states: &mut [ChannelState],
    heard: &mut [DecodedFrame],
)
    requires same { length heard.old ≡ length frames.now }
    requires stored { AreStored frames.now }
    requires frames { (n : ℕ) (other : StoredFrame) → n < length frames.now → (get_or frames.now n other).size ≤ 2 * (sound_bytes channels + 1) }
    requires sounds { (n : ℕ) (other : DecodedFrame) → n < length frames.now → length (get_or heard.old n other).sound.items ≡ sound_bytes channels }
    requires enough { channels.channels ≤ length all.old }
    requires states { length states.old ≡ channels.channels }
    ensures decoded { (n : ℕ) (frame : StoredFrame) (other : DecodedFrame) → n < length frames.now
        → IsDecoded channels (stored_in (get_or frames.now n frame)) (get_or heard.new n other).sound.items (get_or heard.new n other).answer }
    ensures long { (n : ℕ) (other : DecodedFrame) → n < length frames.now → length (get_or heard.new n other).sound.items ≡ sound_bytes channels }
{
    let count = states.len();
    let tables = &mut all[..count];
    for n in 0..frames.len() {
        decode_one(&frames[n], channels, tables, states, &mut heard[n]);
    }
}

// Decodes three frames or more side by side. Gives false, and decodes none, where there are fewer or one is plain or refused.
fn decode_front(
    frames: &[StoredFrame],
    channels: Channels,
    eight: &mut EightTables,
    heard: &mut [DecodedFrame],
) -> bool
    requires few { length frames.now ≤ 8 }
    requires same { length heard.old ≡ length frames.now }
    requires stored { AreStored frames.now }
    requires frames { (n : ℕ) (other : StoredFrame) → n < length frames.now → (get_or frames.now n other).size ≤ 2 * (sound_bytes channels + 1) }
    requires sounds { (n : ℕ) (other : DecodedFrame) → n < length frames.now → length (get_or heard.old n other).sound.items ≡ sound_bytes channels }
    requires eight { IsPool eight.old channels.channels }
    ensures decoded { result ≡ true → (n : ℕ) (frame : StoredFrame) (other : DecodedFrame) → n < length frames.now
        → IsDecoded channels (stored_in (get_or frames.now n frame)) (get_or heard.new n other).sound.items (get_or heard.new n other).answer }
    ensures long { (n : ℕ) (other : DecodedFrame) → n < length frames.now → length (get_or heard.new n other).sound.items ≡ sound_bytes channels }
    ensures left { result ≡ false → heard.new ≡ heard.old }
    ensures eight { IsPool eight.new channels.channels }
{
    if frames.len() < 3 {
        return false;
    }
    let mut lanes = ArithLanes::new();
    // Here, not in the scratch: rows are written for each sample, and were those of two workers on one line of the processor's
    // cache, each would wait for the other.
    let mut six = no_rows();
    let rows = &mut six[..channels.count()];
    match begin_all(frames, channels, &mut lanes, eight, rows) {
        Some(reserved) => {
            let tables = eight.tables.as_slice();
            let numbers = eight.numbers.as_slice();
            decode_lanes(
                frames, channels, &mut lanes, tables, numbers, rows, heard, &reserved,
            );
            true
        }
        None => false,
    }
}

// Rows of six channels, with no frames in them.
fn no_rows() -> [EightStates; 6]
    ensures { All IsFresh result }
{
    [
        EightStates::new(),
        EightStates::new(),
        EightStates::new(),
        EightStates::new(),
        EightStates::new(),
        EightStates::new(),
    ]
}

// Decodes a frame alone.
fn decode_one(
    frame: &StoredFrame,
    channels: Channels,
    tables: &mut [ChannelTables],
    states: &mut [ChannelState],
    heard: &mut DecodedFrame,
)
    requires tables { length tables.old ≡ channels.channels }
    requires states { length states.old ≡ channels.channels }
    requires stored { frame.now.size ≤ length frame.now.bytes.items }
    requires frame { frame.now.size ≤ 2 * (sound_bytes channels + 1) }
    requires sound { length heard.old.sound.items ≡ sound_bytes channels }
    ensures decoded { IsDecoded channels (stored_in frame.now) heard.new.sound.items heard.new.answer }
    ensures long { length heard.new.sound.items ≡ length heard.old.sound.items }
{
    let sound = heard.sound.as_mut_slice();
    let answer = decode_with(frame.stored(), channels, tables, states, sound);
    heard.answer = answer;
}

// Begins each frame in its lane, and gives the chances of their reserved symbols. None where one of them is plain or refused.
fn begin_all(
    frames: &[StoredFrame],
    channels: Channels,
    lanes: &mut ArithLanes,
    eight: &mut EightTables,
    rows: &mut [EightStates],
) -> Option<[u16; 8]>
    requires few { length frames.now ≤ 8 }
    requires stored { AreStored frames.now }
    requires frames { (n : ℕ) (other : StoredFrame) → n < length frames.now → (get_or frames.now n other).size ≤ 2 * (sound_bytes channels + 1) }
    requires eight { IsPool eight.old channels.channels }
    requires rows { length rows.old ≡ channels.channels }
    requires fresh { All IsFresh rows.old }
    requires empty { (n : ℕ) → n < 8 → Begins lanes.old n [] 0 }
    ensures begun { IfSome result (λ chances. (n : ℕ) (frame : StoredFrame) → n < length frames.now
        → HasBegun channels lanes.new n (stored_in (get_or frames.now n frame)) (tables_in eight.new n) (states_at rows.new n) (get_or chances n 0)) }
    ensures empty { IfSome result (λ chances. (n : ℕ) → length frames.now ≤ n → n < 8 → Begins lanes.new n [] 0 × IsChance 1 (get_or chances n 0)) }
    ensures chances { IfSome result (λ _. AreChances rows.new (length frames.now)) }
    ensures eight { IsPool eight.new channels.channels }
{
    let mut chances = [chance(0); 8];
    eight.taken = 0;
    for n in 0..frames.len() {
        match begin_lane(frames[n].stored(), channels, lanes, n, eight, rows) {
            Some(reserved) => chances[n] = reserved,
            None => return None,
        }
    }
    Some(chances)
}

// Begins a coded frame in a lane, and gives the chance of its reserved symbol. None where the frame is plain or refused.
fn begin_lane(
    frame: &[u8],
    channels: Channels,
    lanes: &mut ArithLanes,
    n: usize,
    eight: &mut EightTables,
    rows: &mut [EightStates],
) -> Option<u16>
    requires lane { n < 8 }
    requires frame { length frame.now ≤ 2 * (sound_bytes channels + 1) }
    requires eight { IsPool eight.old channels.channels }
    requires taken { AreTaken eight.old n 0 }
    requires rows { length rows.old ≡ channels.channels }
    requires chances { AreChances rows.old n }
    ensures begun { IfSome result (HasBegun channels lanes.new n frame.now (tables_in eight.new n) (states_at rows.new n)) }
    ensures chances { IfSome result (λ _. AreChances rows.new (n + 1)) }
    ensures others { (m : ℕ) → m ≢ n → IsUnchanged lanes.old lanes.new m }
    ensures tables { (m : ℕ) → m < n → tables_in eight.new m ≡ tables_in eight.old m }
    ensures states { (m : ℕ) → m ≢ n → states_at rows.new m ≡ states_at rows.old m }
    ensures eight { IsPool eight.new channels.channels }
    ensures taken { IfSome result (λ _. AreTaken eight.new (n + 1) 0) }
{
    match view_frame(frame, channels) {
        Ok(FrameView::Coded(params, code)) if are_narrow(&params, rows.len()) => match lanes.begin(
            n, code,
        ) {
            Ok(()) => {
                build_all_in(&params, n, eight, rows);
                Some(reserved_chance(&params))
            }
            Err(_) => None,
        },
        _ => None,
    }
}

// Whether no channel has a filter that gives the greatest of all sums, which has no place of its own in the tables.
fn are_narrow(params: &Params, channels: usize) -> bool
    requires { channels ≤ length params.now.half_prob }
    ensures { result ≡ true → (c : ℕ) → c < channels → size_sum (filter_of params.now c) < 32768 }
{
    for c in 0..channels {
        if filter_size(channel_filter(params, c)) > 32767 {
            return false;
        }
    }
    true
}

// The tables of each channel of frame `n`, and no samples yet.
fn build_all_in(params: &Params, n: usize, eight: &mut EightTables, rows: &mut [EightStates])
    requires lane { n < 8 }
    requires channels { length params.now.half_prob ≡ length rows.old }
    requires narrow { (c : ℕ) → c < length rows.old → size_sum (filter_of params.now c) < 32768 }
    requires eight { IsPool eight.old (length rows.old) }
    requires taken { AreTaken eight.old n 0 }
    requires chances { AreChances rows.old n }
    ensures built { (f : Shape) → f.channels ≡ length rows.old → AreBuilt f params.now (tables_in eight.new n) }
    ensures fresh { (c : ℕ) (other : ChannelState) → c < length rows.old
        → IsReady (filter_of params.now c) (probs_of params.now c) 0 (samples_of (replicate 16 0xaa)) (get_or (states_at rows.new n) c other) }
    ensures chances { AreChances rows.new (n + 1) }
    ensures tables { (m : ℕ) → m < n → tables_in eight.new m ≡ tables_in eight.old m }
    ensures states { (m : ℕ) → m ≢ n → states_at rows.new m ≡ states_at rows.old m }
    ensures eight { IsPool eight.new (length rows.old) }
    ensures taken { AreTaken eight.new (n + 1) 0 }
{
    for c in 0..rows.len() {
        share_or_build(params, c, n, eight);
        let numbers = eight.numbers.as_slice();
        let own = table_of(eight.tables.as_slice(), &numbers[c].of, n);
        rows[c].begin(n, own);
    }
}

// The table of channel `c` of frame `n`: that of a channel before it that has the same parameters, or the next one of the pool.
fn share_or_build(params: &Params, c: usize, n: usize, eight: &mut EightTables)
    requires lane { n < 8 }
    requires channel { c < length eight.old.numbers.items }
    requires channels { length params.now.half_prob ≡ length eight.old.numbers.items }
    requires narrow { size_sum (filter_of params.now c) < 32768 }
    requires eight { IsPool eight.old (length eight.old.numbers.items) }
    requires taken { AreTaken eight.old n c }
    requires before { (d : ℕ) (other : TableNumbers) → d < c → IsBuilt (filter_of params.now d) (probs_of params.now d)
        (get_or params.now.half_prob d false) (table_at eight.old.tables.items (get_or eight.old.numbers.items d other).of n) }
    ensures built { (d : ℕ) (other : TableNumbers) → d < c + 1 → IsBuilt (filter_of params.now d) (probs_of params.now d)
        (get_or params.now.half_prob d false) (table_at eight.new.tables.items (get_or eight.new.numbers.items d other).of n) }
    ensures tables { (m : ℕ) → m < n → tables_in eight.new m ≡ tables_in eight.old m }
    ensures eight { IsPool eight.new (length eight.old.numbers.items) }
    ensures taken { AreTaken eight.new n (c + 1) }
{
    let numbers = eight.numbers.as_mut_slice();
    let alike = alike_channel(params, c);
    if alike < c {
        let shared = numbers[alike].of[n];
        numbers[c].set(n, shared);
    } else {
        let next = eight.taken;
        numbers[c].set(n, next);
        grow_to(&mut eight.tables, next + 1);
        let tables = eight.tables.as_mut_slice();
        tables[next].build(params, c);
        eight.taken = next + 1;
    }
}

fn reserved_chance(params: &Params) -> u16
    requires { 0 < length params.now.half_prob }
    ensures { IsChance (probability_of params.now) result }
{
    chance((reserved_probability(params).value() - 1) as u8)
}

// The unread bytes of a frame that is decoded, behind the place up to which its code is used.
fn tail_of(frame: &[u8], sound: &[u8], end: u64) -> u32
    requires bytes { length frame.now < 2 ^ 32 }
    requires end { end < 2 ^ 63 }
    ensures { (f : Shape) (P : Params) (place used : ℕ) → length sound.now ≡ sound_bytes f → place ≤ 8 * length frame.now
        → HasHeader f.channels P (take place (bits frame.now)) → get_or (bits frame.now) place 0 ≡ 0
        → IsCodeOfSound f P (bits frame.now) place sound.now used → end ≡ place + used → MeansWithTail f frame.now sound.now result }
{
    unread(frame.len(), end)
}

// Decodes frames that have begun, and answers each of them.
fn decode_lanes(
    frames: &[StoredFrame],
    channels: Channels,
    lanes: &mut ArithLanes,
    tables: &[ChannelTables],
    numbers: &[TableNumbers],
    rows: &mut [EightStates],
    heard: &mut [DecodedFrame],
    reserved: &[u16; 8],
)
    requires few { length frames.now ≤ 8 }
    requires heard { length heard.old ≡ length frames.now }
    requires stored { AreStored frames.now }
    requires frames { (n : ℕ) (other : StoredFrame) → n < length frames.now → (get_or frames.now n other).size ≤ 2 * (sound_bytes channels + 1) }
    requires sounds { (n : ℕ) (other : DecodedFrame) → n < length frames.now → length (get_or heard.old n other).sound.items ≡ sound_bytes channels }
    requires eight { AreEight tables.now numbers.now channels.channels }
    requires rows { length rows.old ≡ channels.channels }
    requires chances { AreChances rows.old (length frames.now) }
    requires begun { (n : ℕ) (frame : StoredFrame) → n < length frames.now
        → HasBegun channels lanes.old n (stored_in (get_or frames.now n frame)) (tables_at tables.now numbers.now n) (states_at rows.old n)
        (get_or reserved.now n 0) }
    requires empty { (n : ℕ) → length frames.now ≤ n → n < 8 → Begins lanes.old n [] 0 × IsChance 1 (get_or reserved.now n 0) }
    ensures decoded { (n : ℕ) (frame : StoredFrame) (other : DecodedFrame) → n < length frames.now
        → IsDecoded channels (stored_in (get_or frames.now n frame)) (get_or heard.new n other).sound.items (get_or heard.new n other).answer }
    ensures long { (n : ℕ) (other : DecodedFrame) → n < length frames.now → length (get_or heard.new n other).sound.items ≡ sound_bytes channels }
{
    let octets = 4704 * channels.multiple();
    lanes.decode(reserved);
    decode_all(lanes, frames, tables, numbers, rows, heard, octets);
    decoded_code();
    for n in 0..frames.len() {
        let end = lanes.end(n);
        settle(&frames[n], &mut heard[n], end);
    }
}

// All samples of the frames. Where there are eight, it is known as the loops over them are compiled.
fn decode_all(
    lanes: &mut ArithLanes,
    frames: &[StoredFrame],
    tables: &[ChannelTables],
    numbers: &[TableNumbers],
    rows: &mut [EightStates],
    heard: &mut [DecodedFrame],
    octets: usize,
)
    requires least { 16 ≤ octets }
    requires most { octets < 2 ^ 20 }
    requires few { length frames.now ≤ 8 }
    requires channels { length rows.old ≤ 6 }
    requires eight { AreEight tables.now numbers.now (length rows.old) }
    requires stored { AreStored frames.now }
    requires lanes { AreLanes lanes.old (code_at frames.now) (2 ^ 30) }
    requires chances { AreChances rows.old (length frames.now) }
    requires same { length heard.old ≡ length frames.now }
    requires inside { (n : ℕ) (other : DecodedFrame) → n < length heard.old
        → octets * length rows.old ≤ length (get_or heard.old n other).sound.items }
    ensures lanes { (n : ℕ) → n < 8 → IsLaneFurther lanes.old lanes.new n (code_at frames.now n) (384 * octets) }
    ensures long { (n : ℕ) (other : DecodedFrame) → n < length heard.old
        → length (get_or heard.new n other).sound.items ≡ length (get_or heard.old n other).sound.items }
    ensures sound { (n : ℕ) (frame : DecodedFrame) → n < length frames.now
        → LaneDecoded n 0 octets (code_at frames.now n) lanes.old lanes.new (tables_at tables.now numbers.now n) (states_at rows.old n) (states_at rows.new n)
        (get_or heard.old n frame).sound.items (get_or heard.new n frame).sound.items }
{
    match frames.len() {
        8 => decode_octets(lanes, frames, tables, numbers, rows, 8, heard, octets),
        count => decode_octets(lanes, frames, tables, numbers, rows, count, heard, octets),
    }
}

fn settle(frame: &StoredFrame, heard: &mut DecodedFrame, end: u64)
    requires stored { frame.now.size ≤ length frame.now.bytes.items }
    requires end { end < 2 ^ 63 }
    ensures sound { heard.new.sound ≡ heard.old.sound }
    ensures tail { (tail : ℕ) × (heard.new.answer ≡ Ok tail) × ((f : Shape) (P : Params) (place used : ℕ)
        → length heard.old.sound.items ≡ sound_bytes f → place ≤ 8 * length (stored_in frame.now)
        → HasHeader f.channels P (take place (bits (stored_in frame.now))) → get_or (bits (stored_in frame.now)) place 0 ≡ 0
        → IsCodeOfSound f P (bits (stored_in frame.now)) place heard.old.sound.items used → end ≡ place + used
        → MeansWithTail f (stored_in frame.now) heard.old.sound.items tail) }
{
    let tail = tail_of(frame.stored(), heard.sound.as_slice(), end);
    heard.answer = Ok(tail);
}
