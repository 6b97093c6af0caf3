// The samples of the frames of a batch, byte after byte.
ghost use Rattle.std.specs.Prelude.{◌≡◌, ◌≢◌, ◌<◌, ◌≤◌, ◌+◌, ◌*◌, ◌/◌, ◌%◌, ◌^◌, ℕ, ℤ, Bool, false, List, [], length, get_or};
ghost use Rattle.dst_spec.specs.Sample.{Shape};
ghost use Rattle.dst_spec.specs.Header.{Params};
ghost use Rattle.dst_frames.specs.Tables.{AreBuilt};
ghost use Rattle.dst_frames.specs.Ready.{IsReady};
ghost use Rattle.dst_frames.specs.Eight.{states_at, tables_at};
ghost use Rattle.dst_frames.specs.Batch.{HasEnough, AreLanes, IsLaneFurther, code_at};
ghost use Rattle.dst_frames.specs.Running.{AreStored, AreEight, AreChances, RowsDecoded, FinishesSound, LaneDecoded};
ghost use Rattle.dst_frames.specs.declared.tables.ChannelTables.{ChannelTables};
ghost use Rattle.dst_frames.specs.declared.state.ChannelState.{ChannelState};
ghost use Rattle.dst_frames.specs.declared.eight.EightStates.{EightStates};

use crate::eight::{EightStates, TableNumbers, decode_next, table_of};
use crate::stored::{DecodedFrame, StoredFrame};
use crate::tables::ChannelTables;
use arith_lanes::ArithLanes;
use byte_predictor::laws::samples_before;

// Sixteen bits ahead in each lane, at least.
#[inline(always)]
fn refill_where_short(lanes: &mut ArithLanes, frames: &[StoredFrame])
    requires few { length frames.now ≤ 8 }
    requires stored { AreStored frames.now }
    requires lanes { AreLanes lanes.old (code_at frames.now) (2 ^ 40) }
    ensures { (n : ℕ) → n < 8 → HasEnough lanes.old lanes.new n (code_at frames.now n) }
{
    if lanes.are_short() {
        refill_all(lanes, frames);
    }
}

fn refill_all(lanes: &mut ArithLanes, frames: &[StoredFrame])
    requires few { length frames.now ≤ 8 }
    requires stored { AreStored frames.now }
    requires lanes { AreLanes lanes.old (code_at frames.now) (2 ^ 40) }
    ensures { (n : ℕ) → n < 8 → HasEnough lanes.old lanes.new n (code_at frames.now n) }
{
    for n in 0..8usize {
        let bytes = code_bytes(frames, n);
        lanes.refill(n, bytes);
    }
}

// The bytes that the code of lane `n` lies in: none where there are fewer frames.
fn code_bytes(frames: &[StoredFrame], n: usize) -> &[u8]
    requires stored { AreStored frames.now }
    ensures { result.now ≡ code_at frames.now n }
{
    if n < frames.len() {
        frames[n].stored()
    } else {
        &[]
    }
}

/// Decodes the sample at a place of a byte, of each channel of each frame.
#[inline(always)]
fn decode_place(
    lanes: &mut ArithLanes,
    frames: &[StoredFrame],
    tables: &[ChannelTables],
    numbers: &[TableNumbers],
    rows: &mut [EightStates],
    count: usize,
    byte: usize,
    place: usize,
    start: bool,
)
    requires place { place < 8 }
    requires byte { byte < 2 ^ 20 }
    requires start { start ≡ false → 16 ≤ byte }
    requires few { length frames.now ≤ 8 }
    requires count { count ≤ 8 }
    requires channels { length rows.old ≤ 6 }
    requires eight { AreEight tables.now numbers.now (length rows.old) }
    requires stored { AreStored frames.now }
    requires lanes { AreLanes lanes.old (code_at frames.now) (2 ^ 39) }
    requires chances { AreChances rows.old count }
    ensures lanes { (n : ℕ) → n < 8 → IsLaneFurther lanes.old lanes.new n (code_at frames.now n) (8 * length rows.old) }
    ensures chances { AreChances rows.new count }
    ensures rows { (n : ℕ) (f : Shape) (P : Params) (reserved : Bool) → n < count → f.channels ≡ length rows.old
        → AreBuilt f P (tables_at tables.now numbers.now n)
        → RowsDecoded f P reserved (8 * byte + place) place n (code_at frames.now n) lanes.old lanes.new (states_at rows.old n) (states_at rows.new n) }
{
    samples_before();
    for c in 0..rows.len() {
        refill_where_short(lanes, frames);
        decode_next(
            lanes,
            tables,
            &numbers[c].of,
            &mut rows[c],
            count,
            place,
            8 * byte + place,
            start,
        );
    }
}

// Gives out the eight samples of each channel of frame `n`, and adds them to the sums ahead.
#[inline(always)]
fn finish_rows(
    tables: &[ChannelTables],
    numbers: &[TableNumbers],
    rows: &mut [EightStates],
    n: usize,
    out: &mut [u8],
)
    requires frame { n < 8 }
    requires eight { AreEight tables.now numbers.now (length rows.old) }
    requires out { length out.old ≡ length rows.old }
    ensures newest { (c : ℕ) (other : ChannelState) (filter : List ℤ) (probs samples : List ℕ) (place : ℕ) → c < length rows.old
        → IsReady filter probs place samples (get_or (states_at rows.old n) c other)
        → (k : ℕ) → k < 8 → get_or out.new c 0 / 2 ^ k % 2 ≡ get_or samples k 0 }
    ensures added { (c : ℕ) (table : ChannelTables) (other : ChannelState) (probs samples : List ℕ) → c < length rows.old
        → IsReady (get_or (tables_at tables.now numbers.now n) c table).filter probs 8 samples (get_or (states_at rows.old n) c other)
        → IsReady (get_or (tables_at tables.now numbers.now n) c table).filter probs 0 samples (get_or (states_at rows.new n) c other) }
    ensures others { (m : ℕ) → m ≢ n → states_at rows.new m ≡ states_at rows.old m }
    ensures chances { (c : ℕ) (row : EightStates) → (get_or rows.new c row).chances ≡ (get_or rows.old c row).chances }
{
    for c in 0..rows.len() {
        let own = table_of(tables, &numbers[c].of, n);
        let newest = rows[c].finish(n, own);
        out[c] = newest;
    }
}

#[inline(always)]
fn finish_sound(
    tables: &[ChannelTables],
    numbers: &[TableNumbers],
    rows: &mut [EightStates],
    n: usize,
    sound: &mut [u8],
    byte: usize,
)
    requires frame { n < 8 }
    requires eight { AreEight tables.now numbers.now (length rows.old) }
    requires channels { length rows.old ≤ 6 }
    requires byte { byte < 2 ^ 20 }
    requires inside { (byte + 1) * length rows.old ≤ length sound.old }
    ensures finishes { FinishesSound byte (length rows.old) (tables_at tables.now numbers.now n) (states_at rows.old n) (states_at rows.new n)
        sound.old sound.new }
    ensures others { (m : ℕ) → m ≢ n → states_at rows.new m ≡ states_at rows.old m }
    ensures chances { (c : ℕ) (row : EightStates) → (get_or rows.new c row).chances ≡ (get_or rows.old c row).chances }
{
    let channels = rows.len();
    let first = byte * channels;
    finish_rows(
        tables,
        numbers,
        rows,
        n,
        &mut sound[first..first + channels],
    );
}

#[inline(always)]
fn finish_heard(
    tables: &[ChannelTables],
    numbers: &[TableNumbers],
    rows: &mut [EightStates],
    n: usize,
    heard: &mut DecodedFrame,
    byte: usize,
)
    requires frame { n < 8 }
    requires eight { AreEight tables.now numbers.now (length rows.old) }
    requires channels { length rows.old ≤ 6 }
    requires byte { byte < 2 ^ 20 }
    requires inside { (byte + 1) * length rows.old ≤ length heard.old.sound.items }
    ensures finishes { FinishesSound byte (length rows.old) (tables_at tables.now numbers.now n) (states_at rows.old n) (states_at rows.new n)
        heard.old.sound.items heard.new.sound.items }
    ensures others { (m : ℕ) → m ≢ n → states_at rows.new m ≡ states_at rows.old m }
    ensures chances { (c : ℕ) (row : EightStates) → (get_or rows.new c row).chances ≡ (get_or rows.old c row).chances }
{
    let sound = heard.sound.as_mut_slice();
    finish_sound(tables, numbers, rows, n, sound, byte);
}

// Gives out the eight samples of each channel of each frame.
#[inline(always)]
fn finish_all(
    tables: &[ChannelTables],
    numbers: &[TableNumbers],
    rows: &mut [EightStates],
    count: usize,
    heard: &mut [DecodedFrame],
    byte: usize,
)
    requires few { count ≤ 8 }
    requires same { length heard.old ≡ count }
    requires eight { AreEight tables.now numbers.now (length rows.old) }
    requires channels { length rows.old ≤ 6 }
    requires byte { byte < 2 ^ 20 }
    requires inside { (n : ℕ) (other : DecodedFrame) → n < length heard.old → (byte + 1) * length rows.old ≤ length (get_or heard.old n other).sound.items }
    ensures finishes { (n : ℕ) (frame : DecodedFrame) → n < count
        → FinishesSound byte (length rows.old) (tables_at tables.now numbers.now n) (states_at rows.old n) (states_at rows.new n)
        (get_or heard.old n frame).sound.items (get_or heard.new n frame).sound.items }
    ensures chances { (c : ℕ) (row : EightStates) → (get_or rows.new c row).chances ≡ (get_or rows.old c row).chances }
{
    for n in 0..count {
        finish_heard(tables, numbers, rows, n, &mut heard[n], byte);
    }
}

/// Decodes a byte of each channel of each frame.
#[inline(always)]
fn decode_octet(
    lanes: &mut ArithLanes,
    frames: &[StoredFrame],
    tables: &[ChannelTables],
    numbers: &[TableNumbers],
    rows: &mut [EightStates],
    count: usize,
    heard: &mut [DecodedFrame],
    byte: usize,
    start: bool,
)
    requires byte { byte < 2 ^ 20 }
    requires start { start ≡ false → 16 ≤ byte }
    requires few { length frames.now ≤ 8 }
    requires count { count ≤ 8 }
    requires channels { length rows.old ≤ 6 }
    requires eight { AreEight tables.now numbers.now (length rows.old) }
    requires stored { AreStored frames.now }
    requires lanes { AreLanes lanes.old (code_at frames.now) (2 ^ 38) }
    requires chances { AreChances rows.old count }
    requires same { length heard.old ≡ count }
    requires inside { (n : ℕ) (other : DecodedFrame) → n < length heard.old
        → (byte + 1) * length rows.old ≤ length (get_or heard.old n other).sound.items }
    ensures lanes { (n : ℕ) → n < 8 → IsLaneFurther lanes.old lanes.new n (code_at frames.now n) 384 }
    ensures chances { AreChances rows.new count }
    ensures long { (n : ℕ) (other : DecodedFrame) → n < length heard.old
        → length (get_or heard.new n other).sound.items ≡ length (get_or heard.old n other).sound.items }
    ensures sound { (n : ℕ) (frame : DecodedFrame) → n < count
        → LaneDecoded n byte (byte + 1) (code_at frames.now n) lanes.old lanes.new (tables_at tables.now numbers.now n)
        (states_at rows.old n) (states_at rows.new n) (get_or heard.old n frame).sound.items (get_or heard.new n frame).sound.items }
{
    for place in 0..8 {
        decode_place(
            lanes, frames, tables, numbers, rows, count, byte, place, start,
        );
    }
    finish_all(tables, numbers, rows, count, heard, byte);
}

/// All samples of the frames, `octets` bytes of each channel. Only the first sixteen bytes of a channel can have early samples. The
/// caller has a copy of this for eight frames, whose loops over frames are written out.
#[inline(always)]
pub(crate) fn decode_octets(
    lanes: &mut ArithLanes,
    frames: &[StoredFrame],
    tables: &[ChannelTables],
    numbers: &[TableNumbers],
    rows: &mut [EightStates],
    count: usize,
    heard: &mut [DecodedFrame],
    octets: usize,
)
    requires least { 16 ≤ octets }
    requires most { octets < 2 ^ 20 }
    requires few { length frames.now ≤ 8 }
    requires count { count ≤ 8 }
    requires channels { length rows.old ≤ 6 }
    requires eight { AreEight tables.now numbers.now (length rows.old) }
    requires stored { AreStored frames.now }
    requires lanes { AreLanes lanes.old (code_at frames.now) (2 ^ 30) }
    requires chances { AreChances rows.old count }
    requires same { length heard.old ≡ count }
    requires inside { (n : ℕ) (other : DecodedFrame) → n < length heard.old
        → octets * length rows.old ≤ length (get_or heard.old n other).sound.items }
    ensures lanes { (n : ℕ) → n < 8 → IsLaneFurther lanes.old lanes.new n (code_at frames.now n) (384 * octets) }
    ensures long { (n : ℕ) (other : DecodedFrame) → n < length heard.old
        → length (get_or heard.new n other).sound.items ≡ length (get_or heard.old n other).sound.items }
    ensures sound { (n : ℕ) (frame : DecodedFrame) → n < count
        → LaneDecoded n 0 octets (code_at frames.now n) lanes.old lanes.new (tables_at tables.now numbers.now n)
        (states_at rows.old n) (states_at rows.new n) (get_or heard.old n frame).sound.items (get_or heard.new n frame).sound.items }
{
    for byte in 0..16 {
        decode_octet(
            lanes, frames, tables, numbers, rows, count, heard, byte, true,
        );
    }
    for byte in 16..octets {
        decode_octet(
            lanes, frames, tables, numbers, rows, count, heard, byte, false,
        );
    }
}
