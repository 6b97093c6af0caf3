// Predictions against plain sums, and sums ahead and side by side against them.
use crate::compared::same;
use byte_predictor::{
    Ahead, ByteFilter, EightAhead, History, KnownAhead, KnownFilter, RowFilter, predict,
};
use dst_num::FilterTable;

// What a filter of these coefficients predicts, where there can be one.
fn prediction_of(coefs: &[i16], history: &History) -> Option<i32> {
    match FilterTable::new(coefs) {
        Some(table) => Some(predict(&ByteFilter::build(&table), history)),
        None => None,
    }
}

#[test]
fn greatest_prediction_is_32768(rt: HostRuntime) {
    let mut history = History::fresh();
    for _ in 0..128 {
        history.push(false);
    }
    same(&rt, &prediction_of(&[-256; 128], &history), &Some(32768));
}

#[test]
fn coefficient_1_predicts_minus_1_before_a_frame(rt: HostRuntime) {
    same(&rt, &prediction_of(&[1], &History::fresh()), &Some(-1));
}

#[test]
fn fresh_history_is_sixteen_bytes_aa(rt: HostRuntime) {
    same(&rt, History::fresh().bytes(), &[0xaa; 16]);
}

// The next of some numbers without a pattern.
fn next(state: u32) -> u32 {
    state.wrapping_mul(1_664_525).wrapping_add(1_013_904_223)
}

// So many coefficients, and zeros behind them.
fn coefs_from(state: &mut u32, length: usize) -> [i16; 128] {
    let mut coefs = [0i16; 128];
    for place in 0..length.min(128) {
        *state = next(*state);
        coefs[place] = ((*state >> 20) % 512) as i16 - 256;
    }
    coefs
}

// A filter of so many coefficients.
fn table_from(state: &mut u32, length: usize) -> Option<FilterTable> {
    let coefs = coefs_from(state, length);
    FilterTable::new(&coefs[..length.min(128)])
}

// The sum, coefficient by coefficient.
fn plain_sum(coefs: &[i16; 128], samples: &[bool; 128]) -> i32 {
    let mut sum = 0i32;
    for place in 0..128usize {
        let coef = i32::from(coefs[place]);
        let part = if samples[place] {
            coef
        } else {
            coef.wrapping_neg()
        };
        sum = sum.wrapping_add(part);
    }
    sum
}

// What a filter of so many coefficients predicts behind 128 samples, and the plain sum.
fn predicted(state: &mut u32, length: usize) -> (Option<i32>, i32) {
    let coefs = coefs_from(state, length);
    let mut samples = [false; 128];
    let mut history = History::fresh();
    for place in 0..128usize {
        *state = next(*state);
        let sample = *state >> 31 == 1;
        samples[127 - place] = sample;
        history.push(sample);
    }
    let found = prediction_of(&coefs[..length.min(128)], &history);
    (found, plain_sum(&coefs, &samples))
}

#[test]
fn predictions_are_plain_sums(rt: HostRuntime) {
    let mut state = 1u32;
    for length in 1..129usize {
        let (found, plain) = predicted(&mut state, length);
        same(&rt, &found, &Some(plain));
    }
}

// The predictions of a byte's samples, and of each once it is known.
type Predictions = [(i32, i32); 8];

// Of one byte: what the sums ahead predict, and what the tables do.
fn predict_byte(
    state: &mut u32,
    rows: &RowFilter,
    filter: &ByteFilter,
    ahead: &mut Ahead,
    history: &mut History,
) -> (Predictions, Predictions) {
    let mut found = [(0, 0); 8];
    let mut plain = [(0, 0); 8];
    for place in 0..8usize {
        *state = next(*state);
        let sample = *state >> 31 == 1;
        let early = rows.prediction(ahead.upward_after(rows, place, sample));
        let now = rows.prediction(ahead.upward(rows, place));
        let before = predict(filter, history);
        history.push(sample);
        ahead.push(sample);
        found[place] = (now, early);
        plain[place] = (before, predict(filter, history));
    }
    (found, plain)
}

// Of forty bytes: at how many both predict the same, and at how many both have the same newest byte.
fn alike_ahead(state: &mut u32, rows: &RowFilter, filter: &ByteFilter) -> (u32, u32) {
    let mut history = History::fresh();
    let mut ahead = Ahead::fresh(rows);
    let mut alike = 0u32;
    let mut newest = 0u32;
    for _ in 0..40 {
        let (found, plain) = predict_byte(state, rows, filter, &mut ahead, &mut history);
        ahead.take_byte(rows);
        alike = alike.wrapping_add(u32::from(found == plain));
        newest = newest.wrapping_add(u32::from(ahead.newest() == history.bytes()[0]));
    }
    (alike, newest)
}

// The same for a filter of so many coefficients, and whether the size of its rows is at most 32768.
fn sums_ahead(state: &mut u32, length: usize, rows: &mut RowFilter) -> Option<((u32, u32), bool)> {
    let table = table_from(state, length)?;
    rows.build(&table);
    let alike = alike_ahead(state, rows, &ByteFilter::build(&table));
    Some((alike, rows.size() <= 32768))
}

#[test]
fn sums_ahead_predict_what_the_tables_do(rt: HostRuntime) {
    let mut state = 7u32;
    let mut rows = RowFilter::new();
    for length in [1usize, 7, 8, 9, 100, 128] {
        let found = (length, sums_ahead(&mut state, length, &mut rows));
        same(&rt, &found, &(length, Some(((40, 40), true))));
    }
}

// The sums of a byte's samples.
type Sums = [u16; 8];

// Of one byte: the sums ahead, and those of the frame that is the sixth of eight side by side.
fn sum_byte(
    state: &mut u32,
    rows: &RowFilter,
    ahead: &mut Ahead,
    eight: &mut EightAhead,
) -> (Sums, Sums) {
    let mut upward = [0u16; 8];
    let mut beside = [0u16; 8];
    for place in 0..8usize {
        *state = next(*state);
        let sample = *state >> 31 == 1;
        upward[place] = ahead.upward(rows, place);
        beside[place] = eight.upward(5, rows, place);
        ahead.push(sample);
        let mut given = [2u16; 8];
        given[5] = u16::from(sample);
        eight.push(&given, place, rows);
    }
    (upward, beside)
}

// Of forty bytes: at how many the newest byte side by side is that ahead, and the sums side by side and those of known samples are.
fn alike_beside(state: &mut u32, rows: &RowFilter, known: &KnownFilter) -> [u32; 3] {
    let mut ahead = Ahead::fresh(rows);
    let mut eight = EightAhead::new();
    eight.begin(5, rows);
    let mut whole = KnownAhead::fresh(known);
    let mut alike = [0u32; 3];
    for _ in 0..40 {
        let (upward, beside) = sum_byte(state, rows, &mut ahead, &mut eight);
        ahead.take_byte(rows);
        eight.take_byte(5, rows);
        let newest = ahead.newest();
        let is_known = whole.take_byte(known, newest) == upward;
        alike[0] = alike[0].wrapping_add(u32::from(eight.newest(5) == newest));
        alike[1] = alike[1].wrapping_add(u32::from(beside == upward));
        alike[2] = alike[2].wrapping_add(u32::from(is_known));
    }
    alike
}

// The same for a filter of so many coefficients, and whether its rows and those for known samples have one size.
fn sums_beside(
    state: &mut u32,
    length: usize,
    rows: &mut RowFilter,
    known: &mut KnownFilter,
) -> Option<([u32; 3], bool)> {
    let table = table_from(state, length)?;
    rows.build(&table);
    known.build(&table);
    let alike = alike_beside(state, rows, known);
    Some((alike, u32::from(known.size()) == rows.size()))
}

#[test]
fn sums_side_by_side_and_of_known_samples_are_those_ahead(rt: HostRuntime) {
    let mut state = 11u32;
    let mut rows = RowFilter::new();
    let mut known = KnownFilter::new();
    for length in [1usize, 8, 9, 64, 65, 128] {
        let found = sums_beside(&mut state, length, &mut rows, &mut known);
        same(&rt, &(length, found), &(length, Some(([40; 3], true))));
    }
}
