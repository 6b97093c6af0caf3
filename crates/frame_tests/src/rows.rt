// Codes worked out by hand, and rows that are found again.
use dst_num::{Channels, FilterTable};
use frame_predictions::Predictions;
use std::alloc::{AllocError, Global};

// Two channels, of which the first has samples 1 alone, the second samples 0 alone.
fn begun(alloc: Global) -> Result<Option<Predictions>, AllocError> {
    let Some(stereo) = Channels::new(2) else {
        return Ok(None);
    };
    let mut sound = [0x00; 9408];
    for byte in 0..4704usize {
        sound[2 * byte] = 0xff;
    }
    let mut predictions = Predictions::new(alloc, stereo)?;
    predictions.begin(&sound);
    Ok(Some(predictions))
}

// The number of a row, and its first codes.
type Row = Option<(usize, [u8; 4])>;

fn row_of(predictions: &mut Predictions, channel: usize, coefs: &[i16]) -> Row {
    let filter = FilterTable::new(coefs)?;
    if channel >= predictions.channels().count() {
        return None;
    }
    let row = predictions.row(channel, &filter);
    let codes = predictions.codes(row);
    let mut first = [0; 4];
    for (code, place) in codes.iter().zip(first.iter_mut()) {
        *place = *code;
    }
    Some((row, first))
}

// The first codes of a row.
fn codes_of(predictions: &mut Predictions, channel: usize, coefs: &[i16]) -> Option<[u8; 4]> {
    let (_, codes) = row_of(predictions, channel, coefs)?;
    Some(codes)
}

// The number of a row.
fn place_of(predictions: &mut Predictions, channel: usize, coef: i16) -> Option<usize> {
    let (row, _) = row_of(predictions, channel, &[coef])?;
    Some(row)
}

// How many channels there are, and of rows the codes of the first four samples.
type Codes = (usize, [Option<[u8; 4]>; 6]);

fn all_codes(alloc: Global) -> Result<Option<Codes>, AllocError> {
    let Some(mut predictions) = begun(alloc)? else {
        return Ok(None);
    };
    let count = predictions.channels().count();
    let codes = [
        codes_of(&mut predictions, 0, &[0]),
        codes_of(&mut predictions, 1, &[0]),
        codes_of(&mut predictions, 0, &[128]),
        codes_of(&mut predictions, 1, &[128]),
        codes_of(&mut predictions, 0, &[100, 200]),
        codes_of(&mut predictions, 1, &[-256, -256, -256]),
    ];
    Ok(Some((count, codes)))
}

#[test]
fn codes_tell_place_and_guess(rt: HostRuntime) {
    let expected = [
        [0, 0, 0, 0],
        [64, 64, 64, 64],
        [80, 16, 16, 16],
        [16, 16, 16, 16],
        // 0 before 1: -100 and 200, and then both together
        [12, 76, 37, 37],
        [96, 96, 127, 127],
    ];
    assert_eq!(rt; all_codes(rt.alloc()), Ok(Some((2, expected.map(Some)))));
}

// Rows of which some are asked for again, a row after all were released, fifteen others, another anew, and the first byte of the sound.
type Rows = (
    [Option<usize>; 5],
    Row,
    [Option<usize>; 15],
    Row,
    Option<u8>,
);

fn all_rows(alloc: Global) -> Result<Option<Rows>, AllocError> {
    let Some(mut predictions) = begun(alloc)? else {
        return Ok(None);
    };
    let rows = [
        place_of(&mut predictions, 0, 1),
        place_of(&mut predictions, 0, 2),
        place_of(&mut predictions, 1, 1),
        place_of(&mut predictions, 0, 1),
        place_of(&mut predictions, 1, 1),
    ];
    predictions.release();
    let released = row_of(&mut predictions, 1, &[1]);
    let mut others = [None; 15];
    for place in 0..15usize {
        others[place] = place_of(&mut predictions, 0, place as i16);
    }
    let anew = row_of(&mut predictions, 1, &[8]);
    let first = predictions.sound().first().copied();
    Ok(Some((rows, released, others, anew, first)))
}

#[test]
fn rows_are_found_again(rt: HostRuntime) {
    let rows = [0, 1, 2, 0, 2].map(Some);
    // sixteen rows, and then the first one anew
    let others = [1, 2, 3, 4, 5, 6, 7, 8, 9, 10, 11, 12, 13, 14, 15].map(Some);
    let wanted = (
        rows,
        Some((0, [0; 4])),
        others,
        Some((0, [1; 4])),
        Some(0xff),
    );
    assert_eq!(rt; all_rows(rt.alloc()), Ok(Some(wanted)));
}
