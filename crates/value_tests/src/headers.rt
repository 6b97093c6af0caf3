// Headers of worked frames, the faults of others, and the parts that are lent.
ghost use Rattle.std.specs.Prelude.{◌≤◌};

use crate::compared::same;
use bit_io::{BitReader, BitWriter};
use dst_num::{Channels, FrameFault, Params, Reason};
use frame_header::{FrameView, laws, read_header, view_frame, write_header};
use std::alloc::{AllocError, Global};

// One channel, whose filter is coefficient 0 and whose probabilities are 128 and 128; the code begins at bit 45.
const COEFFICIENT_0: [u8; 6] = [0xfc, 0x00, 0x00, 0x05, 0xff, 0xf8];

// Whether parameters are those of one channel with this filter and these probabilities, and half bit 0.
fn has_tables(params: &Params, coefs: &[i16], entries: &[u8]) -> bool {
    let filters = params.filters.as_slice();
    let probs = params.probs.as_slice();
    params.filter_map.elements() == [0].as_slice()
        && params.prob_map.elements() == [0].as_slice()
        && params.half_prob.as_slice() == [false].as_slice()
        && filters.len() == 1
        && filters[0].coefs() == coefs
        && probs.len() == 1
        && probs[0].entries() == entries
}

// Where the code of a coded frame of few bytes begins, whether the whole frame is lent for it, and whether its tables are these.
fn code_behind(frame: &[u8], coefs: &[i16], entries: &[u8]) -> Option<(u64, bool, bool)> {
    let mono = Channels::new(1)?;
    if frame.len() > 9 {
        return None;
    }
    let _bytes = mono.sound_bytes();
    match view_frame(frame, mono) {
        Ok(FrameView::Coded(params, code)) => {
            let has_tables = has_tables(&params, coefs, entries);
            Some((code.first, code.bytes == frame, has_tables))
        }
        _ => None,
    }
}

#[test]
fn headers_end_where_their_code_begins(rt: HostRuntime) {
    const CASES: [(&[u8], u64, &[i16], &[u8]); 5] = [
        (&COEFFICIENT_0, 45, &[0], &[128, 128]),
        // a table of one probability
        (&[0xfc, 0x00, 0x00, 0x00], 30, &[0], &[128]),
        // two segmentations, each given at once
        (&[0xbf, 0x00, 0x00, 0x01, 0x7f, 0xfe], 47, &[0], &[128, 128]),
        // two segmentations and two maps, each given for the channel; the code is past the end
        (&[0x94, 0x00, 0x00, 0x00, 0xbf, 0xff], 48, &[0], &[128, 128]),
        // three coefficients by method 2, which leave no residual
        (
            &[0xfc, 0x0b, 0x00, 0x00, 0x00, 0x00, 0x0b, 0xff, 0xf0],
            68,
            &[0, 0, 0],
            &[128, 128],
        ),
    ];
    for &(frame, first, coefs, entries) in &CASES {
        let seen = code_behind(frame, coefs, entries);
        same(&rt, &(frame, seen), &(frame, Some((first, true, true))));
    }
}

// The fault of a frame of few bytes.
fn fault_of(count: u32, frame: &[u8]) -> Option<FrameFault> {
    let channels = Channels::new(count)?;
    if frame.len() > 6 {
        return None;
    }
    let _bytes = channels.sound_bytes();
    view_frame(frame, channels).err()
}

#[test]
fn the_first_field_at_fault_is_answered(rt: HostRuntime) {
    const CASES: [(u32, &[u8], Reason, u64); 12] = [
        (1, &[], Reason::Truncated, 0),
        (1, &[0x01], Reason::PlainStuffing, 2),
        (1, &[0x40, 0x00], Reason::Truncated, 8),
        (1, &[0xfc, 0x00, 0x00], Reason::Truncated, 24),
        (1, &[0xe0], Reason::MultiSegment, 3),
        // number 3 behind two elements; and number 2, with the half bits behind it
        (3, &[0xfb, 0x80], Reason::MapSkips, 7),
        (3, &[0xfb, 0x00], Reason::Truncated, 12),
        (1, &[0xfc, 0x07, 0x80], Reason::MethodReserved, 15),
        (1, &[0xfc, 0x07, 0x00], Reason::TableTooShort, 15),
        (1, &[0xfc, 0x06, 0x3f, 0xc2], Reason::CoefRange, 29),
        (
            1,
            &[0xfc, 0x00, 0x00, 0x06, 0x00, 0x0c],
            Reason::ProbRange,
            43,
        ),
        (
            1,
            &[0xfc, 0x00, 0x00, 0x06, 0x7f, 0x08],
            Reason::ProbRange,
            43,
        ),
    ];
    for &(count, frame, reason, bit) in &CASES {
        let found = (frame, fault_of(count, frame));
        same(&rt, &found, &(frame, Some(FrameFault { reason, bit })));
    }
}

// Whether a frame that begins so is plain, and the sound behind its first byte is lent.
fn lends_sound(first: u8) -> Option<bool> {
    let mono = Channels::new(1)?;
    let mut frame = [7; 4708];
    frame[0] = first;
    let _bytes = mono.sound_bytes();
    match view_frame(&frame, mono) {
        Ok(FrameView::Plain(sound)) => Some(sound == [7; 4704].as_slice()),
        _ => None,
    }
}

#[test]
fn the_sound_of_a_plain_frame_is_lent(rt: HostRuntime) {
    same(
        &rt,
        &[lends_sound(0x00), lends_sound(0x40)],
        &[Some(true); 2],
    );
}

// The parameters of the frame of coefficient 0, and where its code begins: as they say, and as the reader stands behind them.
fn read_coefficient_0() -> Option<(Params, u64, u64)> {
    let mono = Channels::new(1)?;
    let mut reader = BitReader::new(&COEFFICIENT_0);
    let Some(1) = reader.read(1) else {
        return None;
    };
    let _left = reader.left();
    match read_header(&mut reader, mono) {
        Ok(header) => Some((header.params, header.code, reader.place())),
        Err(_) => None,
    }
}

// Whether a header is written into room for so many bytes, the bits that it took and those that are left, and whether the bytes are
// these.
type Written = Result<(bool, u64, u64, bool), AllocError>;

fn written(alloc: Global, params: &Params, bytes: usize, wanted: &[u8]) -> Written
    requires { bytes ≤ 6 }
{
    let mut writer = BitWriter::new(alloc, bytes)?;
    let fits = write_header(params, &mut writer);
    let (length, room) = (writer.length(), writer.room());
    writer.finish();
    Ok((fits, length, room, writer.bytes() == wanted))
}

// Where the code of that frame begins, in both ways, and its header written into five bytes and into six.
fn read_and_written(alloc: Global) -> Option<([u64; 2], [Written; 2])> {
    laws::header_law();
    let (params, code, place) = read_coefficient_0()?;
    let in_short = written(alloc, &params, 5, &[]);
    // the probabilities take one bit less by method 0 with m = 0: 128 plain, and a residual of 0
    let header = [0xfc, 0x00, 0x00, 0x06, 0x7f, 0x10];
    let in_six = written(alloc, &params, 6, &header);
    Some(([code, place], [in_short, in_six]))
}

#[test]
fn a_header_is_read_and_written(rt: HostRuntime) {
    let headers = [Ok((false, 0, 40, true)), Ok((true, 44, 4, true))];
    same(
        &rt,
        &read_and_written(rt.alloc()),
        &Some(([45; 2], headers)),
    );
}
