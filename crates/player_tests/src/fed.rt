// The file of one frame, in pieces.
use push_decoder::uses::{Player, play_piece};
use push_decoder::{FileFault, PushDecoder, Step};
use std::alloc::{AllocError, Global};

// One frame FC 00 00 05 FF F8 of one channel, in 158 bytes.
const FILE: &[u8; 158] = b"FRM8\0\0\0\0\0\0\0\x92DSD \
FVER\0\0\0\0\0\0\0\x04\x01\x05\0\0\
PROP\0\0\0\0\0\0\0\x42SND FS  \0\0\0\0\0\0\0\x04\0\x2b\x11\0\
CHNL\0\0\0\0\0\0\0\x06\0\x01C000\
CMPR\0\0\0\0\0\0\0\x10DST \x0bDST Encoded\
DST \0\0\0\0\0\0\0\x24FRTE\0\0\0\0\0\0\0\x06\0\0\0\x01\0\x4b\
DSTF\0\0\0\0\0\0\0\x06\xfc\0\0\x05\xff\xf8";

#[derive(Drop)]
struct Tape {
    bytes: [u8; 6],
    frames: u32,
}

impl Player for Tape {
    fn play(&mut self, frame: &[u8]) {
        if frame.len() == 6 {
            self.bytes.copy_from_slice(frame);
        }
        self.frames = self.frames.saturating_add(1);
    }
}

fn empty_tape() -> Tape {
    Tape {
        bytes: [0; 6],
        frames: 0,
    }
}

// Feeds the file in pieces of so many bytes.
fn feed(decoder: &mut PushDecoder, size: usize, tape: &mut Tape) -> Result<bool, FileFault> {
    let file = FILE.as_slice();
    let mut ended = false;
    for k in 0..158usize {
        let start = k.saturating_mul(size).min(158);
        let end = start.saturating_add(size).min(158);
        ended = match play_piece(decoder, &file[start..end], tape) {
            Ok(ended) => ended,
            Err(fault) => return Err(fault),
        };
    }
    Ok(ended)
}

// Feeds the file in two pieces, the first of so many bytes.
fn feed_two(decoder: &mut PushDecoder, cut: usize, tape: &mut Tape) -> Result<bool, FileFault> {
    let file = FILE.as_slice();
    let end = cut.min(158);
    match play_piece(decoder, &file[..end], tape) {
        Ok(_) => play_piece(decoder, &file[end..158], tape),
        Err(fault) => Err(fault),
    }
}

// What is seen of the first event of the file: the bytes that were taken, the channels, their rate and the frames.
fn head_of_file(decoder: &mut PushDecoder) -> (usize, u32, u32, u32) {
    let (count, step) = match decoder.take(FILE) {
        Ok(taken) => taken,
        Err(_) => return (0, 0, 0, 0),
    };
    match step {
        Step::Head {
            channels,
            multiple,
            frames,
        } => (count, channels, multiple, frames),
        _ => (count, 0, 0, 0),
    }
}

// What feeding a file answers, how many frames are played, the last of them, and what closing answers.
type Fed = (Result<bool, FileFault>, u32, [u8; 6], Result<(), FileFault>);

// The file is fed in pieces of so many bytes.
fn fed_in_pieces(alloc: Global, size: usize) -> Result<Fed, AllocError> {
    let mut decoder = PushDecoder::new(alloc)?;
    let mut tape = empty_tape();
    let ended = feed(&mut decoder, size, &mut tape);
    Ok((ended, tape.frames, tape.bytes, decoder.close()))
}

// The file is fed in two pieces, the first of so many bytes.
fn fed_in_two(alloc: Global, cut: usize) -> Result<Fed, AllocError> {
    let mut decoder = PushDecoder::new(alloc)?;
    let mut tape = empty_tape();
    let ended = feed_two(&mut decoder, cut, &mut tape);
    Ok((ended, tape.frames, tape.bytes, decoder.close()))
}

const ONE_FRAME: Fed = (Ok(true), 1, *b"\xfc\0\0\x05\xff\xf8", Ok(()));

#[test]
fn a_file_in_pieces_of_any_size_has_one_frame(rt: HostRuntime) {
    for size in [1usize, 7, 158] {
        let fed = fed_in_pieces(rt.alloc(), size);
        assert_eq!(rt; fed, Ok(ONE_FRAME), "pieces of {size}");
    }
}

#[test]
fn a_file_cut_in_two_at_any_place_has_one_frame(rt: HostRuntime) {
    for cut in 0..159usize {
        let fed = fed_in_two(rt.alloc(), cut);
        assert_eq!(rt; fed, Ok(ONE_FRAME), "cut at {cut}");
    }
}

// What feeding so many bytes of the file answers, how many frames are played, and what closing answers.
type CutOff = (Result<bool, FileFault>, u32, Result<(), FileFault>);

fn cut_off(alloc: Global, length: usize) -> Result<CutOff, AllocError> {
    let mut decoder = PushDecoder::new(alloc)?;
    let mut tape = empty_tape();
    let file = FILE.as_slice();
    let played = play_piece(&mut decoder, &file[..length.min(158)], &mut tape);
    Ok((played, tape.frames, decoder.close()))
}

const CUT_OFF: [(usize, FileFault); 3] = [
    (15, FileFault::NotForm),
    (110, FileFault::Overrun { place: 110 }),
    (157, FileFault::Overrun { place: 140 }),
];

#[test]
fn a_stream_that_is_cut_off_is_refused_by_its_chunk(rt: HostRuntime) {
    for &(length, fault) in &CUT_OFF {
        let wanted = (Ok(false), 0, Err(fault));
        assert_eq!(rt; cut_off(rt.alloc(), length), Ok(wanted));
    }
}

// What the first event tells, and whether the bodies of `FVER` and `PROP` are those of the file.
type Head = ((usize, u32, u32, u32), [bool; 2]);

fn head(alloc: Global) -> Result<Head, AllocError> {
    let mut decoder = PushDecoder::new(alloc)?;
    let file = FILE.as_slice();
    let seen = head_of_file(&mut decoder);
    let is_version = decoder.version() == [1, 5, 0, 0].as_slice();
    Ok((seen, [is_version, decoder.prop() == &file[44..110]]))
}

#[test]
fn the_head_tells_channels_and_frames(rt: HostRuntime) {
    assert_eq!(rt; head(rt.alloc()), Ok(((140, 1, 1, 1), [true; 2])));
}
