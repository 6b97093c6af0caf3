// The files of these tests, and what is written of them, by names that a table can hold.
use example_files::{
    PLAIN_CMPR, PLAIN_PROP, SILENT, VERSION, chunk, coded, coded_silent, counting, frame, joined,
    odd_plain, plain, two_frames, with_bytes,
};
use std::alloc::{AllocError, Global};

#[derive(Clone, Copy)]
pub(crate) enum Made {
    // These bytes, and these with others at one place.
    Known(&'static [u8]),
    Changed(&'static [u8], usize, &'static [u8]),
    // The coded file of 4,705 counting bytes, in two frames, and the plain one.
    TwoFrames,
    OddPlain,
    // The first frame alone, of 4,704 bytes, the second, of one byte, and the plain file of the second.
    FirstAlone,
    SecondAlone,
    SecondPlain,
    // The plain file of these 4,705 bytes at the double rate, and the coded one, of one frame.
    DoublePlain,
    DoubleCoded,
    // The coded file of a plain one without sound, with this front of `KEPT` and these bytes behind `CMPR`.
    CodedSilent(&'static [u8], &'static [u8]),
    // A plain file without sound, with three bytes behind it, and with one more than there may be.
    SilentAndThree,
    LongBehind,
    // A plain file with a chunk that a coded one has.
    KeptPlain,
}

pub(crate) fn file_of(alloc: Global, file: Made) -> Result<Vec<u8>, AllocError> {
    match file {
        Made::Known(bytes) => joined(alloc, &[bytes]),
        Made::Changed(bytes, place, others) => with_bytes(alloc, bytes, place, others),
        Made::TwoFrames => two_frames(alloc),
        Made::OddPlain => odd_plain(alloc),
        Made::FirstAlone => first_alone(alloc),
        Made::SecondAlone => second_alone(alloc),
        Made::SecondPlain => plain(alloc, &[0xba], 7),
        Made::DoublePlain => double_plain(alloc),
        Made::DoubleCoded => double_coded(alloc),
        Made::CodedSilent(front, behind) => coded_silent(alloc, front, behind),
        Made::SilentAndThree => joined(alloc, &[SILENT, &[1, 2, 3]]),
        Made::LongBehind => long_behind(alloc),
        Made::KeptPlain => kept_plain(alloc),
    }
}

// A file of one frame, whose sound has this size and pad byte.
fn alone(
    alloc: Global,
    frame: &[u8],
    size: &[u8; 2],
    pad: &[u8; 1],
) -> Result<Vec<u8>, AllocError> {
    let behind = joined(
        alloc,
        &[
            b"DSTI\0\0\0\0\0\0\0\x0c\0\0\0\0\0\0\0\x98\0\0\x12\x61",
            b"KEPT\0\0\0\0\0\0\0\x2e\x02\0\0\0\0\0\0",
            size,
            pad,
            b"\0\0\0\0",
            PLAIN_CMPR,
        ],
    )?;
    coded(alloc, 1, &[frame], &behind)
}

fn first_alone(alloc: Global) -> Result<Vec<u8>, AllocError> {
    let sound = counting(alloc, 4704)?;
    let frame = frame(alloc, &[b"\0", &sound])?;
    alone(alloc, &frame, b"\x12\x60", b"\0")
}

fn second_alone(alloc: Global) -> Result<Vec<u8>, AllocError> {
    let filling = vec![in alloc; 0x69; 4703]?;
    let frame = frame(alloc, &[b"\0\xba", &filling])?;
    alone(alloc, &frame, b"\0\x01", b"\x07")
}

// The rate of 128 times 44.1 kHz, and where it stands in either file.
const DOUBLE: &[u8; 4] = b"\0\x56\x22\0";

const RATE_PLACE: usize = 60;

fn double_plain(alloc: Global) -> Result<Vec<u8>, AllocError> {
    let file = odd_plain(alloc)?;
    with_bytes(alloc, &file, RATE_PLACE, DOUBLE)
}

// The frame is in the plain form, and the pad byte is 7.
fn double_coded(alloc: Global) -> Result<Vec<u8>, AllocError> {
    let frame = double_frame(alloc)?;
    let behind = joined(
        alloc,
        &[
            b"DSTI\0\0\0\0\0\0\0\x0c\0\0\0\0\0\0\0\x98\0\0\x24\xc1",
            b"KEPT\0\0\0\0\0\0\0\x2e\x02\0\0\0\0\0\0\x12\x61\x07\0\0\0\0",
            PLAIN_CMPR,
        ],
    )?;
    let file = coded(alloc, 1, &[&frame], &behind)?;
    with_bytes(alloc, &file, RATE_PLACE, DOUBLE)
}

fn double_frame(alloc: Global) -> Result<Vec<u8>, AllocError> {
    let sound = counting(alloc, 4705)?;
    let filling = vec![in alloc; 0x69; 4703]?;
    frame(alloc, &[b"\0", &sound, &filling])
}

fn long_behind(alloc: Global) -> Result<Vec<u8>, AllocError> {
    let long = vec![in alloc; 0; 65_537]?;
    joined(alloc, &[SILENT, &long])
}

fn kept_plain(alloc: Global) -> Result<Vec<u8>, AllocError> {
    let origin = b"KEPT\0\0\0\0\0\0\0\0DSD \0\0\0\0\0\0\0\0";
    chunk(alloc, b"FRM8", &[b"DSD ", VERSION, PLAIN_PROP, origin], 0)
}

// Two seconds of stereo sound among other chunks, of which the last is odd and without its pad byte.
pub(crate) fn two_seconds(alloc: Global) -> Result<Vec<u8>, AllocError> {
    let prop = stereo_prop(alloc)?;
    let sound = counting_chunk(alloc)?;
    let behind = b"COMT\0\0\0\0\0\0\0\x02\0\0DIIN\0\0\0\0\0\0\0\0ID3 \0\0\0\0\0\0\0\x03abc";
    let body = joined(alloc, &[b"DSD ", VERSION, &prop, &sound, behind])?;
    let size = (body.len() as u64).to_be_bytes();
    joined(alloc, &[b"FRM8", &size, &body])
}

fn stereo_prop(alloc: Global) -> Result<Vec<u8>, AllocError> {
    let parts: [&[u8]; 5] = [
        b"SND FS  \0\0\0\0\0\0\0\x04\0\x2b\x11\0",
        b"CHNL\0\0\0\0\0\0\0\x0a\0\x02SLFTSRGT",
        PLAIN_CMPR,
        b"ABSS\0\0\0\0\0\0\0\x08\0\x01\x02\x03\0\0\0\x04",
        b"LSCO\0\0\0\0\0\0\0\x02\0\0",
    ];
    chunk(alloc, b"PROP", &parts, 0)
}

fn counting_chunk(alloc: Global) -> Result<Vec<u8>, AllocError> {
    let sound = counting(alloc, 1_411_200)?;
    chunk(alloc, b"DSD ", &[&sound], 0)
}
