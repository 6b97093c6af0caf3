// The files of these tests, and what is written of them, by names that a table can hold.
use example_files::{
    NOTHING_KEPT, PLAIN_CMPR, PLAIN_PROP, SILENT, VERSION, chunk, coded, coded_silent, counting,
    frame, joined, odd_plain, one_frame, plain, two_frames, with_bytes,
};
use std::alloc::{AllocError, Global};

#[derive(Clone, Copy)]
pub(crate) enum Made {
    // These bytes, and these with others at one place.
    Known(&'static [u8]),
    Changed(&'static [u8], usize, &'static [u8]),
    // So many of one byte, and the plain file of them.
    Filled(u8, usize),
    Plain(u8, usize),
    // The front of a plain file of 4,704 bytes, which ends with its sound.
    PlainFront,
    // A coded file of one frame: these bytes, so many of one byte, and these.
    Frame(&'static [u8], u8, usize, &'static [u8]),
    // The same of a frame of 4,704 counting bytes and three bytes behind them.
    LongerFrame,
    // A plain file of 4,705 counting bytes, the first so many bytes of it, and its second frame.
    OddPlain,
    OddFront(usize),
    SecondFrame,
    // The coded file of it, and the same with other first bytes of its two frames.
    TwoFrames,
    TwoChanged(&'static [u8], &'static [u8]),
    // Three frames with an index, and the same where the index names the last frame one byte further.
    ThreeFrames,
    ThreeMoved,
    // Two frames with a checksum behind each.
    Checksums,
    // A plain file of the double rate, and the coded file of it.
    DoublePlain,
    DoubleCoded,
    // A coded file of no frames.
    NoFrames,
    // The coded file of a plain one without sound, with this front of `KEPT` and these bytes behind `CMPR`.
    CodedSilent(&'static [u8], &'static [u8]),
    // A plain file without sound, with three bytes behind it.
    SilentAndThree,
    // A file with two chunks that tell of a plain file, each lawful alone.
    KeptTwice,
    // A plain file with a chunk that a coded one has.
    KeptPlain,
}

pub(crate) fn file_of(alloc: Global, file: Made) -> Result<Vec<u8>, AllocError> {
    match file {
        Made::Known(bytes) => joined(alloc, &[bytes]),
        Made::Changed(bytes, place, others) => with_bytes(alloc, bytes, place, others),
        Made::Filled(byte, count) => vec![in alloc; byte; count],
        Made::Plain(byte, count) => plain_of(alloc, byte, count),
        Made::PlainFront => plain_front(alloc),
        Made::Frame(front, byte, count, end) => frame_of(alloc, front, byte, count, end),
        Made::LongerFrame => longer_frame(alloc),
        Made::OddPlain => odd_plain(alloc),
        Made::OddFront(length) => odd_front(alloc, length),
        Made::SecondFrame => second_frame(alloc),
        Made::TwoFrames => two_frames(alloc),
        Made::TwoChanged(first, second) => two_changed(alloc, first, second),
        Made::ThreeFrames => three_frames(alloc),
        Made::ThreeMoved => three_moved(alloc),
        Made::Checksums => checksums(alloc),
        Made::DoublePlain => double_plain(alloc),
        Made::DoubleCoded => double_coded(alloc),
        Made::NoFrames => coded(alloc, 0, &[], &[]),
        Made::CodedSilent(front, behind) => coded_silent(alloc, front, behind),
        Made::SilentAndThree => joined(alloc, &[SILENT, &[1, 2, 3]]),
        Made::KeptTwice => kept_twice(alloc),
        Made::KeptPlain => kept_plain(alloc),
    }
}

fn plain_of(alloc: Global, byte: u8, count: usize) -> Result<Vec<u8>, AllocError> {
    let sound = vec![in alloc; byte; count]?;
    plain(alloc, &sound, 0)
}

// The first so many bytes of a file.
fn front_of(alloc: Global, file: &[u8], length: usize) -> Result<Vec<u8>, AllocError> {
    joined(alloc, &[&file[..length.min(file.len())]])
}

fn plain_front(alloc: Global) -> Result<Vec<u8>, AllocError> {
    let file = plain_of(alloc, 0x69, 4704)?;
    front_of(alloc, &file, 126)
}

fn frame_of(
    alloc: Global,
    front: &[u8],
    byte: u8,
    count: usize,
    end: &[u8],
) -> Result<Vec<u8>, AllocError> {
    let sound = vec![in alloc; byte; count]?;
    one_frame(alloc, &[front, &sound, end])
}

fn longer_frame(alloc: Global) -> Result<Vec<u8>, AllocError> {
    let sound = counting(alloc, 4704)?;
    one_frame(alloc, &[b"\0", &sound, &[1, 2, 3]])
}

fn odd_front(alloc: Global, length: usize) -> Result<Vec<u8>, AllocError> {
    let file = odd_plain(alloc)?;
    front_of(alloc, &file, length)
}

// Byte 4,704 of the counting ones is 186, and silence fills the frame.
fn second_frame(alloc: Global) -> Result<Vec<u8>, AllocError> {
    let rest = vec![in alloc; 0x69; 4703]?;
    joined(alloc, &[b"\xba", &rest])
}

fn two_changed(alloc: Global, first: &[u8], second: &[u8]) -> Result<Vec<u8>, AllocError> {
    let file = two_frames(alloc)?;
    let file = with_bytes(alloc, &file, 152, first)?;
    with_bytes(alloc, &file, 4870, second)
}

// A frame in the plain form, of 4,704 bytes 69.
fn plain_frame(alloc: Global) -> Result<Vec<u8>, AllocError> {
    let sound = vec![in alloc; 0x69; 4704]?;
    frame(alloc, &[b"\0", &sound])
}

fn three_frames(alloc: Global) -> Result<Vec<u8>, AllocError> {
    let one = plain_frame(alloc)?;
    let behind = b"DSTI\0\0\0\0\0\0\0\x24\
\0\0\0\0\0\0\0\x98\0\0\x12\x61\
\0\0\0\0\0\0\x13\x06\0\0\x12\x61\
\0\0\0\0\0\0\x25\x74\0\0\x12\x61";
    coded(alloc, 3, &[&one, &one, &one], behind)
}

// The last entry of the index stands behind 14,280 bytes.
fn three_moved(alloc: Global) -> Result<Vec<u8>, AllocError> {
    let file = three_frames(alloc)?;
    with_bytes(alloc, &file, file.len().saturating_sub(5), b"\x75")
}

fn checksums(alloc: Global) -> Result<Vec<u8>, AllocError> {
    let one = plain_frame(alloc)?;
    let check = b"DSTC\0\0\0\0\0\0\0\x04\x01\x02\x03\x04";
    coded(alloc, 2, &[&one, check, &one, check], &[])
}

// The rate of 128 times 44.1 kHz, and where it stands in either file.
const DOUBLE: &[u8; 4] = b"\0\x56\x22\0";

const RATE_PLACE: usize = 60;

fn double_plain(alloc: Global) -> Result<Vec<u8>, AllocError> {
    let file = plain_of(alloc, 0x69, 9408)?;
    with_bytes(alloc, &file, RATE_PLACE, DOUBLE)
}

fn double_coded(alloc: Global) -> Result<Vec<u8>, AllocError> {
    let file = frame_of(alloc, b"\0", 0x69, 9408, b"")?;
    with_bytes(alloc, &file, RATE_PLACE, DOUBLE)
}

fn kept_twice(alloc: Global) -> Result<Vec<u8>, AllocError> {
    let origin = chunk(alloc, b"KEPT", &[NOTHING_KEPT, PLAIN_CMPR], 0)?;
    let both = joined(alloc, &[b"DSTI\0\0\0\0\0\0\0\0", &origin, &origin])?;
    coded(alloc, 0, &[], &both)
}

fn kept_plain(alloc: Global) -> Result<Vec<u8>, AllocError> {
    let behind = b"KEPT\0\0\0\0\0\0\0\0DSD \0\0\0\0\0\0\0\0";
    chunk(alloc, b"FRM8", &[b"DSD ", VERSION, PLAIN_PROP, behind], 0)
}
