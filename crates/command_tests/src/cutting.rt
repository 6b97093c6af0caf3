// Frames that are cut out of a file of two, by their bytes. No frame is decoded, so that theirs may be any.
ghost use Rattle.std.specs.Prelude.{◌≤◌};

use dsdiff_chunks::{FileFault, OpenFault};
use dst_cut::{Cut, CutFault, cut_file};
use dst_streams::{HonestSource, MemorySink, MemorySource};
use example_files::{SILENT, joined};
use std::alloc::{AllocError, Global};

// What stands behind the size of the form, up to the sound, and the last chunk, which lacks its pad byte.
const OPENING: &[u8; 88] = b"DSD \
FVER\0\0\0\0\0\0\0\x04\x01\x05\0\0\
PROP\0\0\0\0\0\0\0\x38SND \
FS  \0\0\0\0\0\0\0\x04\0\x2b\x11\0\
CHNL\0\0\0\0\0\0\0\x06\0\x01C000\
CMPR\0\0\0\0\0\0\0\x05DST \0\x08";

const LAST: &[u8; 15] = b"EFGH\0\0\0\0\0\0\0\x03\x01\x02\x03";

// Each frame is followed by a checksum, the second of which lacks its pad byte.
const FIRST: &[u8; 30] = b"DSTF\0\0\0\0\0\0\0\x01\x0b\x63DSTC\0\0\0\0\0\0\0\x04\x01\x02\x03\x04";

const SECOND: &[u8; 29] = b"DSTF\0\0\0\0\0\0\0\x02\x15\x16DSTC\0\0\0\0\0\0\0\x03\x09\x09\x09";

// What `KEPT` says behind the sound's size and pad byte, with kept bytes and without.
const KEPT_THREE: &[u8; 26] = b"\0\0\0\x03CMPR\0\0\0\0\0\0\0\x05DSD \0\x06\x01\x02\x03\x05";

const KEPT_NONE: &[u8; 22] = b"\0\0\0\0CMPR\0\0\0\0\0\0\0\x05DSD \0\x06";

// A file of both frames, with an index that names nothing in front of the sound.
fn both(alloc: Global) -> Result<Vec<u8>, AllocError> {
    joined(
        alloc,
        &[
            b"FRM8\0\0\0\0\0\0\0\xff",
            OPENING,
            b"DSTI\0\0\0\0\0\0\0\x01\x07\x05",
            b"DST \0\0\0\0\0\0\0\x4dFRTE\0\0\0\0\0\0\0\x06\0\0\0\x02\0\x4b",
            FIRST,
            SECOND,
            b"\x4d",
            b"KEPT\0\0\0\0\0\0\0\x23\x02\0\0\0\0\0\0\x12\x61\x07",
            KEPT_THREE,
            LAST,
        ],
    )
}

// The first frame alone, the second alone, and both.
fn first_alone(alloc: Global) -> Result<Vec<u8>, AllocError> {
    joined(
        alloc,
        &[
            b"FRM8\0\0\0\0\0\0\0\xe7",
            OPENING,
            b"DST \0\0\0\0\0\0\0\x30FRTE\0\0\0\0\0\0\0\x06\0\0\0\x01\0\x4b",
            FIRST,
            b"DSTI\0\0\0\0\0\0\0\x0c\0\0\0\0\0\0\0\x8e\0\0\0\x01",
            b"KEPT\0\0\0\0\0\0\0\x20\x02\0\0\0\0\0\0\x12\x60\0",
            KEPT_NONE,
            LAST,
        ],
    )
}

fn second_alone(alloc: Global) -> Result<Vec<u8>, AllocError> {
    joined(
        alloc,
        &[
            b"FRM8\0\0\0\0\0\0\0\xe7",
            OPENING,
            b"DST \0\0\0\0\0\0\0\x2fFRTE\0\0\0\0\0\0\0\x06\0\0\0\x01\0\x4b",
            SECOND,
            b"\0",
            b"DSTI\0\0\0\0\0\0\0\x0c\0\0\0\0\0\0\0\x8e\0\0\0\x02",
            b"KEPT\0\0\0\0\0\0\0\x20\x02\0\0\0\0\0\0\0\x01\x07",
            KEPT_NONE,
            LAST,
        ],
    )
}

fn both_cut(alloc: Global) -> Result<Vec<u8>, AllocError> {
    joined(
        alloc,
        &[
            b"FRM8\0\0\0\0\0\0\x01\x11",
            OPENING,
            b"DST \0\0\0\0\0\0\0\x4dFRTE\0\0\0\0\0\0\0\x06\0\0\0\x02\0\x4b",
            FIRST,
            SECOND,
            b"\0",
            b"DSTI\0\0\0\0\0\0\0\x18\0\0\0\0\0\0\0\x8e\0\0\0\x01\0\0\0\0\0\0\0\xac\0\0\0\x02",
            b"KEPT\0\0\0\0\0\0\0\x20\x02\0\0\0\0\0\0\x12\x61\x07",
            KEPT_NONE,
            LAST,
        ],
    )
}

// The files that frames are cut out of and those that are written.
#[derive(Clone, Copy)]
enum Known {
    Both,
    BothCut,
    First,
    Second,
}

fn made(alloc: Global, file: Known) -> Result<Vec<u8>, AllocError> {
    match file {
        Known::Both => both(alloc),
        Known::BothCut => both_cut(alloc),
        Known::First => first_alone(alloc),
        Known::Second => second_alone(alloc),
    }
}

// What cutting frames out of a file answers, and whether these bytes are written.
type Seen = (Result<Cut, CutFault>, bool);

fn cut_bytes(
    alloc: Global,
    file: &[u8],
    first: u32,
    last: u32,
    wanted: &[u8],
) -> Result<Seen, AllocError>
    requires { first ≤ last }
{
    let mut source = HonestSource::new(file);
    let mut sink = MemorySink::new(alloc, 400, &[])?;
    let answer = cut_file(alloc, &mut source, &mut sink, first, last);
    Ok((answer, sink.written() == wanted))
}

// The same of so many frames from one on.
fn cut(
    alloc: Global,
    file: Known,
    first: u32,
    count: u32,
    wanted: Known,
) -> Result<Seen, AllocError> {
    let file = made(alloc, file)?;
    let wanted = made(alloc, wanted)?;
    let last = first.saturating_add(count.saturating_sub(1));
    cut_bytes(alloc, &file, first, last, &wanted)
}

// A file, the first frame that is cut out and how many, and the file that is written. A frame that stands alone is cut out of its file as it is.
const CUTS: [(Known, u32, u32, Known); 7] = [
    (Known::Both, 0, 2, Known::BothCut),
    (Known::Both, 0, 1, Known::First),
    (Known::Both, 1, 1, Known::Second),
    (Known::BothCut, 0, 1, Known::First),
    (Known::BothCut, 1, 1, Known::Second),
    (Known::First, 0, 1, Known::First),
    (Known::Second, 0, 1, Known::Second),
];

#[test]
fn frames_are_cut_out(rt: HostRuntime) {
    for &(file, first, count, wanted) in &CUTS {
        let seen = cut(rt.alloc(), file, first, count, wanted);
        let done = (Ok(Cut { frames: count }), true);
        assert_eq!(rt; seen, Ok(done), "{count} frames from {first}");
    }
}

// Frames 1 and 2 of a file of two frames.
fn cut_past(alloc: Global) -> Result<Seen, AllocError> {
    let file = both(alloc)?;
    cut_bytes(alloc, &file, 1, 2, &[])
}

fn refused(fault: FileFault) -> Result<Seen, AllocError> {
    Ok((Err(CutFault::Source(OpenFault::File(fault))), true))
}

#[test]
fn a_frame_past_the_last_is_refused(rt: HostRuntime) {
    let past = FileFault::Range {
        asked: 2,
        frames: 2,
    };
    let seen = [
        cut_past(rt.alloc()),
        cut_bytes(rt.alloc(), SILENT, 1, 2, &[]),
    ];
    assert_eq!(rt; seen, [refused(past), refused(FileFault::NotCoded)]);
}

// More than the calls on a device in any of these runs.
const CALLS: u64 = 100;

// What cutting both frames out answers where these calls fail, whether a front of the whole file is written, and whether all of it.
type Run = (Result<Cut, CutFault>, bool, bool);

fn cut_over(
    alloc: Global,
    file: &[u8],
    whole: &[u8],
    reads: &[u64],
    writes: &[u64],
) -> Result<Run, AllocError> {
    let mut source = MemorySource::new(file, &[], reads);
    let mut sink = MemorySink::new(alloc, 400, writes)?;
    let answer = cut_file(alloc, &mut source, &mut sink, 0, 1);
    let written = sink.written();
    Ok((answer, whole.starts_with(written), written == whole))
}

// A call that fails, a read or a write, is answered by this fault and leaves a front of the whole file. Of the first call where that isn't so: whether
// more than eight calls are before it, and its run.
fn first_other(alloc: Global, is_read: bool, fault: CutFault) -> Result<(bool, Run), AllocError> {
    let file = both(alloc)?;
    let whole = both_cut(alloc)?;
    for call in 0..CALLS {
        let fails = [call];
        let run = if is_read {
            cut_over(alloc, &file, &whole, &fails, &[])?
        } else {
            cut_over(alloc, &file, &whole, &[], &fails)?
        };
        if run.0 != Err(fault) || !run.1 {
            return Ok((8 < call, run));
        }
    }
    Ok((false, (Err(fault), false, false)))
}

const DONE: Run = (Ok(Cut { frames: 2 }), true, true);

#[test]
fn a_read_that_fails_leaves_the_front_of_the_output(rt: HostRuntime) {
    let first = first_other(rt.alloc(), true, CutFault::Source(OpenFault::Read));
    assert_eq!(rt; first, Ok((true, DONE)));
}

#[test]
fn a_write_that_fails_leaves_the_front_of_the_output(rt: HostRuntime) {
    let first = first_other(rt.alloc(), false, CutFault::Write);
    assert_eq!(rt; first, Ok((true, DONE)));
}
