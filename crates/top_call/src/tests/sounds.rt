// Files whose sound comes back.
use super::compared::same;
use super::files::Made::{
    Checksums, CodedSilent, DoubleCoded, DoublePlain, Frame, Known, OddPlain, Plain,
    SilentAndThree, TwoFrames,
};
use super::files::{Made, file_of};
use super::{DECODE, NOTHING, Row, all_give};
use crate::{run_over, split};
use dst_streams::HonestSource;
use example_files::{NOTHING_KEPT, SILENT, THREE_KEPT};
use std::alloc::{AllocError, Global};
use std::thread::Threads;

// A frame in the plain form, and one that is coded, of bytes FF.
const STORED: Made = Frame(b"\0", 0x69, 4704, b"");

const ONES: Made = Frame(b"\xfc\0\0\x05\xff\xf8", 0, 0, b"");

const SOUNDS: [Row; 7] = [
    (
        "decode in.dff out.dff\ndecoded 1 frames into 4704 bytes\n",
        STORED,
        0,
        Plain(0x69, 4704),
    ),
    (
        "decode in.dff out.dff\ndecoded 1 frames into 4704 bytes\n",
        ONES,
        0,
        Plain(0xff, 4704),
    ),
    // Bits past the sound, and the second bit, are not looked at.
    (
        "decode in.dff out.dff\ndecoded 1 frames into 4704 bytes\n",
        Frame(b"\0", 0x69, 4704, &[1, 2, 3]),
        0,
        Plain(0x69, 4704),
    ),
    (
        "decode in.dff out.dff\ndecoded 1 frames into 4704 bytes\n",
        Frame(b"\x40", 0x69, 4704, b""),
        0,
        Plain(0x69, 4704),
    ),
    // A sound of two frames comes back with its pad byte.
    (
        "decode in.dff out.dff\ndecoded 2 frames into 4705 bytes\n",
        TwoFrames,
        0,
        OddPlain,
    ),
    // Checksums are passed over.
    (
        "decode in.dff out.dff\ndecoded 2 frames into 9408 bytes\n",
        Checksums,
        0,
        Plain(0x69, 9408),
    ),
    // A double rate has frames of double size.
    (
        "decode in.dff out.dff\ndecoded 1 frames into 9408 bytes\n",
        DoubleCoded,
        0,
        DoublePlain,
    ),
];

#[test]
fn sounds_come_back(rt: HostRuntime) {
    all_give(&rt, rt.alloc(), &SOUNDS);
}

// What `KEPT` says of no sound by version 1, and by version 2 with a pad byte.
const BY_VERSION_1: Made = CodedSilent(b"\x01\0\0\0\0\0\0\0\0", &[]);

const KEPT_BAD: Made = CodedSilent(b"\x02\0\0\0\0\0\0\0\0\x01\0\0\0\x03", &[1, 2, 3]);

#[test]
fn what_a_plain_file_has_besides_its_sound_comes_back(rt: HostRuntime) {
    const ROWS: [Row; 4] = [
        (
            "decode in.dff out.dff\ndecoded 0 frames into 0 bytes\n",
            BY_VERSION_1,
            0,
            Known(SILENT),
        ),
        (
            "decode in.dff out.dff\ndecoded 0 frames into 0 bytes\n",
            CodedSilent(NOTHING_KEPT, &[]),
            0,
            Known(SILENT),
        ),
        (
            "decode in.dff out.dff\ndecoded 0 frames into 0 bytes\n",
            CodedSilent(THREE_KEPT, &[1, 2, 3]),
            0,
            SilentAndThree,
        ),
        (
            "decode in.dff out.dff\nfile refused: 21 KeptBad\n",
            KEPT_BAD,
            5,
            NOTHING,
        ),
    ];
    all_give(&rt, rt.alloc(), &ROWS);
}

fn size_of(alloc: Global, file: Made) -> Result<usize, AllocError> {
    let file = file_of(alloc, file)?;
    Ok(file.len())
}

#[test]
fn files_have_their_sizes(rt: HostRuntime) {
    const ROWS: [(Made, usize); 11] = [
        (STORED, 4858),
        (Plain(0x69, 4704), 4830),
        (ONES, 158),
        (Plain(0xff, 4704), 4830),
        (TwoFrames, 9670),
        (OddPlain, 4832),
        (DoublePlain, 9534),
        (BY_VERSION_1, 206),
        (CodedSilent(NOTHING_KEPT, &[]), 210),
        (CodedSilent(THREE_KEPT, &[1, 2, 3]), 214),
        (KEPT_BAD, 214),
    ];
    for &(file, size) in &ROWS {
        same(&rt, &size_of(rt.alloc(), file), &Ok(size));
    }
}

// Decodes a frame in the plain form into a sink of just the plain file's size: the status, and whether it holds that file.
fn into_just_enough(rt: &(impl Threads + Sync), alloc: Global) -> Result<(u8, bool), AllocError> {
    let file = file_of(alloc, STORED)?;
    let whole = file_of(alloc, Plain(0x69, 4704))?;
    let words = split(alloc, DECODE)?;
    let mut source = HonestSource::new(&file);
    let left = run_over(rt, alloc, &words, &mut source, 4830, &[], &[])?;
    Ok((left.status, left.sink.written() == whole.as_slice()))
}

#[test]
fn a_sound_comes_back_into_a_sink_of_its_size(rt: HostRuntime) {
    let left = into_just_enough(&rt, rt.alloc());
    same(&rt, &left, &Ok((0, true)));
}
