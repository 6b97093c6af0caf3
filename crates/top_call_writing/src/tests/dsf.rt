// DSF files of twelve samples, coded and decoded again.
use dst_streams::HonestSource;
use std::alloc::{AllocError, Global};
use std::thread::Threads;
use top_call::{Part, difference, run_over, split};

// The header of a file of twelve samples of one channel, with 1 bit per sample.
const HEAD: &[u8; 92] = b"DSD \x1c\0\0\0\0\0\0\0\x5c\x10\0\0\0\0\0\0\0\0\0\0\0\0\0\0\
fmt \x34\0\0\0\0\0\0\0\x01\0\0\0\0\0\0\0\x01\0\0\0\x01\0\0\0\0\x11\x2b\0\x01\0\0\0\
\x0c\0\0\0\0\0\0\0\0\x10\0\0\0\0\0\0data\x0c\x10\0\0\0\0\0\0";

// Such a file, with these bits per sample and this first byte.
fn one_channel(bits: u8, first: u8) -> [u8; 4188] {
    let mut file = [0; 4188];
    file[..92].copy_from_slice(HEAD);
    file[60] = bits;
    file[92] = first;
    file
}

// The same of two channels, whose blocks begin with these bytes.
fn two_channels(first: [u8; 2]) -> [u8; 8284] {
    let mut file = [0; 8284];
    file[..92].copy_from_slice(HEAD);
    file[13] = 0x20; // bytes of the file
    file[48] = 2; // the channel type
    file[52] = 2;
    file[85] = 0x20; // bytes of the blocks, and 12
    file[92] = first[0];
    file[4188] = first[1];
    file
}

// Of a file that is coded by the first words: the status, whether the report is the first line, and whether these bytes stand in what
// is written; and the first part of decoding that by the second words into the file that isn't as expected.
type Back = (u8, bool, bool, Option<Part>);

fn coded_and_back(
    rt: &(impl Threads + Sync),
    alloc: Global,
    file: &[u8],
    words: [&str; 2],
    lines: [&str; 2],
    frame: &[u8],
) -> Result<Back, AllocError> {
    let encode = split(alloc, words[0])?;
    let mut source = HonestSource::new(file);
    let left = run_over(rt, alloc, &encode, &mut source, 20_000, &[], &[])?;
    let seen = left.seen(&[], lines[0]);
    let coded = left.sink.written();
    let has_frame = coded
        .windows(frame.len().max(1))
        .any(|bytes| bytes == frame);
    let differs = difference(rt, alloc, words[1], coded, 0, file, lines[1])?;
    Ok((seen.status, seen.is_reported, has_frame, differs))
}

#[test]
fn samples_of_either_order_are_coded_and_come_back(rt: HostRuntime) {
    let words = [
        "encode-dsf in.dsf out.dff --level 0",
        "decode-dsf in.dff out.dsf",
    ];
    let lines = [
        "coded 1 frames into 4705 bytes\n",
        "decoded 1 frames into 2 bytes\n",
    ];
    for &(bits, first) in &[(1, 1), (8, 0x80)] {
        let file = one_channel(bits, first);
        // The plain form, its sound 80 00, and silence.
        let back = coded_and_back(&rt, rt.alloc(), &file, words, lines, &[0, 0x80, 0, 0x69]);
        assert_eq!(rt; back, Ok((0, true, true, None)), "{bits} bits");
    }
}

#[test]
fn bytes_of_two_channels_stand_in_turn(rt: HostRuntime) {
    let file = two_channels([1, 2]);
    let words = [
        "encode-dsf in.dsf out.dff --level 0 --workers 2",
        "decode-dsf in.dff out.dsf --workers 3",
    ];
    let lines = [
        "coded 1 frames into 9409 bytes\n",
        "decoded 1 frames into 4 bytes\n",
    ];
    let frame = [0, 0x80, 0x40, 0, 0, 0x69];
    let back = coded_and_back(&rt, rt.alloc(), &file, words, lines, &frame);
    assert_eq!(rt; back, Ok((0, true, true, None)));
}

#[test]
fn a_file_is_refused_by_what_its_head_says(rt: HostRuntime) {
    let mut file = one_channel(1, 1);
    file[84] = 11;
    let differs = difference(
        &rt,
        rt.alloc(),
        "encode-dsf in.dsf out.dff",
        &file,
        5,
        &[],
        "file refused: 31 DsfCount 12 4107\n",
    );
    assert_eq!(rt; differs, Ok(None));
}
