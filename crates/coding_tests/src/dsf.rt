// A DSF file written by hand, of twelve samples of one channel.
ghost use Rattle.std.specs.Prelude.{◌<◌, ◌≤◌};

use crate::compared::same;
use crate::no_pick::NoPick;
use dsdiff_chunks::{FileFault, OpenFault};
use dst_dsf::{decode_dsf, encode_dsf};
use dst_read::{DecodeFault, Decoded};
use dst_streams::{HonestSource, MemorySink, MemorySource};
use dst_write::{EncodeFault, Encoded};
use frame_crew::OpenGate;
use std::alloc::{AllocError, Global};
use std::thread::Threads;

// The header of a file of twelve samples, with 1 bit per sample.
const HEAD: &[u8; 92] = b"DSD \x1c\0\0\0\0\0\0\0\x5c\x10\0\0\0\0\0\0\0\0\0\0\0\0\0\0\
fmt \x34\0\0\0\0\0\0\0\x01\0\0\0\0\0\0\0\x01\0\0\0\x01\0\0\0\0\x11\x2b\0\x01\0\0\0\
\x0c\0\0\0\0\0\0\0\0\x10\0\0\0\0\0\0data\x0c\x10\0\0\0\0\0\0";

// What stands around the one frame of the coded file, whose sound begins with the bytes 80 and 00.
const FRONT: &[u8; 155] = b"FRM8\0\0\0\0\0\0\x13\x5aDSD \
FVER\0\0\0\0\0\0\0\x04\x01\x05\0\0\
PROP\0\0\0\0\0\0\0\x42SND \
FS  \0\0\0\0\0\0\0\x04\0\x2b\x11\0\
CHNL\0\0\0\0\0\0\0\x06\0\x01C000\
CMPR\0\0\0\0\0\0\0\x10DST \x0bDST Encoded\
DST \0\0\0\0\0\0\x12\x80\
FRTE\0\0\0\0\0\0\0\x06\0\0\0\x01\0\x4b\
DSTF\0\0\0\0\0\0\x12\x61\0\x80\0";

const END: &[u8; 109] = b"\0DSTI\0\0\0\0\0\0\0\x0c\0\0\0\0\0\0\0\x98\0\0\x12\x61\
KEPT\0\0\0\0\0\0\0\x2e\x02\0\0\0\0\0\0\0\x02\0\0\0\0\0\
CMPR\0\0\0\0\0\0\0\x13DSD \x0enot compressed\0\
DSFK\0\0\0\0\0\0\0\x0e\x01\0\0\0\0\0\0\0\x0c\0\0\0\x01\x01";

// A file with this header, and a block that begins with a byte.
fn file_of(header: &[u8; 92], first: u8) -> [u8; 4188] {
    let mut file = [0; 4188];
    file[..92].copy_from_slice(header);
    file[92] = first;
    file
}

// The coded file: the front, the frame's other bytes, which are silence, and the end.
fn coded() -> [u8; 4966] {
    let mut file = [0x69; 4966];
    file[..155].copy_from_slice(FRONT);
    file[4857..].copy_from_slice(END);
    file
}

type EncodeAnswer = Result<Encoded, EncodeFault>;

type DecodeAnswer = Result<Decoded, DecodeFault>;

// What coding a file by so many workers answers, and whether these bytes are written.
fn encoded<R: Threads + Sync>(
    rt: &R,
    alloc: Global,
    file: &[u8],
    workers: u32,
    wanted: &[u8],
) -> Result<(EncodeAnswer, bool), AllocError>
    requires { (0 < workers) × (workers ≤ 16) }
{
    let mut source = HonestSource::new(file);
    let mut sink = MemorySink::new(alloc, 5000, &[])?;
    let answer = encode_dsf(
        rt,
        alloc,
        &mut source,
        &mut sink,
        &NoPick,
        workers,
        &OpenGate,
    );
    Ok((answer, sink.written() == wanted))
}

#[test]
fn twelve_samples_are_coded_in_a_frame(rt: HostRuntime) {
    let answer = encoded(&rt, rt.alloc(), &file_of(HEAD, 1), 4, &coded());
    let done = Encoded {
        frames: 1,
        bytes: 4705,
    };
    same(&rt, &answer, &Ok((Ok(done), true)));
}

#[test]
fn a_size_of_blocks_that_is_too_small_is_refused(rt: HostRuntime) {
    let mut file = file_of(HEAD, 1);
    file[84] = 11;
    let answer = encoded(&rt, rt.alloc(), &file, 1, &[]);
    let fault = FileFault::DsfCount {
        samples: 12,
        size: 4107,
    };
    let refused = EncodeFault::Source(OpenFault::File(fault));
    same(&rt, &answer, &Ok((Err(refused), true)));
}

// What coding the file answers where this call of the source fails.
fn encode_unread<R: Threads + Sync>(
    rt: &R,
    alloc: Global,
    turn: u64,
) -> Result<EncodeAnswer, AllocError> {
    let file = file_of(HEAD, 1);
    let fails = [turn];
    let mut source = MemorySource::new(&file, &[], &fails);
    let mut sink = MemorySink::new(alloc, 5000, &[])?;
    Ok(encode_dsf(rt, alloc, &mut source, &mut sink, &NoPick, 1, &OpenGate))
}

// The same where this call of the sink fails.
fn encode_unwritten<R: Threads + Sync>(
    rt: &R,
    alloc: Global,
    turn: u64,
) -> Result<EncodeAnswer, AllocError> {
    let file = file_of(HEAD, 1);
    let fails = [turn];
    let mut source = HonestSource::new(&file);
    let mut sink = MemorySink::new(alloc, 5000, &fails)?;
    Ok(encode_dsf(rt, alloc, &mut source, &mut sink, &NoPick, 1, &OpenGate))
}

// The last of sixty calls of the sink whose failing is answered; or the first that is answered as another fault, and that fault.
fn last_answered_of_coding<R: Threads + Sync>(
    rt: &R,
    alloc: Global,
) -> Result<u64, (u64, Result<EncodeAnswer, AllocError>)> {
    let mut last = 0u64;
    for turn in 0..60u64 {
        match encode_unwritten(rt, alloc, turn) {
            Ok(Ok(_)) => {}
            Ok(Err(EncodeFault::Write)) => last = turn,
            other => return Err((turn, other)),
        }
    }
    Ok(last)
}

#[test]
fn a_call_of_a_device_that_fails_is_answered(rt: HostRuntime) {
    let alloc = rt.alloc();
    let reads = [
        encode_unread(&rt, alloc, 0),
        encode_unread(&rt, alloc, 1),
        encode_unread(&rt, alloc, 2),
    ];
    let last = last_answered_of_coding(&rt, alloc).map(|last| last > 15 && last < 59);
    let unread = Ok(Err(EncodeFault::Source(OpenFault::Read)));
    same(&rt, &(reads, last), &([unread; 3], Ok(true)));
}

// What decoding a file by so many workers answers, and whether these bytes are written.
fn decoded<R: Threads + Sync>(
    rt: &R,
    alloc: Global,
    file: &[u8],
    workers: u32,
    wanted: &[u8],
) -> Result<(DecodeAnswer, bool), AllocError>
    requires { (0 < workers) × (workers ≤ 16) }
{
    let mut source = HonestSource::new(file);
    let mut sink = MemorySink::new(alloc, 5000, &[])?;
    let answer = decode_dsf(rt, alloc, &mut source, &mut sink, workers, &OpenGate);
    Ok((answer, sink.written() == wanted))
}

#[test]
fn the_coded_file_is_decoded_to_the_samples(rt: HostRuntime) {
    let answer = decoded(&rt, rt.alloc(), &coded(), 4, &file_of(HEAD, 1));
    let done = Decoded {
        frames: 1,
        bytes: 2,
    };
    same(&rt, &answer, &Ok((Ok(done), true)));
}

#[test]
fn seventeen_samples_of_two_bytes_are_refused(rt: HostRuntime) {
    let mut file = coded();
    file[4960] = 17;
    let answer = decoded(&rt, rt.alloc(), &file, 1, &[]);
    let refused = DecodeFault::Source(OpenFault::File(FileFault::DsfKeptBad));
    same(&rt, &answer, &Ok((Err(refused), true)));
}

// What decoding the coded file answers where this call of the source fails.
fn decode_unread<R: Threads + Sync>(
    rt: &R,
    alloc: Global,
    turn: u64,
) -> Result<DecodeAnswer, AllocError> {
    let file = coded();
    let fails = [turn];
    let mut source = MemorySource::new(&file, &[], &fails);
    let mut sink = MemorySink::new(alloc, 5000, &[])?;
    Ok(decode_dsf(rt, alloc, &mut source, &mut sink, 1, &OpenGate))
}

// The same where this call of the sink fails.
fn decode_unwritten<R: Threads + Sync>(
    rt: &R,
    alloc: Global,
    turn: u64,
) -> Result<DecodeAnswer, AllocError> {
    let file = coded();
    let fails = [turn];
    let mut source = HonestSource::new(&file);
    let mut sink = MemorySink::new(alloc, 5000, &fails)?;
    Ok(decode_dsf(rt, alloc, &mut source, &mut sink, 1, &OpenGate))
}

// The last of sixty calls of the source and of the sink whose failing is answered; or the first that is answered as another fault, and that fault.
fn last_answered_of_decoding<R: Threads + Sync>(
    rt: &R,
    alloc: Global,
) -> Result<(u64, u64), (u64, Result<DecodeAnswer, AllocError>)> {
    let mut last = (0u64, 0u64);
    for turn in 0..60u64 {
        match decode_unread(rt, alloc, turn) {
            Ok(Ok(_)) => {}
            Ok(Err(DecodeFault::Source(OpenFault::Read))) => last.0 = turn,
            other => return Err((turn, other)),
        }
        match decode_unwritten(rt, alloc, turn) {
            Ok(Ok(_)) => {}
            Ok(Err(DecodeFault::Write)) => last.1 = turn,
            other => return Err((turn, other)),
        }
    }
    Ok(last)
}

#[test]
fn a_device_that_fails_in_decoding_is_answered(rt: HostRuntime) {
    let last = last_answered_of_decoding(&rt, rt.alloc());
    let are_late = last.map(|(read, write)| read > 10 && write > 10);
    same(&rt, &are_late, &Ok(true));
}
