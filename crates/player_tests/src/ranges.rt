// Parts of a small file, by its bytes.
ghost use Rattle.std.specs.Prelude.{◌≤◌, length};

use dsdiff_chunks::{FileFault, OpenFault};
use dst_num::{FrameFault, Reason};
use dst_ranges::{RangeWritten, range_out};
use dst_read::DecodeFault;
use dst_streams::{HonestSource, MemorySink};
use std::alloc::{AllocError, Global};

// Three frames of one channel, whose bodies stand at places 140, 158 and 176. The first means bytes FF, the second 00, the third AA.
const THREE_FRAMES: [u8; 182] =
    *b"FRM8\0\0\0\0\0\0\0\xaaDSD FVER\0\0\0\0\0\0\0\x04\x01\x05\0\0PROP\0\0\0\0\0\0\0\x36SND FS  \0\0\0\0\0\0\0\x04\0\x2b\x11\0CHNL\0\0\0\0\0\0\0\x06\0\x01C   CMPR\0\0\0\0\0\0\0\x04DST DST \0\0\0\0\0\0\0\x48FRTE\0\0\0\0\0\0\0\x06\0\0\0\x03\0\x4bDSTF\0\0\0\0\0\0\0\x06\xfc\0\0\x05\xff\xf8DSTF\0\0\0\0\0\0\0\x06\xfc\0\x01\x05\xff\xf8DSTF\0\0\0\0\0\0\0\x06\xfc\x01\xff\x05\xff\xf8";

// What writing parts of a file answers, and whether these bytes are written.
type Seen = (Result<RangeWritten, DecodeFault>, bool);

// The sink holds so many bytes, and of its calls these fail.
fn parts(
    alloc: Global,
    file: &[u8],
    room: usize,
    fails: &[u64],
    pairs: &[(u32, u32)],
    wanted: &[u8],
) -> Result<Seen, AllocError>
    requires { length pairs.now ≤ 16 }
{
    let mut source = HonestSource::new(file);
    let mut sink = MemorySink::new(alloc, room, fails)?;
    let answer = range_out(alloc, &mut source, &mut sink, pairs);
    Ok((answer, sink.written() == wanted))
}

#[test]
fn parts_are_written_pair_by_pair(rt: HostRuntime) {
    let pairs = [(9_407, 2), (4_703, 2), (14_110, 2), (0, 1)];
    let wanted = [0, 0xaa, 0xff, 0, 0xaa, 0xaa, 0xff];
    let seen = parts(rt.alloc(), &THREE_FRAMES, 7, &[], &pairs, &wanted);
    assert_eq!(rt; seen, Ok((Ok(RangeWritten { bytes: 7 }), true)));
}

#[test]
fn a_pair_past_the_end_is_refused(rt: HostRuntime) {
    let pairs = [(0, 1), (14_111, 2)];
    let seen = parts(rt.alloc(), &THREE_FRAMES, 9, &[], &pairs, &[]);
    let fault = FileFault::RangePast {
        end: 14_113,
        groups: 14_112,
    };
    let refused = DecodeFault::Source(OpenFault::File(fault));
    assert_eq!(rt; seen, Ok((Err(refused), true)));
}

#[test]
fn no_call_is_made_for_no_bytes(rt: HostRuntime) {
    let pairs = [(4_704, 0), (14_112, 0)];
    let seen = parts(rt.alloc(), &THREE_FRAMES, 0, &[0], &pairs, &[]);
    assert_eq!(rt; seen, Ok((Ok(RangeWritten { bytes: 0 }), true)));
}

#[test]
fn a_refused_frame_stops_in_front_of_its_part(rt: HostRuntime) {
    let mut file = THREE_FRAMES;
    file[158] = 0xe0;
    let pairs = [(9_408, 1), (4_703, 2)];
    let seen = parts(rt.alloc(), &file, 9, &[], &pairs, &[0xaa, 0xff]);
    let fault = FrameFault {
        reason: Reason::MultiSegment,
        bit: 3,
    };
    let refused = DecodeFault::Frame { frame: 1, fault };
    assert_eq!(rt; seen, Ok((Err(refused), true)));
}

// What writing a part of four bytes into a sink of one byte answers.
fn part_in_one_byte(alloc: Global) -> Result<Result<RangeWritten, DecodeFault>, AllocError> {
    let (answer, _) = parts(alloc, &THREE_FRAMES, 1, &[], &[(4_702, 4)], &[])?;
    Ok(answer)
}

#[test]
fn a_full_sink_stops_the_parts(rt: HostRuntime) {
    let answer = part_in_one_byte(rt.alloc());
    assert_eq!(rt; answer, Ok(Err(DecodeFault::Write)));
}
