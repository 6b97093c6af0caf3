// Reads of small files with one, two and 64 frames held.
ghost use Rattle.std.specs.Prelude.{◌≡◌, ◌≤◌, ℕ, Some};

use dsdiff_chunks::{FileFault, Form, OpenFault, open_form};
use dst_num::{FrameFault, Reason};
use dst_streams::{HonestSource, Source};
use frame_cache::{RangeFault, RangeReader, Reading};
use frame_index::walk;
use std::alloc::Global;

// Three frames of one channel, whose bodies stand at places 140, 158 and 176. The first means bytes FF, the second 00, the third AA.
const THREE_FRAMES: [u8; 182] =
    *b"FRM8\0\0\0\0\0\0\0\xaaDSD FVER\0\0\0\0\0\0\0\x04\x01\x05\0\0PROP\0\0\0\0\0\0\0\x36SND FS  \0\0\0\0\0\0\0\x04\0\x2b\x11\0CHNL\0\0\0\0\0\0\0\x06\0\x01C   CMPR\0\0\0\0\0\0\0\x04DST DST \0\0\0\0\0\0\0\x48FRTE\0\0\0\0\0\0\0\x06\0\0\0\x03\0\x4bDSTF\0\0\0\0\0\0\0\x06\xfc\0\0\x05\xff\xf8DSTF\0\0\0\0\0\0\0\x06\xfc\0\x01\x05\xff\xf8DSTF\0\0\0\0\0\0\0\x06\xfc\x01\xff\x05\xff\xf8";

// One byte of the sound, and how many frames were decoded for it; or the frame that is refused.
type Byte = Result<(u8, u32), RangeFault>;

fn byte_at<S: Source>(reader: &mut RangeReader, source: &mut S, from: u64) -> Byte
    requires { (n : ℕ) × (S.known source.old ≡ Some n) × (reader.old.end ≤ n) }
    ensures { (n : ℕ) × (S.known source.new ≡ Some n) × (reader.new.end ≤ n) }
{
    let mut part = [0; 1];
    if from >= reader.size() {
        return Err(RangeFault::Read);
    }
    let reading = reader.read(source, from, &mut part)?;
    Ok((part[0], reading.decoded))
}

// Three bytes of a file's sound, read one after the other, and the order behind them.
type ThreeBytes = ([Byte; 3], [Option<u32>; 3]);

fn three_bytes(
    alloc: Global,
    file: &[u8],
    capacity: u32,
    places: [u64; 3],
) -> Result<ThreeBytes, OpenFault>
    requires least { 1 ≤ capacity }
    requires most { capacity ≤ 64 }
{
    let mut source = HonestSource::new(file);
    let Form::Coded(form) = open_form(alloc, &mut source)? else {
        return Err(OpenFault::File(FileFault::NotCoded));
    };
    let index = walk(alloc, &mut source, &form)?;
    let mut reader = match RangeReader::new(alloc, &form, index, capacity) {
        Ok(reader) => reader,
        Err(refused) => return Err(OpenFault::Memory(refused)),
    };
    let first = byte_at(&mut reader, &mut source, places[0]);
    let second = byte_at(&mut reader, &mut source, places[1]);
    let third = byte_at(&mut reader, &mut source, places[2]);
    Ok((
        [first, second, third],
        [reader.key(0), reader.key(1), reader.key(2)],
    ))
}

#[test]
fn one_frame_is_held(rt: HostRuntime) {
    let seen = three_bytes(rt.alloc(), &THREE_FRAMES, 1, [0, 9_408, 1]);
    let bytes = [Ok((0xff, 1)), Ok((0xaa, 1)), Ok((0xff, 1))];
    assert_eq!(rt; seen, Ok((bytes, [Some(0), None, None])));
}

#[test]
fn two_frames_are_held(rt: HostRuntime) {
    let seen = three_bytes(rt.alloc(), &THREE_FRAMES, 2, [0, 9_408, 1]);
    let bytes = [Ok((0xff, 1)), Ok((0xaa, 1)), Ok((0xff, 0))];
    assert_eq!(rt; seen, Ok((bytes, [Some(0), Some(2), None])));
}

#[test]
fn a_refused_frame_leaves_the_reader_serving(rt: HostRuntime) {
    let mut file = THREE_FRAMES;
    file[158] = 0xe0;
    let seen = three_bytes(rt.alloc(), &file, 64, [0, 4_704, 9_408]);
    let fault = FrameFault {
        reason: Reason::MultiSegment,
        bit: 3,
    };
    let refused = RangeFault::Frame { frame: 1, fault };
    let bytes = [Ok((0xff, 1)), Err(refused), Ok((0xaa, 1))];
    assert_eq!(rt; seen, Ok((bytes, [Some(2), Some(0), None])));
}

// The size of the sound, what reading a part of all three frames answers, and two bytes at each of its ends.
type Part = (u64, Option<Result<Reading, RangeFault>>, [u8; 4]);

fn part_of_three(alloc: Global) -> Result<Part, OpenFault> {
    let mut source = HonestSource::new(&THREE_FRAMES);
    let Form::Coded(form) = open_form(alloc, &mut source)? else {
        return Err(OpenFault::File(FileFault::NotCoded));
    };
    let index = walk(alloc, &mut source, &form)?;
    let mut reader = match RangeReader::new(alloc, &form, index, 64) {
        Ok(reader) => reader,
        Err(refused) => return Err(OpenFault::Memory(refused)),
    };
    let size = reader.size();
    let mut part = [1; 4_706];
    let reading = if size >= 9_409 {
        Some(reader.read(&mut source, 4_703, &mut part))
    } else {
        None
    };
    Ok((size, reading, [part[0], part[1], part[4_704], part[4_705]]))
}

#[test]
fn a_part_of_three_frames(rt: HostRuntime) {
    let reading = Some(Ok(Reading { decoded: 3 }));
    assert_eq!(rt;
        part_of_three(rt.alloc()),
        Ok((14_112, reading, [0xff, 0, 0, 0xaa]))
    );
}
