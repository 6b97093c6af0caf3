// Files that are coded and decoded again, at each level and by several workers.
use super::files::two_seconds;
use dst_make::make_file;
use dst_num::Channels;
use dst_streams::{HonestSource, MemorySink, MemorySource};
use std::alloc::{AllocError, Global};
use std::test::Fail;
use std::thread::Threads;
use top_call::{Left, run_over, split};

// What is left where the plain file is coded by these words.
fn coded(
    rt: &(impl Threads + Sync),
    alloc: Global,
    text: &str,
    plain: &[u8],
) -> Result<Left<'static>, AllocError> {
    let words = split(alloc, text)?;
    let mut source = HonestSource::new(plain);
    run_over(rt, alloc, &words, &mut source, 1_500_000, &[], &[])
}

// Whether a coded file is decoded to the plain one.
fn is_decoded(
    rt: &(impl Threads + Sync),
    alloc: Global,
    coded: &[u8],
    plain: &[u8],
) -> Result<bool, AllocError> {
    let words = split(alloc, "decode a b --workers 2")?;
    let mut source = HonestSource::new(coded);
    let left = run_over(rt, alloc, &words, &mut source, 1_500_000, &[], &[])?;
    Ok(left.status == 0 && left.sink.written() == plain)
}

// What is left where the plain file is coded by these words, and whether it is coded and comes back.
fn comes_back(
    rt: &(impl Threads + Sync),
    alloc: Global,
    text: &str,
    plain: &[u8],
) -> Result<(Left<'static>, bool), AllocError> {
    let left = coded(rt, alloc, text, plain)?;
    let is_plain = is_decoded(rt, alloc, left.sink.written(), plain)?;
    let is_back = left.status == 0 && is_plain;
    Ok((left, is_back))
}

// The size of the coded file, and whether it comes back.
fn size_back(
    rt: &(impl Threads + Sync),
    alloc: Global,
    text: &str,
    plain: &[u8],
) -> Result<(usize, bool), AllocError> {
    let (left, is_back) = comes_back(rt, alloc, text, plain)?;
    Ok((left.sink.written().len(), is_back))
}

// The size of a stored frame, by its place in the index, so far in front of the end.
fn size_in(file: &[u8], from_end: usize) -> Option<u32> {
    let place = file.len().checked_sub(from_end)?;
    match &file[place..] {
        [a, b, c, d, ..] => Some(u32::from_be_bytes([*a, *b, *c, *d])),
        _ => None,
    }
}

// The sizes of three stored frames: `KEPT`, of 58 bytes, ends the file.
fn three_sizes(file: &[u8]) -> [Option<u32>; 3] {
    [size_in(file, 86), size_in(file, 74), size_in(file, 62)]
}

// The sizes of the stored frames of a file, and whether it comes back.
type Sizes = ([Option<u32>; 3], bool);

// Those at level 1, by one worker and, the same file, by more.
fn sizes_by_many(
    rt: &(impl Threads + Sync),
    alloc: Global,
    plain: &[u8],
) -> Result<Sizes, AllocError> {
    let (one, mut is_back) = comes_back(rt, alloc, "encode a b --level 1", plain)?;
    for text in &["encode a b --workers 5", "encode a b --workers 16"] {
        is_back = is_same(rt, alloc, text, plain, one.sink.written())? && is_back;
    }
    Ok((three_sizes(one.sink.written()), is_back))
}

// Whether the plain file is coded to this one by these words, and comes back.
fn is_same(
    rt: &(impl Threads + Sync),
    alloc: Global,
    text: &str,
    plain: &[u8],
    wanted: &[u8],
) -> Result<bool, AllocError> {
    let (left, is_back) = comes_back(rt, alloc, text, plain)?;
    Ok(is_back && left.sink.written() == wanted)
}

// Those at level 2, by four workers.
fn sizes_at_two(
    rt: &(impl Threads + Sync),
    alloc: Global,
    plain: &[u8],
) -> Result<Sizes, AllocError> {
    let (two, is_back) = comes_back(rt, alloc, "encode a b --level 2 --workers 4", plain)?;
    Ok((three_sizes(two.sink.written()), is_back))
}

// Of a made sound of six channels: the sizes of its stored frames at levels 1 and 2, and whether it comes back.
fn sizes_of_six(
    rt: &(impl Threads + Sync),
    alloc: Global,
    six: Channels,
) -> Result<(Sizes, Sizes), Fail> {
    let mut made = MemorySink::new(alloc, 84_818, &[])?;
    if make_file(alloc, &mut made, 7, 3, six).is_err() {
        return Err("not made")?;
    }
    let one = sizes_by_many(rt, alloc, made.written())?;
    let two = sizes_at_two(rt, alloc, made.written())?;
    Ok((one, two))
}

// Whether each stored frame at level 2 is no longer than at level 1, and that no longer than its plain form.
fn are_no_longer(one: [Option<u32>; 3], two: [Option<u32>; 3]) -> bool {
    for (one, two) in one.iter().zip(two.iter()) {
        match (*one, *two) {
            (Some(one), Some(two)) if two <= one && one <= 28_225 => {}
            _ => return false,
        }
    }
    true
}

#[test]
fn a_made_sound_of_six_channels_comes_back_at_each_level(rt: HostRuntime) -> Result<(), Fail> {
    let six = Channels::new(6).ok_or("no channels")?;
    let ((one, one_back), (two, two_back)) = sizes_of_six(&rt, rt.alloc(), six)?;
    let right = (one_back, two_back, are_no_longer(one, two));
    assert_eq!(rt; right, (true, true, true), "{two:?} and {one:?} bytes");
    Ok(())
}

// The size of a made file of one frame, and whether it comes back.
fn longest_back(
    rt: &(impl Threads + Sync),
    alloc: Global,
    longest: Channels,
) -> Result<(usize, bool), Fail> {
    let mut made = MemorySink::new(alloc, 113_042, &[])?;
    if make_file(alloc, &mut made, 7, 1, longest).is_err() {
        return Err("not made")?;
    }
    let (_, is_back) = size_back(rt, alloc, "encode a b --level 2", made.written())?;
    Ok((made.written().len(), is_back))
}

#[test]
fn the_longest_frame_comes_back(rt: HostRuntime) -> Result<(), Fail> {
    let longest = Channels::at(6, 4).ok_or("no channels")?;
    let back = longest_back(&rt, rt.alloc(), longest)?;
    assert_eq!(rt; back, (146 + 112_896, true));
    Ok(())
}

// The size of the plain file of two seconds, and of the file that each of two texts codes it to, and whether that comes back.
type Seconds = (usize, (usize, bool), (usize, bool));

fn seconds_back(rt: &(impl Threads + Sync), alloc: Global) -> Result<Seconds, AllocError> {
    let plain = two_seconds(alloc)?;
    let stored = size_back(rt, alloc, "encode a b --level 0 --workers 2", &plain)?;
    let shorter = size_back(rt, alloc, "encode a b --workers 4", &plain)?;
    Ok((plain.len(), stored, shorter))
}

// The status where the source of it fails at call 2, and whether nothing is written.
fn seconds_failing(rt: &(impl Threads + Sync), alloc: Global) -> Result<(u8, bool), AllocError> {
    let plain = two_seconds(alloc)?;
    let words = split(alloc, "encode a b")?;
    let mut source = MemorySource::new(&plain, &[], &[2]);
    let left = run_over(rt, alloc, &words, &mut source, 1_500_000, &[], &[])?;
    Ok((left.status, left.sink.written().is_empty()))
}

#[test]
fn chunks_besides_the_sound_come_back(rt: HostRuntime) -> Result<(), Fail> {
    let (size, stored, (shorter, is_back)) = seconds_back(&rt, rt.alloc())?;
    assert_eq!(rt; (size, stored), (1_411_405, (1_415_389, true)));
    assert!(rt; is_back && shorter < 1_415_389);
    assert_eq!(rt; seconds_failing(&rt, rt.alloc()), Ok((2, true)));
    Ok(())
}
