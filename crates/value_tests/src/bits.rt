// Readers and writers at their edges.
use crate::compared::same;
use bit_io::{BitReader, BitSlice, BitWriter};
use std::alloc::{AllocError, Global};

// Which of six numbers fit into three bytes, the length and the room then and behind the end, and whether the bytes are those that are wanted.
type Put = ([bool; 6], [(u64, u64); 2], bool);

fn put_six(alloc: Global) -> Result<Put, AllocError> {
    let mut writer = BitWriter::new(alloc, 3)?;
    let put = [
        writer.put(0, 0),
        writer.put(5, 3),
        writer.put(9, 4),
        writer.put(0x1ab, 9),
        writer.put(1, 9),
        writer.put(3, 2),
    ];
    let before = (writer.length(), writer.room());
    writer.finish();
    let behind = (writer.length(), writer.room());
    // 101 1001 110101011 11 000000
    let are_held = writer.bytes() == [0xb3, 0xab, 0xc0].as_slice();
    Ok((put, [before, behind], are_held))
}

#[test]
fn numbers_are_put_behind_each_other(rt: HostRuntime) {
    let put = [true, true, true, true, false, true];
    let rooms = [(18, 6), (24, 0)];
    same(&rt, &put_six(rt.alloc()), &Ok((put, rooms, true)));
}

// A number that is read, one with a sign, the place behind them, and how many bits are left.
type Read = (Option<u32>, Option<i32>, u64, u64);

// Of three bytes: what is read within them and what past their end, where the rest begins and how many bytes it has, and a number padded with
// zeros, the place behind it and how many bits are left.
type Reads = ([Read; 2], (u64, usize), (u32, u64, u64));

fn read_three_bytes() -> Reads {
    let mut reader = BitReader::new(&[0xb3, 0xab, 0xc0]);
    let within = (
        reader.read(3),
        reader.read_signed(4),
        reader.place(),
        reader.left(),
    );
    let past = (
        reader.read(18),
        reader.read_signed(18),
        reader.place(),
        reader.left(),
    );
    let rest = reader.rest();
    let behind = (rest.first, rest.bytes.len());
    let padded = (reader.read_or_zero(32), reader.place(), reader.left());
    ([within, past], behind, padded)
}

#[test]
fn numbers_are_read_behind_each_other(rt: HostRuntime) {
    let reads = [(Some(5), Some(-7), 7, 17), (None, None, 7, 17)];
    same(
        &rt,
        &read_three_bytes(),
        &(reads, (7, 3), (0xd5e0_0000, 39, 0)),
    );
}

// Whether a bit fits in no bytes, the length and the room, and how many bytes are held.
fn put_in_no_bytes(alloc: Global) -> Result<(bool, u64, u64, usize), AllocError> {
    let mut writer = BitWriter::new(alloc, 0)?;
    let put = writer.put(1, 1);
    Ok((put, writer.length(), writer.room(), writer.bytes().len()))
}

#[test]
fn no_bit_fits_in_no_bytes(rt: HostRuntime) {
    same(&rt, &put_in_no_bytes(rt.alloc()), &Ok((false, 0, 0, 0)));
}

// A number of 1 to 32 bits at a place of nine bytes, the same with a sign, and whether it is the same where zeros may pad it, if it is there.
fn read_at(place: u32, n: u32) -> Option<(Option<u32>, Option<i32>, bool)> {
    if n < 1 || 32 < n {
        return None;
    }
    let slice = BitSlice {
        bytes: &[0x01, 0x23, 0x45, 0x67, 0x89, 0xab, 0xcd, 0xef, 0xff],
        first: u64::from(place),
    };
    let number = BitReader::over(slice).read(n);
    let signed = BitReader::over(slice).read_signed(n);
    let padded = BitReader::over(slice).read_or_zero(n);
    Some((number, signed, number.unwrap_or(padded) == padded))
}

#[test]
fn numbers_are_read_at_every_place(rt: HostRuntime) {
    // a place, how many bits, whether they are there, and if so their number and the same with a sign
    const CASES: [(u32, u32, bool, u32, i32); 10] = [
        (0, 32, true, 0x0123_4567, 0x0123_4567),
        (4, 32, true, 0x1234_5678, 0x1234_5678),
        (7, 32, true, 0x91a2_b3c4, -0x6e5d_4c3c),
        (37, 32, true, 0x3579_bdff, 0x3579_bdff),
        (40, 32, true, 0xabcd_efff, -0x5432_1001),
        (41, 32, false, 0, 0),
        (63, 9, true, 0x1ff, -1),
        (64, 1, true, 1, -1),
        (72, 1, false, 0, 0),
        (90, 1, false, 0, 0),
    ];
    for &(place, n, is_there, number, signed) in &CASES {
        let wanted = (is_there.then_some(number), is_there.then_some(signed), true);
        same(
            &rt,
            &(place, n, read_at(place, n)),
            &(place, n, Some(wanted)),
        );
    }
}

// Whether eleven bits are put into two bytes, the length and the room when they are cleared, whether sixteen are put then, and whether
// these are held.
fn put_anew(alloc: Global) -> Result<(bool, (u64, u64), bool, bool), AllocError> {
    let mut writer = BitWriter::new(alloc, 2)?;
    let before = writer.put(0x7ff, 11);
    writer.clear();
    let cleared = (writer.length(), writer.room());
    let anew = writer.put(0x8001, 16);
    writer.finish();
    let are_held = writer.bytes() == [0x80, 0x01].as_slice();
    Ok((before, cleared, anew, are_held))
}

#[test]
fn cleared_writers_begin_anew(rt: HostRuntime) {
    let wanted = (true, (0, 16), true, true);
    same(&rt, &put_anew(rt.alloc()), &Ok(wanted));
}
