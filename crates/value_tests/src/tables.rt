// Residuals and tables in worked examples.
ghost use Rattle.std.specs.Prelude.{◌≤◌, ◌≤ℤ◌, pos, negsuc};

use crate::compared::same;
use bit_io::{BitReader, BitWriter};
use dst_num::{FilterTable, FrameFault, ProbTable, Reason};
use std::alloc::{AllocError, Global};
use table_code::{
    Filters, Probs, Spelling, best_spelling, read_table, rice_length, rice_read, rice_write,
    write_table,
};

// At the start of few bytes: the number that so many bits are, and the residual with the place behind it; none of more bytes than 272.
type Read = (Option<u32>, Option<(Option<i32>, u64)>);

fn read_of(bytes: &[u8], length: u32, m: u32) -> Read
    requires { m ≤ 7 }
{
    if bytes.len() > 272 {
        return (None, None);
    }
    let number = BitReader::new(bytes).read(length.min(32));
    let mut reader = BitReader::new(bytes);
    let _left = reader.left();
    let residual = rice_read(&mut reader, m);
    (number, Some((residual, reader.place())))
}

// Of a residual that is written: how many bits it says that it takes, whether it fits, how many it took, how many bytes they are, the number
// that these bits are, and what is read of them.
type Written = (
    u32,
    bool,
    u64,
    usize,
    Option<u32>,
    Option<(Option<i32>, u64)>,
);

fn written(writer: &mut BitWriter, r: i32, m: u32) -> Written
    requires least { negsuc 2047 ≤ℤ r }
    requires greatest { r ≤ℤ pos 2047 }
    requires most { m ≤ 7 }
{
    writer.clear();
    let length = rice_length(r, m);
    let fits = rice_write(writer, r, m);
    let took = writer.length();
    writer.finish();
    let bytes = writer.bytes();
    let (number, residual) = read_of(bytes, length, m);
    (length, fits, took, bytes.len(), number, residual)
}

// The same for one of few residuals, written into one byte.
fn written_in_one_byte(alloc: Global, r: i32, m: u32) -> Option<Written> {
    if r < -5 || 5 < r || 2 < m {
        return None;
    }
    match BitWriter::new(alloc, 1) {
        Ok(mut writer) => Some(written(&mut writer, r, m)),
        Err(_) => None,
    }
}

#[test]
fn residuals_have_their_bits(rt: HostRuntime) {
    // each residual with m, and its bits as a number
    const CASES: [(i32, u32, u32, u32); 5] = [
        (0, 0, 0b1, 1),
        (-1, 0, 0b011, 3),
        (5, 1, 0b00110, 5),
        (-5, 1, 0b00111, 5),
        (0, 2, 0b100, 3),
    ];
    for &(r, m, bits, length) in &CASES {
        let place = u64::from(length);
        let read = Some((Some(r), place));
        same(
            &rt,
            &written_in_one_byte(rt.alloc(), r, m),
            &Some((length, true, place, 1, Some(bits), read)),
        );
    }
}

// The first residual that isn't read back by m as it was written, and what is seen of it.
fn first_other(alloc: Global, m: u32) -> Result<Option<(i32, Written)>, AllocError>
    requires { m ≤ 7 }
{
    let mut writer = BitWriter::new(alloc, 272)?;
    for size in 0..4096u32 {
        let r = size as i32 - 2048;
        let seen = written(&mut writer, r, m);
        let length = u64::from(seen.0);
        if (seen.1, seen.2, seen.5) != (true, length, Some((Some(r), length))) {
            return Ok(Some((r, seen)));
        }
    }
    Ok(None)
}

#[test]
fn every_residual_is_read_back(rt: HostRuntime) {
    for m in 0..8u32 {
        same(&rt, &(m, first_other(rt.alloc(), m)), &(m, Ok(None)));
    }
}

#[test]
fn cut_residual_leaves_the_reader(rt: HostRuntime) {
    let mut reader = BitReader::new(&[0x00]);
    let _left = reader.left();
    let residual = rice_read(&mut reader, 0);
    same(
        &rt,
        &(residual, reader.place(), reader.left()),
        &(None, 0, 8),
    );
}

// The least spelling of a filter with these coefficients, and its length.
fn filter_spelling(coefs: &[i16]) -> Option<(Spelling, u32)> {
    match FilterTable::new(coefs) {
        Some(table) => Some(best_spelling::<Filters>(&table)),
        None => None,
    }
}

// The same of a table of probabilities.
fn probs_spelling(entries: &[u8]) -> Option<(Spelling, u32)> {
    match ProbTable::new(entries) {
        Some(table) => Some(best_spelling::<Probs>(&table)),
        None => None,
    }
}

#[test]
fn tables_take_their_least_spelling(rt: HostRuntime) {
    let by_method_0 = Spelling::Coded { method: 0, rice: 0 };
    let by_method_1 = Spelling::Coded { method: 1, rice: 0 };
    same(
        &rt,
        &(
            filter_spelling(&[10, 20, 30]),
            filter_spelling(&[0; 128]),
            probs_spelling(&[128, 128]),
            probs_spelling(&[1, 1]),
            probs_spelling(&[128]),
        ),
        &(
            Some((by_method_1, 32)),
            Some((by_method_0, 149)),
            Some((by_method_0, 20)),
            Some((by_method_0, 20)),
            Some((Spelling::Plain, 6)),
        ),
    );
}

// A filter and a table of probabilities behind each other: 0000010 1 01 000001010 000010100 000 1, then 000001 1 00 1111111 000 1.
const TWO_TABLES: [u8; 7] = [0x05, 0x41, 0x41, 0x41, 0x06, 0x7f, 0x10];

// Whether both fit into eight bytes, and the filter once more behind them, the length, and whether they are the bytes above.
type TwoTables = ([bool; 3], u64, bool);

fn write_tables(
    alloc: Global,
    filter: &FilterTable,
    probs: &ProbTable,
) -> Result<TwoTables, AllocError> {
    let mut writer = BitWriter::new(alloc, 8)?;
    let fit = [
        write_table::<Filters>(filter, &mut writer),
        write_table::<Probs>(probs, &mut writer),
        write_table::<Filters>(filter, &mut writer),
    ];
    let length = writer.length();
    writer.finish();
    Ok((fit, length, writer.bytes() == TWO_TABLES.as_slice()))
}

fn write_two_tables(alloc: Global) -> Option<Result<TwoTables, AllocError>> {
    let filter = FilterTable::new(&[10, 20, 30])?;
    let probs = ProbTable::new(&[128, 128])?;
    Some(write_tables(alloc, &filter, &probs))
}

#[test]
fn tables_are_written(rt: HostRuntime) {
    let wanted = ([true, true, false], 52, true);
    same(&rt, &write_two_tables(rt.alloc()), &Some(Ok(wanted)));
}

// Whether the filter and the probabilities at the start of the bytes above are those that were written, and the place behind them.
fn read_two_tables() -> Result<(bool, bool, u64), FrameFault> {
    let mut reader = BitReader::new(&TWO_TABLES);
    let _left = reader.left();
    let filter = read_table::<Filters>(&mut reader)?;
    let _left = reader.left();
    let probs = read_table::<Probs>(&mut reader)?;
    let has_coefs = filter.coefs() == [10, 20, 30].as_slice();
    let has_entries = probs.entries() == [128, 128].as_slice();
    Ok((has_coefs, has_entries, reader.place()))
}

#[test]
fn written_tables_are_read_back(rt: HostRuntime) {
    same(&rt, &read_two_tables(), &Ok((true, true, 52)));
}

// Whether a filter of four values by method 2 has 1 as its last, and the place behind it.
fn read_by_method_2() -> Result<(bool, u64), FrameFault> {
    // 0000011 1 10, 0, 0 and 1 in nine bits each, 000, 1
    let mut reader = BitReader::new(&[0x07, 0x80, 0x00, 0x00, 0x08, 0x80]);
    let _left = reader.left();
    let table = read_table::<Filters>(&mut reader)?;
    Ok((table.coefs() == [0, 0, 1, 1].as_slice(), reader.place()))
}

#[test]
fn fourth_value_by_method_2_is_1(rt: HostRuntime) {
    same(&rt, &read_by_method_2(), &Ok((true, 41)));
}

// The fault of a filter in few bytes.
fn filter_fault(bytes: &[u8]) -> Option<FrameFault> {
    if bytes.len() > 4 {
        return None;
    }
    let mut reader = BitReader::new(bytes);
    let _left = reader.left();
    read_table::<Filters>(&mut reader).err()
}

#[test]
fn first_field_at_fault_is_answered(rt: HostRuntime) {
    const CASES: [(&[u8], Reason, u64); 4] = [
        // 0000010 1, then 11
        (&[0x05, 0xc0], Reason::MethodReserved, 8),
        // 0000001 1, then 10
        (&[0x03, 0x80], Reason::TableTooShort, 8),
        // 0000001 1 00 011111111 000, then 010: 255 and 1 more
        (&[0x03, 0x1f, 0xe1, 0x00], Reason::CoefRange, 22),
        // 0000001 1 00 011111111 000, then 01
        (&[0x03, 0x1f, 0xe1], Reason::Truncated, 22),
    ];
    for &(bytes, reason, bit) in &CASES {
        same(&rt, &filter_fault(bytes), &Some(FrameFault { reason, bit }));
    }
}
