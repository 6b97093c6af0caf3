// Tables read field by field.
ghost use Rattle.std.specs.Prelude.{◌≡◌, ◌+◌, ◌^◌, ◌<◌, ◌≤◌, ◌++◌, ℕ, List, length, reverse, if◌then◌else◌, Some, None, IfNone, IfSome, IfOk, IfErr, Ok, Err};
ghost use Rattle.std.specs.List.{AllByRecursion};
ghost use Rattle.dst_spec.specs.Table.{HasTable, InRange};
ghost use Rattle.dst_spec.specs.Fields.{gives, field, number, read};
ghost use Rattle.dst_spec.specs.Offends.{times, value_of, plain_fields, range_rule, method_rule, coded_fields, body_fields, table_fields};
ghost use Rattle.dst_spec.specs.declared.faults.Reason.TheVariants.{CoefRange, ProbRange};
ghost use Rattle.bit_io.specs.Reading.{left, HasRead, IsAtFault};
ghost use Rattle.table_code.specs.Parts.{later_field, later_rest};

use crate::TableKind;
use crate::kinds::is_alone;
use crate::prediction::eighth;
use crate::rice::rice_read;
use arrayvec::ArrayVec;
use bit_io::BitReader;
use dst_num::{FrameFault, Reason};

/// Reads a table. The fault is the first field that is cut short or breaks its rule; then the reader's place is open.
pub fn read_table<K: TableKind>(reader: &mut BitReader) -> Result<K::Table, FrameFault>
    requires { length (left reader.old) ≤ 2000000 }
    ensures table { IfOk result (λ t. read (table_fields K.kind) (left reader.old) reader.old.place ≡ Ok (K.values t, left reader.new, reader.new.place)) }
    ensures spelled { IfOk result (λ t. (w : List ℕ) × HasTable K.kind (K.values t) w × (left reader.old ≡ w ++ left reader.new) × (reader.new.place ≡ reader.old.place + length w)) }
    ensures fault { IfErr result (λ fault. read (table_fields K.kind) (left reader.old) reader.old.place ≡ Err fault) }
    ensures bytes { reader.new.bytes ≡ reader.old.bytes }
{
    let values = read_values::<K>(reader)?;
    match K::from_values(values.as_slice()) {
        Some(table) => Ok(table),
        None => unreachable!(),
    }
}

// Reads the values of a table.
fn read_values<K: TableKind>(reader: &mut BitReader) -> Result<ArrayVec<i32, 128>, FrameFault>
    requires { length (left reader.old) ≤ 2000000 }
    ensures values { IfOk result (λ v. HasRead (table_fields K.kind) reader.old v.items reader.new) }
    ensures fault { IfErr result (IsAtFault (table_fields K.kind) reader.old) }
    ensures bytes { reader.new.bytes ≡ reader.old.bytes }
{
    let longer = read_number(reader, K::LENGTH_BITS)?;
    let count = longer as usize + 1;
    if is_alone::<K>(count) {
        let mut values = ArrayVec::new();
        values.push(K::GREATEST);
        return Ok(values);
    }
    read_body::<K>(reader, count)
}

// Reads the values of a table behind its length.
fn read_body<K: TableKind>(
    reader: &mut BitReader,
    count: usize,
) -> Result<ArrayVec<i32, 128>, FrameFault>
    requires short { length (left reader.old) ≤ 2000000 }
    requires most { count ≤ 128 }
    ensures values { IfOk result (λ v. HasRead (body_fields K.kind count) reader.old v.items reader.new) }
    ensures fault { IfErr result (IsAtFault (body_fields K.kind count) reader.old) }
    ensures bytes { reader.new.bytes ≡ reader.old.bytes }
{
    let coded = read_number(reader, 1)?;
    if coded == 0 {
        read_plain::<K>(reader, count)
    } else {
        read_coded::<K>(reader, count)
    }
}

// Reads a coded table behind the bit that says so.
fn read_coded<K: TableKind>(
    reader: &mut BitReader,
    count: usize,
) -> Result<ArrayVec<i32, 128>, FrameFault>
    requires short { length (left reader.old) ≤ 2000000 }
    requires most { count ≤ 128 }
    ensures values { IfOk result (λ v. HasRead (coded_fields K.kind count) reader.old v.items reader.new) }
    ensures fault { IfErr result (IsAtFault (coded_fields K.kind count) reader.old) }
    ensures bytes { reader.new.bytes ≡ reader.old.bytes }
{
    let method = read_method(reader, count)?;
    let mut values = read_plain::<K>(reader, method as usize + 1)?;
    let m = read_number(reader, 3)?;
    read_later::<K>(reader, count, method, m, &mut values)?;
    Ok(values)
}

// Reads the later values of a table, each by its residual, behind those that are there.
fn read_later<K: TableKind>(
    reader: &mut BitReader,
    count: usize,
    method: u32,
    m: u32,
    values: &mut ArrayVec<i32, 128>,
) -> Result<(), FrameFault>
    requires short { length (left reader.old) ≤ 2000000 }
    requires most { count ≤ 128 }
    requires method { method < 3 }
    requires small { m < 8 }
    requires some { method + 1 ≤ length values.old.items }
    requires few { length values.old.items ≤ count }
    requires each { AllByRecursion (InRange K.kind) values.old.items }
    ensures values { IfOk result (λ _. HasRead (later_rest K.kind (K.kind.weights method) m count values.old.items) reader.old values.new.items reader.new) }
    ensures fault { IfErr result (IsAtFault (later_rest K.kind (K.kind.weights method) m count values.old.items) reader.old) }
    ensures bytes { reader.new.bytes ≡ reader.old.bytes }
{
    for _ in values.len()..count {
        let value = read_later_value::<K>(reader, values.as_slice(), method, m)?;
        values.push(value);
    }
    Ok(())
}

// Reads the value behind earlier ones by its residual.
fn read_later_value<K: TableKind>(
    reader: &mut BitReader,
    earlier: &[i32],
    method: u32,
    m: u32,
) -> Result<i32, FrameFault>
    requires short { length (left reader.old) ≤ 2000000 }
    requires method { method < 3 }
    requires small { m < 8 }
    requires some { method + 1 ≤ length earlier.now }
    requires each { AllByRecursion (InRange K.kind) earlier.now }
    ensures value { IfOk result (λ v. HasRead (later_field K.kind (K.kind.weights method) m (reverse earlier.now)) reader.old v reader.new) }
    ensures fault { IfErr result (IsAtFault (later_field K.kind (K.kind.weights method) m (reverse earlier.now)) reader.old) }
    ensures range { IfOk result (InRange K.kind) }
    ensures fewer { IfOk result (λ _. length (left reader.new) ≤ length (left reader.old)) }
    ensures bytes { reader.new.bytes ≡ reader.old.bytes }
{
    let bit = reader.place();
    let Some(residual) = rice_read(reader, m) else {
        return Err(fault(Reason::Truncated, bit));
    };
    let value = i64::from(residual) - i64::from(eighth::<K>(earlier, method));
    match within_range::<K>(value) {
        Some(value) => Ok(value),
        None => Err(fault(range_reason::<K>(), bit)),
    }
}

// The value, if a table of the kind may hold it.
fn within_range<K: TableKind>(value: i64) -> Option<i32>
    ensures none { IfNone result (range_rule K.kind value ≡ Some (if K.kind.lone then ProbRange else CoefRange)) }
    ensures met { IfSome result (λ _. range_rule K.kind value ≡ None) }
    ensures value { IfSome result (λ v. v ≡ value) }
{
    if value < i64::from(K::LEAST) {
        return None;
    }
    if value > i64::from(K::GREATEST) {
        return None;
    }
    Some(value as i32)
}

// Why another value is refused.
fn range_reason<K: TableKind>() -> Reason
    ensures { result ≡ (if K.kind.lone then ProbRange else CoefRange) }
{
    if K::LONE {
        Reason::ProbRange
    } else {
        Reason::CoefRange
    }
}

// Reads so many values plain.
fn read_plain<K: TableKind>(
    reader: &mut BitReader,
    count: usize,
) -> Result<ArrayVec<i32, 128>, FrameFault>
    requires { count ≤ 128 }
    ensures values { IfOk result (λ v. HasRead (times count (plain_fields K.kind)) reader.old v.items reader.new) }
    ensures fault { IfErr result (IsAtFault (times count (plain_fields K.kind)) reader.old) }
    ensures length { IfOk result (λ v. length v.items ≡ count) }
    ensures each { IfOk result (λ v. AllByRecursion (InRange K.kind) v.items) }
    ensures fewer { IfOk result (λ _. length (left reader.new) ≤ length (left reader.old)) }
    ensures bytes { reader.new.bytes ≡ reader.old.bytes }
{
    let mut values = ArrayVec::new();
    for _ in 0..count {
        values.push(read_plain_value::<K>(reader)?);
    }
    Ok(values)
}

// Reads a value plain.
fn read_plain_value<K: TableKind>(reader: &mut BitReader) -> Result<i32, FrameFault>
    ensures value { IfOk result (λ v. HasRead (plain_fields K.kind) reader.old v reader.new) }
    ensures fault { IfErr result (IsAtFault (plain_fields K.kind) reader.old) }
    ensures range { IfOk result (InRange K.kind) }
    ensures fewer { IfOk result (λ _. length (left reader.new) ≤ length (left reader.old)) }
    ensures bytes { reader.new.bytes ≡ reader.old.bytes }
{
    let number = read_number(reader, K::VALUE_BITS)?;
    Ok(plain_value::<K>(number))
}

// The value that a plain number spells.
fn plain_value<K: TableKind>(number: u32) -> i32
    requires { number < 2 ^ K.kind.value_bits }
    ensures { result ≡ value_of K.kind number }
{
    let number = number as i32;
    let least = K::LEAST;
    if least >= 0 {
        number + least
    } else if number < 1 << (K::VALUE_BITS - 1) {
        number
    } else {
        number - (1 << K::VALUE_BITS)
    }
}

// Reads the method of a table of so many values.
fn read_method(reader: &mut BitReader, count: usize) -> Result<u32, FrameFault>
    ensures method { IfOk result (λ v. HasRead (field 2 (method_rule count) gives) reader.old v reader.new) }
    ensures fault { IfErr result (IsAtFault (field 2 (method_rule count) gives) reader.old) }
    ensures few { IfOk result (λ method. method < 3) }
    ensures enough { IfOk result (λ method. method + 1 ≤ count) }
    ensures fewer { IfOk result (λ _. length (left reader.new) ≤ length (left reader.old)) }
    ensures bytes { reader.new.bytes ≡ reader.old.bytes }
{
    let bit = reader.place();
    let method = read_number(reader, 2)?;
    if method == 3 {
        return Err(fault(Reason::MethodReserved, bit));
    }
    if count < method as usize + 1 {
        return Err(fault(Reason::TableTooShort, bit));
    }
    Ok(method)
}

// Reads a number without a rule.
fn read_number(reader: &mut BitReader, n: u32) -> Result<u32, FrameFault>
    requires { n ≤ 32 }
    ensures number { IfOk result (λ v. HasRead (number n) reader.old v reader.new) }
    ensures fault { IfErr result (IsAtFault (number n) reader.old) }
    ensures below { IfOk result (λ x. x < 2 ^ n) }
    ensures fewer { IfOk result (λ _. length (left reader.new) ≤ length (left reader.old)) }
    ensures bytes { reader.new.bytes ≡ reader.old.bytes }
{
    let bit = reader.place();
    match reader.read(n) {
        Some(number) => Ok(number),
        None => Err(fault(Reason::Truncated, bit)),
    }
}

// A fault at a bit.
fn fault(reason: Reason, bit: u64) -> FrameFault
    ensures { result ≡ record { reason = reason; bit = bit } }
{
    FrameFault { reason, bit }
}
