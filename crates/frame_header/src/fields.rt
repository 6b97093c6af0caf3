// Single fields of a header.
ghost use Rattle.std.specs.Prelude.{◌≡◌, ◌+◌, ◌<◌, ◌≤◌, ◌^◌, replicate, ◌++◌, IfOk, IfErr};
ghost use Rattle.dst_spec.specs.Bits.{low_bits, number_from};
ghost use Rattle.dst_spec.specs.Map.{map_bits as bits_behind};
ghost use Rattle.dst_spec.specs.Fields.{gives, field, number};
ghost use Rattle.dst_spec.specs.Offends.{end_rule, number_rule, stuffing_rule};
ghost use Rattle.bit_io.specs.Reading.{left, HasRead, HasPassed, IsAtFault};

use bit_io::BitReader;
use dst_num::{FrameFault, Reason};

/// The number of a field of `n` bits, at most 32, that has no rule.
pub(crate) fn read_number(reader: &mut BitReader, n: u32) -> Result<u32, FrameFault>
    requires { n ≤ 32 }
    ensures read { IfOk result (λ v. HasRead (number n) reader.old v reader.new) }
    ensures first { IfOk result (λ v. v ≡ number_from (left reader.old) 0 n) }
    ensures fits { IfOk result (λ v. v < 2 ^ n) }
    ensures bits { IfOk result (λ v. left reader.old ≡ low_bits n v ++ left reader.new) }
    ensures place { IfOk result (λ _. reader.new.place ≡ reader.old.place + n) }
    ensures fault { IfErr result (IsAtFault (number n) reader.old) }
    ensures bytes { reader.new.bytes ≡ reader.old.bytes }
{
    let bit = reader.place();
    match reader.read(n) {
        Some(value) => Ok(value),
        None => Err(FrameFault {
            reason: Reason::Truncated,
            bit,
        }),
    }
}

/// Passes the end bit of a channel with one segment.
pub(crate) fn read_end(reader: &mut BitReader) -> Result<(), FrameFault>
    ensures read { IfOk result (λ _. HasPassed (field 1 end_rule gives) reader.old reader.new) }
    ensures fault { IfErr result (IsAtFault (field 1 end_rule gives) reader.old) }
    ensures bytes { reader.new.bytes ≡ reader.old.bytes }
{
    let bit = reader.place();
    match read_number(reader, 1) {
        Ok(0) => Err(FrameFault {
            reason: Reason::MultiSegment,
            bit,
        }),
        Ok(_) => Ok(()),
        Err(fault) => Err(fault),
    }
}

/// The number of a channel's table, behind `count` different numbers.
pub(crate) fn read_map_number(reader: &mut BitReader, count: u32) -> Result<u32, FrameFault>
    ensures read { IfOk result (λ e. HasRead (field (bits_behind count) (number_rule count) gives) reader.old e reader.new) }
    ensures most { IfOk result (λ e. e < 8) }
    ensures fault { IfErr result (IsAtFault (field (bits_behind count) (number_rule count) gives) reader.old) }
    ensures bytes { reader.new.bytes ≡ reader.old.bytes }
{
    let bit = reader.place();
    match read_number(reader, map_bits(count)) {
        Ok(element) => {
            if element > count {
                return Err(FrameFault {
                    reason: Reason::MapSkips,
                    bit,
                });
            }
            Ok(element)
        }
        Err(fault) => Err(fault),
    }
}

/// How many bits the next number of a map has, behind `count` different ones.
pub(crate) fn map_bits(count: u32) -> u32
    ensures bits { result ≡ bits_behind count }
    ensures most { result ≤ 3 }
{
    if count < 2 {
        1
    } else if count < 4 {
        2
    } else {
        3
    }
}

/// Passes the six bits of a plain frame that are 0.
pub(crate) fn read_stuffing(reader: &mut BitReader) -> Result<(), FrameFault>
    ensures read { IfOk result (λ _. HasRead (field 6 stuffing_rule gives) reader.old 0 reader.new) }
    ensures zeros { IfOk result (λ _. left reader.old ≡ replicate 6 0 ++ left reader.new) }
    ensures place { IfOk result (λ _. reader.new.place ≡ reader.old.place + 6) }
    ensures fault { IfErr result (IsAtFault (field 6 stuffing_rule gives) reader.old) }
    ensures bytes { reader.new.bytes ≡ reader.old.bytes }
{
    let bit = reader.place();
    match read_number(reader, 6) {
        Ok(0) => Ok(()),
        Ok(_) => Err(FrameFault {
            reason: Reason::PlainStuffing,
            bit,
        }),
        Err(fault) => Err(fault),
    }
}
