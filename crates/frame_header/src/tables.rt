// Half bits, and tables one after the other.
ghost use Rattle.std.specs.Prelude.{◌≡◌, ◌≤◌, length, map, IfOk, IfErr};
ghost use Rattle.dst_spec.specs.Header.{bit_of};
ghost use Rattle.dst_spec.specs.Fields.{number};
ghost use Rattle.dst_spec.specs.Offends.{times, table_fields};
ghost use Rattle.bit_io.specs.Reading.{left, HasRead, IsAtFault};

use crate::fields::read_number;
use arrayvec::ArrayVec;
use bit_io::BitReader;
use dst_num::FrameFault;
use table_code::{TableKind, read_table};

/// The half bit of each channel.
pub(crate) fn read_half_bits(
    reader: &mut BitReader,
    channels: usize,
) -> Result<ArrayVec<bool, 6>, FrameFault>
    requires { channels ≤ 6 }
    ensures read { IfOk result (λ half_prob. HasRead (times channels (number 1)) reader.old (map bit_of half_prob.items) reader.new) }
    ensures fault { IfErr result (IsAtFault (times channels (number 1)) reader.old) }
    ensures bytes { reader.new.bytes ≡ reader.old.bytes }
{
    let mut half_prob = ArrayVec::new();
    for channel in 0..channels {
        let bit = read_number(reader, 1)?;
        half_prob.push(bit == 1);
    }
    Ok(half_prob)
}

/// So many tables, at most 6.
pub(crate) fn read_tables<K: TableKind>(
    reader: &mut BitReader,
    count: usize,
) -> Result<ArrayVec<K::Table, 6>, FrameFault>
where
    K::Table: Default + Drop,
    requires most { count ≤ 6 }
    requires few { length (left reader.old) ≤ 2000000 }
    ensures read { IfOk result (λ tables. HasRead (times count (table_fields K.kind)) reader.old (map K.values tables.items) reader.new) }
    ensures fault { IfErr result (IsAtFault (times count (table_fields K.kind)) reader.old) }
    ensures bytes { reader.new.bytes ≡ reader.old.bytes }
{
    let mut tables = ArrayVec::new();
    for read in 0..count {
        let table = read_table::<K>(reader)?;
        tables.push(table);
    }
    Ok(tables)
}
