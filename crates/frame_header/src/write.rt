// The header of a coded frame, written in its shortest spelling.
ghost use Rattle.std.specs.Prelude.{◌≡◌, ◌+◌, ◌*◌, ◌^◌, ◌≤◌, ◌↔◌, ◌++◌, length, IsTrue, false};
ghost use Rattle.dst_spec.specs.Spell.{header_spelling};
ghost use Rattle.frame_header.specs.Written.{tables_spelling, Wrote};

use crate::front::Front;
use bit_io::BitWriter;
use dst_num::Params;
use table_code::{Filters, Probs, TableKind, best_spelling, write_table};

/// Writes the bits in front of the arithmetic code, from the first bit, which is 1, on. False, with nothing written, where
/// they don't fit.
pub fn write_header(params: &Params, writer: &mut BitWriter) -> bool
    ensures written { IsTrue result ↔ (length (header_spelling params.now) ≤ writer.old.room) }
    ensures unchanged { result ≡ false → writer.new ≡ writer.old }
    ensures bits { IsTrue result → writer.new.bits ≡ writer.old.bits ++ header_spelling params.now }
    ensures room { IsTrue result → writer.new.room + length (header_spelling params.now) ≡ writer.old.room }
{
    let front = Front::of(params);
    let filters = params.filters.as_slice();
    let probs = params.probs.as_slice();
    let length = header_length(params);
    if length > writer.room() {
        return false;
    }
    front.write(writer);
    write_tables::<Filters>(filters, writer);
    write_tables::<Probs>(probs, writer);
    true
}

/// How many bits there are in front of the arithmetic code.
pub fn header_length(params: &Params) -> u64
    ensures length { result ≡ length (header_spelling params.now) }
    ensures most { result ≤ 2 ^ 36 }
{
    let front = Front::of(params);
    let filters = params.filters.as_slice();
    let probs = params.probs.as_slice();
    u64::from(front.length()) + tables_length::<Filters>(filters) + tables_length::<Probs>(probs)
}

// How many bits tables take, each in its shortest spelling.
fn tables_length<K: TableKind>(tables: &[K::Table]) -> u64
    requires { length tables.now ≤ 6 }
    ensures length { result ≡ length (tables_spelling K.kind K.values tables.now) }
    ensures most { result ≤ 6 * 2 ^ 32 }
{
    let mut length = 0;
    for table in tables {
        length += u64::from(best_spelling::<K>(table).1);
    }
    length
}

// Writes tables, each in its shortest spelling, for which there is room.
fn write_tables<K: TableKind>(tables: &[K::Table], writer: &mut BitWriter)
    requires { length (tables_spelling K.kind K.values tables.now) ≤ writer.old.room }
    ensures { Wrote writer.old (tables_spelling K.kind K.values tables.now) writer.new }
{
    for table in tables {
        write_table::<K>(table, writer);
    }
}
