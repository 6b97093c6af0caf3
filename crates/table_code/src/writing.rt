// Tables written in their shortest spelling.
ghost use Rattle.std.specs.Prelude.{◌≡◌, ◌+◌, ◌^◌, ◌<◌, ◌≤◌, ◌↔◌, ◌++◌, false, IsTrue, length};
ghost use Rattle.std.specs.List.{AllByRecursion, flat_map};
ghost use Rattle.dst_spec.specs.Bits.{low_bits};
ghost use Rattle.dst_spec.specs.Rice.{rice as rice_of};
ghost use Rattle.dst_spec.specs.Table.{InRange, IsTable, Suits, plain, coded, plain_value as plain_value_of, plain_values, body, table_bits};
ghost use Rattle.dst_spec.specs.Spell.{shortest as shortest_of};
ghost use Rattle.table_code.specs.Spellings.{spelled};
ghost use Rattle.table_code.specs.Choices.{IsResidual};

use crate::appending::append;
use crate::kinds::{is_alone, values_of};
use crate::rice::rice_write;
use crate::spelling::{residuals, shortest};
use crate::{Spelling, TableKind};
use bit_io::BitWriter;

/// Writes a table in its shortest spelling. False, with nothing written, where its bits don't fit.
pub fn write_table<K: TableKind>(table: &K::Table, writer: &mut BitWriter) -> bool
    ensures written { IsTrue result ↔ (length (table_bits K.kind (K.values table.now) (shortest_of K.kind (K.values table.now))) ≤ writer.old.room) }
    ensures unchanged { result ≡ false → writer.new ≡ writer.old }
    ensures bits { IsTrue result → writer.new.bits ≡ writer.old.bits ++ table_bits K.kind (K.values table.now) (shortest_of K.kind (K.values table.now)) }
    ensures room { IsTrue result → writer.new.room + length (table_bits K.kind (K.values table.now) (shortest_of K.kind (K.values table.now))) ≡ writer.old.room }
{
    let values = values_of::<K>(table);
    let (spelling, length) = shortest::<K>(values.as_slice());
    if writer.room() < u64::from(length) {
        return false;
    }
    append_table::<K>(writer, values.as_slice(), spelling);
    true
}

// Writes a table in a spelling that there is room for.
fn append_table<K: TableKind>(writer: &mut BitWriter, values: &[i32], spelling: Spelling)
    requires table { IsTable K.kind values.now }
    requires suits { Suits K.kind values.now (spelled spelling) }
    requires room { length (table_bits K.kind values.now (spelled spelling)) ≤ writer.old.room }
    ensures bits { writer.new.bits ≡ writer.old.bits ++ table_bits K.kind values.now (spelled spelling) }
    ensures room { writer.new.room + length (table_bits K.kind values.now (spelled spelling)) ≡ writer.old.room }
{
    append(writer, values.len() as u32 - 1, K::LENGTH_BITS);
    if !is_alone::<K>(values.len()) {
        append_body::<K>(writer, values, spelling);
    }
}

// Writes what follows the length of a table.
fn append_body<K: TableKind>(writer: &mut BitWriter, values: &[i32], spelling: Spelling)
    requires table { IsTable K.kind values.now }
    requires suits { Suits K.kind values.now (spelled spelling) }
    requires room { length (body K.kind values.now (spelled spelling)) ≤ writer.old.room }
    ensures bits { writer.new.bits ≡ writer.old.bits ++ body K.kind values.now (spelled spelling) }
    ensures room { writer.new.room + length (body K.kind values.now (spelled spelling)) ≡ writer.old.room }
{
    match spelling {
        Spelling::Plain => append_plain::<K>(writer, values),
        Spelling::Coded { method, rice } => {
            append_coded::<K>(writer, values, u32::from(method), u32::from(rice));
        }
    }
}

// Writes what follows the length of a plain table.
fn append_plain<K: TableKind>(writer: &mut BitWriter, values: &[i32])
    requires each { AllByRecursion (InRange K.kind) values.now }
    requires room { length (body K.kind values.now plain) ≤ writer.old.room }
    ensures bits { writer.new.bits ≡ writer.old.bits ++ body K.kind values.now plain }
    ensures room { writer.new.room + length (body K.kind values.now plain) ≡ writer.old.room }
{
    append(writer, 0, 1);
    append_values::<K>(writer, values);
}

// Writes what follows the length of a coded table.
fn append_coded<K: TableKind>(writer: &mut BitWriter, values: &[i32], method: u32, m: u32)
    requires table { IsTable K.kind values.now }
    requires method { method < 3 }
    requires enough { method + 1 ≤ length values.now }
    requires small { m < 8 }
    requires room { length (body K.kind values.now (coded method m)) ≤ writer.old.room }
    ensures bits { writer.new.bits ≡ writer.old.bits ++ body K.kind values.now (coded method m) }
    ensures room { writer.new.room + length (body K.kind values.now (coded method m)) ≡ writer.old.room }
{
    append(writer, 4 + method, 3);
    append_values::<K>(writer, &values[..method as usize + 1]);
    append(writer, m, 3);
    let residuals = residuals::<K>(values, method);
    append_residuals(writer, residuals.as_slice(), m);
}

// Writes values plain.
fn append_values<K: TableKind>(writer: &mut BitWriter, values: &[i32])
    requires each { AllByRecursion (InRange K.kind) values.now }
    requires room { length (plain_values K.kind values.now) ≤ writer.old.room }
    ensures bits { writer.new.bits ≡ writer.old.bits ++ plain_values K.kind values.now }
    ensures room { writer.new.room + length (plain_values K.kind values.now) ≡ writer.old.room }
{
    for value in values {
        append(writer, plain_number::<K>(*value), K::VALUE_BITS);
    }
}

// The number that spells a value plainly.
fn plain_number<K: TableKind>(value: i32) -> u32
    requires { InRange K.kind value }
    ensures bits { low_bits K.kind.value_bits result ≡ plain_value_of K.kind value }
    ensures fits { result < 2 ^ K.kind.value_bits }
{
    if K::LEAST >= 0 {
        (value - K::LEAST) as u32
    } else if value >= 0 {
        value as u32
    } else {
        (value + (1 << K::VALUE_BITS)) as u32
    }
}

// Writes residuals.
fn append_residuals(writer: &mut BitWriter, residuals: &[i32], m: u32)
    requires small { m < 8 }
    requires each { AllByRecursion IsResidual residuals.now }
    requires room { length (flat_map (λ r. rice_of r m) residuals.now) ≤ writer.old.room }
    ensures bits { writer.new.bits ≡ writer.old.bits ++ flat_map (λ r. rice_of r m) residuals.now }
    ensures room { writer.new.room + length (flat_map (λ r. rice_of r m) residuals.now) ≡ writer.old.room }
{
    for r in residuals {
        rice_write(writer, *r, m);
    }
}
