// The shortest spelling of a table.
ghost use Rattle.std.specs.Prelude.{◌≡◌, ◌+◌, ◌*◌, ◌<◌, ◌≤◌, true, false, nat_lt, if◌then◌else◌, length, reverse, take, drop};
ghost use Rattle.std.specs.List.{AllByRecursion, fold, sum_by};
ghost use Rattle.dst_spec.specs.Table.{InRange, IsTable, is_alone as is_alone_of, table_bits};
ghost use Rattle.dst_spec.specs.Rice.{rice as rice_of};
ghost use Rattle.dst_spec.specs.Spell.{shortest as shortest_of};
ghost use Rattle.table_code.specs.Spellings.{spelled};
ghost use Rattle.table_code.specs.Choices.{shorter as shorter_of, of_method, IsChoice, residuals as residuals_of, IsResidual};

use crate::TableKind;
use crate::kinds::{is_alone, values_of};
use crate::prediction::eighth;
use crate::rice::rice_length;
use arrayvec::ArrayVec;

/// How a table is spelled behind its length.
#[derive(Clone, Copy, Debug, Drop, PartialEq, Eq)]
pub enum Spelling {
    /// Each value plain.
    Plain,
    /// By method 0, 1 or 2, with the Rice number `rice`, 0 to 7.
    Coded { method: u8, rice: u8 },
}

/// The shortest spelling of a table, and how many bits the table takes in it. Of equally short ones it is the first in the
/// order plain, then by method, then by Rice number. A table that is its length alone is spelled plain.
pub fn best_spelling<K: TableKind>(table: &K::Table) -> (Spelling, u32)
    ensures spelling { spelled result.0 ≡ shortest_of K.kind (K.values table.now) }
    ensures length { result.1 ≡ length (table_bits K.kind (K.values table.now) (shortest_of K.kind (K.values table.now))) }
{
    let values = values_of::<K>(table);
    shortest::<K>(values.as_slice())
}

/// The shortest spelling of a table of these values, with its length in bits.
pub(crate) fn shortest<K: TableKind>(values: &[i32]) -> (Spelling, u32)
    requires { IsTable K.kind values.now }
    ensures spelling { spelled result.0 ≡ shortest_of K.kind values.now }
    ensures choice { IsChoice K.kind values.now (spelled result.0) result.1 }
{
    let mut best = (Spelling::Plain, plain_length::<K>(values.len()));
    if is_alone::<K>(values.len()) {
        return best;
    }
    for method in 0..3u8 {
        best = shortest_by_method::<K>(values, method, best);
    }
    best
}

// The shortest spelling by a method, if it is shorter than the best one so far.
fn shortest_by_method<K: TableKind>(
    values: &[i32],
    method: u8,
    best: (Spelling, u32),
) -> (Spelling, u32)
    requires table { IsTable K.kind values.now }
    requires together { is_alone_of K.kind (length values.now) ≡ false }
    requires method { method < 3 }
    requires choice { IsChoice K.kind values.now (spelled best.0) best.1 }
    ensures spelling { spelled result.0 ≡ fold (shorter_of K.kind values.now) (spelled best.0) (of_method method 8) }
    ensures choice { IsChoice K.kind values.now (spelled result.0) result.1 }
{
    if usize::from(method) >= values.len() {
        return best;
    }
    let residuals = residuals::<K>(values, u32::from(method));
    let front = K::LENGTH_BITS + 6 + (u32::from(method) + 1) * K::VALUE_BITS;
    let mut best = best;
    for rice in 0..8u8 {
        let length = front + lengths(residuals.as_slice(), u32::from(rice));
        best = shorter(best, Spelling::Coded { method, rice }, length);
    }
    best
}

// The best spelling so far with its length, or another one that is shorter.
fn shorter(best: (Spelling, u32), other: Spelling, length: u32) -> (Spelling, u32)
    ensures { result ≡ (if nat_lt length best.1 then (other, length) else best) }
{
    if length < best.1 {
        (other, length)
    } else {
        best
    }
}

// How many bits a plain table of so many values takes.
fn plain_length<K: TableKind>(count: usize) -> u32
    requires some { 1 ≤ count }
    requires most { count ≤ 128 }
    ensures alone { is_alone_of K.kind count ≡ true → result ≡ K.kind.length_bits }
    ensures together { is_alone_of K.kind count ≡ false → result ≡ K.kind.length_bits + 1 + count * K.kind.value_bits }
{
    if is_alone::<K>(count) {
        K::LENGTH_BITS
    } else {
        K::LENGTH_BITS + 1 + count as u32 * K::VALUE_BITS
    }
}

/// The residuals that a method leaves of values.
pub(crate) fn residuals<K: TableKind>(values: &[i32], method: u32) -> ArrayVec<i32, 128>
    requires method { method < 3 }
    requires enough { method < length values.now }
    requires most { length values.now ≤ 128 }
    requires each { AllByRecursion (InRange K.kind) values.now }
    ensures residuals { result.items ≡ residuals_of (K.kind.weights method) (reverse (take (method + 1) values.now)) (drop (method + 1) values.now) }
    ensures each { AllByRecursion IsResidual result.items }
{
    let mut residuals = ArrayVec::new();
    for j in method as usize + 1..values.len() {
        residuals.push(values[j] + eighth::<K>(&values[..j], method));
    }
    residuals
}

// How many bits residuals take.
fn lengths(residuals: &[i32], m: u32) -> u32
    requires most { length residuals.now ≤ 128 }
    requires small { m ≤ 7 }
    requires each { AllByRecursion IsResidual residuals.now }
    ensures sum { result ≡ sum_by (λ r. length (rice_of r m)) residuals.now }
    ensures most { result ≤ 263296 }
{
    let mut sum = 0;
    for r in residuals {
        sum += rice_length(*r, m);
    }
    sum
}
