// Kinds of tables: their numbers, and tables from values and back.
ghost use Rattle.std.specs.Prelude.{◌≡◌, ◌-◌, ◌+◌, ◌<◌, ◌≤◌, ℕ, ℤ, pos, Bool, List, length, get_or, IfNone, IfSome};
ghost use Rattle.dst_spec.specs.Table.{Kind, IsTable, is_alone as is_alone_of};
ghost use Rattle.table_code.specs.Kinds.{IsSmall, HasPlainValues, HasWeights};

use arrayvec::ArrayVec;
use dst_num::{FilterTable, ProbTable};

/// A kind of tables. Values are small numbers, at most 128 to a table.
pub trait TableKind {
    type Table;

    /// Bits of the length less 1.
    const LENGTH_BITS: u32;

    /// Bits of a plain value.
    const VALUE_BITS: u32;

    /// The least value. Where it is negative a plain value is in two's complement, else it is the value less this.
    const LEAST: i32;

    /// The greatest value.
    const GREATEST: i32;

    /// Whether a table of one value is its length alone, its value being the greatest.
    const LONE: bool;

    ghost LENGTH_BITS: { ℕ };

    ghost VALUE_BITS: { ℕ };

    ghost LEAST: { ℤ };

    ghost GREATEST: { ℤ };

    ghost LONE: { Bool };

    ghost kind: { Kind };

    ghost values: { Self.Table → List ℤ };

    /// The weight by which a method, 0 to 2, takes the value that stands `back` places before, 1 to method + 1.
    fn weight(method: u32, back: u32) -> i32
        requires method { method < 3 }
        requires some { 1 ≤ back }
        requires most { back ≤ method + 1 }
        ensures weight { result ≡ get_or (kind.weights method) (back - 1) (pos 0) };

    /// How many values a table has.
    fn length(table: &Self::Table) -> usize
        ensures length { result ≡ length (values table.now) }
        ensures table { IsTable kind (values table.now) };

    /// The value at a place.
    fn value(table: &Self::Table, j: usize) -> i32
        requires { j < length (values table.now) }
        ensures value { result ≡ get_or (values table.now) j (pos 0) };

    /// The table of these values, if there is one.
    fn from_values(numbers: &[i32]) -> Option<Self::Table>
        ensures none { IfNone result (IsTable kind numbers.now → ⊥) }
        ensures values { IfSome result (λ t. values t ≡ numbers.now) }
        ensures table { IfSome result (λ t. IsTable kind (values t)) };

    ghost length_bits: { LENGTH_BITS ≡ kind.length_bits };

    ghost value_bits: { VALUE_BITS ≡ kind.value_bits };

    ghost least: { LEAST ≡ kind.least };

    ghost greatest: { GREATEST ≡ kind.greatest };

    ghost lone: { LONE ≡ kind.lone };

    ghost small: { IsSmall kind };

    ghost plain_values: { HasPlainValues kind };

    ghost weights: { HasWeights kind };

    // from the values of a table comes that table
    ghost same: { (a b : Self.Table) → values a ≡ values b → a ≡ b };
}

/// Whether a table of so many values is its length alone.
pub(crate) fn is_alone<K: TableKind>(count: usize) -> bool
    ensures { result ≡ is_alone_of K.kind count }
{
    K::LONE && count == 1
}

/// The values of a table.
pub(crate) fn values_of<K: TableKind>(table: &K::Table) -> ArrayVec<i32, 128>
    ensures values { result.items ≡ K.values table.now }
    ensures table { IsTable K.kind result.items }
{
    let mut values = ArrayVec::new();
    for j in 0..K::length(table) {
        values.push(K::value(table, j));
    }
    values
}

/// Tables of the coefficients of a prediction filter.
pub struct Filters;

impl TableKind for Filters {
    ghost use Rattle.std.specs.Prelude.{pos, negsuc, false, refl};
    ghost use Rattle.dst_spec.specs.Table.{filter_kind};
    ghost use Rattle.table_code.specs.KindLaws.{filter_small, filter_plain, filter_weights};

    type Table = FilterTable;

    const LENGTH_BITS: u32 = 7;

    const VALUE_BITS: u32 = 9;

    const LEAST: i32 = -256;

    const GREATEST: i32 = 255;

    const LONE: bool = false;

    ghost LENGTH_BITS = { 7 };

    ghost VALUE_BITS = { 9 };

    ghost LEAST = { negsuc 255 };

    ghost GREATEST = { pos 255 };

    ghost LONE = { false };

    ghost kind = { filter_kind };

    ghost values = { λ t. t };

    fn weight(method: u32, back: u32) -> i32 {
        match (method, back) {
            (0, _) => -8,
            (1, 1) => -16,
            (1, _) => 8,
            (_, 1) => -9,
            (_, 2) => -5,
            (_, _) => 6,
        }
    }

    fn length(table: &FilterTable) -> usize {
        table.coefs().len()
    }

    fn value(table: &FilterTable, j: usize) -> i32 {
        i32::from(table.coefs()[j])
    }

    fn from_values(numbers: &[i32]) -> Option<FilterTable> {
        let mut coefs: ArrayVec<i16, 128> = ArrayVec::new();
        for number in numbers {
            if *number < -256 || *number > 255 || coefs.is_full() {
                return None;
            }
            coefs.push(*number as i16);
        }
        FilterTable::new(coefs.as_slice())
    }

    ghost length_bits = { refl };

    ghost value_bits = { refl };

    ghost least = { refl };

    ghost greatest = { refl };

    ghost lone = { refl };

    ghost small = { filter_small };

    ghost plain_values = { filter_plain };

    ghost weights = { filter_weights };

    ghost same = { λ a b e. e };
}

/// Tables of probabilities by the size of the prediction.
pub struct Probs;

impl TableKind for Probs {
    ghost use Rattle.std.specs.Prelude.{pos, true, map, refl};
    ghost use Rattle.dst_spec.specs.Table.{prob_kind};
    ghost use Rattle.table_code.specs.KindLaws.{prob_small, prob_plain, prob_weights, prob_same};

    type Table = ProbTable;

    const LENGTH_BITS: u32 = 6;

    const VALUE_BITS: u32 = 7;

    const LEAST: i32 = 1;

    const GREATEST: i32 = 128;

    const LONE: bool = true;

    ghost LENGTH_BITS = { 6 };

    ghost VALUE_BITS = { 7 };

    ghost LEAST = { pos 1 };

    ghost GREATEST = { pos 128 };

    ghost LONE = { true };

    ghost kind = { prob_kind };

    ghost values = { map pos };

    fn weight(method: u32, back: u32) -> i32 {
        match (method, back) {
            (0, _) => -8,
            (1, 1) => -16,
            (1, _) => 8,
            (_, 1) => -24,
            (_, 2) => 24,
            (_, _) => -8,
        }
    }

    fn length(table: &ProbTable) -> usize {
        table.entries().len()
    }

    fn value(table: &ProbTable, j: usize) -> i32 {
        i32::from(table.entries()[j])
    }

    fn from_values(numbers: &[i32]) -> Option<ProbTable> {
        let mut entries: ArrayVec<u8, 64> = ArrayVec::new();
        for number in numbers {
            if *number < 1 || *number > 128 || entries.is_full() {
                return None;
            }
            entries.push(*number as u8);
        }
        ProbTable::new(entries.as_slice())
    }

    ghost length_bits = { refl };

    ghost value_bits = { refl };

    ghost least = { refl };

    ghost greatest = { refl };

    ghost lone = { refl };

    ghost small = { prob_small };

    ghost plain_values = { prob_plain };

    ghost weights = { prob_weights };

    ghost same = { prob_same };
}
