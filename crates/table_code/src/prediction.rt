// What the values in front of a next one foretell of it.
ghost use Rattle.std.specs.Prelude.{◌≡◌, ◌+◌, ◌-◌, ◌<◌, ◌≤◌, ◌≤ℤ◌, ◌+ℤ◌, ◌*ℤ◌, pos, negsuc, nat_abs, length, get_or, reverse};
ghost use Rattle.std.specs.Int.{int_div_euclid};
ghost use Rattle.std.specs.List.{AllByRecursion};
ghost use Rattle.dst_spec.specs.Table.{InRange, eighth as eighth_of};

use crate::TableKind;

/// An eighth of the weighted sum of the values in front of a next one.
pub(crate) fn eighth<K: TableKind>(values: &[i32], method: u32) -> i32
    requires method { method < 3 }
    requires enough { method + 1 ≤ length values.now }
    requires each { AllByRecursion (InRange K.kind) values.now }
    ensures eighth { result ≡ eighth_of (K.kind.weights method) (reverse values.now) }
    ensures lowest { negsuc 1791 ≤ℤ result }
    ensures highest { result ≤ℤ pos 1792 }
{
    let mut sum = 0;
    for k in 0..method + 1 {
        sum += term::<K>(values, method, k);
    }
    rounded(sum)
}

// An eighth of a sum, the nearest, and of two the upper.
fn rounded(sum: i32) -> i32
    requires least { negsuc 14335 ≤ℤ sum }
    requires greatest { sum ≤ℤ pos 14336 }
    ensures { result ≡ int_div_euclid (sum +ℤ pos 4) (pos 8) }
{
    (sum + 4).div_euclid(8)
}

// The value with k others behind it, times its weight.
fn term<K: TableKind>(values: &[i32], method: u32, k: u32) -> i32
    requires method { method < 3 }
    requires few { k ≤ method }
    requires enough { k < length values.now }
    requires each { AllByRecursion (InRange K.kind) values.now }
    ensures term { result ≡ get_or (K.kind.weights method) k (pos 0) *ℤ get_or values.now (length values.now - 1 - k) (pos 0) }
    ensures small { nat_abs result ≤ 14336 }
{
    K::weight(method, k + 1) * from_last(values, k)
}

// The value with k others behind it.
fn from_last(values: &[i32], k: u32) -> i32
    requires { k < length values.now }
    ensures { result ≡ get_or values.now (length values.now - 1 - k) (pos 0) }
{
    values[values.len() - 1 - k as usize]
}
