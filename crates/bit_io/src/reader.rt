// A reader of bits over lent bytes.
ghost use Rattle.std.specs.Prelude.{◌≡◌, ◌+◌, ◌-◌, ◌*◌, ◌<◌, ◌≤◌, ◌≤ℤ◌, ◌++◌, ◌^◌, pos, negsuc, length, drop, IfNone, IfSome};
ghost use Rattle.dst_spec.specs.Bits.{bits, low_bits, signed_bits, number_from, signed_value, AreBits};
ghost use Rattle.bit_io.specs.Reading.{left};

use crate::window::number_at;
use std::marker::Model;

/// Bits of lent bytes, from bit `first` on. Bit 0 is the most significant bit of the first byte.
#[derive(Clone, Copy, Debug)]
pub struct BitSlice<'a> {
    pub bytes: &'a [u8],
    pub first: u64,
}

/// Reads bits of lent bytes in order.
#[derive(Drop, Debug)]
pub struct BitReader<'a> {
    bytes: &'a [u8],
    place: u64,
}

impl<'a> Model for BitReader<'a> {
    ghost use Rattle.std.specs.Prelude.{◌+◌, ◌<◌, ◌≤◌, ◌^◌, length};
    ghost use Rattle.bit_io.specs.Reading.{Reading};

    ghost Value = { Reading };

    ghost view = { λ r. record { bytes = r.bytes.now; place = r.place } };

    ghost invariant = { λ r. (length r.bytes.now ≤ 2 ^ 50) × (r.place < 2 ^ 62 + 32) };
}

impl<'a> BitReader<'a> {
    /// A reader at the first bit of at most `2^50` bytes.
    pub fn new(bytes: &'a [u8]) -> BitReader<'a>
        requires { length bytes.now ≤ 2 ^ 50 }
        ensures bytes { result.bytes ≡ bytes.now }
        ensures place { result.place ≡ 0 }
    {
        BitReader { bytes, place: 0 }
    }

    /// A reader of the bits that are lent.
    pub fn over(slice: BitSlice<'a>) -> BitReader<'a>
        requires short { length slice.bytes.now ≤ 2 ^ 50 }
        requires early { slice.first < 2 ^ 62 }
        ensures bytes { result.bytes ≡ slice.entry.bytes.now }
        ensures place { result.place ≡ slice.entry.first }
    {
        BitReader {
            bytes: slice.bytes,
            place: slice.first,
        }
    }

    /// The place of the next bit, which may be past the end.
    pub fn place(&self) -> u64
        ensures place { result ≡ self.now.place }
        ensures early { self.now.place < 2 ^ 62 + 32 }
    {
        self.place
    }

    /// How many bits are left; 0 at the end and past it.
    pub fn left(&self) -> u64
        ensures left { result ≡ length (left self.now) }
        ensures count { result ≡ 8 * length self.now.bytes - self.now.place }
        ensures bits { AreBits (left self.now) }
        ensures short { length self.now.bytes ≤ 2 ^ 50 }
    {
        (8 * self.bytes.len() as u64).saturating_sub(self.place)
    }

    /// The number of the next `n` bits, at most 32, and passes them. None where fewer are left.
    pub fn read(&mut self, n: u32) -> Option<u32>
        requires { n ≤ 32 }
        ensures none { IfNone result (length (left self.old) < n) }
        ensures unchanged { IfNone result (self.new ≡ self.old) }
        ensures enough { IfSome result (λ _. n ≤ length (left self.old)) }
        ensures number { IfSome result (λ x. x ≡ number_from (bits self.old.bytes) self.old.place n) }
        ensures first { IfSome result (λ x. x ≡ number_from (left self.old) 0 n) }
        ensures fits { IfSome result (λ x. x < 2 ^ n) }
        ensures bytes { self.new.bytes ≡ self.old.bytes }
        ensures place { IfSome result (λ _. self.new.place ≡ self.old.place + n) }
        ensures rest { IfSome result (λ _. left self.new ≡ drop n (left self.old)) }
        ensures bits { IfSome result (λ x. left self.old ≡ low_bits n x ++ left self.new) }
    {
        if self.left() < u64::from(n) {
            return None;
        }
        let value = number_at(self.bytes, self.place, n);
        self.place += u64::from(n);
        Some(value)
    }

    /// The number of the next `n` bits in two's complement, 1 to 32, and passes them. None where fewer are left.
    pub fn read_signed(&mut self, n: u32) -> Option<i32>
        requires least { 1 ≤ n }
        requires most { n ≤ 32 }
        ensures none { IfNone result (length (left self.old) < n) }
        ensures unchanged { IfNone result (self.new ≡ self.old) }
        ensures enough { IfSome result (λ _. n ≤ length (left self.old)) }
        ensures number { IfSome result (λ x. x ≡ signed_value n (number_from (bits self.old.bytes) self.old.place n)) }
        ensures first { IfSome result (λ x. x ≡ signed_value n (number_from (left self.old) 0 n)) }
        ensures lowest { IfSome result (λ x. negsuc (2 ^ (n - 1) - 1) ≤ℤ x) }
        ensures highest { IfSome result (λ x. x ≤ℤ pos (2 ^ (n - 1) - 1)) }
        ensures bytes { self.new.bytes ≡ self.old.bytes }
        ensures place { IfSome result (λ _. self.new.place ≡ self.old.place + n) }
        ensures rest { IfSome result (λ _. left self.new ≡ drop n (left self.old)) }
        ensures bits { IfSome result (λ x. left self.old ≡ signed_bits n x ++ left self.new) }
    {
        match self.read(n) {
            None => None,
            Some(value) => Some(signed(value, n)),
        }
    }

    /// The number of the next `n` bits, at most 32, and passes them. Bits past the end are 0.
    pub fn read_or_zero(&mut self, n: u32) -> u32
        requires most { n ≤ 32 }
        requires early { self.old.place < 2 ^ 62 }
        ensures number { result ≡ number_from (bits self.old.bytes) self.old.place n }
        ensures first { result ≡ number_from (left self.old) 0 n }
        ensures fits { result < 2 ^ n }
        ensures bytes { self.new.bytes ≡ self.old.bytes }
        ensures place { self.new.place ≡ self.old.place + n }
        ensures rest { left self.new ≡ drop n (left self.old) }
    {
        let value = number_at(self.bytes, self.place, n);
        self.place += u64::from(n);
        value
    }

    /// Lends the bits that are left.
    pub fn rest(&self) -> BitSlice<'a>
        ensures bytes { result.bytes.now ≡ self.now.bytes }
        ensures first { result.first ≡ self.now.place }
    {
        BitSlice {
            bytes: self.bytes,
            first: self.place,
        }
    }
}

// What n bits with this number mean in two's complement.
fn signed(value: u32, n: u32) -> i32
    requires least { 1 ≤ n }
    requires most { n ≤ 32 }
    requires fits { value < 2 ^ n }
    ensures value { result ≡ signed_value n value }
    ensures lowest { negsuc (2 ^ (n - 1) - 1) ≤ℤ result }
    ensures highest { result ≤ℤ pos (2 ^ (n - 1) - 1) }
    ensures bits { signed_bits n result ≡ low_bits n value }
{
    if u64::from(value) < 1 << (n - 1) {
        value as i32
    } else {
        (i64::from(value) - (1 << n)) as i32
    }
}
