// A writer of bits into a buffer that never grows.
ghost use Rattle.std.specs.Prelude.{◌≡◌, ◌+◌, ◌-◌, ◌*◌, ◌/◌, ◌%◌, ◌<◌, ◌≤◌, ◌↔◌, ◌++◌, ◌^◌, [], false, IsTrue, IfOk, length, replicate, vec_len, vec_capacity};
ghost use Rattle.dst_spec.specs.Bits.{bits as bits_of, low_bits, octets};
ghost use Rattle.bit_io.specs.Writing.{to_byte_end};

use std::alloc::{AllocError, Global};
use std::marker::Model;

/// Writes bits one after the other into a buffer of a size that is given once. Written bits never change.
#[derive(Drop)]
pub struct BitWriter {
    bytes: Vec<u8>,
    capacity: usize,
    // the bits behind the last whole byte, and how many they are
    pending: u8,
    count: u32,
}

impl Model for BitWriter {
    ghost use Rattle.std.specs.Prelude.{◌+◌, ◌-◌, ◌*◌, ◌++◌, vec_len, vec_capacity};
    ghost use Rattle.dst_spec.specs.Bits.{bits as bits_of, low_bits};
    ghost use Rattle.bit_io.specs.Writing.{Writing};
    ghost use Rattle.bit_io.specs.Buffer.{IsBuffer};

    ghost Value = { Writing };

    ghost view = { λ w. record {
      bits = bits_of w.bytes.items ++ low_bits w.count w.pending;
      room = 8 * w.capacity - (8 * vec_len w.bytes + w.count);
    } };

    ghost invariant = { λ w. IsBuffer (vec_len w.bytes) (vec_capacity w.bytes) w.capacity w.pending w.count };
}

impl BitWriter {
    /// A writer with room for so many bytes, at most `2^50`.
    pub fn new(alloc: Global, bytes: usize) -> Result<BitWriter, AllocError>
        requires { bytes ≤ 2 ^ 50 }
        ensures bits { IfOk result (λ w. w.bits ≡ []) }
        ensures room { IfOk result (λ w. w.room ≡ 8 * bytes) }
    {
        Ok(BitWriter {
            bytes: Vec::with_capacity(alloc, bytes)?,
            capacity: bytes,
            pending: 0,
            count: 0,
        })
    }

    /// Forgets all bits.
    pub fn clear(&mut self)
        ensures bits { self.new.bits ≡ [] }
        ensures room { self.new.room ≡ self.old.room + length self.old.bits }
    {
        self.bytes.clear();
        self.pending = 0;
        self.count = 0;
    }

    /// How many bits are written.
    pub fn length(&self) -> u64
        ensures length { result ≡ length self.now.bits }
        ensures most { result + self.now.room ≤ 2 ^ 53 }
    {
        8 * self.bytes.len() as u64 + u64::from(self.count)
    }

    /// How many more bits fit.
    pub fn room(&self) -> u64
        ensures room { result ≡ self.now.room }
        ensures most { result + length self.now.bits ≤ 2 ^ 53 }
        ensures whole { (self.now.room + length self.now.bits) % 8 ≡ 0 }
    {
        8 * self.capacity as u64 - self.length()
    }

    /// Writes a number in `n` bits, at most 32. False, with nothing written, where they don't fit.
    pub fn put(&mut self, value: u32, n: u32) -> bool
        requires most { n ≤ 32 }
        requires fits { value < 2 ^ n }
        ensures written { IsTrue result ↔ (n ≤ self.old.room) }
        ensures unchanged { result ≡ false → self.new ≡ self.old }
        ensures bits { IsTrue result → self.new.bits ≡ self.old.bits ++ low_bits n value }
        ensures room { IsTrue result → self.new.room + n ≡ self.old.room }
    {
        if self.room() < u64::from(n) {
            return false;
        }
        let number = u64::from(self.pending) << n | u64::from(value);
        self.count = push_bytes(&mut self.bytes, number, self.count + n);
        self.pending = (number % (1 << self.count)) as u8;
        true
    }

    /// Writes zero bits to the byte's end.
    pub fn finish(&mut self)
        ensures zeros { self.new.bits ≡ self.old.bits ++ replicate (to_byte_end (length self.old.bits)) 0 }
        ensures whole { length self.new.bits % 8 ≡ 0 }
        ensures bytes { octets self.new.bits ≡ octets self.old.bits }
        ensures room { self.new.room + length self.new.bits ≡ self.old.room + length self.old.bits }
    {
        let count = self.count;
        if count > 0 {
            self.put(0, 8 - count);
        }
    }

    /// The written bits as bytes. Their number is a multiple of 8.
    pub fn bytes(&self) -> &[u8]
        requires { length self.now.bits % 8 ≡ 0 }
        ensures bits { bits_of result.now ≡ self.now.bits }
        ensures bytes { result.now ≡ octets self.now.bits }
    {
        as_octets(&self.bytes)
    }
}

// Bytes are those of their bits.
fn as_octets(bytes: &[u8]) -> &[u8]
    ensures same { result.now ≡ bytes.now }
    ensures bytes { octets (bits_of bytes.now) ≡ bytes.now }
{
    bytes
}

// Appends the whole bytes of a number of so many bits, and says how many bits are left behind them.
fn push_bytes(bytes: &mut Vec<u8>, number: u64, count: u32) -> u32
    requires most { count ≤ 64 }
    requires room { vec_len bytes.old + count / 8 ≤ vec_capacity bytes.old }
    ensures rest { result ≡ count % 8 }
    ensures bits { bits_of bytes.new.items ++ low_bits result number ≡ bits_of bytes.old.items ++ low_bits count number }
    ensures len { vec_len bytes.new ≡ vec_len bytes.old + count / 8 }
    ensures capacity { vec_capacity bytes.old ≤ vec_capacity bytes.new }
{
    let mut rest = count;
    while rest >= 8 {
        rest -= 8;
        let _ = bytes.push(((number >> rest) % 256) as u8);
    }
    rest
}
