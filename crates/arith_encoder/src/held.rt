// The bits of a code that have left the encoder's registers.
ghost use Rattle.std.specs.Prelude.{◌≡◌, ◌+◌, ◌-◌, ◌*◌, ◌^◌, ◌<◌, ◌≤◌, ◌++◌, [], length, if◌then◌else◌};
ghost use Rattle.dst_spec.specs.Bits.{low_bits};

use bit_io::BitWriter;
use std::marker::Model;

// A number that leaves from its highest bits on. A block of it and the blocks of 32 ones behind that are held back, since a
// carry can still come to them; what is written doesn't change.
#[derive(Drop)]
pub(crate) struct Held {
    writer: BitWriter,
    // how many bits the writer had before
    first: u64,
    // the held block, and how many bits it has
    block: u32,
    width: u32,
    // how many blocks of ones are behind it
    run: u64,
}

impl Model for Held {
    ghost use Rattle.std.specs.Prelude.{◌+◌, ◌-◌, ◌*◌, length, take};
    ghost use Rattle.arith_encoder.specs.Leaving.{Leaving, IsHeld, written, with_held};

    ghost Value = { Leaving };

    ghost view = { λ h. record {
      before = take h.first h.writer.bits;
      room = h.writer.room + (length h.writer.bits - h.first);
      count = length h.writer.bits - h.first + (h.width + 32 * h.run);
      number = with_held (written h.writer.bits h.first) h.width h.block h.run;
    } };

    ghost invariant = { λ h. IsHeld h.writer.bits h.writer.room h.first h.block h.width h.run };
}

impl Held {
    // With one bit 0 that has left.
    pub(crate) fn new(writer: BitWriter) -> Held
        requires { 1 ≤ writer.room }
        ensures before { result.before ≡ writer.bits }
        ensures room { result.room ≡ writer.room }
        ensures count { result.count ≡ 1 }
        ensures number { result.number ≡ 0 }
    {
        let first = writer.length();
        Held {
            writer,
            first,
            block: 0,
            width: 1,
            run: 0,
        }
    }

    // Takes 32 more bits, and a carry above them.
    #[cold]
    #[inline(never)]
    pub(crate) fn push(&mut self, bits: u64)
        requires carry { bits + 1 < 2 ^ 33 }
        requires room { self.old.count + 32 ≤ self.old.room }
        ensures number { self.new.number ≡ self.old.number * 2 ^ 32 + bits }
        ensures count { self.new.count ≡ self.old.count + 32 }
        ensures before { self.new.before ≡ self.old.before }
        ensures room { self.new.room ≡ self.old.room }
    {
        let carry = bits >= 1 << 32;
        let block = (bits % (1 << 32)) as u32;
        if !carry && block == u32::MAX {
            self.run += 1;
            return;
        }
        let_go(&mut self.writer, self.block, self.width, self.run, carry);
        self.block = block;
        self.width = 32;
        self.run = 0;
    }

    // Takes the last bits, twelve and some more, and a carry above them, and lets all go.
    pub(crate) fn finish(self, bits: u64, more: u32) -> BitWriter
        requires few { more < 32 }
        requires carry { bits < 2 * 2 ^ (12 + more) }
        requires room { self.count + (12 + more) ≤ self.room }
        ensures bits { result.bits ≡ self.before ++ low_bits (self.count + (12 + more)) (self.number * 2 ^ (12 + more) + bits) }
        ensures room { result.room + length result.bits ≡ self.room + length self.before }
    {
        let mut writer = self.writer;
        let carry = bits >> (12 + more) == 1;
        let_go(&mut writer, self.block, self.width, self.run, carry);
        writer.put(((bits >> 12) % (1 << more)) as u32, more);
        writer.put((bits % 4096) as u32, 12);
        writer
    }

    // The writer, without bits.
    pub(crate) fn abandon(self) -> BitWriter
        ensures bits { result.bits ≡ [] }
        ensures room { result.room ≡ self.room + length self.before }
    {
        let mut writer = self.writer;
        writer.clear();
        writer
    }
}

// Writes a block of some bits and so many blocks of ones behind it, turned over by a carry.
fn let_go(writer: &mut BitWriter, block: u32, width: u32, run: u64, carry: bool)
    requires most { width ≤ 32 }
    requires free { block + 1 < 2 ^ width }
    requires room { width + 32 * run ≤ writer.old.room }
    ensures bits { writer.new.bits ≡ writer.old.bits ++ low_bits (width + 32 * run) ((block + 1) * 2 ^ (32 * run) - (if carry then 0 else 1)) }
    ensures room { writer.new.room + (width + 32 * run) ≡ writer.old.room }
{
    writer.put(block + u32::from(carry), width);
    let behind = if carry { 0 } else { u32::MAX };
    for turn in 0..run {
        writer.put(behind, 32);
    }
}
