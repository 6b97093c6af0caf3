// The arithmetic encoder.
ghost use Rattle.std.specs.Prelude.{◌≡◌, ℕ, ◌+◌, ◌%◌, ◌<◌, ◌≤◌, ◌↔◌, Bool, false, List, [], ◌∷◌, ◌++◌, length, replicate, IsTrue, IfOk, IfErr};
ghost use Rattle.dst_spec.specs.Interval.{narrowed};
ghost use Rattle.dst_spec.specs.Spell.{code_spelling};
ghost use Rattle.bit_io.specs.Writing.{to_byte_end};
ghost use Rattle.arith_encoder.specs.Encoding.{StandsFor};

use crate::held::Held;
use crate::narrow::narrow;
use crate::scaling::scalings;
use bit_io::BitWriter;
use dst_num::Prob;
use std::marker::Model;

/// Encodes symbol after symbol, behind what a writer has.
#[derive(Drop)]
pub struct ArithEncoder {
    held: Held,
    // the low end's lowest bits, twelve and `count`, and a carry above them
    low: u64,
    count: u64,
    range: u64,
    // how many `count` may become
    left: u64,
}

impl Model for ArithEncoder {
    ghost use Rattle.std.specs.Prelude.{◌+◌, ◌-◌, ◌*◌, ◌^◌};
    ghost use Rattle.arith_encoder.specs.Encoding.{Encoding};

    ghost Value = { Encoding };

    ghost view = { λ e. record {
      before = e.held.before;
      room = e.held.room;
      reached = record {
        low = e.held.number * 2 ^ (12 + e.count) + e.low;
        range = e.range;
        doublings = e.held.count + e.count - 1;
      };
    } };

    ghost use Rattle.arith_encoder.specs.Registers.{AreRegisters};

    ghost invariant = { λ e. AreRegisters e.held e.low e.count e.range e.left };
}

impl ArithEncoder {
    /// An encoder that writes behind the bits of a writer. Where that has no room for 13 bits it is handed back as it was.
    pub fn new(writer: BitWriter) -> Result<ArithEncoder, BitWriter>
        ensures full { IfErr result (λ _. writer.room < 13) }
        ensures unchanged { IfErr result (λ w. w ≡ writer) }
        ensures enough { IfOk result (λ _. 13 ≤ writer.room) }
        ensures before { IfOk result (λ e. e.before ≡ writer.bits) }
        ensures room { IfOk result (λ e. e.room ≡ writer.room) }
        ensures stands { IfOk result (λ e. StandsFor e []) }
    {
        let room = writer.room();
        if room < 13 {
            return Err(writer);
        }
        Ok(ArithEncoder {
            held: Held::new(writer),
            low: 0,
            count: 0,
            range: 4095,
            left: room - 13,
        })
    }

    /// Encodes a symbol, 1 for true, of this probability. False, with nothing encoded, where the code with it has more bits
    /// than fit: the code has 13 bits, and one for each doubling.
    #[inline(always)]
    pub fn encode(&mut self, symbol: bool, p: Prob) -> bool
        ensures fits { IsTrue result ↔ (13 + (narrowed self.old.reached (symbol, p)).doublings ≤ self.old.room) }
        ensures unchanged { result ≡ false → self.new ≡ self.old }
        ensures reached { IsTrue result → self.new.reached ≡ narrowed self.old.reached (symbol, p) }
        ensures stands { IsTrue result → (pairs : List (Bool × ℕ)) → StandsFor self.old pairs → StandsFor self.new (pairs ++ (symbol, p) ∷ []) }
        ensures before { self.new.before ≡ self.old.before }
        ensures room { self.new.room ≡ self.old.room }
        ensures least { 1 ≤ p }
        ensures most { p ≤ 128 }
    {
        if self.count >= 32 {
            let behind = self.count - 20;
            self.held.push(self.low >> behind);
            self.low %= 1 << behind;
            self.count -= 32;
            self.left -= 32;
        }
        let scaling = scalings()[(p.value() % 128) as usize];
        let part = narrow(self.range, symbol, u64::from(p.value()), scaling);
        let count = self.count + part.doublings;
        if count > self.left {
            return false;
        }
        self.low = (self.low + part.start) << part.doublings;
        self.count = count;
        self.range = part.range;
        true
    }

    /// The writer with the code behind its bits, and zero bits to the byte's end.
    pub fn finish(self) -> BitWriter
        ensures bits { (pairs : List (Bool × ℕ)) → StandsFor self pairs
            → result.bits ≡ self.before ++ code_spelling pairs ++ replicate (to_byte_end (length (self.before ++ code_spelling pairs))) 0 }
        ensures whole { length result.bits % 8 ≡ 0 }
        ensures room { result.room + length result.bits ≡ self.room + length self.before }
    {
        let mut held = self.held;
        let mut low = self.low;
        let mut count = self.count;
        if count >= 32 {
            let behind = count - 20;
            held.push(low >> behind);
            low %= 1 << behind;
            count -= 32;
        }
        let mut writer = held.finish(low, count as u32);
        writer.finish();
        writer
    }

    /// The writer, without bits.
    pub fn abandon(self) -> BitWriter
        ensures bits { result.bits ≡ [] }
        ensures room { result.room ≡ self.room + length self.before }
    {
        self.held.abandon()
    }
}
