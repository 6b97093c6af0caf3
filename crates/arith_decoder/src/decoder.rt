// The arithmetic decoder.
ghost use Rattle.std.specs.Prelude.{◌≡◌, ◌≢◌, ℕ, ◌+◌, ◌*◌, ◌/◌, ◌%◌, ◌<◌, ◌≤◌, ◌^◌, Bool, List, [], ◌∷◌, ◌++◌, length, drop, get_or, Err, IfOk, IfErr};
ghost use Rattle.dst_spec.specs.Bits.{bits, number_from};
ghost use Rattle.dst_spec.specs.Fields.{read};
ghost use Rattle.arith_decoder.specs.Decoding.{StandsFor, IsCodeFault, code_fields};
ghost use Rattle.arith_decoder.specs.Registers.{IsValue, value_below};

use crate::rows::row;
use crate::step::{doubled, step};
use bit_io::{BitReader, BitSlice};
use dst_num::{FrameFault, Prob, Reason};
use std::marker::Model;

/// Decodes symbol after symbol. Bits of the code past the end of the lent bytes are 0.
#[derive(Drop)]
pub struct ArithDecoder<'a> {
    bytes: &'a [u8],
    first: u64,
    // the place of the first bit that isn't in the value yet
    place: u64,
    // how far the value lies below the end of the range: the value has the offset in its twelve highest bits, then the
    // next bits of the code, a bit 1, and zeros
    gap: u64,
    // a range below 2048 and its gap are doubled ahead of the next symbol
    range: u64,
}

impl<'a> Model for ArithDecoder<'a> {
    ghost use Rattle.std.specs.Prelude.{◌+◌, ◌-◌, ◌*◌, ◌/◌, ◌^◌, ◌≤◌};
    ghost use Rattle.std.specs.Int.{trailing_zeros, w64};
    ghost use Rattle.arith_decoder.specs.Decoding.{Decoding};
    ghost use Rattle.arith_decoder.specs.Registers.{due, value_below};

    ghost Value = { Decoding };

    ghost view = { λ d. record {
      bytes = d.bytes.now;
      first = d.first;
      range = due d.range d.range;
      offset = due d.range (value_below d.range d.gap) / 2 ^ 52;
      used = d.place + trailing_zeros w64 (due d.range (value_below d.range d.gap)) - 51 - d.first;
    } };

    ghost use Rattle.arith_decoder.specs.Registers.{AreRegisters};

    ghost invariant = { λ d. record {
      registers : AreRegisters d.bytes.now d.first (d.place + trailing_zeros w64 (due d.range (value_below d.range d.gap)) - 51 - d.first) d.place (due d.range (value_below d.range d.gap)) (due d.range d.range);
      within : d.gap ≤ d.range * 2 ^ 52;
    } };
}

// The gap of the value with 32 more bits of the code behind its last, in place of the bit 1 there and zeros.
#[inline(always)]
fn refilled(bytes: &[u8], place: u64, gap: u64) -> u64
    requires short { length bytes.now ≤ 2 ^ 50 }
    requires early { place < 2 ^ 62 }
    requires low { gap % 2 ^ 32 ≡ 0 }
    requires held { (range start : ℕ) × (range ≤ 4095) × (gap ≤ range * 2 ^ 52) × IsValue (bits bytes.now) start place (value_below range gap / 2 ^ 52) (value_below range gap) }
    ensures { (range start : ℕ) → range ≤ 4095 → gap ≤ range * 2 ^ 52
        → IsValue (bits bytes.now) start place (value_below range gap / 2 ^ 52) (value_below range gap)
        → (result ≤ range * 2 ^ 52) × IsValue (bits bytes.now) start (place + 32) (value_below range gap / 2 ^ 52) (value_below range result) }
{
    let behind = gap.trailing_zeros();
    let mut reader = BitReader::over(BitSlice {
        bytes,
        first: place,
    });
    let more = u64::from(reader.read_or_zero(32));
    gap + (1 << behind) - ((2 * more + 1) << (behind - 32))
}

impl<'a> ArithDecoder<'a> {
    /// A decoder of the code whose first bit is the first of the lent bits, in at most `2^50` bytes. It is refused as
    /// FirstCodeBit where that bit is 1, else as CodeRange where the next twelve are all 1, each at its place in the bytes.
    pub fn new(code: BitSlice<'a>) -> Result<ArithDecoder<'a>, FrameFault>
        requires short { length code.bytes.now ≤ 2 ^ 50 }
        requires early { code.first < 2 ^ 61 }
        ensures fault { IfErr result (λ f. IsCodeFault (bits code.entry.bytes.now) code.entry.first f) }
        ensures offends { IfErr result (λ f. read code_fields (drop code.entry.first (bits code.entry.bytes.now)) code.entry.first ≡ Err f) }
        ensures first_bit { IfOk result (λ _. get_or (bits code.entry.bytes.now) code.entry.first 0 ≡ 0) }
        ensures in_range { IfOk result (λ _. number_from (bits code.entry.bytes.now) (code.entry.first + 1) 12 ≢ 4095) }
        ensures bytes { IfOk result (λ d. d.bytes ≡ code.entry.bytes.now) }
        ensures first { IfOk result (λ d. d.first ≡ code.entry.first) }
        ensures used { IfOk result (λ d. d.used ≡ 13) }
        ensures stands { IfOk result (λ d. StandsFor d []) }
    {
        let mut reader = BitReader::over(code);
        if reader.read_or_zero(1) == 1 {
            return Err(FrameFault {
                reason: Reason::FirstCodeBit,
                bit: code.first,
            });
        }
        let offset = u64::from(reader.read_or_zero(12));
        if offset == 4095 {
            return Err(FrameFault {
                reason: Reason::CodeRange,
                bit: code.first + 1,
            });
        }
        let next = u64::from(reader.read_or_zero(32));
        Ok(ArithDecoder {
            bytes: code.bytes,
            first: code.first,
            place: code.first + 45,
            gap: (4095 << 52) - (offset << 52 | (2 * next + 1) << 19),
            range: 4095,
        })
    }

    /// The next symbol, which has this probability: true where it is 1. At most `2^40` bits of the code may be used before.
    #[inline(always)]
    pub fn decode(&mut self, p: Prob) -> bool
        requires early { self.old.used ≤ 2 ^ 40 }
        ensures stands { (pairs : List (Bool × ℕ)) → StandsFor self.old pairs → StandsFor self.new (pairs ++ (result, p) ∷ []) }
        ensures bytes { self.new.bytes ≡ self.old.bytes }
        ensures first { self.new.first ≡ self.old.first }
        ensures used { self.new.used ≤ self.old.used + 8 }
        ensures least { 1 ≤ p }
        ensures most { p ≤ 128 }
    {
        let row = row(p.value());
        let part = u64::from(row[(self.range / 64 * 128) as usize]);
        let factor = u64::from(row[0]);
        let (mut gap, range) = doubled(self.gap, self.range);
        if gap % (1 << 32) == 0 {
            gap = refilled(self.bytes, self.place, gap);
            self.place += 32;
        }
        let (gap, range, symbol) = step(gap, range, part, factor);
        self.gap = gap;
        self.range = range;
        symbol
    }

    /// How many bits of the code are used: the first code bit, twelve, and one for each doubling.
    pub fn used(&self) -> u64
        ensures used { result ≡ self.now.used }
    {
        let (gap, _) = doubled(self.gap, self.range);
        self.place + u64::from(gap.trailing_zeros()) - 51 - self.first
    }
}
