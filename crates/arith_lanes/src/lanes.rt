// Eight decoders in arrays.
ghost use Rattle.std.specs.Prelude.{◌≡◌, ◌≢◌, ℕ, ◌+◌, ◌/◌, ◌<◌, ◌≤◌, ◌^◌, Bool, false, true, List, [], length, get_or, IfOk, IfErr};
ghost use Rattle.dst_spec.specs.Bits.{bits, number_from};
ghost use Rattle.arith_decoder.specs.Decoding.{IsCodeFault};
ghost use Rattle.arith_lanes.specs.Chances.{IsChance};
ghost use Rattle.arith_lanes.specs.Lanes.{IsLane, IsUnchanged, Begins, Refills, TakesSymbol, given_of, registers_at, value_of, first_at, used_at, ahead_at};

use crate::lane::{Registers, lane};
use arith_decoder::ArithDecoder;
use bit_io::{BitReader, BitSlice};
use dst_num::FrameFault;

/// Decodes symbol after symbol of eight codes. Bits of a code past the end of its bytes are 0.
#[derive(Drop)]
pub struct ArithLanes {
    first: [u64; 8],
    // the place of the first bit that isn't in a lane's registers yet
    place: [u64; 8],
    range: [u16; 8],
    offset: [u16; 8],
    high: [u16; 8],
    middle: [u16; 8],
    low: [u16; 8],
}

impl ArithLanes {
    /// Each lane decodes a code of no bytes, whose bits all are 0.
    pub fn new() -> ArithLanes
        ensures { (n : ℕ) → n < 8 → Begins result n [] 0 }
    {
        ArithLanes {
            first: [0; 8],
            place: [45; 8],
            range: [4095; 8],
            offset: [0; 8],
            high: [0; 8],
            middle: [0; 8],
            low: [0x8000; 8],
        }
    }

    /// Lane `n` decodes the code whose first bit is the first of the lent bits, in at most `2^50` bytes. It is refused as
    /// FirstCodeBit where that bit is 1, else as CodeRange where the next twelve are all 1, each at its place in the bytes.
    pub fn begin(&mut self, n: usize, code: BitSlice) -> Result<(), FrameFault>
        requires lane { n < 8 }
        requires short { length code.bytes.now ≤ 2 ^ 50 }
        requires early { code.first < 2 ^ 61 }
        ensures fault { IfErr result (IsCodeFault (bits code.entry.bytes.now) code.entry.first) }
        ensures left { IfErr result (λ _. self.new ≡ self.old) }
        ensures first_bit { IfOk result (λ _. get_or (bits code.entry.bytes.now) code.entry.first 0 ≡ 0) }
        ensures in_range { IfOk result (λ _. number_from (bits code.entry.bytes.now) (code.entry.first + 1) 12 ≢ 4095) }
        ensures begun { IfOk result (λ _. Begins self.new n code.entry.bytes.now code.entry.first) }
        ensures others { (m : ℕ) → m ≢ n → IsUnchanged self.old self.new m }
    {
        match ArithDecoder::new(code) {
            Ok(_) => {}
            Err(fault) => return Err(fault),
        }
        let mut reader = BitReader::over(BitSlice {
            bytes: code.bytes,
            first: code.first + 1,
        });
        let offset = reader.read_or_zero(12);
        let next = reader.read_or_zero(32);
        self.first[n] = code.first;
        self.place[n] = code.first + 45;
        self.range[n] = 4095;
        self.offset[n] = offset as u16;
        self.high[n] = (next >> 16) as u16;
        self.middle[n] = (next % 65536) as u16;
        self.low[n] = 0x8000;
        Ok(())
    }

    /// Whether a lane holds fewer than sixteen bits ahead.
    #[inline(always)]
    pub fn are_short(&self) -> bool
        ensures long { result ≡ false → (n : ℕ) (bytes : List ℕ) → n < 8 → IsLane self.now n bytes → 16 ≤ ahead_at self.now n }
        ensures short { result ≡ true → (n : ℕ) × (n < 8) × ((bytes : List ℕ) → IsLane self.now n bytes → ahead_at self.now n < 16) }
    {
        let mut short = false;
        for n in 0..8usize {
            short |= self.middle[n] | self.low[n] == 0;
        }
        short
    }

    /// Reads 47 bits ahead again of lane `n`, which decodes a code in these bytes. At most `2^40` bits of it may be used before.
    pub fn refill(&mut self, n: usize, bytes: &[u8])
        requires lane { n < 8 }
        requires code { IsLane self.old n bytes.now }
        requires early { used_at self.old n ≤ 2 ^ 40 }
        ensures filled { Refills self.old self.new n bytes.now }
        ensures others { (m : ℕ) → m ≢ n → IsUnchanged self.old self.new m }
    {
        let behind = u64::from(self.value(n).trailing_zeros());
        let start = self.place[n] + behind - 51;
        let mut reader = BitReader::over(BitSlice {
            bytes,
            first: start,
        });
        let upper = reader.read_or_zero(32);
        let lower = reader.read_or_zero(15);
        self.place[n] = start + 47;
        self.high[n] = (upper >> 16) as u16;
        self.middle[n] = (upper % 65536) as u16;
        self.low[n] = (2 * lower + 1) as u16;
    }

    // The offset number and the bits ahead in one number.
    fn value(&self, n: usize) -> u64
        requires lane { n < 8 }
        requires fits { value_of (registers_at self.now n) < 2 ^ 64 }
        ensures value { result ≡ value_of (registers_at self.now n) }
        ensures offset { result / 2 ^ 52 ≡ get_or self.now.offset n 0 }
    {
        let offset = u64::from(self.offset[n]) << 52;
        let high = u64::from(self.high[n]) << 36;
        let middle = u64::from(self.middle[n]) << 20;
        let low = u64::from(self.low[n]) << 4;
        offset + high + middle + low
    }

    /// The place in its bytes of the first bit that lane `n` hasn't used: behind the first code bit, twelve, and one for each doubling.
    pub fn end(&self, n: usize) -> u64
        requires lane { n < 8 }
        requires code { (bytes : List ℕ) × IsLane self.now n bytes }
        ensures { result ≡ first_at self.now n + used_at self.now n }
    {
        let behind = u64::from(self.value(n).trailing_zeros());
        self.place[n] + behind - 51
    }

    /// The next symbol of each lane, 0 or 1, turned round where bit 7 of the lane's chance is 0. Its probability is in the chance too. At
    /// least eight bits ahead have to be there, and at most `2^40` of the code may be used before.
    #[inline(always)]
    pub fn decode(&mut self, chances: &[u16; 8]) -> [u16; 8]
        ensures { (n p : ℕ) (bytes : List ℕ) → n < 8 → IsLane self.old n bytes → IsChance p (get_or chances.now n 0)
            → 8 ≤ ahead_at self.old n → used_at self.old n ≤ 2 ^ 40
            → (symbol : Bool) × (get_or result n 0 ≡ given_of (get_or chances.now n 0) symbol)
            × TakesSymbol self.old self.new n bytes p symbol }
    {
        let mut symbols = [0; 8];
        for n in 0..8usize {
            let before = Registers {
                range: self.range[n],
                offset: self.offset[n],
                high: self.high[n],
                middle: self.middle[n],
                low: self.low[n],
            };
            let (after, symbol) = lane(before, chances[n]);
            self.range[n] = after.range;
            self.offset[n] = after.offset;
            self.high[n] = after.high;
            self.middle[n] = after.middle;
            self.low[n] = after.low;
            symbols[n] = symbol;
        }
        symbols
    }
}
