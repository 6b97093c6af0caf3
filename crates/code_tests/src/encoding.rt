// Codes written, codes that don't fit, a long run that is turned over, and a long code.
ghost use Rattle.std.specs.Prelude.{◌≤◌, ◌^◌};

use crate::compared::same;
use arith_encoder::ArithEncoder;
use bit_io::BitWriter;
use dst_num::Prob;
use std::alloc::{AllocError, Global};
use std::test::Fail;

// The last one carries through three ones.
const SYMBOLS: [(bool, u32); 6] = [
    (true, 128),
    (false, 128),
    (true, 1),
    (false, 128),
    (false, 128),
    (false, 128),
];

// Which of them fit, and whether they are the code that is wanted, where there is room for a code.
type Fitting = Option<([bool; 6], bool)>;

// Tries the first so many of them in a room of so many bytes, beside this code.
fn fitting(alloc: Global, room: usize, count: usize, code: &[u8]) -> Result<Fitting, AllocError>
    requires { room ≤ 2 ^ 50 }
{
    let Ok(mut encoder) = ArithEncoder::new(BitWriter::new(alloc, room)?) else {
        return Ok(None);
    };
    let mut fits = [false; 6];
    for i in 0..count.min(6) {
        let (symbol, p) = SYMBOLS[i];
        let Some(p) = Prob::new(p) else {
            return Ok(None);
        };
        fits[i] = encoder.encode(symbol, p);
    }
    Ok(Some((fits, encoder.finish().bytes() == code)))
}

#[test]
fn symbols_are_written_as_far_as_they_fit(rt: HostRuntime) {
    // Room in bytes, how many symbols are tried, how many of them fit, the code.
    const CASES: [(usize, usize, usize, &[u8]); 4] = [
        (4, 3, 3, &[0x23, 0xf8]),
        (4, 6, 6, &[0x40, 0x18, 0x00]),
        (2, 6, 4, &[0x34, 0xd8]),
        (2, 0, 0, &[0x00, 0x00]),
    ];
    for &(room, count, fit, code) in &CASES {
        let wanted = [0, 1, 2, 3, 4, 5].map(|i| i < fit);
        same(
            &rt,
            &fitting(rt.alloc(), room, count, code),
            &Ok(Some((wanted, true))),
        );
    }
}

// An encoder over so many bytes, of which five bits are written, is given up: whether there was one, and the writer's length and room.
fn handed_back(alloc: Global, room: usize) -> Result<(bool, u64, u64), Fail>
    requires { room ≤ 2 ^ 50 }
{
    let mut writer = BitWriter::new(alloc, room)?;
    if !writer.put(0x1f, 5) {
        return Err("five bits")?;
    }
    Ok(match ArithEncoder::new(writer) {
        Ok(encoder) => {
            let writer = encoder.abandon();
            (true, writer.length(), writer.room())
        }
        Err(writer) => (false, writer.length(), writer.room()),
    })
}

#[test]
fn writers_are_handed_back(rt: HostRuntime) -> Result<(), Fail> {
    // With two bytes too few bits are left for a code.
    let both = [handed_back(rt.alloc(), 2)?, handed_back(rt.alloc(), 3)?];
    same(&rt, &both, &[(false, 5, 11), (true, 0, 24)]);
    Ok(())
}

// The interval of symbols of probability 128: its low end as a whole number, and how far that is below a half.
#[derive(Drop)]
struct Reached {
    low: [u8; 64],
    range: u32,
    doublings: usize,
    below: u32,
}

impl Reached {
    fn high(&self) -> u32 {
        let scale = self.range >> 8 | self.range >> 7 & 1;
        self.range.wrapping_sub(scale.wrapping_mul(128))
    }

    fn take(&mut self, symbol: bool) {
        let high = self.high();
        if symbol {
            self.range = high;
        } else {
            scale_and_add(&mut self.low, 1, high);
            self.below = self.below.wrapping_sub(high);
            self.range = self.range.wrapping_sub(high);
        }
        if self.range < 2048 {
            scale_and_add(&mut self.low, 2, 0);
            self.below = self.below.wrapping_mul(2);
            self.range = self.range.wrapping_mul(2);
            self.doublings = self.doublings.wrapping_add(1);
        }
    }

    // Doubles the low end until three bits of a byte are behind whole ones.
    fn fill_the_byte(&mut self) {
        for _ in 0..8 {
            if self.doublings % 8 != 3 {
                scale_and_add(&mut self.low, 2, 0);
                self.doublings = self.doublings.wrapping_add(1);
            }
        }
    }

    // The bytes of the low end.
    fn low_end(&self) -> &[u8] {
        let length = (self.doublings / 8).wrapping_add(2);
        &self.low[64 - length.min(64)..]
    }
}

fn scale_and_add(number: &mut [u8; 64], factor: u32, addend: u32) {
    let mut rest = addend;
    for i in 0..64usize {
        let sum = u32::from(number[63 - i])
            .wrapping_mul(factor)
            .wrapping_add(rest);
        number[63 - i] = (sum & 255) as u8;
        rest = sum >> 8;
    }
}

// Whether the code of a run below a half, which begins with 0 and ones until it has 200 of them, and of a symbol above it is the low end,
// its first byte, and whether 25 bytes behind that are 0.
fn turned_over(alloc: Global) -> Result<Option<(bool, u8, bool)>, AllocError> {
    let Ok(mut encoder) = ArithEncoder::new(BitWriter::new(alloc, 64)?) else {
        return Ok(None);
    };
    let Some(p) = Prob::new(128) else {
        return Ok(None);
    };
    let mut reached = Reached {
        low: [0; 64],
        range: 4095,
        doublings: 0,
        below: 2048,
    };
    for _ in 0..500 {
        let is_1 = reached.below < reached.high();
        let passes = is_1 && reached.below > 0 && reached.doublings > 210;
        if !encoder.encode(is_1 && !passes, p) {
            return Ok(None);
        }
        reached.take(is_1 && !passes);
        if passes {
            break;
        }
    }
    reached.fill_the_byte();
    let low = reached.low_end();
    let is_low_end = encoder.finish().bytes() == low;
    let first = low.first().copied().unwrap_or(0);
    Ok(Some((is_low_end, first, low.get(1..26) == Some(&[0; 25]))))
}

#[test]
fn a_carry_turns_over_a_long_run(rt: HostRuntime) {
    same(&rt, &turned_over(rt.alloc()), &Ok(Some((true, 0x40, true))));
}

// A symbol made by a linear congruence, and its probability from 1 to 128.
fn made(state: &mut u64) -> (bool, u32) {
    *state = state
        .wrapping_mul(6364136223846793005)
        .wrapping_add(1442695040888963407);
    let p = (*state >> 57) as u32 + 1;
    ((*state >> 40) % 256 >= u64::from(p), p)
}

// The hash of bytes by Fowler, Noll and Vo, FNV-1a of 64 bits.
fn hash(bytes: &[u8]) -> u64 {
    let mut hash: u64 = 0xcbf2_9ce4_8422_2325;
    for byte in bytes {
        hash = (hash ^ u64::from(*byte)).wrapping_mul(0x100_0000_01b3);
    }
    hash
}

// The bytes of a code of 100,000 symbols: how many, whether they begin as they should, and their hash.
fn of_a_long_code(alloc: Global) -> Result<Option<(usize, bool, u64)>, AllocError> {
    let Ok(mut encoder) = ArithEncoder::new(BitWriter::new(alloc, 20_000)?) else {
        return Ok(None);
    };
    let mut state = 1;
    for _ in 0..100_000 {
        let (symbol, p) = made(&mut state);
        let Some(p) = Prob::new(p) else {
            return Ok(None);
        };
        if !encoder.encode(symbol, p) {
            return Ok(None);
        }
    }
    let writer = encoder.finish();
    let bytes = writer.bytes();
    let begins = bytes.starts_with(&[0x09, 0xb2, 0xfc, 0x8b, 0x3f, 0xfd, 0x10, 0xe9]);
    Ok(Some((bytes.len(), begins, hash(bytes))))
}

#[test]
fn a_long_code_is_that_of_whole_numbers(rt: HostRuntime) {
    // By another program, which holds the low end as one whole number.
    let wanted = (9_060, true, 0x75ce_7ca4_2cf8_ccf8);
    same(&rt, &of_a_long_code(rt.alloc()), &Ok(Some(wanted)));
}
