// Codes decoded, a long code, and codes refused.
use crate::compared::same;
use arith_decoder::ArithDecoder;
use bit_io::BitSlice;
use dst_num::{FrameFault, Prob, Reason};

// A symbol, and the bits that are used behind it.
type Decoded = (bool, u64);

// How many symbols of a short lawful code are decoded as they should be, each by its probability, and the first that isn't.
fn decoded(
    bytes: &[u8],
    first: u64,
    symbols: &[(u32, bool, u64)],
) -> Option<(usize, Option<Decoded>)> {
    if bytes.len() > 10 || first > 10 {
        return None;
    }
    let mut decoder = ArithDecoder::new(BitSlice { bytes, first }).ok()?;
    let mut count = 0usize;
    for &(p, symbol, used) in symbols {
        if decoder.used() > 100 {
            return None;
        }
        let found = (decoder.decode(Prob::new(p)?), decoder.used());
        if found != (symbol, used) {
            return Some((count, Some(found)));
        }
        count = count.wrapping_add(1);
    }
    Some((count, None))
}

#[test]
fn codes_give_their_symbols(rt: HostRuntime) {
    // For each symbol its probability, the symbol, and the bits that are used behind it.
    const CARRY: [(u32, bool, u64); 6] = [
        (128, true, 13),
        (128, false, 14),
        (1, true, 15),
        (128, false, 16),
        (128, false, 17),
        (128, false, 18),
    ];
    const NO_BYTES: [(u32, bool, u64); 2] = [(1, true, 13), (128, true, 13)];
    // How many symbols of the carry are decoded. The third is the same code behind five other bits.
    const CASES: [(&[u8], u64, usize); 3] = [
        (&[0x40, 0x00], 0, 3),
        (&[0x40, 0x18, 0x00], 0, 6),
        (&[0xfa, 0x00, 0xc0, 0x07], 5, 6),
    ];
    for &(bytes, first, count) in &CASES {
        let found = decoded(bytes, first, CARRY.get(..count).unwrap_or(&[]));
        same(&rt, &(bytes, found), &(bytes, Some((count, None))));
    }
    same(&rt, &decoded(&[], 0, &NO_BYTES), &Some((2, None)));
}

#[test]
fn codes_with_a_fault_are_refused_at_its_bit(rt: HostRuntime) {
    const CASES: [(&[u8], u64, Reason, u64); 4] = [
        (&[0x80], 0, Reason::FirstCodeBit, 0),
        (&[0xff, 0xff], 3, Reason::FirstCodeBit, 3),
        (&[0x7f, 0xf8], 0, Reason::CodeRange, 1),
        (&[0xfb, 0xff, 0xc0], 5, Reason::CodeRange, 6),
    ];
    for &(bytes, first, reason, bit) in &CASES {
        let refused = ArithDecoder::new(BitSlice { bytes, first }).err();
        same(&rt, &refused, &Some(FrameFault { reason, bit }));
    }
}

// One more of a linear congruence.
fn next(state: u64) -> u64 {
    state
        .wrapping_mul(6364136223846793005)
        .wrapping_add(1442695040888963407)
}

// A code of bytes without a pattern, whose first bit is 0.
fn long_code() -> [u8; 20_000] {
    let mut bytes = [0; 20_000];
    let mut state = 7;
    for i in 0..20_000usize {
        state = next(state);
        bytes[i] = (state >> 56) as u8;
    }
    bytes[0] %= 128;
    bytes
}

// The bits that are used behind 100,000 symbols of that code, how many are 1, and their hash by Fowler, Noll and Vo, FNV-1a of 64 bits.
fn of_the_long_code() -> Option<(u64, u32, u64)> {
    let bytes = long_code();
    let code = BitSlice {
        bytes: &bytes,
        first: 0,
    };
    let mut decoder = ArithDecoder::new(code).ok()?;
    let mut hash: u64 = 0xcbf2_9ce4_8422_2325;
    let mut ones: u32 = 0;
    let mut state = 1;
    for _ in 0..100_000 {
        state = next(state);
        let p = Prob::new((state >> 57) as u32 + 1)?;
        if decoder.used() > 1_000_000 {
            return None;
        }
        let symbol = decoder.decode(p);
        hash = (hash ^ u64::from(symbol)).wrapping_mul(0x100_0000_01b3);
        ones = u32::from(symbol).wrapping_add(ones);
    }
    Some((decoder.used(), ones, hash))
}

#[test]
fn a_long_code_gives_the_symbols_of_whole_numbers(rt: HostRuntime) {
    // By another program, which takes the code's number bit by bit.
    let wanted = (72_076, 75_041, 0x0932_d52a_ffc8_0c86);
    same(&rt, &of_the_long_code(), &Some(wanted));
}
