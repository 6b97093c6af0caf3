// Chances, codes side by side, and codes refused.
ghost use Rattle.std.specs.Prelude.{◌≡◌};

use crate::compared::same;
use arith_lanes::{ArithLanes, chance};
use bit_io::BitSlice;
use dst_num::{FrameFault, Reason};

#[test]
fn chances_have_a_probability_and_its_factor(rt: HostRuntime) {
    // 128 is eight bits long, 1 by a factor of 128, 3 by one of 64, 100 by one of 2.
    const CASES: [(u8, u16); 6] = [
        (127, 0x017f),
        (0, 0x8000),
        (2, 0x4002),
        (99, 0x0263),
        (255, 0x01ff),
        (0x82, 0x4082),
    ];
    for &(entry, expected) in &CASES {
        same(&rt, &(entry, chance(entry)), &(entry, expected));
    }
}

// A code that begins at a bit of these bytes.
fn code_from(bytes: &[u8], first: u64) -> BitSlice
    ensures bytes { result.bytes.now ≡ bytes.now }
    ensures first { result.first ≡ first }
{
    BitSlice { bytes, first }
}

// The symbols of lanes 2, 5 and 3 by a chance of the first two and one of the third in each step. Lane 2 has the code of the carry, lane 5
// the same behind five other bits, and lane 3 one of no bytes.
fn side_by_side(chances: &[(u16, u16); 6]) -> Option<[[u16; 3]; 6]> {
    let carry: [u8; 3] = [0x40, 0x18, 0x00];
    let behind: [u8; 4] = [0xfa, 0x00, 0xc0, 0x07];
    let mut lanes = ArithLanes::new();
    lanes.begin(2, code_from(&carry, 0)).ok()?;
    lanes.begin(5, code_from(&behind, 5)).ok()?;
    lanes.refill(5, &behind);
    if lanes.are_short() {
        return None;
    }
    let half = chance(255);
    let mut found = [[0; 3]; 6];
    for i in 0..6usize {
        let (p, other) = chances[i];
        let symbols = lanes.decode(&[half, half, p, other, half, p, half, half]);
        found[i] = [symbols[2], symbols[5], symbols[3]];
    }
    Some(found)
}

#[test]
fn codes_give_their_symbols_side_by_side(rt: HostRuntime) {
    // Lane 3 has the probabilities 1 and 128 in turn: each of its symbols is 1. Its chances turn symbols round.
    let half = chance(255);
    let turned = chance(127);
    let turned_least = chance(0);
    let chances = [
        (half, turned_least),
        (half, turned),
        (chance(128), turned_least),
        (half, turned),
        (half, turned_least),
        (half, turned),
    ];
    let wanted = [1, 0, 1, 0, 0, 0].map(|symbol| [symbol, symbol, 0]);
    same(&rt, &side_by_side(&chances), &Some(wanted));
}

#[test]
fn codes_with_a_fault_are_refused_at_its_bit(rt: HostRuntime) {
    const CASES: [(&[u8], u64, Reason, u64); 4] = [
        (&[0x80], 0, Reason::FirstCodeBit, 0),
        (&[0xff, 0xff], 3, Reason::FirstCodeBit, 3),
        (&[0x7f, 0xf8], 0, Reason::CodeRange, 1),
        (&[0xfb, 0xff, 0xc0], 5, Reason::CodeRange, 6),
    ];
    for &(bytes, first, reason, bit) in &CASES {
        let mut lanes = ArithLanes::new();
        let refused = lanes.begin(7, BitSlice { bytes, first });
        same(&rt, &refused, &Err(FrameFault { reason, bit }));
    }
}
