// Scales at their edges, and choices.
use crate::compared::same;
use arith_core::{scale, select};

// The scale of a range, if it is one of the code's.
fn scale_of(range: u64) -> Option<u64> {
    if range < 2048 || range > 4095 {
        return None;
    }
    Some(scale(range))
}

#[test]
fn scales_have_bit_7_put_in_by_or(rt: HostRuntime) {
    // 2,175 and 2,176 differ in bit 7; in 2,432 that bit is there already.
    const CASES: [(u64, u64); 6] = [
        (2048, 8),
        (2175, 8),
        (2176, 9),
        (2432, 9),
        (3967, 15),
        (4095, 15),
    ];
    for &(range, expected) in &CASES {
        same(&rt, &(range, scale_of(range)), &(range, Some(expected)));
    }
}

#[test]
fn one_of_two_numbers_is_selected(rt: HostRuntime) {
    let selected = [true, false].map(|first| select(first, u64::MAX, 5));
    same(&rt, &selected, &[u64::MAX, 5]);
}
