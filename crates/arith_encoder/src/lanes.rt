// The lengths of eight codes, side by side.
ghost use Rattle.std.specs.Prelude.{◌≡◌, ℕ, ◌<◌, ◌≤◌, if◌then◌else◌, Bool, List, length, get_or};
ghost use Rattle.arith_core.specs.Range.{IsRange};
ghost use Rattle.arith_encoder.specs.Lanes.{IsStep, AreSteps, Leaves, Narrows, TakesStep};

use crate::scaling::scalings;
use dst_num::Prob;

/// What a symbol of a probability takes of a range, for `narrow_lanes`.
pub fn step_of(symbol: bool, p: Prob) -> u16
    ensures { IsStep symbol p result }
{
    let value = p.value();
    let scaling = scalings()[(value % 128) as usize];
    if symbol {
        32_768 + value as u16
    } else {
        256 * scaling.shift as u16 + scaling.scaled as u16
    }
}

/// Takes the same number of symbols, at most 8,000, of eight codes, one code in each lane, and gives how many doublings each has.
/// The ranges are then those behind the symbols. All eight are worked at once, without jumps.
pub fn narrow_lanes(ranges: &mut [u16; 8], steps: &[[u16; 8]]) -> [u16; 8]
    requires { length steps.now ≤ 8000 }
    ensures { (lane : ℕ) (pairs : List (Bool × ℕ)) → lane < 8 → AreSteps lane steps.now pairs → IsRange (get_or ranges.old lane 0)
        → Leaves (get_or ranges.old lane 0) pairs (get_or ranges.new lane 0) (get_or result lane 0) }
{
    let mut now = *ranges;
    let mut doublings = [0; 8];
    for step in steps {
        narrow_each(&mut now, &mut doublings, step);
    }
    *ranges = now;
    doublings
}

// One symbol of each code.
#[inline(always)]
fn narrow_each(ranges: &mut [u16; 8], doublings: &mut [u16; 8], step: &[u16; 8])
    ensures { (lane : ℕ) (symbol : Bool) (p : ℕ) → lane < 8 → IsStep symbol p (get_or step.now lane 0) → IsRange (get_or ranges.old lane 0)
        → TakesStep (get_or ranges.old lane 0) (get_or doublings.old lane 0) symbol p (get_or ranges.new lane 0) (get_or doublings.new lane 0) }
{
    for lane in 0..8 {
        let (range, more) = narrow_lane(ranges[lane], step[lane]);
        ranges[lane] = range;
        doublings[lane] = doublings[lane].wrapping_add(more);
    }
}

// One symbol of one code: the range and the number of doublings behind it. A symbol 1 has the range less the size of a symbol 0,
// so that size is added with its sign. The product takes the range's four highest bits, and `rounded` adds the size once more
// where the scale is odd and they are even: the product then waits for one shift of the range alone.
#[inline(always)]
fn narrow_lane(range: u16, step: u16) -> (u16, u16)
    ensures { (symbol : Bool) (p : ℕ) → IsStep symbol p step → IsRange range → Narrows range symbol p result.0 result.1 }
{
    let of_0 = step < 32_768;
    let size = step % 256;
    let signed = either(of_0, size, 0_u16.wrapping_sub(size));
    let before = either(of_0, 0, range);
    let rounded = either((range >> 7) % 4 == 1, signed, 0);
    let product = (range >> 8).wrapping_mul(signed);
    let part = product.wrapping_add(before.wrapping_add(rounded));
    let short = part < 2048;
    let more = either(short, part, 0);
    (part.wrapping_add(more), step / 256 % 8 + u16::from(short))
}

#[inline(always)]
fn either(test: bool, first: u16, second: u16) -> u16
    ensures { result ≡ (if test then first else second) }
{
    if test { first } else { second }
}
