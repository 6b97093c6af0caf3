// One symbol, without a branch.
ghost use Rattle.std.specs.Prelude.{◌≡◌, ◌+◌, ◌*◌, ◌^◌, ◌<◌, ◌≤◌};
ghost use Rattle.dst_spec.specs.Interval.{Interval, narrowed};
ghost use Rattle.arith_core.specs.Range.{IsRange};
ghost use Rattle.arith_encoder.specs.Registers.{IsScaling};

use crate::scaling::Scaling;
use arith_core::{scale, select};

// The part of a symbol: where it begins in the range, and the range and the number of doublings behind it.
#[derive(Clone, Copy)]
pub(crate) struct Part {
    pub(crate) start: u64,
    pub(crate) range: u64,
    pub(crate) doublings: u64,
}

#[inline(always)]
pub(crate) fn narrow(range: u64, symbol: bool, p: u64, scaling: Scaling) -> Part
    requires range { IsRange range }
    requires least { 1 ≤ p }
    requires most { p ≤ 128 }
    requires scaling { IsScaling p scaling }
    ensures narrowed { (i : Interval) → i.range ≡ range → narrowed i (symbol, p)
        ≡ record { low = (i.low + result.start) * 2 ^ result.doublings; range = result.range; doublings = i.doublings + result.doublings } }
    ensures range { IsRange result.range }
    ensures few { result.doublings ≤ 8 }
    ensures within { result.start * 2 ^ result.doublings + result.range ≤ range * 2 ^ result.doublings }
{
    let scale = scale(range);
    let high = range - scale * p;
    let part = select(symbol, high, scale * scaling.scaled);
    let short = part < 2048;
    let last = u64::from(short);
    Part {
        start: select(symbol, 0, high),
        range: part + select(short, part, 0),
        doublings: select(symbol, last, scaling.shift + last),
    }
}
