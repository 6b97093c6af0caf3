// One symbol of one lane, without a branch and in sixteen bits.
ghost use Rattle.std.specs.Prelude.{◌≡◌, ◌+◌, ◌*◌, ◌/◌, ◌%◌, ◌<◌, Bool, if◌then◌else◌, nat_lt};
ghost use Rattle.dst_spec.specs.Interval.{scale as scale_of};
ghost use Rattle.arith_lanes.specs.Lanes.{StepsBy};

/// The registers of a lane.
#[derive(Clone, Copy)]
pub(crate) struct Registers {
    pub(crate) range: u16,
    // how far the code's number lies above the low end of the range
    pub(crate) offset: u16,
    // the next bits of the code, behind them a bit 1, and zeros
    pub(crate) high: u16,
    pub(crate) middle: u16,
    pub(crate) low: u16,
}

// All bits 1 where the first number is less, else all 0.
#[inline(always)]
fn less(x: u16, y: u16) -> u16
    ensures { x < 32768 → y < 32768 → result ≡ (if nat_lt x y then 65535 else 0) }
{
    0u16.wrapping_sub(x.wrapping_sub(y) >> 15)
}

// The first of two numbers where all bits of the mask are 1, the second where all are 0.
#[inline(always)]
fn chosen(mask: u16, first: u16, second: u16) -> u16
    ensures { (test : Bool) → mask ≡ (if test then 65535 else 0) → result ≡ (if test then first else second) }
{
    second ^ ((second ^ first) & mask)
}

// The scale of a range, in 4096ths.
#[inline(always)]
fn scale(range: u16) -> u16
    ensures { result ≡ scale_of range }
{
    range >> 8 | range >> 7 & 1
}

// Sixteen bits times a factor, and what sixteen bits behind them carry into them.
#[inline(always)]
fn times(upper: u16, lower: u16, factor: u16) -> u16
    ensures { result ≡ (upper * factor + lower * factor / 65536) % 65536 }
{
    let carried = u32::from(lower).wrapping_mul(u32::from(factor)) >> 16;
    upper.wrapping_mul(factor).wrapping_add(carried as u16)
}

/// The registers after a symbol whose probability is in a chance, and the symbol, turned round where bit 7 of the chance is 0. All
/// doublings are one multiplication.
#[inline(always)]
pub(crate) fn lane(r: Registers, chance: u16) -> (Registers, u16)
    ensures { StepsBy r chance result.0 result.1 }
{
    let factor = chance >> 8;
    let part = scale(r.range).wrapping_mul(chance % 128 + 1);
    let end = r.range.wrapping_sub(part);
    let one = less(r.offset, end);
    let range = chosen(one, end, part.wrapping_mul(factor));
    let due = less(range, 2048);
    let by = chosen(one, 1, factor);
    let by = chosen(due, by.wrapping_mul(2), by);
    let offset = r.offset.wrapping_sub(chosen(one, 0, end));
    let after = Registers {
        range: chosen(due, range.wrapping_mul(2), range),
        offset: times(offset, r.high, by),
        high: times(r.high, r.middle, by),
        middle: times(r.middle, r.low, by),
        low: r.low.wrapping_mul(by),
    };
    let mark = chance / 128 % 2;
    (after, chosen(one, mark, 1 - mark))
}
