// Rows of sums: what each byte of samples adds, lane by lane.
ghost use Rattle.std.specs.Prelude.{◌≡◌, ℕ, ◌+◌, ◌*◌, ◌%◌, ◌<◌, ◌≤◌, pos, neg_ℤ, ◌+ℤ◌, ◌≤ℤ◌, [], length, get_or, drop};
ghost use Rattle.dst_spec.specs.Table.{filter_kind, InRange};
ghost use Rattle.byte_predictor.specs.Samples.{rising_bits};
ghost use Rattle.byte_predictor.specs.Upward.{above_zero, upward_sum};

use crate::byte_filter::coef_at;

// A sum where a coefficient is taken positive in place of negative.
#[inline(always)]
pub(crate) fn moved(sum: u16, coef: i16) -> u16
    requires least { pos 0 ≤ℤ (pos sum +ℤ coef) }
    requires most { (pos sum +ℤ coef) ≤ℤ pos 65535 }
    ensures { pos result ≡ pos sum +ℤ coef }
{
    (i32::from(sum) + i32::from(coef)) as u16
}

// The size of a coefficient below 0.
#[inline(always)]
fn below_zero(coef: i16) -> u16
    ensures { result ≡ above_zero (neg_ℤ coef) }
{
    if coef < 0 { coef.unsigned_abs() } else { 0 }
}

// What eight samples 0 add.
pub(crate) fn zeros_sum(coefs: &[i16], first: usize) -> u16
    requires range { (j : ℕ) → InRange filter_kind (get_or coefs.now j (pos 0)) }
    requires inside { first < 136 }
    ensures { result ≡ upward_sum (drop first coefs.now) (rising_bits 8 0) }
{
    let mut sum = 0;
    for i in 0..8 {
        let size = below_zero(coef_at(coefs, first + i));
        sum += size;
    }
    sum
}

fn lowest_row<const L: usize, const N: usize>(row: &mut [u16; N], later: &[i16])
    requires range { (j : ℕ) → InRange filter_kind (get_or later.now j (pos 0)) }
    requires few { L ≤ 136 }
    requires inside { L ≤ N }
    ensures { (lane : ℕ) → lane < L → get_or row.new lane 0 ≡ upward_sum (drop lane later.now) (rising_bits 8 0) }
{
    for lane in 0..L {
        let sum = zeros_sum(later, lane);
        row[lane] = sum;
    }
}

// The row of a byte with bit i from that of the byte without it.
#[inline(always)]
fn raise_row<const L: usize, const N: usize>(
    high: &mut [u16; N],
    low: &[u16; N],
    later: &[i16],
    i: usize,
)
    requires place { i < 8 }
    requires inside { L ≤ N }
    requires long { L + 8 ≤ length later.now }
    requires least { (lane : ℕ) → lane < L → pos 0 ≤ℤ (pos (get_or low.now lane 0) +ℤ get_or later.now (lane + i) (pos 0)) }
    requires most { (lane : ℕ) → lane < L → (pos (get_or low.now lane 0) +ℤ get_or later.now (lane + i) (pos 0)) ≤ℤ pos 65535 }
    ensures { (lane : ℕ) → lane < L
        → pos (get_or high.new lane 0) ≡ pos (get_or low.now lane 0) +ℤ get_or later.now (lane + i) (pos 0) }
{
    for lane in 0..L {
        let sum = moved(low[lane], later[lane + i]);
        high[lane] = sum;
    }
}

/// Each row has for each of its first `L` lanes what a byte adds there, by the coefficients from that lane on.
pub(crate) fn fill_rows<const L: usize, const N: usize>(rows: &mut [[u16; N]; 256], later: &[i16])
    requires range { (j : ℕ) → InRange filter_kind (get_or later.now j (pos 0)) }
    requires long { L + 8 ≤ length later.now }
    requires few { L ≤ 136 }
    requires inside { L ≤ N }
    ensures { (byte lane : ℕ) → byte < 256 → lane < L
        → get_or (get_or rows.new byte []) lane 0 ≡ upward_sum (drop lane later.now) (rising_bits 8 byte) }
{
    lowest_row::<L, N>(&mut rows[0], later);
    let mut half = 1;
    for i in 0..8 {
        for byte in 0..half {
            let low = rows[byte];
            raise_row::<L, N>(&mut rows[half + byte], &low, later, i);
        }
        half *= 2;
    }
}

/// Moves the first `L` lanes on by eight samples, and adds what these add.
#[inline(always)]
pub(crate) fn add_row<const L: usize, const N: usize, const M: usize>(
    lanes: &mut [u16; M],
    row: &[u16; N],
)
    requires row { L ≤ N }
    requires lanes { M ≡ N + 8 }
    ensures long { length lanes.new ≡ M }
    ensures added { (lane : ℕ) → lane < L → get_or lanes.new lane 0 ≡ (get_or lanes.old (lane + 8) 0 + get_or row.now lane 0) % 65536 }
    ensures last { (lane : ℕ) → L ≤ lane → get_or lanes.new lane 0 ≡ get_or lanes.old lane 0 }
{
    for lane in 0..L {
        let sum = lanes[lane + 8].wrapping_add(row[lane]);
        lanes[lane] = sum;
    }
}

/// The same for the first sixteen lanes alone. Their sums are made before one of them is written, so that the compiler takes eight at a time.
#[inline(always)]
pub(crate) fn add_front(lanes: &mut [u16; 136], row: &[u16; 128])
    ensures long { length lanes.new ≡ 136 }
    ensures added { (lane : ℕ) → lane < 16 → get_or lanes.new lane 0 ≡ (get_or lanes.old (lane + 8) 0 + get_or row.now lane 0) % 65536 }
    ensures last { (lane : ℕ) → 16 ≤ lane → get_or lanes.new lane 0 ≡ get_or lanes.old lane 0 }
{
    let mut front = [0; 16];
    for lane in 0..16 {
        let early = lanes[lane + 8].wrapping_add(row[lane]);
        front[lane] = early;
    }
    for lane in 0..16 {
        lanes[lane] = front[lane];
    }
}

/// The same for the lanes behind the first sixteen, which had it before.
#[inline(always)]
pub(crate) fn add_rest(lanes: &mut [u16; 136], row: &[u16; 128])
    ensures long { length lanes.new ≡ 136 }
    ensures first { (lane : ℕ) → lane < 16 → get_or lanes.new lane 0 ≡ get_or lanes.old lane 0 }
    ensures added { (lane : ℕ) → 16 ≤ lane → lane < 128 → get_or lanes.new lane 0 ≡ (get_or lanes.old (lane + 8) 0 + get_or row.now lane 0) % 65536 }
    ensures last { (lane : ℕ) → 128 ≤ lane → get_or lanes.new lane 0 ≡ get_or lanes.old lane 0 }
{
    for lane in 16..128 {
        let whole = lanes[lane + 8].wrapping_add(row[lane]);
        lanes[lane] = whole;
    }
}
