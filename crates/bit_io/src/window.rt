// Bits of bytes as a number, read eight bytes at a time.
ghost use Rattle.std.specs.Prelude.{◌≡◌, ◌+◌, ◌*◌, ◌<◌, ◌≤◌, ◌^◌, length, slice_index};
ghost use Rattle.dst_spec.specs.Bits.{bits, number_from};

/// The number of the `n` bits from `place` on. Bits past the end are 0.
pub(crate) fn number_at(bytes: &[u8], place: u64, n: u32) -> u32
    requires most { n ≤ 32 }
    requires early { place < 2 ^ 63 }
    requires short { length bytes.now ≤ 2 ^ 50 }
    ensures number { result ≡ number_from (bits bytes.now) place n }
    ensures fits { result < 2 ^ n }
{
    if n == 0 {
        return 0;
    }
    let skipped = (place % 8) as u32;
    let window = window_at(bytes, (place / 8) as usize);
    let behind = 64 - skipped - n;
    ((window >> behind) % (1 << n)) as u32
}

// The number of the eight bytes from `first` on. Bytes past the end are 0.
fn window_at(bytes: &[u8], first: usize) -> u64
    requires early { first < 2 ^ 60 }
    requires short { length bytes.now ≤ 2 ^ 50 }
    ensures number { result ≡ number_from (bits bytes.now) (8 * first) 64 }
{
    if first + 8 <= bytes.len() {
        return u64::from_be_bytes([
            bytes[first],
            bytes[first + 1],
            bytes[first + 2],
            bytes[first + 3],
            bytes[first + 4],
            bytes[first + 5],
            bytes[first + 6],
            bytes[first + 7],
        ]);
    }
    let mut window = 0;
    for k in 0..8 {
        window = window * 256 + u64::from(byte_or_zero(bytes, first + k));
    }
    window
}

fn byte_or_zero(bytes: &[u8], place: usize) -> u8
    ensures { result ≡ slice_index bytes.now place }
{
    if place < bytes.len() { bytes[place] } else { 0 }
}
