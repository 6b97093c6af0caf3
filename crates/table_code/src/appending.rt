// Bits written where there is room for them.
ghost use Rattle.std.specs.Prelude.{◌≡◌, ◌+◌, ◌<◌, ◌≤◌, ◌++◌, ◌^◌, replicate};
ghost use Rattle.dst_spec.specs.Bits.{low_bits};

use bit_io::BitWriter;

/// Writes a number in `n` bits, at most 32.
pub(crate) fn append(writer: &mut BitWriter, value: u32, n: u32)
    requires most { n ≤ 32 }
    requires fits { value < 2 ^ n }
    requires room { n ≤ writer.old.room }
    ensures bits { writer.new.bits ≡ writer.old.bits ++ low_bits n value }
    ensures room { writer.new.room + n ≡ writer.old.room }
{
    writer.put(value, n);
}

/// Writes zeros.
pub(crate) fn append_zeros(writer: &mut BitWriter, count: u32)
    requires room { count ≤ writer.old.room }
    ensures bits { writer.new.bits ≡ writer.old.bits ++ replicate count 0 }
    ensures room { writer.new.room + count ≡ writer.old.room }
{
    for _ in 0..count / 32 {
        append(writer, 0, 32);
    }
    append(writer, 0, count % 32);
}
