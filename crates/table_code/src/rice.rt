// Residuals in the code of Rice.
ghost use Rattle.std.specs.Prelude.{◌≡◌, ◌+◌, ◌*◌, ◌<◌, ◌≤◌, ◌≤ℤ◌, ◌↔◌, ◌++◌, ◌^◌, ◌==◌, false, IsTrue, ℕ, ℤ, pos, negsuc, neg_ℤ, List, length, drop, if◌then◌else◌, IfNone, IfSome};
ghost use Rattle.dst_spec.specs.Rice.{rice, sign_bits};
ghost use Rattle.dst_spec.specs.Fields.{residual_length, residual_value, zero_run};
ghost use Rattle.bit_io.specs.Reading.{left};

use crate::appending::{append, append_zeros};
use bit_io::{BitReader, BitWriter};

/// Reads a residual with the Rice number `m`. None where the bits end before it does.
pub fn rice_read(reader: &mut BitReader, m: u32) -> Option<i32>
    requires most { m ≤ 7 }
    requires short { length (left reader.old) ≤ 2000000 }
    ensures none { IfNone result (length (left reader.old) < residual_length m (left reader.old)) }
    ensures no_code { IfNone result ((r : ℤ) (rest : List ℕ) → left reader.old ≡ rice r m ++ rest → ⊥) }
    ensures unchanged { IfNone result (reader.new ≡ reader.old) }
    ensures enough { IfSome result (λ _. residual_length m (left reader.old) ≤ length (left reader.old)) }
    ensures residual { IfSome result (λ r. r ≡ residual_value m (left reader.old)) }
    ensures code { IfSome result (λ r. left reader.old ≡ rice r m ++ left reader.new) }
    ensures rest { IfSome result (λ _. left reader.new ≡ drop (residual_length m (left reader.old)) (left reader.old)) }
    ensures place { IfSome result (λ _. reader.new.place ≡ reader.old.place + residual_length m (left reader.old)) }
    ensures bytes { reader.new.bytes ≡ reader.old.bytes }
{
    if reader.left() == 0 {
        return None;
    }
    let mut ahead = BitReader::over(reader.rest());
    let Some(quotient) = pass_zeros(&mut ahead) else {
        return None;
    };
    let Some(low) = ahead.read(m) else {
        return None;
    };
    let size = quotient * (1 << m) + low;
    let Some(sign) = ahead.read(u32::from(size != 0)) else {
        return None;
    };
    *reader = ahead;
    Some(signed(size, sign))
}

// The number of this size, negative where the sign is 1.
fn signed(size: u32, sign: u32) -> i32
    requires fits { size < 2 ^ 31 }
    ensures { result ≡ (if sign == 0 then pos size else neg_ℤ (pos size)) }
{
    if sign == 0 {
        size as i32
    } else {
        -(size as i32)
    }
}

// Passes zeros and the one behind them, and says how many zeros there were. None where there is no one; then the
// reader's place is open.
fn pass_zeros(reader: &mut BitReader) -> Option<u32>
    requires short { length (left reader.old) ≤ 2000000 }
    requires early { reader.old.place < 2 ^ 60 }
    ensures none { IfNone result (length (left reader.old) ≤ zero_run (left reader.old)) }
    ensures zeros { IfSome result (λ k. k ≡ zero_run (left reader.old)) }
    ensures one { IfSome result (λ k. k < length (left reader.old)) }
    ensures rest { IfSome result (λ k. left reader.new ≡ drop (k + 1) (left reader.old)) }
    ensures place { IfSome result (λ k. reader.new.place ≡ reader.old.place + (k + 1)) }
    ensures bytes { reader.new.bytes ≡ reader.old.bytes }
{
    let windows = reader.left().div_ceil(32);
    let mut passed = 0;
    for _ in 0..windows {
        let window = BitReader::over(reader.rest()).read_or_zero(32);
        if window != 0 {
            let zeros = window.leading_zeros();
            reader.read_or_zero(zeros + 1);
            return Some(passed + zeros);
        }
        reader.read_or_zero(32);
        passed += 32;
    }
    None
}

/// How many bits a residual takes, from -2,048 to 2,047.
pub fn rice_length(r: i32, m: u32) -> u32
    requires least { negsuc 2047 ≤ℤ r }
    requires greatest { r ≤ℤ pos 2047 }
    requires most { m ≤ 7 }
    ensures { result ≡ length (rice r m) }
{
    let size = r.unsigned_abs();
    (size >> m) + 1 + m + u32::from(size != 0)
}

/// Writes a residual, from -2,048 to 2,047. False, with nothing written, where its bits don't fit.
pub fn rice_write(writer: &mut BitWriter, r: i32, m: u32) -> bool
    requires least { negsuc 2047 ≤ℤ r }
    requires greatest { r ≤ℤ pos 2047 }
    requires most { m ≤ 7 }
    ensures written { IsTrue result ↔ (length (rice r m) ≤ writer.old.room) }
    ensures unchanged { result ≡ false → writer.new ≡ writer.old }
    ensures bits { IsTrue result → writer.new.bits ≡ writer.old.bits ++ rice r m }
    ensures room { IsTrue result → writer.new.room + length (rice r m) ≡ writer.old.room }
{
    if writer.room() < u64::from(rice_length(r, m)) {
        return false;
    }
    let size = r.unsigned_abs();
    append_zeros(writer, size >> m);
    append(writer, (1 << m) + size % (1 << m), m + 1);
    append_sign(writer, r);
    true
}

// Writes the sign, which a residual 0 doesn't have.
fn append_sign(writer: &mut BitWriter, r: i32)
    requires room { length (sign_bits r) ≤ writer.old.room }
    ensures bits { writer.new.bits ≡ writer.old.bits ++ sign_bits r }
    ensures room { writer.new.room + length (sign_bits r) ≡ writer.old.room }
{
    if r > 0 {
        append(writer, 0, 1);
    } else if r < 0 {
        append(writer, 1, 1);
    }
}
