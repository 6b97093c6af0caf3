// A row of blocks, one of each channel, as bytes of sound.
ghost use Rattle.std.specs.Prelude.{◌≡◌, ◌+◌, ◌-◌, ◌*◌, ◌/◌, ◌%◌, ◌^◌, ◌<◌, ◌≤◌, ℕ, List, length, true, Some, OnOk, slice_index};
ghost use Rattle.dst_streams.specs.Causes.{HasCause};
ghost use Rattle.dsdiff_spec.specs.Dsf.{dsf_of, rows};
ghost use Rattle.dsf_files.specs.Forms.{dsf_seen, has_blocks, is_order};
ghost use Rattle.dsf_files.specs.Rows.{turned, in_order, IsRowOf, IsCleared};

use crate::form::DsfForm;
use crate::header::block_bytes;
use dsdiff_chunks::read_range;
use dst_streams::{Failed, Source};

/// Bytes of a block.
pub(crate) const BLOCK: usize = 4096;

/// Turns the bits of each byte round, so that the earliest of samples in the least significant bit is in the most significant one, and
/// the other way round.
pub fn turn_bytes(bytes: &mut [u8])
    ensures long { length bytes.new ≡ length bytes.old }
    ensures turned { (k : ℕ) → k < length bytes.old → slice_index bytes.new k ≡ turned (slice_index bytes.old k) }
{
    for byte in bytes.iter_mut() {
        *byte = byte.reverse_bits();
    }
}

/// Clears the low bits, so many, of one byte of each channel's block.
pub fn clear_past(row: &mut [u8], channels: usize, octet: usize, bits: u32)
    requires channels { length row.old ≡ 4096 * channels }
    requires octet { octet < 4096 }
    requires bits { bits < 8 }
    ensures long { length row.new ≡ length row.old }
    ensures cleared { IsCleared row.old row.new channels octet bits }
{
    for channel in 0..channels {
        let byte = &mut row[4096 * channel + octet];
        *byte = *byte >> bits << bits;
    }
}

// Puts the earliest sample of each byte into the most significant bit.
fn order_bytes(bytes: &mut [u8], order: u8)
    ensures long { length bytes.new ≡ length bytes.old }
    ensures ordered { (k : ℕ) → k < length bytes.old → slice_index bytes.new k ≡ in_order order (slice_index bytes.old k) }
{
    if order == 1 {
        turn_bytes(bytes);
    }
}

// Where a row begins in a file: behind the header, and the rows before.
fn row_place(form: &DsfForm, number: u64) -> u64
    requires { number < rows (dsf_seen form.now) }
    ensures place { result ≡ 92 + number * (4096 * form.now.channels.channels) }
    ensures fits { result + 4096 * form.now.channels.channels < 2 ^ 64 }
{
    let _blocks = block_bytes(form);
    92 + number * (4096 * form.channels.count() as u64)
}

// Reads a row of a file into `row`, as the sound that it is: in each byte the earliest sample in the most significant bit, and samples past
// the last one 0.
fn read_row<S: Source>(
    source: &mut S,
    form: &DsfForm,
    number: u64,
    row: &mut [u8],
) -> Result<(), Failed>
    requires blocks { has_blocks (S.known source.old) form.now ≡ true }
    requires order { is_order form.now.bits ≡ true }
    requires number { number < rows (dsf_seen form.now) }
    requires long { length row.old ≡ 4096 * form.now.channels.channels }
    ensures bytes { S.bytes source.new ≡ S.bytes source.old }
    ensures stays { S.known source.new ≡ S.known source.old }
    ensures cause { HasCause (S.faults source.old) (S.faults source.new) result }
    ensures quiet { OnOk result (S.faults source.new ≡ S.faults source.old) }
    ensures long { length row.new ≡ length row.old }
    ensures row { OnOk result ((f : List ℕ) → S.bytes source.old ≡ Some f → dsf_of f ≡ dsf_seen form.now → IsRowOf f number row.new) }
{
    let place = row_place(form, number);
    let Ok(()) = read_range(source, place, row) else {
        return Err(Failed);
    };
    let channels = form.channels.count();
    order_bytes(row, form.bits);
    let past = form.samples % 8;
    if past != 0 && form.samples / 32_768 == number {
        let octet = form.samples % 32_768 / 8;
        clear_past(row, channels, octet as usize, 8 - past as u32);
    }
    Ok(())
}

// Reads a row of a file into the front of `row`.
pub(crate) fn fill_row<S: Source>(
    source: &mut S,
    form: &DsfForm,
    number: u64,
    row: &mut [u8],
) -> Result<(), Failed>
    requires blocks { has_blocks (S.known source.old) form.now ≡ true }
    requires order { is_order form.now.bits ≡ true }
    requires number { number < rows (dsf_seen form.now) }
    requires long { 6 * 4096 ≤ length row.old }
    ensures bytes { S.bytes source.new ≡ S.bytes source.old }
    ensures stays { S.known source.new ≡ S.known source.old }
    ensures cause { HasCause (S.faults source.old) (S.faults source.new) result }
    ensures quiet { OnOk result (S.faults source.new ≡ S.faults source.old) }
    ensures row { OnOk result ((f : List ℕ) → S.bytes source.old ≡ Some f → dsf_of f ≡ dsf_seen form.now → IsRowOf f number row.new) }
{
    let size = 4096 * form.channels.count();
    match read_row(source, form, number, &mut row[..size]) {
        Ok(()) => Ok(()),
        Err(failed) => Err(failed),
    }
}

// The bytes of sound in a row of two channels from an octet of each on, in pairs.
fn copy_pairs(row: &[u8], octet: usize, out: &mut [u8])
    requires long { length row.now ≡ 8192 }
    requires even { length out.old % 2 ≡ 0 }
    requires inside { octet + length out.old / 2 ≤ 4096 }
    ensures long { length out.new ≡ length out.old }
    ensures sound { (k : ℕ) → k < length out.new → slice_index out.new k ≡ slice_index row.now (4096 * (k % 2) + (octet + k / 2)) }
{
    for pair in 0..out.len() / 2 {
        out[2 * pair] = row[octet + pair];
        out[2 * pair + 1] = row[4096 + (octet + pair)];
    }
}

// The bytes of sound in a row from a place on, the channels' bytes in turn.
pub(crate) fn copy_sound(row: &[u8], channels: usize, place: usize, out: &mut [u8])
    requires channels { 1 ≤ channels }
    requires few { channels ≤ 6 }
    requires long { length row.now ≡ 4096 * channels }
    requires inside { place + length out.old ≤ 4096 * channels }
    ensures long { length out.new ≡ length out.old }
    ensures sound { (k : ℕ) → k < length out.new → slice_index out.new k ≡ slice_index row.now (4096 * ((place + k) % channels) + (place + k) / channels) }
{
    if channels == 2 && place % 2 == 0 && out.len() % 2 == 0 {
        copy_pairs(row, place / 2, out);
        return;
    }
    let mut channel = place % channels;
    let mut octet = place / channels;
    for byte in out.iter_mut() {
        *byte = row[4096 * channel + octet];
        channel += 1;
        if channel == channels {
            channel = 0;
            octet += 1;
        }
    }
}
