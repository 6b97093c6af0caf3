// A row of blocks, one of each channel, by the bytes of sound in it.
ghost use Rattle.std.specs.Prelude.{◌≡◌, ◌⊎◌, ◌+◌, ◌-◌, ◌*◌, ◌<◌, ◌≤◌, ℕ, List, length, true, slice_index};
ghost use Rattle.dsdiff_spec.specs.Dsf.{dsf_row, octets};
ghost use Rattle.dsf_files.specs.Forms.{dsf_seen, is_order};
ghost use Rattle.dst_dsf.specs.Rows.{place_in, samples_of, HasRow, IsClearedRow};

use dsf_files::{DsfForm, clear_past, turn_bytes};

/// Puts bytes of sound, the channels' bytes in turn, into the blocks of a row, from its byte of sound `place` on.
pub(crate) fn put_sound(row: &mut [u8], channels: usize, place: usize, piece: &[u8])
    requires channels { 1 ≤ channels }
    requires few { channels ≤ 6 }
    requires long { 4096 * channels ≤ length row.old }
    requires inside { place + length piece.now ≤ 4096 * channels }
    ensures long { length row.new ≡ length row.old }
    ensures put { (k : ℕ) → k < length piece.now → slice_index row.new (place_in channels (place + k)) ≡ slice_index piece.now k }
    ensures others { (p : ℕ) → p < 4096 * channels → (p < place) ⊎ (place + length piece.now ≤ p) → slice_index row.new (place_in channels p) ≡ slice_index row.old (place_in channels p) }
{
    let mut channel = place % channels;
    let mut octet = place / channels;
    for byte in piece {
        row[4096 * channel + octet] = *byte;
        channel += 1;
        if channel == channels {
            channel = 0;
            octet += 1;
        }
    }
}

/// Makes bytes of sound the bytes of a row of a DSF file: bits past the last sample 0, and the bits of each byte in the file's order.
pub(crate) fn order_row(row: &mut [u8], form: &DsfForm, number: u64)
    requires order { is_order form.now.bits ≡ true }
    requires long { length row.old ≡ 4096 * form.now.channels.channels }
    ensures long { length row.new ≡ length row.old }
    ensures row { (sound : List ℕ) → length sound ≤ octets (dsf_seen form.now) * form.now.channels.channels → HasRow form.now.channels.channels sound number row.old →
        row.new ≡ dsf_row (dsf_seen form.now) (samples_of (dsf_seen form.now) sound) number }
{
    clear_row(row, form, number);
    if form.bits == 1 {
        turn_bytes(row);
    }
}

// Clears the bits past the last sample, where it is in this row.
fn clear_row(row: &mut [u8], form: &DsfForm, number: u64)
    requires long { length row.old ≡ 4096 * form.now.channels.channels }
    ensures long { length row.new ≡ length row.old }
    ensures cleared { IsClearedRow (dsf_seen form.now) number row.old row.new }
{
    let channels = form.channels.count();
    let past = form.samples % 8;
    if past != 0 && form.samples / 32_768 == number {
        let octet = form.samples % 32_768 / 8;
        clear_past(row, channels, octet as usize, 8 - past as u32);
    }
}
