// A row of blocks in which sound is gathered.
ghost use Rattle.std.specs.Prelude.{◌≡◌, ◌+◌, ◌-◌, ◌*◌, ◌/◌, ◌%◌, ◌≤◌, ◌++◌, ℕ, List, length, take, true, replicate};
ghost use Rattle.dsdiff_spec.specs.Dsf.{dsf_row, octets};
ghost use Rattle.dsf_files.specs.Forms.{dsf_seen, is_order};
ghost use Rattle.dst_dsf.specs.Rows.{samples_of, HasRow};

use crate::row::{order_row, put_sound};
use dsf_files::DsfForm;

/// Most bytes of a row of blocks, of six channels.
const MOST_ROW: usize = 6 * 4096;

/// The row of blocks in which the byte of sound stands that comes next.
#[derive(Drop)]
pub(crate) struct OpenRow {
    pub(crate) form: DsfForm,
    /// Bytes of the whole sound, and of what was taken of it.
    pub(crate) size: u64,
    pub(crate) taken: u64,
    /// The bytes of sound in their blocks, 0 where none is yet.
    pub(crate) bytes: [u8; 24576],
    ghost order: { is_order form.bits ≡ true },
    ghost least: { 1 ≤ form.channels.channels },
    ghost most: { form.channels.channels ≤ 6 },
    ghost whole: { size ≡ octets (dsf_seen form) * form.channels.channels },
    ghost within: { taken ≤ size },
}

impl OpenRow {
    /// The first row of a sound of so many bytes.
    pub(crate) fn new(form: DsfForm, size: u64) -> OpenRow
        requires order { is_order form.bits ≡ true }
        requires whole { size ≡ octets (dsf_seen form) * form.channels.channels }
        ensures form { result.form ≡ form }
        ensures size { result.size ≡ size }
        ensures taken { result.taken ≡ 0 }
        ensures empty { result.bytes ≡ replicate 24576 0 }
    {
        // Read, so that their shape is known.
        let _count = form.channels.count();
        OpenRow {
            form,
            size,
            taken: 0,
            bytes: [0; MOST_ROW],
        }
    }

    /// Bytes of a row.
    pub(crate) fn block_bytes(&self) -> usize
        ensures { result ≡ 4096 * self.now.form.channels.channels }
    {
        4096 * self.form.channels.count()
    }

    /// Bytes of the sound that aren't taken yet.
    pub(crate) fn left(&self) -> u64
        ensures { result ≡ self.now.size - self.now.taken }
    {
        self.size - self.taken
    }

    /// The bytes of the row.
    pub(crate) fn blocks(&self) -> &[u8]
        ensures { result.now ≡ take (4096 * self.now.form.channels.channels) self.now.bytes }
    {
        &self.bytes[..self.block_bytes()]
    }

    /// Puts the next bytes of sound into the row.
    pub(crate) fn put(&mut self, part: &[u8])
        requires there { self.old.taken + length part.now ≤ self.old.size }
        requires inside { self.old.taken % (4096 * self.old.form.channels.channels) + length part.now ≤ 4096 * self.old.form.channels.channels }
        ensures form { self.new.form ≡ self.old.form }
        ensures size { self.new.size ≡ self.old.size }
        ensures taken { self.new.taken ≡ self.old.taken + length part.now }
        ensures put { (sound : List ℕ) (number : ℕ) → self.old.taken ≡ length sound → number ≡ self.old.taken / (4096 * self.old.form.channels.channels) →
            HasRow self.old.form.channels.channels sound number self.old.bytes → HasRow self.old.form.channels.channels (sound ++ part.now) number self.new.bytes }
    {
        let channels = self.form.channels.count();
        let filled = self.taken % (4096 * channels as u64);
        put_sound(&mut self.bytes, channels, filled as usize, part);
        self.taken += part.len() as u64;
    }

    /// Makes the bytes of the row those of a DSF file.
    pub(crate) fn order(&mut self, number: u64)
        ensures form { self.new.form ≡ self.old.form }
        ensures size { self.new.size ≡ self.old.size }
        ensures taken { self.new.taken ≡ self.old.taken }
        ensures row { (sound : List ℕ) → length sound ≤ self.old.size → HasRow self.old.form.channels.channels sound number self.old.bytes →
            take (4096 * self.old.form.channels.channels) self.new.bytes ≡ dsf_row (dsf_seen self.old.form) (samples_of (dsf_seen self.old.form) sound) number }
    {
        order_front(&mut self.bytes, &self.form, number);
    }

    /// Makes it a row without sound.
    pub(crate) fn empty(&mut self)
        ensures form { self.new.form ≡ self.old.form }
        ensures size { self.new.size ≡ self.old.size }
        ensures taken { self.new.taken ≡ self.old.taken }
        ensures empty { self.new.bytes ≡ replicate 24576 0 }
    {
        self.bytes = [0; MOST_ROW];
    }
}

// Makes the row at the front of some bytes one of a DSF file.
fn order_front(bytes: &mut [u8], form: &DsfForm, number: u64)
    requires order { is_order form.now.bits ≡ true }
    requires long { 24576 ≤ length bytes.old }
    ensures long { length bytes.new ≡ length bytes.old }
    ensures row { (sound : List ℕ) → length sound ≤ octets (dsf_seen form.now) * form.now.channels.channels → HasRow form.now.channels.channels sound number bytes.old →
        take (4096 * form.now.channels.channels) bytes.new ≡ dsf_row (dsf_seen form.now) (samples_of (dsf_seen form.now) sound) number }
{
    let size = 4096 * form.channels.count();
    order_row(&mut bytes[..size], form, number);
}
