// A source of the form that stands for a DSF file.
ghost use Rattle.std.specs.Prelude.{◌≡◌, ◌+◌, ◌*◌, ◌-◌, ◌<◌, ◌≤◌, length, true, Some, None, IfOk, OnOk};
ghost use Rattle.dst_streams.specs.Causes.{HasCause};
ghost use Rattle.dst_streams.specs.Told.{HoldsFrom, IsReadCount};
ghost use Rattle.dsdiff_spec.specs.Dsf.{rows};
ghost use Rattle.dsf_files.specs.Forms.{dsf_seen, has_blocks, is_order, IsFormOfTold, IsFormOfTold-prop};
ghost use Rattle.dsf_files.specs.Laws.{IsPlainOfTold, IsPlainOfTold-prop, size_is_whole, form_is_told};
ghost use Rattle.dsf_files.specs.Reading.{HoldsSound};
ghost use Rattle.dsf_files.specs.Rows.{HoldsRow, HoldsRow-prop};
ghost use Rattle.dsf_files.specs.Standing.{sound_size, plain_of, whole_size};

use crate::form::DsfForm;
use crate::plain::{back_of, back_size, copy_part, front_of, front_size, sound_size};
use crate::row::{copy_sound, fill_row};
use dst_streams::{Failed, Source};

/// Most bytes of a row of blocks, of six channels.
const MOST_ROW: usize = 6 * 4096;

/// A source whose bytes are the plain DSDIFF form that stands for a lent DSF file.
///
/// It holds one row of blocks, and takes no memory. Its count of faults is the lent source's, its count of bytes given its own.
#[derive(Drop)]
pub struct DsfSource<'a, S: Source> {
    source: &'a mut S,
    form: DsfForm,
    /// The sound of a row of blocks, of each channel one behind the other.
    row: [u8; 24576],
    /// Its number, or None.
    held: Option<u64>,
    given: u64,
    ghost blocks: { has_blocks (S.known source.now) form ≡ true },
    ghost order: { is_order form.bits ≡ true },
    ghost says: { IsFormOfTold (S.bytes source.now) form } by { IsFormOfTold-prop (S.bytes source.now) form },
    ghost plain: { IsPlainOfTold (S.bytes source.now) form } by { IsPlainOfTold-prop (S.bytes source.now) form },
    ghost holds: { HoldsRow held (S.bytes source.now) row } by { HoldsRow-prop held (S.bytes source.now) row },
}

impl<'a, S: Source> DsfSource<'a, S> {
    /// A source of the form that stands for the lent DSF file, whose header says `form`.
    pub fn new(source: &'a mut S, form: DsfForm) -> DsfSource<'a, S>
        requires blocks { has_blocks (S.known source.now) form ≡ true }
        requires order { is_order form.bits ≡ true }
        requires says { IsFormOfTold (S.bytes source.now) form }
        ensures lent { result.source.ghost_name ≡ source.entry.ghost_name }
        ensures loan { ⟦<DsfSource<'a, S> as Source>⟧.loan result ≡ Some (source.entry.ghost_name, S.bytes source.entry.now) }
        ensures bytes { ⟦<DsfSource<'a, S> as Source>⟧.bytes result ≡ plain_of (S.bytes source.entry.now) }
        ensures known { ⟦<DsfSource<'a, S> as Source>⟧.known result ≡ Some (whole_size (dsf_seen form)) }
        ensures faults { ⟦<DsfSource<'a, S> as Source>⟧.faults result ≡ S.faults source.entry.now }
        ensures given { ⟦<DsfSource<'a, S> as Source>⟧.given result ≡ 0 }
    {
        // Read, so that their shape is known.
        let _count = form.channels.count();
        DsfSource {
            source,
            form,
            row: [0; MOST_ROW],
            held: None,
            given: 0,
        }
    }

    // Holds a row of blocks, which is read where another one is held.
    fn hold_row(&mut self, number: u64) -> Result<(), Failed>
        requires { number < rows (dsf_seen self.old.form) }
        ensures lent { self.new.source.ghost_name ≡ self.old.source.ghost_name }
        ensures form { self.new.form ≡ self.old.form }
        ensures given { self.new.given ≡ self.old.given }
        ensures bytes { S.bytes self.new.source.now ≡ S.bytes self.old.source.now }
        ensures stays { S.known self.new.source.now ≡ S.known self.old.source.now }
        ensures cause { HasCause (S.faults self.old.source.now) (S.faults self.new.source.now) result }
        ensures quiet { OnOk result (S.faults self.new.source.now ≡ S.faults self.old.source.now) }
        ensures held { OnOk result (self.new.held ≡ Some number) }
    {
        if self.held == Some(number) {
            return Ok(());
        }
        self.held = None;
        let Ok(()) = fill_row(self.source, &self.form, number, &mut self.row) else {
            return Err(Failed);
        };
        self.held = Some(number);
        Ok(())
    }

    // Reads sound from a place in it on, of one row of blocks.
    fn read_sound(&mut self, place: u64, out: &mut [u8]) -> Result<usize, Failed>
        requires inside { place < sound_size (dsf_seen self.old.form) }
        requires room { 0 < length out.old }
        ensures lent { self.new.source.ghost_name ≡ self.old.source.ghost_name }
        ensures form { self.new.form ≡ self.old.form }
        ensures given { self.new.given ≡ self.old.given }
        ensures bytes { S.bytes self.new.source.now ≡ S.bytes self.old.source.now }
        ensures stays { S.known self.new.source.now ≡ S.known self.old.source.now }
        ensures cause { HasCause (S.faults self.old.source.now) (S.faults self.new.source.now) result }
        ensures quiet { OnOk result (S.faults self.new.source.now ≡ S.faults self.old.source.now) }
        ensures long { length out.new ≡ length out.old }
        ensures some { IfOk result (λ n. 0 < n) }
        ensures room { IfOk result (λ n. n ≤ length out.old) }
        ensures within { IfOk result (λ n. place + n ≤ sound_size (dsf_seen self.old.form)) }
        ensures read { IfOk result (λ n. HoldsSound (S.bytes self.old.source.now) self.old.form place n out.new) }
    {
        let channels = self.form.channels.count();
        let row = 4096 * channels;
        let Ok(()) = self.hold_row(place / row as u64) else {
            return Err(Failed);
        };
        let first = (place % row as u64) as usize;
        let left = sound_size(&self.form) - place;
        let count = out.len().min(row - first).min(left as usize);
        copy_sound(&self.row[..row], channels, first, &mut out[..count]);
        Ok(count)
    }

    // Reads bytes of the form from a place on, of one of its three parts.
    fn read_part(&mut self, place: u64, out: &mut [u8]) -> Result<usize, Failed>
        requires room { 0 < length out.old }
        ensures lent { self.new.source.ghost_name ≡ self.old.source.ghost_name }
        ensures form { self.new.form ≡ self.old.form }
        ensures given { self.new.given ≡ self.old.given }
        ensures bytes { S.bytes self.new.source.now ≡ S.bytes self.old.source.now }
        ensures cause { HasCause (S.faults self.old.source.now) (S.faults self.new.source.now) result }
        ensures quiet { OnOk result (S.faults self.new.source.now ≡ S.faults self.old.source.now) }
        ensures long { length out.new ≡ length out.old }
        ensures count { IfOk result (λ n. IsReadCount (whole_size (dsf_seen self.old.form)) place (length out.old) n) }
        ensures read { IfOk result (λ n. HoldsFrom (plain_of (S.bytes self.old.source.now)) place n out.new) }
    {
        let front = front_size(&self.form);
        if place < front {
            return Ok(copy_part(front_of(&self.form).as_slice(), place as usize, out));
        }
        let sound = sound_size(&self.form);
        if place - front < sound {
            return match self.read_sound(place - front, out) {
                Ok(count) => Ok(count),
                Err(failed) => Err(failed),
            };
        }
        let behind = (place - front - sound).min(back_size(&self.form));
        Ok(copy_part(back_of(&self.form).as_slice(), behind as usize, out))
    }
}

impl<'a, S: Source> Source for DsfSource<'a, S> {
    ghost bytes = { λ s. plain_of (S.bytes s.source.now) };

    ghost known = { λ s. Some (whole_size (dsf_seen s.form)) };

    ghost faults = { λ s. S.faults s.source.now };

    ghost given = { λ s. s.given };

    ghost loan = { λ s. Some (s.source.ghost_name, S.bytes s.source.now) };

    ghost size_is_length = { λ s xs n told known. size_is_whole (S.bytes s.source.now) s.form xs n s.plain told known };

    ghost told_are_bytes = { λ s xs told. form_is_told (S.bytes s.source.now) s.form xs s.plain told };

    fn size(&mut self) -> Result<u64, Failed> {
        Ok(front_size(&self.form) + sound_size(&self.form) + back_size(&self.form))
    }

    fn read_at(&mut self, place: u64, out: &mut [u8]) -> Result<usize, Failed> {
        match self.read_part(place, out) {
            Ok(count) => {
                self.given = self.given.saturating_add(count as u64);
                Ok(count)
            }
            Err(failed) => {
                // Read, so that it is known to fit.
                let _given = self.given;
                Err(failed)
            }
        }
    }
}
