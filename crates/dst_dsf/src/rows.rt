// Sound that is gathered into rows of blocks, each written when it is full.
ghost use Rattle.std.specs.Prelude.{◌≡◌, ◌+◌, ◌*◌, ◌/◌, ◌%◌, ◌<◌, ◌≤◌, ◌++◌, ℕ, List, length, true, Option, MatchResult, OnOk, [], replicate};
ghost use Rattle.dst_streams.specs.Causes.{HasCause};
ghost use Rattle.dsdiff_spec.specs.Dsf.{dsf_row, octets, rows};
ghost use Rattle.dsf_files.specs.Forms.{dsf_seen, is_order};
ghost use Rattle.dst_commands.specs.Writing.{Adds, Stops};
ghost use Rattle.dst_dsf.specs.Gathering.{HasTaken, FailsAtRow};
ghost use Rattle.dst_dsf.specs.Rows.{samples_of, rows_of, HasRow};

use crate::open_row::OpenRow;
use dsf_files::DsfForm;
use dst_streams::{Failed, Sink};

/// Gathers the sound of a DSF file into rows of blocks, and writes each row when it is full.
#[derive(Drop)]
pub(crate) struct RowWriter<'a, K: Sink> {
    pub(crate) sink: &'a mut K,
    /// The row of the byte that comes next.
    pub(crate) row: OpenRow,
}

impl<'a, K: Sink> RowWriter<'a, K> {
    /// Writes to this sink the sound of a DSF file whose header says `form`.
    pub(crate) fn new(sink: &'a mut K, form: DsfForm, size: u64) -> RowWriter<'a, K>
        requires order { is_order form.bits ≡ true }
        requires whole { size ≡ octets (dsf_seen form) * form.channels.channels }
        ensures lent { result.sink.ghost_name ≡ sink.entry.ghost_name }
        ensures sink { result.sink.now ≡ sink.entry.now }
        ensures form { result.row.form ≡ form }
        ensures size { result.row.size ≡ size }
        ensures taken { result.row.taken ≡ 0 }
        ensures begins { HasTaken K.written K.room [] (K.written sink.entry.now) (K.room sink.entry.now) result }
    {
        RowWriter {
            sink,
            row: OpenRow::new(form, size),
        }
    }

    // Writes the row of this number, and makes it one without sound.
    fn write_row(&mut self, number: u64) -> Result<(), Failed>
        ensures lent { self.new.sink.ghost_name ≡ self.old.sink.ghost_name }
        ensures form { self.new.row.form ≡ self.old.row.form }
        ensures size { self.new.row.size ≡ self.old.row.size }
        ensures taken { self.new.row.taken ≡ self.old.row.taken }
        ensures cause { HasCause (K.faults self.old.sink.now) (K.faults self.new.sink.now) result }
        ensures empty { OnOk result (self.new.row.bytes ≡ replicate 24576 0) }
        ensures written { (sound : List ℕ) → length sound ≤ self.old.row.size → HasRow self.old.row.form.channels.channels sound number self.old.row.bytes → MatchResult result
            (λ _. Adds (dsf_row (dsf_seen self.old.row.form) (samples_of (dsf_seen self.old.row.form) sound) number) (K.written self.old.sink.now) (K.written self.new.sink.now) (K.room self.old.sink.now) (K.room self.new.sink.now))
            (λ _. Stops (Unit {0}) (dsf_row (dsf_seen self.old.row.form) (samples_of (dsf_seen self.old.row.form) sound) number) (K.written self.old.sink.now) (K.written self.new.sink.now) (K.room self.old.sink.now)) }
    {
        self.row.order(number);
        match self.sink.append(self.row.blocks()) {
            Ok(()) => {
                self.row.empty();
                Ok(())
            }
            Err(_) => Err(Failed),
        }
    }

    // Takes bytes of sound that end in the row of the byte that comes next.
    fn take_part(&mut self, part: &[u8]) -> Result<(), Failed>
        requires there { self.old.row.taken + length part.now ≤ self.old.row.size }
        requires inside { self.old.row.taken % (4096 * self.old.row.form.channels.channels) + length part.now ≤ 4096 * self.old.row.form.channels.channels }
        ensures lent { self.new.sink.ghost_name ≡ self.old.sink.ghost_name }
        ensures form { self.new.row.form ≡ self.old.row.form }
        ensures size { self.new.row.size ≡ self.old.row.size }
        ensures taken { self.new.row.taken ≡ self.old.row.taken + length part.now }
        ensures cause { HasCause (K.faults self.old.sink.now) (K.faults self.new.sink.now) result }
        ensures written { (sound : List ℕ) (old : Option (List ℕ)) (room : Option ℕ) → HasTaken K.written K.room sound old room self.old → MatchResult result
            (λ _. HasTaken K.written K.room (sound ++ part.now) old room self.new)
            (λ _. FailsAtRow (dsf_seen self.old.row.form) (sound ++ part.now) old (K.written self.new.sink.now) room) }
    {
        let size = self.row.block_bytes() as u64;
        let number = self.row.taken / size;
        self.row.put(part);
        if self.row.taken / size == number {
            return Ok(());
        }
        self.write_row(number)
    }

    /// Takes the next bytes of the sound.
    pub(crate) fn take_sound(&mut self, piece: &[u8]) -> Result<(), Failed>
        requires there { self.old.row.taken + length piece.now ≤ self.old.row.size }
        ensures lent { self.new.sink.ghost_name ≡ self.old.sink.ghost_name }
        ensures form { self.new.row.form ≡ self.old.row.form }
        ensures size { self.new.row.size ≡ self.old.row.size }
        ensures taken { OnOk result (self.new.row.taken ≡ self.old.row.taken + length piece.now) }
        ensures cause { HasCause (K.faults self.old.sink.now) (K.faults self.new.sink.now) result }
        ensures written { (sound : List ℕ) (old : Option (List ℕ)) (room : Option ℕ) → HasTaken K.written K.room sound old room self.old → MatchResult result
            (λ _. HasTaken K.written K.room (sound ++ piece.now) old room self.new)
            (λ _. FailsAtRow (dsf_seen self.old.row.form) (sound ++ piece.now) old (K.written self.new.sink.now) room) }
    {
        let size = self.row.block_bytes();
        let mut place = 0;
        while place < piece.len() {
            let filled = (self.row.taken % size as u64) as usize;
            let count = (size - filled).min(piece.len() - place);
            match self.take_part(&piece[place..place + count]) {
                Ok(()) => {}
                Err(failed) => return Err(failed),
            }
            place += count;
        }
        Ok(())
    }

    /// Writes the row in which the sound ends, where it isn't written.
    pub(crate) fn finish(&mut self) -> Result<(), Failed>
        requires all { self.old.row.taken ≡ self.old.row.size }
        ensures lent { self.new.sink.ghost_name ≡ self.old.sink.ghost_name }
        ensures cause { HasCause (K.faults self.old.sink.now) (K.faults self.new.sink.now) result }
        ensures written { (sound : List ℕ) (old : Option (List ℕ)) (room : Option ℕ) → HasTaken K.written K.room sound old room self.old → MatchResult result
            (λ _. Adds (rows_of (dsf_seen self.old.row.form) sound (rows (dsf_seen self.old.row.form))) old (K.written self.new.sink.now) room (K.room self.new.sink.now))
            (λ _. Stops (Unit {0}) (rows_of (dsf_seen self.old.row.form) sound (rows (dsf_seen self.old.row.form))) old (K.written self.new.sink.now) room) }
    {
        let size = self.row.block_bytes() as u64;
        if self.row.taken % size == 0 {
            return Ok(());
        }
        self.write_row(self.row.taken / size)
    }
}
