// Where the jobs come from: the pieces of a plain form's sound, in order.
ghost use Rattle.std.specs.Prelude.{◌≡◌, ◌+◌, ◌-◌, ◌*◌, ◌<◌, ◌≤◌, ◌++◌, ℕ, min, List, length, take, replicate, Some, OnOk};
ghost use Rattle.dst_spec.specs.Sample.{sound_bytes};
ghost use Rattle.dst_streams.specs.Causes.{HasCause};
ghost use Rattle.dsdiff_spec.specs.Chunks.{body_of};
ghost use Rattle.dsdiff_chunks.specs.Seen.{head_seen};
ghost use Rattle.dst_write.specs.Feeding.{feed_shape, piece_of, GivesPiece, FailsToRead};

use crate::jobs::Job;
use dsdiff_chunks::{PlainForm, read_range};
use dst_streams::{Failed, Source};
use frame_crew::Feed;

/// The byte of silence, by which the last piece is filled.
const SILENCE: u8 = 0x69;

/// The pieces of a sound, read one after the other, each of the bytes of a frame's sound.
#[derive(Drop)]
pub(crate) struct SoundPieces<'a, S: Source> {
    pub(crate) source: &'a mut S,
    pub(crate) form: &'a PlainForm,
    /// The number of the next piece.
    pub(crate) next: u32,
}

impl<S: Source> Feed<Job> for SoundPieces<'_, S> {
    type Fault = Failed;

    ghost shape = { λ s. feed_shape (S.known s.source.now) s.form.now.end s.form.now.channels };

    ghost gives = { GivesPiece S.bytes S.known S.loan S.faults S.given };

    ghost ended = { λ s. s.form.now.frames ≤ s.next };

    ghost failed = { FailsToRead S.bytes S.known S.loan S.faults S.given };

    ghost bound = { λ s. s.form.now.frames - s.next };

    fn fill(&mut self, job: &mut Job) -> Result<bool, Failed> {
        if self.next >= self.form.frames {
            return Ok(false);
        }
        let number = self.next;
        self.next += 1;
        match read_piece(self.source, self.form, number, &mut job.sound) {
            Ok(()) => {}
            Err(failed) => return Err(failed),
        }
        job.number = number;
        Ok(true)
    }
}

// Reads a piece of the sound, and fills it up behind the sound's end.
fn read_piece<S: Source>(
    source: &mut S,
    form: &PlainForm,
    number: u32,
    sound: &mut [u8],
) -> Result<(), Failed>
    requires size { (n : ℕ) × (S.known source.old ≡ Some n) × (form.now.end ≤ n) }
    requires within { number < form.now.frames }
    requires room { length sound.old ≡ sound_bytes form.now.channels }
    ensures bytes { S.bytes source.new ≡ S.bytes source.old }
    ensures loan { S.loan source.new ≡ S.loan source.old }
    ensures stays { S.known source.new ≡ S.known source.old }
    ensures given { S.given source.new ≤ S.given source.old + min (form.now.sound.size - number * length sound.old) (length sound.old) }
    ensures cause { HasCause (S.faults source.old) (S.faults source.new) result }
    ensures long { length sound.new ≡ length sound.old }
    ensures piece { OnOk result ((file : List ℕ) → S.bytes source.old ≡ Some file →
        sound.new ≡ piece_of (sound_bytes form.now.channels) (body_of file (head_seen form.now.sound)) number) }
{
    let place = u64::from(number) * sound.len() as u64;
    let left = form.sound.size - place;
    let count = left.min(sound.len() as u64) as usize;
    let from = form.sound.place + 12 + place;
    match read_range(source, from, &mut sound[..count]) {
        Ok(()) => {}
        Err(failed) => return Err(failed),
    }
    fill_from(sound, count);
    Ok(())
}

// Fills a piece from the sound's end on.
fn fill_from(piece: &mut [u8], end: usize)
    requires { end ≤ length piece.old }
    ensures { piece.new ≡ take end piece.old ++ replicate (length piece.old - end) 0x69 }
{
    piece[end..].fill(SILENCE);
}
