// Where the jobs come from: the stored frames of a form, in order.
ghost use Rattle.std.specs.Prelude.{◌≡◌, ◌+◌, ◌-◌, ◌<◌, ◌≤◌, ◌^◌, ℕ, List, length, max, take, Some, OnOk, vec_len, vec_capacity};
ghost use Rattle.dst_streams.specs.Causes.{HasCause};
ghost use Rattle.dsdiff_spec.specs.Walk.{frame_at};
ghost use Rattle.frame_index.specs.Entries.{entry_seen};
ghost use Rattle.dst_read.specs.Feeding.{feed_shape, GivesFrame, FailsToRead};

use crate::jobs::Job;
use dsdiff_chunks::read_range;
use dst_commands::WalkedForm;
use dst_streams::{Failed, Source};
use frame_crew::Feed;
use frame_index::Entry;

/// The stored frames that an index names, read one after the other.
#[derive(Drop)]
pub struct StoredFrames<'a, S: Source> {
    /// The source of the file.
    pub source: &'a mut S,
    /// The form, and where its frames stand.
    pub walked: &'a WalkedForm,
    /// The number of the next frame.
    pub next: u32,
}

impl<S: Source> Feed<Job> for StoredFrames<'_, S> {
    type Fault = Failed;

    ghost shape = { λ s. feed_shape (S.known s.source.now) s.walked.now.index s.walked.now.form.channels };

    ghost gives = { GivesFrame S.bytes S.known S.faults S.given };

    ghost ended = { λ s. length s.walked.now.index ≤ s.next };

    ghost failed = { FailsToRead S.bytes S.known S.faults S.given };

    ghost bound = { λ s. length s.walked.now.index - s.next };

    fn fill(&mut self, job: &mut Job) -> Result<bool, Failed> {
        if self.next >= self.walked.index.length() {
            return Ok(false);
        }
        let number = self.next;
        let entry = self.walked.index.entry(number);
        self.next += 1;
        lengthen(&mut job.frame, entry.size as usize);
        match read_frame(self.source, entry, &mut job.frame) {
            Ok(()) => {}
            Err(failed) => return Err(failed),
        }
        job.number = number;
        job.size = entry.size;
        Ok(true)
    }
}

// Makes a buffer longer, within its room, where it is shorter than this.
fn lengthen(frame: &mut Vec<u8>, size: usize)
    requires room { size ≤ vec_capacity frame.old }
    ensures long { vec_len frame.new ≡ max (vec_len frame.old) size }
    ensures room { vec_capacity frame.old ≤ vec_capacity frame.new }
{
    if frame.len() >= size {
        return;
    }
    let Ok(()) = frame.resize(size, 0) else {
        unreachable!()
    };
}

// Reads a stored frame into the front of a buffer.
fn read_frame<S: Source>(source: &mut S, entry: Entry, frame: &mut [u8]) -> Result<(), Failed>
    requires size { (n : ℕ) × (S.known source.old ≡ Some n) × (entry.offset + entry.size ≤ n) }
    requires fits { entry.offset + entry.size < 2 ^ 64 }
    requires room { entry.size ≤ length frame.old }
    ensures bytes { S.bytes source.new ≡ S.bytes source.old }
    ensures stays { S.known source.new ≡ S.known source.old }
    ensures given { S.given source.new ≤ S.given source.old + entry.size }
    ensures cause { HasCause (S.faults source.old) (S.faults source.new) result }
    ensures long { length frame.new ≡ length frame.old }
    ensures frame { OnOk result ((file : List ℕ) → S.bytes source.old ≡ Some file → take entry.size frame.new ≡ frame_at file (entry_seen entry)) }
{
    read_range(source, entry.offset, &mut frame[..entry.size as usize])
}
