// The frames of a coded file, read, decoded and written as rows of blocks.
ghost use Rattle.std.specs.Prelude.{◌≡◌, ◌+◌, ◌<◌, ◌≤◌, ℕ, List, [], Some, IfErr};
ghost use Rattle.dsdiff_spec.specs.Form.{size_of_sound};
ghost use Rattle.dsdiff_chunks.specs.Forms.{coded_seen};
ghost use Rattle.dst_read.specs.Decoding.{IsOpened, HasItsCause};
ghost use Rattle.dst_read.specs.Feeding.{bytes_of_entries};
ghost use Rattle.dst_read.specs.Jobs.{AreJobsFor, AreTablesFor};
ghost use Rattle.dsf_files.specs.Forms.{dsf_seen};
ghost use Rattle.dst_dsf.specs.Frames.{HasRun, HasWritten, FramesEnd};
ghost use Rattle.dst_dsf.specs.Gathering.{HasTaken};

use crate::opened::DsfWalked;
use crate::rows::RowWriter;
use dsdiff_chunks::OpenFault;
use dst_commands::sound_size;
use dst_read::{DecodeFault, Job, StoredFrames, Tables, decode_frames};
use dst_streams::{Sink, Source};
use frame_crew::{Gate, RunFault};
use std::thread::Threads;

/// Writes the sound of all frames as rows of blocks, up to the first frame that is refused.
pub(crate) fn write_rows<R: Threads + Sync, S: Source, K: Sink, G: Gate>(
    rt: &R,
    source: &mut S,
    sink: &mut K,
    opened: &DsfWalked,
    gate: &G,
    tables: &mut [Tables],
    jobs: &mut [Job],
) -> Result<(), DecodeFault>
    requires size { (n : ℕ) × (S.known source.old ≡ Some n) × (opened.now.walked.form.end ≤ n) }
    requires tables { AreTablesFor opened.now.walked.form.channels tables.old }
    requires jobs { AreJobsFor opened.now.walked.form.channels jobs.old }
    requires opened { (file : List ℕ) → S.bytes source.old ≡ Some file → IsOpened file (coded_seen opened.now.walked.form) opened.now.walked.index }
    ensures bytes { S.bytes source.new ≡ S.bytes source.old }
    ensures given { S.given source.new ≤ S.given source.old + bytes_of_entries opened.now.walked.index }
    ensures source_later { S.faults source.old ≤ S.faults source.new }
    ensures sink_later { K.faults sink.old ≤ K.faults sink.new }
    ensures cause { IfErr result (λ fault. HasItsCause fault (S.faults source.old) (S.faults source.new) (K.faults sink.old) (K.faults sink.new)) }
    ensures written { (file : List ℕ) → S.bytes source.old ≡ Some file →
        FramesEnd result file (coded_seen opened.now.walked.form) (dsf_seen opened.now.said) (K.written sink.old) (K.written sink.new) (K.room sink.old) (K.room sink.new) }
{
    let size = sound_size(&opened.walked.form);
    let mut feed = StoredFrames {
        source,
        walked: &opened.walked,
        next: 0,
    };
    let mut drain = RowWriter::new(sink, opened.said, size);
    run_rows(rt, &mut feed, &mut drain, gate, tables, jobs)
}

// Has the frames decoded, and the last row written.
fn run_rows<R: Threads + Sync, S: Source, K: Sink, G: Gate>(
    rt: &R,
    feed: &mut StoredFrames<'_, S>,
    drain: &mut RowWriter<'_, K>,
    gate: &G,
    tables: &mut [Tables],
    jobs: &mut [Job],
) -> Result<(), DecodeFault>
    requires first { feed.old.next ≡ 0 }
    requires size { (n : ℕ) × (S.known feed.old.source.now ≡ Some n) × (feed.old.walked.now.form.end ≤ n) }
    requires tables { AreTablesFor feed.old.walked.now.form.channels tables.old }
    requires jobs { AreJobsFor feed.old.walked.now.form.channels jobs.old }
    requires opened { (file : List ℕ) → S.bytes feed.old.source.now ≡ Some file → IsOpened file (coded_seen feed.old.walked.now.form) feed.old.walked.now.index }
    requires drain_channels { drain.old.row.form.channels ≡ feed.old.walked.now.form.channels }
    requires drain_size { drain.old.row.size ≡ size_of_sound (coded_seen feed.old.walked.now.form) }
    requires begins { HasTaken K.written K.room [] (K.written drain.old.sink.now) (K.room drain.old.sink.now) drain.old }
    ensures { HasWritten S.bytes S.known S.faults S.given K.written K.room K.faults (coded_seen feed.old.walked.now.form)
        feed.old feed.new drain.old drain.new result }
{
    if let Err(fault) = run_frames(rt, feed, drain, gate, tables, jobs) {
        return Err(fault);
    }
    match drain.finish() {
        Ok(()) => Ok(()),
        Err(_) => Err(DecodeFault::Write),
    }
}

// Has the frames decoded.
fn run_frames<R: Threads + Sync, S: Source, K: Sink, G: Gate>(
    rt: &R,
    feed: &mut StoredFrames<'_, S>,
    drain: &mut RowWriter<'_, K>,
    gate: &G,
    tables: &mut [Tables],
    jobs: &mut [Job],
) -> Result<(), DecodeFault>
    requires first { feed.old.next ≡ 0 }
    requires size { (n : ℕ) × (S.known feed.old.source.now ≡ Some n) × (feed.old.walked.now.form.end ≤ n) }
    requires tables { AreTablesFor feed.old.walked.now.form.channels tables.old }
    requires jobs { AreJobsFor feed.old.walked.now.form.channels jobs.old }
    requires opened { (file : List ℕ) → S.bytes feed.old.source.now ≡ Some file → IsOpened file (coded_seen feed.old.walked.now.form) feed.old.walked.now.index }
    requires drain_channels { drain.old.row.form.channels ≡ feed.old.walked.now.form.channels }
    requires drain_size { drain.old.row.size ≡ size_of_sound (coded_seen feed.old.walked.now.form) }
    requires begins { HasTaken K.written K.room [] (K.written drain.old.sink.now) (K.room drain.old.sink.now) drain.old }
    ensures { HasRun S.bytes S.known S.faults S.given K.written K.room K.faults (coded_seen feed.old.walked.now.form)
        feed.old feed.new drain.old drain.new result }
{
    match decode_frames(rt, feed, drain, gate, tables, jobs) {
        Ok(_) => Ok(()),
        Err(RunFault::Feed(_)) => Err(DecodeFault::Source(OpenFault::Read)),
        Err(RunFault::Drain(fault)) => Err(fault),
    }
}
