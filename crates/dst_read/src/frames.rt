// The frames of a coded file, read, worked and written in order.
ghost use Rattle.std.specs.Prelude.{◌≡◌, ◌+◌, ◌<◌, ◌≤◌, ℕ, List, length, Some, IfOk, IfErr, OnOk};
ghost use Rattle.dsdiff_spec.specs.Form.{size_of_sound};
ghost use Rattle.dsdiff_chunks.specs.Forms.{coded_seen};
ghost use Rattle.frame_crew.specs.Answers.{IfFeedFault, IfDrainFault};
ghost use Rattle.frame_crew.specs.Runs.{Ran, FailsAtFeed, FailsAtDrain};
ghost use Rattle.dst_commands.specs.Rooms.{shape_number};
ghost use Rattle.dst_read.specs.Decoding.{IsOpened, FramesEnd, HasItsCause};
ghost use Rattle.dst_read.specs.Feeding.{GivesFrame, FailsToRead, bytes_left, bytes_of_entries};
ghost use Rattle.dst_read.specs.Frames.{HasRoomFor, HasRun};
ghost use Rattle.dst_read.specs.Jobs.{AreJobsFor, AreTablesFor, IsWorked};

use crate::drain::SoundWriter;
use crate::faults::DecodeFault;
use crate::feed::StoredFrames;
use crate::jobs::{Job, Tables, jobs_for, tables_for};
use crate::work::FrameDecoder;
use dsdiff_chunks::OpenFault;
use dst_commands::{WalkedForm, sound_size};
use dst_num::Channels;
use dst_streams::{Failed, Sink, Source};
use frame_crew::{Drain, Gate, RunFault, run_ordered};
use std::alloc::{AllocError, Global};
use std::thread::Threads;

/// Bytes that are copied at a time.
const BUFFER: usize = 65_536;

/// What a file is decoded in: what each worker decodes with, the jobs of its frames, and a buffer by which chunks are
/// copied.
#[derive(Drop)]
pub(crate) struct Workspace {
    pub(crate) tables: Vec<Tables>,
    pub(crate) jobs: Vec<Job>,
    pub(crate) buffer: Vec<u8>,
}

impl Workspace {
    /// Room for so many workers and the frames of these channels, of which there are so many.
    pub(crate) fn new(
        alloc: Global,
        channels: Channels,
        frames: u32,
        workers: u32,
    ) -> Result<Workspace, AllocError>
        requires least { 0 < workers }
        requires most { workers ≤ 16 }
        ensures room { IfOk result (HasRoomFor channels frames) }
        ensures workers { IfOk result (λ w. length w.tables.items ≡ workers) }
    {
        Ok(Workspace {
            tables: tables_for(alloc, channels, workers)?,
            jobs: jobs_for(alloc, channels, frames, workers)?,
            buffer: vec![in alloc; 0; BUFFER]?,
        })
    }
}

/// Writes the sound of all frames, cut to its size, up to the first frame that is refused.
pub(crate) fn write_frames<R: Threads + Sync, S: Source, K: Sink, G: Gate>(
    rt: &R,
    source: &mut S,
    sink: &mut K,
    walked: &WalkedForm,
    gate: &G,
    tables: &mut [Tables],
    jobs: &mut [Job],
) -> Result<(), DecodeFault>
    requires size { (n : ℕ) × (S.known source.old ≡ Some n) × (walked.now.form.end ≤ n) }
    requires tables { AreTablesFor walked.now.form.channels tables.old }
    requires jobs { AreJobsFor walked.now.form.channels jobs.old }
    requires opened { (file : List ℕ) → S.bytes source.old ≡ Some file → IsOpened file (coded_seen walked.now.form) walked.now.index }
    ensures bytes { S.bytes source.new ≡ S.bytes source.old }
    ensures stays { S.known source.new ≡ S.known source.old }
    ensures given { S.given source.new ≤ S.given source.old + bytes_of_entries walked.now.index }
    ensures source_later { S.faults source.old ≤ S.faults source.new }
    ensures sink_later { K.faults sink.old ≤ K.faults sink.new }
    ensures cause { IfErr result (λ fault. HasItsCause fault (S.faults source.old) (S.faults source.new) (K.faults sink.old) (K.faults sink.new)) }
    ensures written { (file : List ℕ) → S.bytes source.old ≡ Some file →
        FramesEnd result file (coded_seen walked.now.form) (K.written sink.old) (K.written sink.new) (K.room sink.old) (K.room sink.new) }
{
    let mut feed = StoredFrames {
        source,
        walked,
        next: 0,
    };
    let mut drain = SoundWriter {
        sink,
        channels: walked.form.channels,
        left: sound_size(&walked.form),
    };
    run_frames(rt, &mut feed, &mut drain, gate, tables, jobs)
}

/// Decodes the stored frames, and drains what became of each, in order.
///
/// There are as many workers as tables. What is drained is what one worker drains. No stored byte is read twice.
pub fn decode_frames<R: Threads + Sync, S: Source, D: Drain<Job>, G: Gate>(
    rt: &R,
    feed: &mut StoredFrames<'_, S>,
    drain: &mut D,
    gate: &G,
    tables: &mut [Tables],
    jobs: &mut [Job],
) -> Result<u32, RunFault<Failed, D::Fault>>
    requires size { (n : ℕ) × (S.known feed.old.source.now ≡ Some n) × (feed.old.walked.now.form.end ≤ n) }
    requires tables { AreTablesFor feed.old.walked.now.form.channels tables.old }
    requires jobs { AreJobsFor feed.old.walked.now.form.channels jobs.old }
    requires drain_shape { D.shape drain.old ≡ shape_number feed.old.walked.now.form.channels }
    ensures ran { IfOk result (λ count. Ran (GivesFrame S.bytes S.known S.faults S.given) D.takes (IsWorked feed.old.walked.now.form.channels) feed.old feed.new drain.old drain.new count) }
    ensures ended { OnOk result (length feed.new.walked.now.index ≤ feed.new.next) }
    ensures once { S.given feed.new.source.now ≤ S.given feed.old.source.now + bytes_left feed.old }
    ensures feed_fault { IfFeedFault result (λ fault. FailsAtFeed (GivesFrame S.bytes S.known S.faults S.given) (FailsToRead S.bytes S.known S.faults S.given) D.takes (IsWorked feed.old.walked.now.form.channels)
        feed.old feed.new drain.old drain.new fault) }
    ensures drain_fault { IfDrainFault result (λ fault. FailsAtDrain (GivesFrame S.bytes S.known S.faults S.given) (FailsToRead S.bytes S.known S.faults S.given) D.takes D.failed (IsWorked feed.old.walked.now.form.channels)
        (length jobs.old) feed.old feed.new drain.old drain.new fault) }
{
    let work = FrameDecoder {
        channels: feed.walked.form.channels,
    };
    run_ordered(rt, &work, feed, drain, gate, tables, jobs)
}

// Has the frames worked.
fn run_frames<R: Threads + Sync, S: Source, K: Sink, G: Gate>(
    rt: &R,
    feed: &mut StoredFrames<'_, S>,
    drain: &mut SoundWriter<'_, K>,
    gate: &G,
    tables: &mut [Tables],
    jobs: &mut [Job],
) -> Result<(), DecodeFault>
    requires first { feed.old.next ≡ 0 }
    requires size { (n : ℕ) × (S.known feed.old.source.now ≡ Some n) × (feed.old.walked.now.form.end ≤ n) }
    requires tables { AreTablesFor feed.old.walked.now.form.channels tables.old }
    requires jobs { AreJobsFor feed.old.walked.now.form.channels jobs.old }
    requires opened { (file : List ℕ) → S.bytes feed.old.source.now ≡ Some file → IsOpened file (coded_seen feed.old.walked.now.form) feed.old.walked.now.index }
    requires drain_channels { drain.old.channels ≡ feed.old.walked.now.form.channels }
    requires left { drain.old.left ≡ size_of_sound (coded_seen feed.old.walked.now.form) }
    ensures { HasRun S.bytes S.known S.faults S.given K.written K.room K.faults (coded_seen feed.old.walked.now.form)
        feed.old feed.new drain.old drain.new result }
{
    match decode_frames(rt, feed, drain, gate, tables, jobs) {
        Ok(_) => Ok(()),
        Err(RunFault::Feed(_)) => Err(DecodeFault::Source(OpenFault::Read)),
        Err(RunFault::Drain(fault)) => Err(fault),
    }
}
