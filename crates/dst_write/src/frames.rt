// The frames of a plain file, read piece by piece, stored and written in order.
ghost use Rattle.std.specs.Prelude.{◌≡◌, ◌+◌, ◌<◌, ◌≤◌, ℕ, List, All, length, Some, IfOk, IfErr, OnOk};
ghost use Rattle.dst_spec.specs.Sample.{sound_bytes};
ghost use Rattle.dsdiff_spec.specs.Coded.{stored_frames};
ghost use Rattle.dsdiff_chunks.specs.Forms.{plain_seen};
ghost use Rattle.dst_write.specs.Encoding.{FramesEnd, HasItsCause};
ghost use Rattle.dst_write.specs.Frames.{HasRoomFor, HasRun};
ghost use Rattle.dst_write.specs.Jobs.{AreJobsFor, AreScratchesFor};

use crate::drain::FrameWriter;
use crate::faults::EncodeFault;
use crate::feed::SoundPieces;
use crate::jobs::{Job, Scratch, jobs_for, scratches_for};
use crate::work::FrameStorer;
use dsdiff_chunks::{OpenFault, PlainForm};
use dst_num::Channels;
use dst_streams::{Sink, Source};
use frame_crew::{Gate, InTurn, RunFault, run_ordered};
use frame_store::Picker;
use std::alloc::{AllocError, Global};
use std::thread::Threads;

/// Bytes that are copied at a time.
const BUFFER: usize = 65_536;

/// What a file is encoded in: what each worker stores with, the jobs of its frames, the size of each stored frame, and a buffer by
/// which chunks are copied.
#[derive(Drop)]
pub(crate) struct Workspace {
    pub(crate) scratches: Vec<Scratch>,
    pub(crate) jobs: Vec<Job>,
    pub(crate) sizes: Vec<u32>,
    pub(crate) buffer: Vec<u8>,
}

impl Workspace {
    /// Room for so many workers and so many frames of these channels.
    pub(crate) fn new(
        alloc: Global,
        channels: Channels,
        frames: u32,
        workers: u32,
    ) -> Result<Workspace, AllocError>
        requires least { 0 < workers }
        requires most { workers ≤ 16 }
        ensures room { IfOk result (HasRoomFor channels frames) }
        ensures workers { IfOk result (λ w. length w.scratches.items ≡ workers) }
    {
        Ok(Workspace {
            scratches: scratches_for(alloc, channels, workers)?,
            jobs: jobs_for(alloc, channels, frames, workers)?,
            sizes: vec![in alloc; 0u32; frames as usize]?,
            buffer: vec![in alloc; 0u8; BUFFER]?,
        })
    }
}

/// Stores the pieces of the sound and writes them as frames, in order. The sizes of the stored frames stand in `sizes` afterwards.
pub(crate) fn write_frames<R: Threads + Sync, S: Source, K: Sink, P: Picker + Sync, G: Gate>(
    rt: &R,
    source: &mut S,
    sink: &mut K,
    form: &PlainForm,
    picker: &P,
    gate: &G,
    scratches: &mut [Scratch],
    jobs: &mut [Job],
    sizes: &mut [u32],
) -> Result<(), EncodeFault>
    requires size { (n : ℕ) × (S.known source.old ≡ Some n) × (form.now.end ≤ n) }
    requires scratches { AreScratchesFor form.now.channels scratches.old }
    requires jobs { AreJobsFor form.now.channels jobs.old }
    requires sizes { length sizes.old ≡ form.now.frames }
    ensures bytes { S.bytes source.new ≡ S.bytes source.old }
    ensures loan { S.loan source.new ≡ S.loan source.old }
    ensures stays { S.known source.new ≡ S.known source.old }
    ensures given { S.given source.new ≤ S.given source.old + form.now.sound.size }
    ensures source_later { S.faults source.old ≤ S.faults source.new }
    ensures sink_later { K.faults sink.old ≤ K.faults sink.new }
    ensures appended { K.appended sink.old ≤ K.appended sink.new }
    ensures long { length sizes.new ≡ length sizes.old }
    ensures short { OnOk result (All (λ n. n ≤ 1 + sound_bytes form.now.channels) sizes.new) }
    ensures cause { IfErr result (λ fault. HasItsCause fault (S.faults source.old) (S.faults source.new) (K.faults sink.old) (K.faults sink.new)) }
    ensures written { (file : List ℕ) → S.bytes source.old ≡ Some file →
        FramesEnd result (stored_frames (P.picks picker.now) file (plain_seen form.now)) sizes.new (K.written sink.old) (K.written sink.new) (K.room sink.old) (K.room sink.new) }
{
    let mut feed = SoundPieces {
        source,
        form,
        next: 0,
    };
    let mut drain = FrameWriter {
        sink,
        sizes,
        channels: form.channels,
    };
    run_frames(rt, &mut feed, &mut drain, picker, gate, scratches, jobs)
}

// Has the frames stored.
fn run_frames<R: Threads + Sync, S: Source, K: Sink, P: Picker + Sync, G: Gate>(
    rt: &R,
    feed: &mut SoundPieces<'_, S>,
    drain: &mut FrameWriter<'_, K>,
    picker: &P,
    gate: &G,
    scratches: &mut [Scratch],
    jobs: &mut [Job],
) -> Result<(), EncodeFault>
    requires first { feed.old.next ≡ 0 }
    requires size { (n : ℕ) × (S.known feed.old.source.now ≡ Some n) × (feed.old.form.now.end ≤ n) }
    requires scratches { AreScratchesFor feed.old.form.now.channels scratches.old }
    requires jobs { AreJobsFor feed.old.form.now.channels jobs.old }
    requires drain_channels { drain.old.channels ≡ feed.old.form.now.channels }
    requires sizes { length drain.old.sizes.now ≡ feed.old.form.now.frames }
    ensures { HasRun S.bytes S.known S.loan S.faults S.given K.written K.appended K.room K.faults (P.picks picker.now)
        feed.old feed.new drain.old drain.new result }
{
    let each = FrameStorer {
        picker,
        channels: feed.form.channels,
    };
    match run_ordered(rt, &InTurn { each }, feed, drain, gate, scratches, jobs) {
        Ok(_) => Ok(()),
        Err(RunFault::Feed(_)) => Err(EncodeFault::Source(OpenFault::Read)),
        Err(RunFault::Drain(fault)) => Err(fault),
    }
}
