// The memory that frames are stored in.
ghost use Rattle.std.specs.Prelude.{◌≡◌, ◌<◌, ◌≤◌, length, IfOk};
ghost use Rattle.dst_spec.specs.Sample.{IsShape};
ghost use Rattle.dst_commands.specs.Rooms.{jobs_in, shape_number};
ghost use Rattle.dst_write.specs.Jobs.{shape_of_job, shape_of_scratch, AreJobsFor, AreScratchesFor};

use dst_commands::job_count;
use dst_num::Channels;
use frame_crew::Slot;
use frame_store::StoreScratch;
use std::alloc::{AllocError, Global};

/// A frame that is stored: its number, its sound, and its stored bytes at the front of `frame`.
#[derive(Drop)]
pub(crate) struct Job {
    pub(crate) number: u32,
    /// Bytes of the stored frame.
    pub(crate) size: u32,
    pub(crate) channels: Channels,
    pub(crate) sound: Vec<u8>,
    pub(crate) frame: Vec<u8>,
}

impl Slot for Job {
    ghost shape = { shape_of_job };
}

/// What one worker stores with.
#[derive(Drop)]
pub(crate) struct Scratch {
    pub(crate) store: StoreScratch,
}

impl Slot for Scratch {
    ghost shape = { shape_of_scratch };
}

impl Job {
    /// Room for the sound of a frame of these channels, and for its plain form, which no stored frame is longer than.
    fn new(alloc: Global, channels: Channels) -> Result<Job, AllocError>
        ensures lawful { IfOk result (λ _. IsShape channels) }
        ensures shape { IfOk result (λ j. shape_of_job j ≡ shape_number channels) }
    {
        let bytes = channels.sound_bytes();
        Ok(Job {
            number: 0,
            size: 0,
            channels,
            sound: vec![in alloc; 0; bytes]?,
            frame: vec![in alloc; 0; 1 + bytes]?,
        })
    }
}

impl Scratch {
    /// Room for storing frames of these channels.
    fn new(alloc: Global, channels: Channels) -> Result<Scratch, AllocError>
        ensures shape { IfOk result (λ s. shape_of_scratch s ≡ shape_number channels) }
    {
        Ok(Scratch {
            store: StoreScratch::new(alloc, channels)?,
        })
    }
}

/// The jobs of so many workers, no more than there are frames, and at least one.
pub(crate) fn jobs_for(
    alloc: Global,
    channels: Channels,
    frames: u32,
    workers: u32,
) -> Result<Vec<Job>, AllocError>
    ensures jobs { IfOk result (λ jobs. AreJobsFor channels jobs.items) }
    ensures count { IfOk result (λ jobs. length jobs.items ≡ jobs_in channels frames workers) }
{
    let count = job_count(channels, frames, workers);
    let mut jobs = Vec::with_capacity(alloc, count as usize)?;
    for _ in 0..count {
        jobs.push(Job::new(alloc, channels)?)?;
    }
    Ok(jobs)
}

/// What so many workers store with.
pub(crate) fn scratches_for(
    alloc: Global,
    channels: Channels,
    workers: u32,
) -> Result<Vec<Scratch>, AllocError>
    requires least { 0 < workers }
    requires most { workers ≤ 16 }
    ensures scratches { IfOk result (λ scratches. AreScratchesFor channels scratches.items) }
    ensures count { IfOk result (λ scratches. length scratches.items ≡ workers) }
{
    let mut scratches = Vec::with_capacity(alloc, workers as usize)?;
    for _ in 0..workers {
        scratches.push(Scratch::new(alloc, channels)?)?;
    }
    Ok(scratches)
}
