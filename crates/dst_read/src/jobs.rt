// The memory that frames are worked in.
ghost use Rattle.std.specs.Prelude.{◌≡◌, ◌<◌, ◌≤◌, length, IfOk};
ghost use Rattle.dst_spec.specs.Sample.{IsShape};
ghost use Rattle.dst_commands.specs.Rooms.{jobs_in, shape_number};
ghost use Rattle.dst_read.specs.Jobs.{shape_of_job, shape_of_tables, AreJobsFor, AreTablesFor};

use dst_commands::job_count;
use dst_frames::{BatchScratch, DecodedFrame, StoredFrame};
use dst_num::{Channels, FrameFault};
use frame_crew::Slot;
use std::alloc::{AllocError, Global};

/// A frame that is worked: its number, its stored bytes at the front of `frame`, the sound that it means, and what decoding
/// it answered: the bytes that aren't read, or why the frame is refused.
#[derive(Drop)]
pub struct Job {
    /// The number of the frame, from 0.
    pub number: u32,
    /// Bytes of the stored frame.
    pub size: u32,
    /// The channels of the form.
    pub channels: Channels,
    /// The stored frame at the front, in room for the longest one. It is as long as the longest that was read into it.
    pub frame: Vec<u8>,
    /// The bytes of the frame's sound.
    pub sound: Vec<u8>,
    /// The bytes that decoding didn't read, or why the frame is refused.
    pub answer: Result<u32, FrameFault>,
}

impl Slot for Job {
    ghost shape = { shape_of_job };
}

/// What one worker decodes with, and what the frames and sounds of up to eight jobs are moved to while they are decoded.
#[derive(Drop)]
pub struct Tables {
    pub(crate) scratch: BatchScratch,
    pub(crate) frames: [StoredFrame; 8],
    pub(crate) heard: [DecodedFrame; 8],
}

impl Slot for Tables {
    ghost shape = { shape_of_tables };
}

impl Job {
    /// Room for the longest frame of these channels, and for its sound.
    fn new(alloc: Global, channels: Channels) -> Result<Job, AllocError>
        ensures lawful { IfOk result (λ _. IsShape channels) }
        ensures shape { IfOk result (λ j. shape_of_job j ≡ shape_number channels) }
    {
        let size = channels.sound_bytes();
        Ok(Job {
            number: 0,
            size: 0,
            channels,
            frame: Vec::with_capacity(alloc, 2 * (size + 1))?,
            sound: vec![in alloc; 0; size]?,
            answer: Ok(0),
        })
    }
}

impl Tables {
    /// Room for the tables of these channels.
    fn new(alloc: Global, channels: Channels) -> Result<Tables, AllocError>
        ensures shape { IfOk result (λ t. shape_of_tables t ≡ shape_number channels) }
    {
        Ok(Tables {
            scratch: BatchScratch::new(alloc, channels)?,
            frames: no_frames(alloc),
            heard: no_sounds(alloc),
        })
    }
}

// Eight places with no bytes.
fn no_frames(alloc: Global) -> [StoredFrame; 8] {
    let none = || StoredFrame {
        bytes: Vec::new(alloc),
        size: 0,
    };
    [
        none(),
        none(),
        none(),
        none(),
        none(),
        none(),
        none(),
        none(),
    ]
}

fn no_sounds(alloc: Global) -> [DecodedFrame; 8] {
    let none = || DecodedFrame {
        sound: Vec::new(alloc),
        answer: Ok(0),
    };
    [
        none(),
        none(),
        none(),
        none(),
        none(),
        none(),
        none(),
        none(),
    ]
}

/// The jobs of so many workers, no more than there are frames.
pub fn jobs_for(
    alloc: Global,
    channels: Channels,
    frames: u32,
    workers: u32,
) -> Result<Vec<Job>, AllocError>
    ensures jobs { IfOk result (λ jobs. AreJobsFor channels jobs.items) }
    ensures count { IfOk result (λ jobs. length jobs.items ≡ jobs_in channels frames workers) }
{
    let count = job_count(channels, frames, workers);
    let mut jobs = Vec::with_capacity(alloc, count as usize)?;
    for _ in 0..count {
        jobs.push(Job::new(alloc, channels)?)?;
    }
    Ok(jobs)
}

/// What so many workers decode with.
pub fn tables_for(
    alloc: Global,
    channels: Channels,
    workers: u32,
) -> Result<Vec<Tables>, AllocError>
    requires least { 0 < workers }
    requires most { workers ≤ 16 }
    ensures tables { IfOk result (λ tables. AreTablesFor channels tables.items) }
    ensures count { IfOk result (λ tables. length tables.items ≡ workers) }
{
    let mut tables = Vec::with_capacity(alloc, workers as usize)?;
    for _ in 0..workers {
        tables.push(Tables::new(alloc, channels)?)?;
    }
    Ok(tables)
}
