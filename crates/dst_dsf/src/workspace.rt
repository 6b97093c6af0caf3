// The memory that a file is decoded in.
ghost use Rattle.std.specs.Prelude.{◌≡◌, ◌<◌, ◌≤◌, length, IfOk};
ghost use Rattle.dst_dsf.specs.Rooms.{HasRoomFor};

use dst_num::Channels;
use dst_read::{Job, Tables, jobs_for, tables_for};
use std::alloc::{AllocError, Global};

/// What each worker decodes with, and the jobs of the frames.
#[derive(Drop)]
pub(crate) struct Workspace {
    pub(crate) tables: Vec<Tables>,
    pub(crate) jobs: Vec<Job>,
}

impl Workspace {
    /// Room for so many workers and the frames of these channels, of which there are so many.
    pub(crate) fn new(
        alloc: Global,
        channels: Channels,
        frames: u32,
        workers: u32,
    ) -> Result<Workspace, AllocError>
        requires least { 0 < workers }
        requires most { workers ≤ 16 }
        ensures room { IfOk result (HasRoomFor channels frames) }
        ensures workers { IfOk result (λ w. length w.tables.items ≡ workers) }
    {
        Ok(Workspace {
            tables: tables_for(alloc, channels, workers)?,
            jobs: jobs_for(alloc, channels, frames, workers)?,
        })
    }
}
