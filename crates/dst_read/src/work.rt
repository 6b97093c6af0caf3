// The work on a run of jobs: their frames are decoded, up to eight side by side.
ghost use Rattle.std.specs.Prelude.{◌≡◌, ◌<◌, ◌≤◌, ℕ, All, length, get_or};
ghost use Rattle.std.specs.List.{AllZip};
ghost use Rattle.dst_commands.specs.Rooms.{shape_number};
ghost use Rattle.dst_read.specs.Jobs.{shape_of_job, shape_of_tables, IsWorked};
ghost use Rattle.dst_read.specs.Lending.{given_back, IsLent};
ghost use Rattle.dst_read.specs.declared.jobs.Job.{Job};
ghost use Rattle.dst_frames.specs.declared.stored.StoredFrame.{StoredFrame};
ghost use Rattle.dst_frames.specs.declared.stored.DecodedFrame.{DecodedFrame};

use crate::jobs::{Job, Tables};
use dst_frames::{DecodedFrame, StoredFrame, decode_batch};
use dst_num::Channels;
use frame_crew::FrameWork;
use std::mem::swap;

/// Decodes the frames of some channels.
#[derive(Drop)]
pub(crate) struct FrameDecoder {
    pub(crate) channels: Channels,
    ghost few: { channels.channels < 8 },
}

impl FrameWork for FrameDecoder {
    type Job = Job;

    type Scratch = Tables;

    ghost shape = { λ w. shape_number w.channels };

    ghost done = { λ w before after. IsWorked w.channels before after };

    fn work(&self, tables: &mut Tables, run: &mut [Job]) {
        work_run(self.channels, tables, run);
    }
}

// Decodes the frames of a run, eight at a time.
fn work_run(channels: Channels, tables: &mut Tables, run: &mut [Job])
    requires few { channels.channels < 8 }
    requires tables { shape_of_tables tables.old ≡ shape_number channels }
    requires jobs { All (λ job. shape_of_job job ≡ shape_number channels) run.old }
    ensures done { AllZip (IsWorked channels) run.old run.new }
    ensures shapes { All (λ job. shape_of_job job ≡ shape_number channels) run.new }
    ensures tables { shape_of_tables tables.new ≡ shape_number channels }
{
    if run.len() <= 8 {
        work_eight(channels, tables, run);
        return;
    }
    let (first, rest) = run.split_at_mut(8);
    work_eight(channels, tables, first);
    work_run(channels, tables, rest);
}

// Decodes the frames of up to eight jobs.
fn work_eight(channels: Channels, tables: &mut Tables, run: &mut [Job])
    requires few { channels.channels < 8 }
    requires eight { length run.old ≤ 8 }
    requires tables { shape_of_tables tables.old ≡ shape_number channels }
    requires jobs { All (λ job. shape_of_job job ≡ shape_number channels) run.old }
    ensures done { AllZip (IsWorked channels) run.old run.new }
    ensures shapes { All (λ job. shape_of_job job ≡ shape_number channels) run.new }
    ensures tables { shape_of_tables tables.new ≡ shape_number channels }
{
    let count = run.len();
    let frames = &mut tables.frames[..count];
    let heard = &mut tables.heard[..count];
    lend_all(run, frames, heard);
    decode_batch(frames, channels, &mut tables.scratch, heard);
    give_back_all(run, frames, heard);
}

// Moves the stored bytes and the sounds of jobs to where they are decoded.
fn lend_all(run: &mut [Job], frames: &mut [StoredFrame], heard: &mut [DecodedFrame])
    requires frames { length frames.old ≡ length run.old }
    requires heard { length heard.old ≡ length run.old }
    ensures { (n : ℕ) (job : Job) (frame : StoredFrame) (sound : DecodedFrame) → n < length run.old
        → IsLent (get_or run.old n job) (get_or run.new n job) (get_or frames.new n frame) (get_or heard.new n sound) }
{
    for n in 0..run.len() {
        lend(&mut run[n], &mut frames[n], &mut heard[n]);
    }
}

fn lend(job: &mut Job, frame: &mut StoredFrame, heard: &mut DecodedFrame)
    ensures { IsLent job.old job.new frame.new heard.new }
{
    swap(&mut job.frame, &mut frame.bytes);
    swap(&mut job.sound, &mut heard.sound);
    frame.size = job.size;
}

// Moves them back, the sounds and answers as they are now.
fn give_back_all(run: &mut [Job], frames: &mut [StoredFrame], heard: &mut [DecodedFrame])
    requires frames { length frames.old ≡ length run.old }
    requires heard { length heard.old ≡ length run.old }
    ensures { (n : ℕ) (job : Job) (frame : StoredFrame) (sound : DecodedFrame) → n < length run.old
        → get_or run.new n job ≡ given_back (get_or run.old n job) (get_or frames.old n frame) (get_or heard.old n sound) }
{
    for n in 0..run.len() {
        give_back(&mut run[n], &mut frames[n], &mut heard[n]);
    }
}

fn give_back(job: &mut Job, frame: &mut StoredFrame, heard: &mut DecodedFrame)
    ensures { job.new ≡ given_back job.old frame.old heard.old }
{
    swap(&mut job.frame, &mut frame.bytes);
    swap(&mut job.sound, &mut heard.sound);
    job.answer = heard.answer;
}
