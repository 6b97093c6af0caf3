// Where the stored frames go: to a sink, each in a chunk of its own, and their sizes into a list.
ghost use Rattle.std.specs.Prelude.{◌≡◌, slice_set};
ghost use Rattle.dst_commands.specs.Rooms.{shape_number};
ghost use Rattle.dst_write.specs.Draining.{TakesFrame, FailsAtFrame};

use crate::faults::EncodeFault;
use crate::jobs::Job;
use dsdiff_chunks::write_frame;
use dst_num::Channels;
use dst_streams::Sink;
use frame_crew::Drain;

/// Writes the stored frames, and notes the size of each at its number.
#[derive(Drop)]
pub(crate) struct FrameWriter<'a, K: Sink> {
    pub(crate) sink: &'a mut K,
    pub(crate) sizes: &'a mut [u32],
    pub(crate) channels: Channels,
}

impl<K: Sink> Drain<Job> for FrameWriter<'_, K> {
    type Fault = EncodeFault;

    ghost shape = { λ s. shape_number s.channels };

    ghost takes = { TakesFrame K.written K.appended K.room K.faults };

    ghost failed = { FailsAtFrame K.written K.appended K.room K.faults };

    fn drain(&mut self, job: &mut Job) -> Result<(), EncodeFault> {
        match write_frame(self.sink, &job.frame[..job.size as usize]) {
            Ok(()) => {}
            Err(_) => return Err(EncodeFault::Write),
        }
        note(self.sizes, job.number, job.size);
        Ok(())
    }
}

// Notes the size of a frame at its number, where there is a place for it.
fn note(sizes: &mut [u32], number: u32, size: u32)
    ensures { sizes.new ≡ slice_set sizes.old number size }
{
    let place = number as usize;
    if place < sizes.len() {
        sizes[place] = size;
    }
}
