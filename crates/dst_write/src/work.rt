// The work on a job: its sound is stored.
ghost use Rattle.std.specs.Prelude.{◌≡◌, ◌<◌, ◌≤◌, length, take};
ghost use Rattle.dst_spec.specs.Sample.{sound_bytes};
ghost use Rattle.dst_commands.specs.Rooms.{shape_number};
ghost use Rattle.dst_write.specs.Jobs.{IsStored};

use crate::jobs::{Job, Scratch};
use dst_num::Channels;
use frame_crew::JobWork;
use frame_store::{Picker, store_frame};

/// Stores the sounds of some channels by what a picker finds for each.
#[derive(Drop)]
pub(crate) struct FrameStorer<'a, P: Picker + Sync> {
    pub(crate) picker: &'a P,
    pub(crate) channels: Channels,
    ghost few: { channels.channels < 8 },
    ghost short: { sound_bytes channels ≤ 112896 },
}

impl<P: Picker + Sync> JobWork for FrameStorer<'_, P> {
    type Job = Job;

    type Scratch = Scratch;

    ghost shape = { λ w. shape_number w.channels };

    ghost done = { λ w before after. IsStored w.channels (P.picks w.picker.now) before after };

    fn work_job(&self, scratch: &mut Scratch, job: &mut Job) {
        store_frame(self.picker, &job.sound, self.channels, &mut scratch.store);
        let stored = scratch.store.stored();
        job.size = stored.len() as u32;
        put_at_front(stored, &mut job.frame);
    }
}

// Puts a stored frame at the front of a buffer.
fn put_at_front(stored: &[u8], buffer: &mut [u8])
    requires { length stored.now ≤ length buffer.old }
    ensures front { take (length stored.now) buffer.new ≡ stored.now }
    ensures long { length buffer.new ≡ length buffer.old }
{
    buffer[..stored.len()].copy_from_slice(stored);
}
