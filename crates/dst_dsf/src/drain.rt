// Where the decoded frames go: their sounds into rows of blocks, up to the first frame that is refused.
ghost use Rattle.dst_commands.specs.Rooms.{shape_number};
ghost use Rattle.dst_dsf.specs.Draining.{TakesSound, FailsAtSound};

use crate::rows::RowWriter;
use dst_read::{DecodeFault, Job};
use dst_streams::Sink;
use frame_crew::Drain;

impl<K: Sink> Drain<Job> for RowWriter<'_, K> {
    type Fault = DecodeFault;

    ghost shape = { λ s. shape_number s.row.form.channels };

    ghost takes = { TakesSound K.written K.room K.faults };

    ghost failed = { FailsAtSound K.written K.room K.faults };

    fn drain(&mut self, job: &mut Job) -> Result<(), DecodeFault> {
        if let Err(fault) = job.answer {
            return Err(DecodeFault::Frame {
                frame: job.number,
                fault,
            });
        }
        let left = self.row.left();
        let length = left.min(job.sound.len() as u64);
        match self.take_sound(&job.sound[..length as usize]) {
            Ok(()) => Ok(()),
            Err(_) => Err(DecodeFault::Write),
        }
    }
}
