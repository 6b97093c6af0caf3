// Where the worked jobs go: the sounds to a sink, or their unread bytes into a sum.
ghost use Rattle.dst_commands.specs.Rooms.{shape_number};
ghost use Rattle.dst_read.specs.Draining.{TakesSound, FailsAtSound, TakesTail, FailsAtTail};

use crate::faults::{CheckFault, DecodeFault};
use crate::jobs::Job;
use dst_commands::write_any;
use dst_num::Channels;
use dst_streams::Sink;
use frame_crew::Drain;

/// Writes the sounds of the frames, up to the first frame that is refused.
#[derive(Drop)]
pub(crate) struct SoundWriter<'a, K: Sink> {
    pub(crate) sink: &'a mut K,
    pub(crate) channels: Channels,
    /// Bytes of sound that aren't written yet.
    pub(crate) left: u64,
}

impl<K: Sink> Drain<Job> for SoundWriter<'_, K> {
    type Fault = DecodeFault;

    ghost shape = { λ s. shape_number s.channels };

    ghost takes = { TakesSound K.written K.room K.faults };

    ghost failed = { FailsAtSound K.written K.room K.faults };

    fn drain(&mut self, job: &mut Job) -> Result<(), DecodeFault> {
        if let Err(fault) = job.answer {
            return Err(DecodeFault::Frame {
                frame: job.number,
                fault,
            });
        }
        let length = self.left.min(job.sound.len() as u64);
        self.left -= length;
        match write_any(self.sink, &job.sound[..length as usize]) {
            Ok(()) => Ok(()),
            Err(_) => Err(DecodeFault::Write),
        }
    }
}

/// Adds up the unread bytes of the frames, up to the first frame that is refused.
#[derive(Drop)]
pub(crate) struct TailSum {
    pub(crate) channels: Channels,
    pub(crate) unread: u64,
}

impl Drain<Job> for TailSum {
    type Fault = CheckFault;

    ghost shape = { λ s. shape_number s.channels };

    ghost takes = { TakesTail };

    ghost failed = { FailsAtTail };

    fn drain(&mut self, job: &mut Job) -> Result<(), CheckFault> {
        match job.answer {
            Ok(tail) => {
                self.unread = self.unread.saturating_add(u64::from(tail));
                Ok(())
            }
            Err(fault) => Err(CheckFault::Frame {
                frame: job.number,
                fault,
            }),
        }
    }
}
