// What the frames of a stream are decoded in.
ghost use Rattle.std.specs.Prelude.{◌≡◌, length, IfOk};
ghost use Rattle.dst_spec.specs.Sample.{sound_bytes};

use dst_frames::Scratch;
use dst_num::Channels;
use std::alloc::{AllocError, Global};

/// The channels and the number of frames that the stream says, how many were decoded, and room for a frame's sound.
#[derive(Drop)]
pub(crate) struct Work {
    pub(crate) channels: Channels,
    pub(crate) frame_count: u32,
    pub(crate) decoded: u32,
    pub(crate) scratch: Scratch,
    pub(crate) sound: Vec<u8>,
}

impl Work {
    /// Takes all memory that decoding the frames needs.
    pub(crate) fn new(
        alloc: Global,
        channels: Channels,
        frame_count: u32,
    ) -> Result<Work, AllocError>
        ensures channels { IfOk result (λ m. m.channels ≡ channels) }
        ensures frame_count { IfOk result (λ m. m.frame_count ≡ frame_count) }
        ensures decoded { IfOk result (λ m. m.decoded ≡ 0) }
        ensures scratch { IfOk result (λ m. m.scratch.channels ≡ channels) }
        ensures sound { IfOk result (λ m. length m.sound.items ≡ sound_bytes channels) }
    {
        Ok(Work {
            channels,
            frame_count,
            decoded: 0,
            scratch: Scratch::new(alloc, channels)?,
            sound: vec![in alloc; 0; channels.sound_bytes()]?,
        })
    }
}
