// The memory in which frames are decoded side by side.
ghost use Rattle.std.specs.Prelude.{◌≡◌, IfOk};

use crate::eight::{EightTables, TableNumbers};
use crate::state::ChannelState;
use crate::tables::ChannelTables;
use dst_num::Channels;
use std::alloc::{AllocError, Global};
use std::marker::Model;

// What a channel takes: its part of the pool of tables, and its state in a frame alone.
const _: () = prove!(
    8 * size_of::<ChannelTables>() + size_of::<TableNumbers>() + size_of::<ChannelState>()
        == 793_108
);

/// The memory in which up to eight frames of some channels are decoded at a time. Nothing of one frame is used for the next one.
#[derive(Drop)]
pub struct BatchScratch {
    channels: Channels,
    pub(crate) eight: EightTables,
    // of a frame alone
    pub(crate) states: Vec<ChannelState>,
}

impl Model for BatchScratch {
    ghost use Rattle.std.specs.Prelude.{◌≡◌, length};
    ghost use Rattle.dst_frames.specs.Scratch.{ScratchShape};
    ghost use Rattle.dst_frames.specs.Running.{IsPool};

    ghost Value = { ScratchShape };

    ghost view = { λ s. record { channels = s.channels } };

    ghost invariant = { λ s. record {
      eight : IsPool s.eight s.channels.channels;
      states : length s.states.items ≡ s.channels.channels;
    } };
}

impl BatchScratch {
    /// Takes all memory that decoding needs: 793,108 bytes a channel and 276 besides, so 1,586,492 bytes in stereo and 4,758,924 for six
    /// channels, at any rate. Tables are 792,768 of the bytes a channel, and aren't written before a batch needs them: 99,096 bytes for
    /// each channel of its frames that shares no table. What is written for each sample, 13,248 bytes, stands on the stack.
    pub fn new(alloc: Global, channels: Channels) -> Result<BatchScratch, AllocError>
        ensures { IfOk result (λ s. s.channels ≡ channels) }
    {
        let count = channels.count();
        let eight = EightTables::new(alloc, count)?;
        // Room for one state more than there are, as in the scratch for one frame.
        let mut states = Vec::with_capacity(alloc, count + 1)?;
        let none = ChannelTables::new();
        for _ in 0..count {
            states.push(ChannelState::fresh(&none))?;
        }
        Ok(BatchScratch {
            channels,
            eight,
            states,
        })
    }
}
