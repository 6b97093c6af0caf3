// The memory in which frames are decoded.
ghost use Rattle.std.specs.Prelude.{◌≡◌, IfOk};

use crate::state::ChannelState;
use crate::tables::ChannelTables;
use dst_num::Channels;
use std::alloc::{AllocError, Global};
use std::marker::Model;

// What a channel takes.
const _: () = prove!(size_of::<ChannelTables>() + size_of::<ChannelState>() == 99_372);

/// The memory in which frames of some channels are decoded. Nothing of one frame is used for the next one.
#[derive(Drop)]
pub struct Scratch {
    channels: Channels,
    pub(crate) tables: Vec<ChannelTables>,
    pub(crate) states: Vec<ChannelState>,
}

impl Model for Scratch {
    ghost use Rattle.std.specs.Prelude.{◌≡◌, length};
    ghost use Rattle.dst_frames.specs.Scratch.{ScratchShape};

    ghost Value = { ScratchShape };

    ghost view = { λ s. record { channels = s.channels } };

    ghost invariant = { λ s. (length s.tables.items ≡ s.channels.channels) × (length s.states.items ≡ s.channels.channels) };
}

impl Scratch {
    /// Takes all memory that decoding needs: 99,372 bytes a channel and 276 besides, so 596,508 bytes for six channels, at any rate.
    pub fn new(alloc: Global, channels: Channels) -> Result<Scratch, AllocError>
        ensures { IfOk result (λ s. s.channels ≡ channels) }
    {
        let count = channels.count();
        let mut tables = Vec::with_capacity(alloc, count)?;
        // Room for one state more than there are. States are written for each sample: were those of two workers on one line of the
        // processor's cache, each would wait for the other.
        let mut states = Vec::with_capacity(alloc, count + 1)?;
        for _ in 0..count {
            let one = ChannelTables::new();
            states.push(ChannelState::fresh(&one))?;
            tables.push(one)?;
        }
        Ok(Scratch {
            channels,
            tables,
            states,
        })
    }
}
