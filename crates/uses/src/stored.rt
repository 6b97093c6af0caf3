// How a writer stores one frame.
ghost use Rattle.std.specs.Prelude.{◌≡◌, ◌≤◌, ◌+◌, ◌==◌, if◌then◌else◌, [], ◌∷◌, length, IfOk};
ghost use Rattle.dst_spec.specs.Sample.{sound_bytes};
ghost use Rattle.dst_spec.specs.Spell.{stored as stored_of};

use dst_num::{Channels, Params};
use frame_store::{OnePick, StoreScratch, store_frame};
use std::alloc::{AllocError, Global};

/// The stored frame of a sound: its spelling by these parameters where that is shorter than the plain form, else that. A writer keeps
/// picker and scratch from frame to frame, so that none takes memory.
pub fn stored_frame(
    alloc: Global,
    sound: &[u8],
    channels: Channels,
    params: Params,
) -> Result<Vec<u8>, AllocError>
    requires { length sound.now ≡ sound_bytes channels }
    ensures stored { IfOk result (λ frame. frame.items ≡ stored_of channels sound.now (if length params.half_prob == channels.channels then params ∷ [] else [])) }
    ensures never_longer { IfOk result (λ frame. length frame.items ≤ 1 + sound_bytes channels) }
{
    let picker = OnePick::new(params);
    let mut scratch = StoreScratch::new(alloc, channels)?;
    store_frame(&picker, sound, channels, &mut scratch);
    let mut frame = Vec::new(alloc);
    frame.extend_from_slice(scratch.stored())?;
    Ok(frame)
}
