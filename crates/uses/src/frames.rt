// How a player decodes one frame.
ghost use Rattle.std.specs.Prelude.{◌≡◌, ◌+◌, ◌*◌, ◌≤◌, ℕ, List, length, take, true, false, Ok, Err, IfOk};
ghost use Rattle.dst_spec.specs.Bits.{bits};
ghost use Rattle.dst_spec.specs.Sample.{sound_bytes};
ghost use Rattle.dst_spec.specs.Header.{Params, HasHeader};
ghost use Rattle.dst_spec.specs.Means.{Means, IsPlain};
ghost use Rattle.dst_spec.specs.Offends.{Offends};
ghost use Rattle.dst_spec.specs.declared.faults.FrameFault.{FrameFault};

use dst_frames::{Scratch, decode_frame};
use dst_num::{Channels, FrameFault};
use frame_header::{FrameView, view_frame};
use std::alloc::{AllocError, Global};
use thiserror::Error;

/// Why a frame's sound isn't there: memory was refused, or the frame is.
#[derive(Clone, Copy, Debug, Drop, PartialEq, Eq, Error)]
pub enum PlayFault {
    #[error("memory")]
    Memory(AllocError),
    #[error("frame refused: {0}")]
    Frame(FrameFault),
}

/// The sound of one frame. A player keeps scratch and sound from frame to frame, so that none takes memory.
pub fn sound_of_frame(alloc: Global, frame: &[u8], channels: Channels) -> Result<Vec<u8>, PlayFault>
    requires { length frame.now ≤ 2 * (sound_bytes channels + 1) }
    ensures sound { IfOk result (λ sound. Means channels frame.now sound.items) }
    ensures refused { (fault : FrameFault) → result ≡ Err (PlayFault.Frame fault) → Offends channels frame.now fault }
{
    let mut scratch = match Scratch::new(alloc, channels) {
        Ok(scratch) => scratch,
        Err(refused) => return Err(PlayFault::Memory(refused)),
    };
    let mut sound = match vec![in alloc; 0; channels.sound_bytes()] {
        Ok(sound) => sound,
        Err(refused) => return Err(PlayFault::Memory(refused)),
    };
    match decode_frame(frame, channels, &mut scratch, &mut sound) {
        Ok(_unread) => Ok(sound),
        Err(fault) => Err(PlayFault::Frame(fault)),
    }
}

/// Whether a frame has an arithmetic code, and not its sound as it is.
pub fn is_coded(frame: &[u8], channels: Channels) -> Result<bool, FrameFault>
    requires { length frame.now ≤ 2 * (sound_bytes channels + 1) }
    ensures plain { result ≡ Ok false → (sound : List ℕ) × IsPlain channels frame.now sound }
    ensures coded { result ≡ Ok true → (params : Params) × (place : ℕ) × HasHeader channels.channels params (take place (bits frame.now)) }
    ensures refused { (fault : FrameFault) → result ≡ Err fault → Offends channels frame.now fault }
{
    match view_frame(frame, channels) {
        Ok(FrameView::Plain(_sound)) => Ok(false),
        Ok(FrameView::Coded(_params, _code)) => Ok(true),
        Err(fault) => Err(fault),
    }
}
