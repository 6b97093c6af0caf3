// A frame, decoded.
ghost use Rattle.std.specs.Prelude.{◌≡◌, ◌+◌, ◌-◌, ◌*◌, ◌/◌, ◌<◌, ◌≤◌, ◌^◌, ℕ, List, length, IfOk, IfErr};
ghost use Rattle.dst_spec.specs.Sample.{sound_bytes};
ghost use Rattle.dst_spec.specs.Means.{Means, MeansWithTail};
ghost use Rattle.dst_spec.specs.Offends.{Offends};
ghost use Rattle.dst_spec.specs.declared.faults.FrameFault.{FrameFault};

use crate::code::decode_code;
use crate::scratch::Scratch;
use crate::state::ChannelState;
use crate::tables::ChannelTables;
use dst_num::{Channels, FrameFault};
use frame_header::{FrameView, view_frame};

/// Decodes a frame, and gives how many bytes at its end aren't read. The fault is the first field that isn't there with all its
/// bits or breaks its rule; what `out` then holds isn't said.
pub fn decode_frame(
    frame: &[u8],
    channels: Channels,
    scratch: &mut Scratch,
    out: &mut [u8],
) -> Result<u32, FrameFault>
    requires scratch { scratch.old.channels ≡ channels }
    requires out { length out.old ≡ sound_bytes channels }
    requires frame { length frame.now ≤ 2 * (sound_bytes channels + 1) }
    ensures sound { IfOk result (MeansWithTail channels frame.now out.new) }
    ensures whole { IfOk result (λ _. (fault : FrameFault) → Offends channels frame.now fault → ⊥) }
    ensures fault { IfErr result (Offends channels frame.now) }
    ensures no_sound { IfErr result (λ _. (sound : List ℕ) → Means channels frame.now sound → ⊥) }
    ensures channels { scratch.new.channels ≡ scratch.old.channels }
{
    let tables = scratch.tables.as_mut_slice();
    let states = scratch.states.as_mut_slice();
    decode_with(frame, channels, tables, states, out)
}

/// The same with the tables and states of as many channels.
pub(crate) fn decode_with(
    frame: &[u8],
    channels: Channels,
    tables: &mut [ChannelTables],
    states: &mut [ChannelState],
    out: &mut [u8],
) -> Result<u32, FrameFault>
    requires tables { length tables.old ≡ channels.channels }
    requires states { length states.old ≡ channels.channels }
    requires out { length out.old ≡ sound_bytes channels }
    requires frame { length frame.now ≤ 2 * (sound_bytes channels + 1) }
    ensures sound { IfOk result (MeansWithTail channels frame.now out.new) }
    ensures whole { IfOk result (λ _. (fault : FrameFault) → Offends channels frame.now fault → ⊥) }
    ensures fault { IfErr result (Offends channels frame.now) }
    ensures no_sound { IfErr result (λ _. (sound : List ℕ) → Means channels frame.now sound → ⊥) }
{
    let octets = 4704 * channels.multiple();
    match view_frame(frame, channels) {
        Err(fault) => Err(fault),
        Ok(FrameView::Plain(sound)) => {
            out.copy_from_slice(sound);
            Ok((frame.len() - 1 - sound.len()) as u32)
        }
        Ok(FrameView::Coded(params, code)) => {
            match decode_code(code, &params, tables, states, octets, out) {
                Err(fault) => Err(fault),
                Ok(used) => Ok(unread(frame.len(), code.first + used)),
            }
        }
    }
}

/// The bytes behind the last one that has some of the first bits.
pub(crate) fn unread(bytes: usize, bits: u64) -> u32
    requires bytes { bytes < 2 ^ 32 }
    requires bits { bits < 2 ^ 63 }
    ensures { result ≡ bytes - (bits + 7) / 8 }
{
    (bytes as u64).saturating_sub((bits + 7) / 8) as u32
}
