// The bytes of a channel, and those before it.
ghost use Rattle.std.specs.Prelude.{◌≡◌, ◌*◌, ◌+◌, ◌<◌, ◌≤◌, replicate, length};
ghost use Rattle.dst_spec.specs.Sample.{sound_bytes};
ghost use Rattle.filter_refiner.specs.Cells.{HasHistory};

use dst_num::Channels;

/// The most bytes that a channel has, and 16 before them.
pub(crate) const BYTES: usize = 18_832;

/// Puts the bytes of a channel behind 16 bytes of the samples before the frame, which are 1 and 0 in turn, and says how many they are.
pub(crate) fn fill_history(
    bytes: &mut [u8; BYTES],
    sound: &[u8],
    channels: Channels,
    channel: usize,
) -> usize
    requires begun { bytes.old ≡ replicate 18832 170 }
    requires sound { length sound.now ≡ sound_bytes channels }
    requires channel { channel < channels.channels }
    ensures history { HasHistory channels sound.now channel bytes.new }
    ensures count { result ≡ channels.octets }
    ensures least { 4704 ≤ result }
    ensures most { result ≤ 18816 }
{
    let count = channels.count();
    let octets = 4704 * channels.multiple();
    for place in 0..octets {
        bytes[place + 16] = sound[place * count + channel];
    }
    octets
}
