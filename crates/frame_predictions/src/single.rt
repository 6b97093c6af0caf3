// The codes of a channel's samples, held nowhere else.
ghost use Rattle.std.specs.Prelude.{◌≡◌, ◌<◌, ◌≤◌, length};
ghost use Rattle.dst_spec.specs.Sample.{samples, sound_bytes};
ghost use Rattle.frame_predictions.specs.Codes.{codes as codes_of};

use crate::fill::fill;
use byte_predictor::KnownFilter;
use dst_num::Channels;

/// Writes the codes of a channel's samples with a filter: one byte for each sample, as a row of `Predictions` has them.
pub fn write_codes(
    codes: &mut [u8],
    filter: &KnownFilter,
    sound: &[u8],
    channels: Channels,
    channel: usize,
)
    requires filter { length filter.now ≤ 128 }
    requires channel { channel < channels.channels }
    requires long { length codes.old ≡ samples channels }
    requires sound { length sound.now ≡ sound_bytes channels }
    ensures { codes.new ≡ codes_of channels sound.now channel filter.now }
{
    let octets = 4704 * channels.multiple();
    fill(codes, filter, sound, channels.count(), channel, octets);
}
