// What the header of a DSF file says.
use dst_num::Channels;

/// What the header of a DSF file says.
#[derive(Clone, Copy, Debug, PartialEq, Eq)]
pub struct DsfForm {
    /// The channels, and the rate.
    pub channels: Channels,
    /// Samples of each channel.
    pub samples: u64,
    /// The channel type.
    pub kind: u32,
    /// 1 where the earliest sample of a byte is in its least significant bit, 8 where it is in the most significant one.
    pub bits: u8,
}
