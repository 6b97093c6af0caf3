// What a fed decoder answers.

/// What the bytes have come to.
#[derive(Clone, Copy, Debug)]
pub enum Step<'a> {
    /// All bytes were taken, and nothing is due.
    More,
    /// `FRTE` is whole: how many channels there are, their rate in multiples of 64 times 44.1 kHz, and the frame count.
    /// `Channels::at` makes the channels of the two.
    Head {
        channels: u32,
        multiple: u32,
        frames: u32,
    },
    /// A frame is whole: its number, from 0, and its bytes as they are stored.
    Frame {
        number: u32,
        bytes: &'a [u8],
    },
    /// The last frame came, and `DST ` ends.
    End,
}
