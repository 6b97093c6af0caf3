// A frame as it is stored, and what decoding makes of it.
ghost use Rattle.std.specs.Prelude.{◌≡◌, ◌^◌, ◌<◌, ◌≤◌, length};
ghost use Rattle.dst_frames.specs.Batch.{stored_in};

use dst_num::FrameFault;

/// A frame to decode: its stored bytes are the first `size`.
#[derive(Drop)]
pub struct StoredFrame {
    pub bytes: Vec<u8>,
    pub size: u32,
}

/// What decoding makes of a frame: its sound, and how many bytes at its end aren't read, or why it is refused.
#[derive(Drop)]
pub struct DecodedFrame {
    pub sound: Vec<u8>,
    pub answer: Result<u32, FrameFault>,
}

impl StoredFrame {
    /// The stored bytes.
    pub fn stored(&self) -> &[u8]
        requires { self.now.size ≤ length self.now.bytes.items }
        ensures bytes { result.now ≡ stored_in self.now }
        ensures short { length result.now < 2 ^ 32 }
    {
        &self.bytes[..self.size as usize]
    }
}
