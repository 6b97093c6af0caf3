//! Made sound: frames of a slow wave in one-bit samples, with dither from a generator of random numbers, so that there
//! is sound to try the coder on. One start number and one shape give one sound.
//!
//! A `SoundMaker` is made once, and then asked for one frame after another. It takes no memory, and never fails.
//!
//! ```text
//! let channels = Channels::new(2)?;
//! let mut maker = SoundMaker::new(7, channels);
//! let sound = &mut room[..channels.sound_bytes()];
//! for _ in 0..frames {
//!     maker.next_frame(sound);    // the next 75th of a second: the channels' bytes in turn
//!     write(sound)?;
//! }
//! ```
//!
//! The frames together are `made_sound` of the definitions (`laws`). The first sample of each channel is 1 where the dither is 0
//! or greater.
#![tactic(auto)]

pub mod laws;
mod maker;
mod wave;

pub use maker::SoundMaker;
