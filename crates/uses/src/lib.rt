//! How the crates of the coder are called: short callers, each whole and proved.
//!
//! - [`sound_of_frame`]: one frame's sound, by `dst_frames`; [`is_coded`]: what a frame is, by `frame_header`
//! - [`frames_of_file`]: the stored frames of a coded file, by `dsdiff_chunks` and `frame_index`
//! - [`stored_frame`]: a frame's sound, stored, by `frame_store`
//!
//! `push_decoder::uses` is the caller of a decoder that is fed, and the tests of `frame_crew` have a feed, work and a drain.
#![tactic(auto)]

mod files;
mod frames;
mod stored;
#[cfg(test)]
mod tests;

pub use files::{Listener, frames_of_file};
pub use frames::{PlayFault, is_coded, sound_of_frame};
pub use stored::stored_frame;
