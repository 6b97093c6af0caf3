//! Frames out of a stream: a decoder of DSDIFF 1.5 that is fed pieces, as they come out of a pipe, and lends each frame of coded sound as
//! soon as it is whole.
//!
//! [`PushDecoder::take`] takes bytes of a piece up to the first event that is due, and answers it: the head once `FRTE` is whole, each
//! frame with its last byte, the end, or the fault of the first rule that is broken, once its bytes are there. A frame that lies whole in the
//! piece is lent from there, any other from a buffer of the decoder. However the bytes are cut into pieces, the events are the same. The size
//! of the stream isn't known beforehand, and nothing is asked of the bytes behind `DST `.
//!
//! A player feeds it in a loop of a few lines (`src/uses.rt` has this loop, proved), and decodes each frame by `dst_frames` with the
//! channels that the head says:
//!
//! ```
//! let mut rest = piece;
//! for _ in 0..u64::MAX {
//!     let (count, step) = decoder.take(rest)?;
//!     rest = &rest[count..];
//!     match step {
//!         Step::Head { .. } => {} // `Channels::at` makes the channels
//!         Step::Frame { bytes, .. } => player.play(bytes),
//!         Step::More | Step::End => break,
//!     }
//! }
//! ```
//!
//! Behind the last piece [`PushDecoder::close`] says whether the stream ended behind its last frame. A contract says what a decoder stands for:
//! the bytes that were taken and the events that were answered (`specs/Decoder.antt`); what is due of them is a function of these bytes alone
//! (`specs/Events.antt`, which stands on the definition of a stream in `dsdiff_spec`). So the frames that were lent are those of the stream, in order,
//! for every list of pieces: that is a law of [`laws`].
#![tactic(auto)]

mod decoder;
mod form;
mod gathered;
pub mod laws;
mod moving;
mod reading;
mod sound;
mod stage;
mod step;
pub mod uses;

pub use decoder::PushDecoder;
pub use dsdiff_spec::FileFault;
pub use step::Step;
