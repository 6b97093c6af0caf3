//! Frames of Direct Stream Transfer (ISO/IEC 14496-3, subpart 10), decoded.
//!
//! ```text
//! let mut scratch = Scratch::new(alloc, channels)?;                      // for frame after frame
//! let unread = decode_frame(&frame, channels, &mut scratch, &mut sound)?; // the sound of the frame
//! ```
//!
//! Up to eight frames of one shape are decoded side by side on one processor:
//!
//! ```text
//! let mut scratch = BatchScratch::new(alloc, channels)?;
//! decode_batch(&frames, channels, &mut scratch, &mut heard); // a sound and an answer for each
//! ```
#![tactic(auto)]

mod batch;
mod batch_scratch;
mod code;
mod eight;
mod entry_table;
mod fill;
mod frame;
mod octets;
mod samples;
mod scratch;
mod state;
mod stored;
mod tables;

pub use batch::decode_batch;
pub use batch_scratch::BatchScratch;
pub use frame::decode_frame;
pub use scratch::Scratch;
pub use stored::{DecodedFrame, StoredFrame};
