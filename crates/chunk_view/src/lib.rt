//! Chunks of DSDIFF 1.5, lent from the bytes that they stand in: an id of four letters, a size of eight bytes, a body of so
//! many, and a pad byte after a body of odd size. All numbers have their greatest byte first. Nothing is copied.
//!
//! ```text
//! for view in split_chunks(&prop[4..])? {
//!     if view.id == *b"FS  " {
//!         rate = rate_of(view.body);
//!     }
//! }
//! ```
#![tactic(auto)]

mod fields;
mod split;
mod view;

pub use fields::{channels_of, compression_of, entry_of, frames_of, rate_of};
pub use split::{Chunks, Overrun, split_chunks};
pub use view::ChunkView;
