//! The header of a frame, read and written, and the parts of a frame, lent: the sound of a plain frame, or the parameters
//! and the code bits of a coded one. Every spelling with one segment for each channel is read; the shortest is written.
//!
//! ```text
//! match view_frame(&frame, channels)? {
//!     FrameView::Plain(sound) => ..,         // sound_bytes() bytes of the frame
//!     FrameView::Coded(params, code) => .., // the arithmetic code begins at bit code.first
//! }
//!
//! header_length(&params);              // in bits
//! write_header(&params, &mut writer); // false, with nothing written, where it doesn't fit
//! ```
#![tactic(auto)]

mod fields;
mod front;
mod header;
pub mod laws;
mod maps;
mod segments;
mod tables;
mod view;
mod write;

pub use header::{Header, read_header};
pub use view::{FrameView, view_frame};
pub use write::{header_length, write_header};
