//! The command that writes parts of the sound of a coded file: alone, over a source and a sink.
//!
//! A part is asked for by a pair, its first group and its number of groups, a group being eight samples of each channel. All pairs are held
//! against the size of the sound before a frame is decoded; then they are written one after the other. The sounds of the sixteen frames that
//! were wanted last are held, so that a frame that is wanted again soon costs nothing.
//!
//! ```text
//! match range_out(alloc, &mut source, &mut sink, &[(44_100, 1_000), (0, 10)]) {
//!     Ok(RangeWritten { bytes }) => .. // groups 44,100 to 45,099, then 0 to 9
//!     Err(DecodeFault::Source(fault)) => .. // read fault, want of memory, or the file or a pair is refused
//!     Err(DecodeFault::Write) => ..
//!     Err(DecodeFault::Frame { frame, fault }) => .. // the first wanted frame that is refused, behind all that stands before it
//! }
//! ```
#![tactic(auto)]

mod opened;
mod pairs;
mod parts;
mod range;

pub use range::{RangeWritten, range_out};
