//! The commands that show a file or a part of it: each of them alone, over a source and a report or a sink, on one thread.
//!
//! [`show_file`] reports what a file is, or what the header of one of its frames says, [`index_file`] where its frames stand;
//! [`frame_out`] writes the sound of one frame. Of a file's frames at most the one that is asked for is read. Each answers what it did,
//! or the first fault, of a type that has the faults that it can give and no others.
//!
//! ```text
//! match show_file(alloc, &mut source, &mut report, Some(7)) {
//!     Ok(Reported { frames }) => ..
//!     Err(ShowFault::Source(fault)) => .. // read fault, want of memory, or the file is refused
//!     Err(ShowFault::Report) => .. // the lines before the one that failed stand whole
//!     Err(ShowFault::Frame { frame, fault }) => .. // frame 7 is refused
//! }
//! ```
#![tactic(auto)]

mod faults;
mod frame;
mod index;
mod show;
mod summary;

pub use faults::{FrameWritten, ListFault, Reported, ShowFault};
pub use frame::frame_out;
pub use index::index_file;
pub use show::show_file;
