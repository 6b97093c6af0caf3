//! The commands that decode every frame of a file: each of them alone, over a source and a sink, by one worker or several.
//!
//! [`decode_file`] writes the plain file of a coded one, [`check_file`] has every frame decoded and writes nothing. Each answers
//! what it did, or the first fault, of a type that has the faults that it can give and no others.
//!
//! ```text
//! match decode_file(&rt, alloc, &mut source, &mut sink, 4, &OpenGate) {
//!     Ok(Decoded { frames, bytes }) => ..
//!     Err(DecodeFault::Source(fault)) => .. // read fault, want of memory, or the file is refused
//!     Err(DecodeFault::Write) => ..
//!     Err(DecodeFault::Frame { frame, fault }) => .. // the first frame that is refused
//! }
//! ```
//!
//! A crate that does something else with the sounds lends its own drain to [`decode_frames`], which decodes the frames of an opened
//! file in order. Jobs and tables are those of [`jobs_for`] and [`tables_for`].
#![tactic(auto)]

mod check;
mod decode;
mod drain;
mod faults;
mod feed;
mod frames;
mod jobs;
mod tails;
mod work;

pub use check::check_file;
pub use decode::decode_file;
pub use faults::{CheckFault, Checked, DecodeFault, Decoded};
pub use feed::StoredFrames;
pub use frames::decode_frames;
pub use jobs::{Job, Tables, jobs_for, tables_for};
