//! The command that codes a plain file: alone, over a source and a sink.
//!
//! [`encode_file`] writes the coded file of a plain one, with the parameters that a picker finds for each frame. It answers what it did,
//! or the first fault, of a type that has the faults that it can give and no others.
//!
//! ```text
//! match encode_file(&rt, alloc, &mut source, &mut sink, &picker, 4, &OpenGate) {
//!     Ok(Encoded { frames, bytes }) => ..
//!     Err(EncodeFault::Source(fault)) => .. // read fault, want of memory, or the file is refused
//!     Err(EncodeFault::Write) => ..
//! }
//! ```
#![tactic(auto)]

mod around;
mod chunks;
mod drain;
mod encode;
mod faults;
mod feed;
mod frames;
mod jobs;
mod sizes;
mod work;

pub use encode::encode_file;
pub use faults::{EncodeFault, Encoded};
