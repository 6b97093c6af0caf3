//! Pipes decoded: a coded file of DSDIFF 1.5 that comes once, as a stream, is decoded to a plain file.
//!
//! [`decode_pipe`] reads a flow piece by piece into a buffer, feeds a decoder, decodes each frame that it lends and appends its sound.
//!
//! ```text
//! let mut flow = PipeFlow::new(&rt);
//! let mut sink = FileSink::new(&rt, "out.dff");
//! let Piped { frames, bytes } = decode_pipe(alloc, &mut flow, &mut sink)?;
//! ```
//!
//! What it answers and writes is the one outcome of the stream (`stream_spec`): nothing of the output waits for the end, and the memory that it takes doesn't
//! grow with the stream.
#![tactic(auto)]

mod faults;
mod front;
mod pieces;
mod pipe;
mod steps;
mod work;

pub use faults::{PipeFault, Piped};
pub use pipe::decode_pipe;
