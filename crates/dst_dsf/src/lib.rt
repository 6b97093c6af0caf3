//! The commands on DSF files: each of them alone, over a source and a sink.
//!
//! [`encode_dsf`] writes the coded file of the plain form that stands for a DSF file, with the parameters that a picker finds for each
//! frame. [`decode_dsf`] writes the DSF file of a coded one, also of one that never was a DSF file. Each answers what it did, or the
//! first fault, as the commands on DSDIFF files do.
//!
//! ```text
//! match encode_dsf(&rt, alloc, &mut source, &mut sink, &picker, 4, &OpenGate) {
//!     Ok(Encoded { frames, bytes }) => ..
//!     Err(EncodeFault::Source(fault)) => .. // read fault, want of memory, or the DSF file is refused
//!     Err(EncodeFault::Write) => ..
//! }
//! match decode_dsf(&rt, alloc, &mut coded, &mut sink, 4, &OpenGate) {
//!     Ok(Decoded { frames, bytes }) => ..
//!     Err(DecodeFault::Frame { frame, fault }) => .. // behind the rows of blocks that the frames before it fill whole
//!     Err(fault) => ..
//! }
//! ```
//!
//! A frame's bytes end anywhere in a row of blocks, 4,096 bytes of each channel: so the sounds are gathered into one row, which is written
//! when it is full, and once more behind the last sound, filled up with 0.
#![tactic(auto)]

mod decode;
mod drain;
mod encode;
mod frames;
mod open_row;
mod opened;
mod row;
mod rows;
mod said;
mod workspace;

pub use decode::decode_dsf;
pub use encode::encode_dsf;
