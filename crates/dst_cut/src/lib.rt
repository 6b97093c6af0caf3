//! The command that cuts a run of frames out of a coded file, without coding them again: alone, over a source and a sink.
//!
//! [`cut_file`] writes a coded file of the frames from one to another, as they stand. It answers how many they are, or the first fault,
//! of a type that has the faults that it can give and no others.
//!
//! ```text
//! match cut_file(alloc, &mut source, &mut sink, 100, 199) {
//!     Ok(Cut { frames }) => ..
//!     Err(CutFault::Source(fault)) => .. // read fault, want of memory, or the file is refused
//!     Err(CutFault::Write) => ..
//! }
//! ```
#![tactic(auto)]

mod cut;
mod cut_form;
mod cut_index;
mod cut_parts;
mod cut_rules;

pub use cut::{Cut, CutFault, cut_file};
