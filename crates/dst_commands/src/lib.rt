//! What the commands on files have in common: opening a file by a command's rules.
//!
//! [`open_file`] is handed the rules of a command and answers what the command has of a file that keeps them, or the first
//! rule that fails: those of the form first, then those of the command in their order.
//!
//! ```text
//! let WalkedForm { form, index } = open_file(alloc, source, &AllFrames)?; // decode, index
//! let FoundFrame { form, entry } = open_file(alloc, source, &FrameByWalk { number })?; // frame K, show K
//! match open_file(alloc, source, &CheckedFile)? { .. } // a plain form, or a coded one whose index is that of its frames
//! ```
#![tactic(auto)]

mod around;
mod chunks;
mod jobs;
mod opened;
mod opening;
mod pieces;
mod rules;
mod sizes;

pub use around::{write_end, write_front, write_opening, write_pad};
pub use chunks::{FormRef, Passed, Side, chunks_count, chunks_length, pass_chunks};
pub use jobs::job_count;
pub use opened::{AnyForm, FoundFrame, WalkedForm};
pub use opening::{Rules, open_file};
pub use pieces::write_any;
pub use rules::{
    AllFrames, CheckedFile, FrameByIndex, FrameByWalk, PlainFile, ShownFile, coded_of, range_fault,
    walk_form,
};
pub use sizes::sound_size;
