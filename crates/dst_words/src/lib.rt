//! The words of a command line.
//!
//! ```text
//! match read_words(&words) {
//!     Some(Task { command: Command::Decode, workers }) => .., // `decode IN OUT --workers 4`: words 1 and 2 name the files
//!     Some(Task { command: Command::Frame { frame, .. }, .. }) => .., // `frame IN OUT 3`
//!     Some(Task { command: Command::Range { pairs }, .. }) => .., // `range IN OUT 0 588 7 1`, pairs.as_slice() being [(0, 588), (7, 1)]
//!     None => .., // the words are no command
//!     ..
//! }
//! ```
//!
//! Nothing here takes memory.
#![tactic(auto)]

mod pairs;
mod slots;
mod words;

pub use pairs::Pairs;
pub use words::{Command, Task, read_words};
