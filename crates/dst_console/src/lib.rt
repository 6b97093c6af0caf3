//! What the program does with its words, and what people see of it.
//!
//! ```text
//! let files = MachineFiles::new(&rt, rt.stderr().is_terminal());
//! let mut report = TextSink::new(&rt);
//! let ended = run_words(&rt, rt.alloc(), &words, &files, &mut report);
//! explain(&rt, &words, &ended);
//! let status = ended.status();
//! ```
//!
//! [`run_words`] runs a command over the source that word 1 behind its name stands for and the sink of word 2, or decodes a stream to the sink of word 1, and
//! hands the devices back beside the status: the machine's files in the program, devices of one's own elsewhere. [`run_named`] and [`run_pipe`] are the two alone.
//! `--help` and `--version`, each as the one word, and `--help` behind a command's name are answered here.
//!
//! Standard output has the report and nothing else. Standard error has what is for people: a line with the reason where a run didn't
//! end well ([`explain`]), and on a terminal how far a longer run is.
#![tactic(auto)]

mod asking;
mod console;
mod ended;
mod files;
mod help;
mod progress;
mod reasons;
mod running;

pub use asking::{Asked, what_is_asked};
pub use console::run_words;
pub use ended::Ended;
pub use files::MachineFiles;
pub use progress::Watched;
pub use reasons::{MachineEnd, explain};
pub use running::{Devices, Ran, run_named, run_pipe};
