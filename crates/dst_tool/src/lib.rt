//! The commands of the coder, and the call that reads words and runs them.
//!
//! [`dst_run`] does all that the program does: it reads the words, runs their command over a source and a sink, reports
//! lines of text, and answers the status. [`encode_file`], [`decode_file`], [`cut_file`], [`frame_out`], [`check_file`],
//! [`show_file`], [`index_file`], [`make_file`] and [`make_run`] are the commands alone.
//!
//! ```text
//! let mut source = FileSource::new(&rt, "in.dff");
//! let mut sink = FileSink::new(&rt, "out.dff");
//! let mut report = TextSink::new(&rt);
//! let status = dst_run(&rt, alloc, &words, &mut source, &mut sink, &mut report); // `decode in.dff out.dff`
//! ```
//!
//! Whatever a status is, its clause says what sink and report hold: behind a done command the one output that the file
//! means, behind a failed device a prefix of it, behind refused words, a refused file or want of memory nothing. Encoding writes
//! two sizes over what it has written, so that it asks for a sink that holds nothing; behind a failed device each of the two is 0 or
//! what it will be.
#![tactic(auto)]

mod answers;
mod command;
mod making;
mod run;
mod run_by;

pub use dst_cut::{Cut, CutFault, cut_file};
pub use dst_make::{Made, MakeFault, make_file};
pub use dst_read::{CheckFault, Checked, DecodeFault, Decoded, check_file, decode_file};
pub use dst_show::{
    FrameWritten, ListFault, Reported, ShowFault, frame_out, index_file, show_file,
};
pub use dst_words::{Command, Task, read_words};
pub use dst_write::{EncodeFault, Encoded, encode_file};
pub use making::{RunFault, make_run};
pub use run::dst_run;
pub use run_by::dst_run_by;
