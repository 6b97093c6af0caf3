//! The call that decodes a pipe: words in, a status out.
//!
//! [`dst_pipe`] does what the program does for the words `pipe OUT`: it reads a coded file that comes as a flow, appends the plain file of its sounds to a sink,
//! reports one line of text, and answers the status.
//!
//! ```text
//! let mut flow = PipeFlow::new(&rt);
//! let mut sink = FileSink::new(&rt, "out.dff");
//! let mut report = TextSink::new(&rt);
//! let status = dst_pipe(alloc, &words, &mut flow, &mut sink, &mut report); // `pipe out.dff`
//! ```
#![tactic(auto)]

mod run;
mod words;

pub use run::dst_pipe;
pub use words::is_pipe;
