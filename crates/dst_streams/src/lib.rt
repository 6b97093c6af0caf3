//! Where bytes come from and where they go: files, standard input and output, and devices in memory.
//!
//! A [`Source`] is read by place, a [`Sink`] grows at its end, can be written over and is finished behind its last byte,
//! and a [`Flow`] is read once, from its front. Each trait says by a few meanings what a call did: the bytes, which a
//! device tells or doesn't tell, the size or the sure room, whether all is settled, and counts of faults and of bytes.
//! So code that is generic over devices is proved once, for files and for memory. Every call may answer [`Failed`],
//! which comes only where the device's count of faults rose.
//!
//! | Trait | Files and streams | In memory |
//! |---|---|---|
//! | [`Source`] | [`FileSource`] | [`HonestSource`], [`MemorySource`] |
//! | [`Sink`] | [`FileSink`], [`TextSink`] | [`MemorySink`], [`ShortFlowSink`] |
//! | [`Flow`] | [`PipeFlow`] | [`MemoryFlow`] |
//!
//! The devices of files and streams tell no bytes: what the machine does with them is trusted. They keep the runtime
//! by reference, so that the calls of the traits need none.
//!
//! ```
//! let mut source = FileSource::new(&rt, "in.dff");
//! let mut sink = FileSink::new(&rt, "out.dff");
//! let mut head = [0u8; 12];
//! let size = source.size()?;
//! let count = source.read_at(0, &mut head)?;
//! sink.append(&head[..count])?;
//! sink.finish()?;
//! ```
#![tactic(auto)]

mod edge;
mod flow;
mod honest;
mod memory;
mod sink;
mod source;

pub use edge::{FileSink, FileSource, PipeFlow, TextSink};
pub use flow::Flow;
pub use honest::HonestSource;
pub use memory::{MemoryFlow, MemorySink, MemorySource, ShortFlowSink};
pub use sink::Sink;
pub use source::{Failed, Source};
