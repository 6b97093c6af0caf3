//! The top call over files in memory, held against what is expected of it: for tests of whole runs.
//!
//! ```text
//! let differs = difference(&rt, alloc, "decode in.dff out.dff", &file, 0, &sound, "decoded 1 frames into 4704 bytes\n")?;
//! assert!(rt; differs.is_none(), "{differs:?}");
//! ```
//!
//! The tests of the commands that read stand here, those of the commands that write in `top_call_writing`, and those of devices that
//! fail and of several workers in `top_call_devices`.
#![tactic(auto)]

use dst_streams::{MemorySink, MemorySource, Sink, Source};
use dst_tool::dst_run;
use std::alloc::{AllocError, Global};
use std::thread::Threads;

#[cfg(test)]
mod tests;

/// What of a run isn't as expected.
#[derive(Clone, Copy, Debug, PartialEq, Eq)]
pub enum Part {
    Status,
    Output,
    Report,
}

/// The words of a line, between its spaces.
pub fn split(alloc: Global, text: &str) -> Result<Vec<String>, AllocError> {
    let mut words = Vec::new(alloc);
    for word in text.split(' ') {
        words.push(String::from_str(alloc, word)?)?;
    }
    Ok(words)
}

/// Runs words by the top call. It promises nothing, since a test needs none of the top call's clauses: so tests of many runs are proved
/// quickly.
pub fn run_words<E: Threads + Sync, S: Source, K: Sink, R: Sink>(
    rt: &E,
    alloc: Global,
    words: &[String],
    source: &mut S,
    sink: &mut K,
    report: &mut R,
) -> u8 {
    dst_run(rt, alloc, words, source, sink, report)
}

/// What a run leaves.
#[derive(Drop)]
pub struct Left<'a> {
    pub status: u8,
    pub sink: MemorySink<'a>,
    pub report: MemorySink<'a>,
}

/// What is seen of a run: its status, whether what is written is a front of the bytes that are wanted, whether it is all of them, and
/// whether the report is the lines that are wanted.
#[derive(Clone, Copy, Debug, PartialEq, Eq)]
pub struct Seen {
    pub status: u8,
    pub is_front: bool,
    pub is_whole: bool,
    pub is_reported: bool,
}

impl<'a> Left<'a> {
    /// What is seen of it beside these bytes and lines.
    pub fn seen(&self, wanted: &[u8], lines: &str) -> Seen {
        let written = self.sink.written();
        Seen {
            status: self.status,
            is_front: wanted.starts_with(written),
            is_whole: written == wanted,
            is_reported: self.report.written() == lines.as_bytes(),
        }
    }
}

/// Runs words over a source, into a sink of so many bytes and a report of 200, of which these calls fail: what is left.
pub fn run_over<'a, E: Threads + Sync, S: Source>(
    rt: &E,
    alloc: Global,
    words: &[String],
    source: &mut S,
    room: usize,
    writes: &'a [u64],
    reports: &'a [u64],
) -> Result<Left<'a>, AllocError> {
    let mut sink = MemorySink::new(alloc, room, writes)?;
    let mut report = MemorySink::new(alloc, 200, reports)?;
    let status = run_words(rt, alloc, words, source, &mut sink, &mut report);
    Ok(Left {
        status,
        sink,
        report,
    })
}

// What is seen of a run over a file by reads of these sizes.
fn seen_in_pieces(
    rt: &(impl Threads + Sync),
    alloc: Global,
    words: &[String],
    file: &[u8],
    pieces: &[usize],
    written: &[u8],
    lines: &str,
) -> Result<Seen, AllocError> {
    let mut source = MemorySource::new(file, pieces, &[]);
    let left = run_over(rt, alloc, words, &mut source, 10_000, &[], &[])?;
    Ok(left.seen(written, lines))
}

/// Runs words over a file by whole reads and by reads of one byte, into a sink of 10,000 bytes: the first part of either run that
/// isn't as expected, if there is one.
pub fn difference(
    rt: &(impl Threads + Sync),
    alloc: Global,
    text: &str,
    file: &[u8],
    status: u8,
    written: &[u8],
    lines: &str,
) -> Result<Option<Part>, AllocError> {
    let words = split(alloc, text)?;
    let pieces: [&[usize]; 2] = [&[], &[1]];
    for pieces in &pieces {
        let seen = seen_in_pieces(rt, alloc, &words, file, pieces, written, lines)?;
        if !seen.is_reported {
            return Ok(Some(Part::Report));
        }
        if seen.status != status {
            return Ok(Some(Part::Status));
        }
        if !seen.is_whole {
            return Ok(Some(Part::Output));
        }
    }
    Ok(None)
}
