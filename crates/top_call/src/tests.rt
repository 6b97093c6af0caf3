// What the commands that read give and refuse, over files that are known byte for byte.
use crate::{Part, difference};
use compared::same;
use files::{Made, file_of};
use std::alloc::{AllocError, Global};
use std::process::Abort;
use std::thread::Threads;

mod compared;
mod files;
mod lines;
mod ranges;
mod reading;
mod refused;
mod sounds;

// The words by which a file is decoded.
const DECODE: &str = "decode in.dff out.dff";

const NOTHING: Made = Made::Known(&[]);

// Words with the report in the lines behind them, a file, the status, and what is written.
type Row = (&'static str, Made, u8, Made);

// The first part of the run by a row's words that isn't as the row and these lines say.
fn difference_of(
    rt: &(impl Threads + Sync),
    alloc: Global,
    row: Row,
    lines: &str,
) -> Result<Option<Part>, AllocError> {
    let (text, file, status, written) = row;
    let file = file_of(alloc, file)?;
    let written = file_of(alloc, written)?;
    difference(rt, alloc, text, &file, status, &written, lines)
}

// Each row's words give what the row says.
fn all_give(rt: &(impl Abort + Threads + Sync), alloc: Global, rows: &[Row]) {
    for row in rows {
        let (whole, file, status, written) = *row;
        let (text, lines) = whole.split_once('\n').unwrap_or((whole, ""));
        let differs = difference_of(rt, alloc, (text, file, status, written), lines);
        same(rt, &(whole, differs), &(whole, Ok(None)));
    }
}
