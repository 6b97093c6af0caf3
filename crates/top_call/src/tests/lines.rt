// Each line of a report is added whole, by one call, and where there is no line there is no call.
use super::compared::same;
use super::files::Made::{Known, NoFrames, TwoFrames};
use super::files::{Made, file_of};
use crate::{run_over, split};
use dst_streams::HonestSource;
use example_files::SILENT;
use std::alloc::{AllocError, Global};
use std::thread::Threads;

fn lines_in(bytes: &[u8]) -> u64 {
    let mut lines = 0u64;
    for byte in bytes {
        if *byte == b'\n' {
            lines = lines.saturating_add(1);
        }
    }
    lines
}

// The status, and how many lines the report holds.
type Lines = Result<(u8, u64), AllocError>;

// Runs words with a report that fails at one of its calls.
fn run(rt: &(impl Threads + Sync), alloc: Global, text: &str, file: Made, call: u64) -> Lines {
    let file = file_of(alloc, file)?;
    let words = split(alloc, text)?;
    let fails = [call];
    let mut source = HonestSource::new(&file);
    let left = run_over(rt, alloc, &words, &mut source, 20_000, &[], &fails)?;
    Ok((left.status, lines_in(left.report.written())))
}

// The same with a report that fails behind its last line, and with one that fails at it, if there is one.
fn run_twice(
    rt: &(impl Threads + Sync),
    alloc: Global,
    text: &str,
    file: Made,
    lines: u64,
) -> (Lines, Option<Lines>) {
    let whole = run(rt, alloc, text, file, lines);
    if lines == 0 {
        return (whole, None);
    }
    (whole, Some(run(rt, alloc, text, file, lines - 1)))
}

#[test]
fn each_line_takes_one_call(rt: HostRuntime) {
    // Words, a file, the status, and the number of lines.
    const ROWS: [(&str, Made, u8, u64); 13] = [
        ("decode a b", TwoFrames, 0, 1),
        ("check a", TwoFrames, 0, 1),
        ("cut a b 0 0", TwoFrames, 0, 1),
        ("frame a b 1", TwoFrames, 0, 1),
        ("range a b 0 1", TwoFrames, 0, 1),
        ("encode a b", Known(SILENT), 0, 1),
        ("show a", Known(SILENT), 0, 5),
        ("show a", TwoFrames, 0, 8),
        ("show a 0", TwoFrames, 0, 1),
        ("index a", TwoFrames, 0, 2),
        ("index a", NoFrames, 0, 0),
        ("index a", Known(SILENT), 5, 1),
        ("decode a", TwoFrames, 1, 1),
    ];
    for &(text, file, status, lines) in &ROWS {
        let found = run_twice(&rt, rt.alloc(), text, file, lines);
        let short = (lines > 0).then_some(Ok((7, lines.saturating_sub(1))));
        same(&rt, &(text, found), &(text, (Ok((status, lines)), short)));
    }
}
