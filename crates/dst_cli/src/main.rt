//! The program `dst_cli`: codes and decodes Direct Stream Transfer in DSDIFF files.
//!
//! ```text
//! dst_cli encode IN OUT --level 2 --workers 4
//! dst_cli decode IN OUT --workers 4
//! dst_cli pipe OUT < IN
//! dst_cli --help
//! ```
//!
//! It hands the words behind its name and the machine's files to [`run_words`], has [`explain`] say what people want to know of the end, and ends with the
//! status that the run has. Where memory for the words is refused it prints nothing and ends with status 4; where the system refuses the words for another
//! cause, with status 8.
#![tactic(auto)]

use dst_console::{MachineFiles, explain, run_words};
use dst_streams::TextSink;
use std::env;
use std::io::{ErrorKind, IsTerminal};
use std::process::ExitCode;

const MEMORY: u8 = 4;

const NO_WORDS: u8 = 8;

fn main(rt: HostRuntime) -> ExitCode {
    match words_of_program(&rt) {
        Ok(words) => {
            let files = MachineFiles::new(&rt, rt.stderr().is_terminal());
            let mut report = TextSink::new(&rt);
            let ended = run_words(&rt, rt.alloc(), &words, &files, &mut report);
            explain(&rt, &words, &ended);
            ExitCode::from(ended.status())
        }
        Err(status) => ExitCode::from(status),
    }
}

// The words behind the program's name, or the status of a program that doesn't get them.
fn words_of_program(rt: &HostRuntime) -> Result<Vec<String>, u8> {
    let mut words = Vec::new(rt.alloc());
    let args = match env::args(rt) {
        Err(e) if e.kind() == ErrorKind::OutOfMemory => return Err(MEMORY),
        Err(_) => return Err(NO_WORDS),
        Ok(args) => args,
    };
    for word in args.skip(1) {
        if words.push(word).is_err() {
            return Err(MEMORY);
        }
    }
    Ok(words)
}
