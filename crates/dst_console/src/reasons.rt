// What went wrong, in a line for people on standard error. Report and status say the same without it.
use crate::asking::word_at;
use crate::ended::Ended;
use crate::help::{CommandHelp, help_of};
use crate::progress::Watched;
use dst_streams::{FileSink, FileSource, PipeFlow};
use std::io::{self, ErrorKind};
use std::os::unix::fs::FileExt;
use std::rt::Runtime;

/// How the words ended over the machine's files.
pub type MachineEnd<'r, R> = Ended<
    Watched<'r, FileSource<'r, R>, R>,
    PipeFlow<'r, R>,
    FileSink<'r, R>,
>;

// What is known of a run behind its end.
#[derive(Drop)]
struct Behind<'a> {
    status: u8,
    // The files' names.
    input: &'a str,
    output: &'a str,
    // Why the last call on each that failed did.
    read: Option<io::Error>,
    write: Option<io::Error>,
    // How many bytes the output file has, where one was made.
    held: Option<u64>,
}

/// Takes the progress line away, and says why a run ended as it did, where there is more to say than the report has.
pub fn explain<'r, R: Runtime + AllocGlobal>(rt: &R, words: &[String], ended: &MachineEnd<'r, R>)
where
    R::File: FileExt,
{
    match ended {
        Ended::Answered { .. } => {}
        Ended::Command(ran) => {
            ran.input.wipe();
            explain_run(
                rt,
                words,
                &Behind {
                    status: ran.status,
                    input: word_at(words, 1),
                    output: word_at(words, 2),
                    read: ran.input.source.reason(),
                    write: ran.output.reason(),
                    held: ran.output.held(),
                },
            );
        }
        Ended::Pipe(ran) => explain_run(
            rt,
            words,
            &Behind {
                status: ran.status,
                input: "standard input",
                output: word_at(words, 1),
                read: ran.input.reason(),
                write: ran.output.reason(),
                held: ran.output.held(),
            },
        ),
    }
}

fn explain_run<R: Eprint>(rt: &R, words: &[String], behind: &Behind<'_>) {
    match behind.status {
        1 => explain_words(rt, words),
        2 => explain_fault(rt, behind.input, behind.read),
        3 => explain_fault(rt, behind.output, behind.write),
        _ => {}
    }
    match (behind.status, behind.held) {
        (2 | 3 | 5 | 6 | 7, Some(held)) if held > 0 => {
            let name = behind.output;
            let _ = eprintln!(rt; "{name}: holds the beginning alone, {held} bytes");
        }
        _ => {}
    }
}

// A name and the system's reason.
fn explain_fault<R: Eprint>(rt: &R, name: &str, reason: Option<io::Error>) {
    let _ = match reason {
        Some(reason) if reason.kind() == ErrorKind::AlreadyExists => {
            eprintln!(rt; "{name}: exists already")
        }
        Some(reason) => eprintln!(rt; "{name}: {reason}"),
        None => eprintln!(rt; "{name}: failed"),
    };
}

// What is wrong with words, as far as it can be seen without knowing what each may be.
fn explain_words<R: Eprint>(rt: &R, words: &[String]) {
    let [name, rest @ ..] = words else {
        let _ = eprintln!(rt; "a command is missing; dst_cli --help lists them");
        return;
    };
    let Some(command) = help_of(name.as_str()) else {
        let _ = eprintln!(rt; "no command is named {name}; dst_cli --help lists them");
        return;
    };
    let usage = command.usage;
    let _ = match (missing_place(command, rest), unknown_option(command, rest)) {
        (_, Some(word)) => {
            eprintln!(rt;
                "{name} has no option {word}; usage: dst_cli {usage}; more by dst_cli {name} --help"
            )
        }
        (Some(place), None) => {
            eprintln!(rt;
                "{place} is missing; usage: dst_cli {usage}; more by dst_cli {name} --help"
            )
        }
        (None, None) => {
            eprintln!(rt;
                "a word isn't one that its place takes; usage: dst_cli {usage}; more by dst_cli {name} --help"
            )
        }
    };
}

// The first place that has no word.
fn missing_place(command: &CommandHelp, words: &[String]) -> Option<&'static str> {
    command.places.get(words.len()).copied()
}

// The first word that looks like an option and is none of this command.
fn unknown_option<'w>(command: &CommandHelp, words: &'w [String]) -> Option<&'w str> {
    for word in words {
        let word = word.as_str();
        if word.starts_with("--") && !command.options.contains(&word) {
            return Some(word);
        }
    }
    None
}
