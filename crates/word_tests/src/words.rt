// The tables of words.
use dst_num::Channels;
use dst_words::{Command, Pairs, Task, read_words};
use std::alloc::{AllocError, Global};
use std::process::Abort;
use std::test::Fail;

fn split(alloc: Global, text: &str) -> Result<Vec<String>, AllocError> {
    let mut words = Vec::new(alloc);
    for word in text.split(' ') {
        words.push(String::from_str(alloc, word)?)?;
    }
    Ok(words)
}

fn task(command: Command, workers: u32) -> Option<Task> {
    Some(Task { command, workers })
}

fn frame(frame: u32, by_index: bool) -> Option<Task> {
    task(Command::Frame { frame, by_index }, 1)
}

fn encode(level: u32, workers: u32) -> Option<Task> {
    task(Command::Encode { level }, workers)
}

fn cut(first: u32, last: u32) -> Option<Task> {
    task(Command::Cut { first, last }, 1)
}

fn make(start: u32, frames: u32, count: u32, multiple: u32) -> Option<Task> {
    let channels = Channels::at(count, multiple)?;
    let command = Command::Make {
        start,
        frames,
        channels,
    };
    task(command, 1)
}

fn make_run(start: u32, frames: u32, count: u32, multiple: u32) -> Option<Task> {
    let channels = Channels::at(count, multiple)?;
    let command = Command::MakeRun {
        start,
        frames,
        channels,
    };
    task(command, 1)
}

// The words of each text are this task, or none.
fn tasks_are(
    rt: &impl Abort,
    alloc: Global,
    cases: &[(&str, Option<Task>)],
) -> Result<(), AllocError> {
    for (text, expected) in cases {
        let words = split(alloc, text)?;
        assert_eq!(rt; read_words(words.as_slice()), *expected, "{text}");
    }
    Ok(())
}

#[test]
fn words_of_decoding_are_tasks(rt: HostRuntime) -> Result<(), Fail> {
    let cases = [
        ("decode a b", task(Command::Decode, 1)),
        ("decode a.dff out-b.dff", task(Command::Decode, 1)),
        ("decode a a", task(Command::Decode, 1)),
        ("decode", None),
        ("decode a", None),
        ("decode a b c", None),
        ("decode - b", None),
        ("decode -a b", None),
        ("decode a -b", None),
        ("decode  b", None),
        ("decode a ", None),
        (" a b", None),
        ("decoder a b", None),
        ("decod a b", None),
        ("Decode a b", None),
        ("decode a b --workers 2", task(Command::Decode, 2)),
        ("decode a b --workers", None),
        ("decode a b --workers 0", None),
        ("decode a b --workers 17", None),
        ("decode a b --workers 02", None),
        ("decode a b --workers 2 --workers 2", None),
        ("decode --workers 2 a b", None),
        ("decode a b --by-index", None),
    ];
    tasks_are(&rt, rt.alloc(), &cases)?;
    assert_eq!(rt; read_words(&[]), None);
    Ok(())
}

#[test]
fn words_of_encoding_are_tasks(rt: HostRuntime) -> Result<(), Fail> {
    let cases = [
        ("encode a b", encode(1, 1)),
        ("encode a b --level 0", encode(0, 1)),
        ("encode a b --level 2 --workers 16", encode(2, 16)),
        ("encode a b --workers 4 --level 2", encode(2, 4)),
        ("encode a b --level 3", encode(3, 1)),
        ("encode a b --level 4", None),
        ("encode a b --level 1 --level 1", None),
        ("encode a b --workers 4 --level", None),
        ("encode a b --level 1 --workers 4 --level", None),
        ("encode a", None),
    ];
    tasks_are(&rt, rt.alloc(), &cases)?;
    Ok(())
}

#[test]
fn words_of_showing_are_tasks(rt: HostRuntime) -> Result<(), Fail> {
    let cases = [
        ("frame a b 4294967295", frame(u32::MAX, false)),
        ("frame a b 0 --by-index", frame(0, true)),
        ("frame a b 0 --by-index --by-index", None),
        ("frame a b --by-index 0", None),
        ("frame a b 4294967296", None),
        ("frame a b 00", None),
        ("frame a b +1", None),
        ("frame a b", None),
        ("check a", task(Command::Check, 1)),
        ("check a --workers 16", task(Command::Check, 16)),
        ("check a b", None),
        ("show a", task(Command::Show, 1)),
        ("show a 12", task(Command::ShowFrame { frame: 12 }, 1)),
        ("show a b", None),
        ("show a 1 2", None),
        ("index a", task(Command::Index, 1)),
        ("index a b", None),
        ("--help", None),
    ];
    tasks_are(&rt, rt.alloc(), &cases)?;
    Ok(())
}

#[test]
fn words_of_cutting_and_making_are_tasks(rt: HostRuntime) -> Result<(), Fail> {
    let cases = [
        ("cut a b 3 4294967295", cut(3, u32::MAX)),
        ("cut a b 0 0", cut(0, 0)),
        ("cut a b 3 2", None),
        ("cut a b 3", None),
        ("cut a b 1 2 3", None),
        ("cut a -b 1 2", None),
        ("cut a b 01 2", None),
        ("make 7 a.dff 1000 6", make(7, 1000, 6, 1)),
        ("make 4294967295 a 0 1 --rate 128", make(u32::MAX, 0, 1, 2)),
        ("make 7 a 1001 6", None),
        ("make 7 a 1 7", None),
        ("make 7 a 1 0", None),
        ("make 7 a 1 1 --rate 192", None),
        ("make 7 a 1 1 --rate 64 --rate 64", None),
        ("make 7 a 1 1 --rate", None),
        ("make a b 1 1", None),
        ("make 7 -run 1 1", None),
        ("make 7 --run 100 6", make_run(7, 100, 6, 1)),
        ("make 7 --run 0 1 --rate 256", make_run(7, 0, 1, 4)),
        ("make 7 --run 101 6", None),
        ("make 7 --run 1 1 --workers 4", None),
        ("make 7 --run 1", None),
    ];
    tasks_are(&rt, rt.alloc(), &cases)?;
    Ok(())
}

#[test]
fn words_of_dsf_files_are_tasks(rt: HostRuntime) -> Result<(), Fail> {
    let cases = [
        (
            "encode-dsf a.dsf b.dff",
            task(Command::EncodeDsf { level: 1 }, 1),
        ),
        (
            "encode-dsf a b --workers 4 --level 0",
            task(Command::EncodeDsf { level: 0 }, 4),
        ),
        ("encode-dsf a b --level 4", None),
        ("encode-dsf a", None),
        ("decode-dsf a.dff b.dsf", task(Command::DecodeDsf, 1)),
        ("decode-dsf a b --workers 16", task(Command::DecodeDsf, 16)),
        ("decode-dsf a b --level 1", None),
        ("decode-dsf a", None),
    ];
    tasks_are(&rt, rt.alloc(), &cases)?;
    Ok(())
}

fn range(parts: &[(u32, u32)]) -> Option<Task> {
    let mut pairs = Pairs::new();
    for (from, count) in parts {
        if pairs.as_slice().len() == 16 {
            return None;
        }
        pairs.push(*from, *count);
    }
    task(Command::Range { pairs }, 1)
}

#[test]
fn words_of_parts_are_tasks(rt: HostRuntime) -> Result<(), Fail> {
    let cases = [
        ("range a b 0 4294967295", range(&[(0, u32::MAX)])),
        ("range a b 588 1 7 0", range(&[(588, 1), (7, 0)])),
        (
            "range a b 1 2 1 2 1 2 1 2 1 2 1 2 1 2 1 2 1 2 1 2 1 2 1 2 1 2 1 2 1 2 1 2",
            range(&[(1, 2); 16]),
        ),
        (
            "range a b 1 2 1 2 1 2 1 2 1 2 1 2 1 2 1 2 1 2 1 2 1 2 1 2 1 2 1 2 1 2 1 2 1 2",
            None,
        ),
        ("range a b", None),
        ("range a b 0", None),
        ("range a b 0 1 2", None),
        ("range a b 0 4294967296", None),
        ("range a b 0 -1", None),
        ("range a 0 1", None),
    ];
    tasks_are(&rt, rt.alloc(), &cases)?;
    Ok(())
}
