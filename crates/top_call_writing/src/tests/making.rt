// Made sound: files, and runs in memory.
use super::files::Made::Known;
use super::{NOTHING, Row, all_give};
use dst_num::Channels;
use dst_streams::{HonestSource, MemorySource};
use dst_tool::make_run;
use example_files::SILENT;
use frame_crew::Gate;
use std::alloc::{AllocError, Global};
use std::sync::atomic::{AtomicU64, Ordering};
use std::test::Fail;
use std::thread::Threads;
use top_call::{Left, Seen, run_over, split};

// What stands in front of the sound of three frames of six channels.
const THREE_OF_SIX: &[u8; 146] = b"FRM8\0\0\0\0\0\x01\x4b\x46DSD \
FVER\0\0\0\0\0\0\0\x04\x01\x05\0\0\
PROP\0\0\0\0\0\0\0\x5aSND \
FS  \0\0\0\0\0\0\0\x04\0\x2b\x11\0\
CHNL\0\0\0\0\0\0\0\x1a\0\x06C000C001C002C003C004C005\
CMPR\0\0\0\0\0\0\0\x13DSD \x0enot compressed\0\
DSD \0\0\0\0\0\x01\x4a\xc0";

// Runs these words, which aren't to touch the source: every call on it would fail. What is left.
fn runs(
    rt: &(impl Threads + Sync),
    alloc: Global,
    text: &str,
) -> Result<Left<'static>, AllocError> {
    let words = split(alloc, text)?;
    let mut source = MemorySource::new(&[], &[], &[0, 1, 2, 3]);
    run_over(rt, alloc, &words, &mut source, 300_000, &[], &[])
}

// Whether these bytes stand at this place.
fn has_at(bytes: &[u8], place: usize, part: &[u8]) -> bool {
    match bytes.get(place..) {
        Some(rest) => rest.starts_with(part),
        None => false,
    }
}

// Of the file that these words make: the status, its size, whether these bytes stand at this place, and whether the report is this line.
type MadeBy = (u8, usize, bool, bool);

fn made_by(
    rt: &(impl Threads + Sync),
    alloc: Global,
    text: &str,
    place: usize,
    part: &[u8],
    line: &str,
) -> Result<MadeBy, AllocError> {
    let left = runs(rt, alloc, text)?;
    let seen = left.seen(&[], line);
    let written = left.sink.written();
    let has_part = has_at(written, place, part);
    Ok((seen.status, written.len(), has_part, seen.is_reported))
}

// The statuses of two texts, and whether they write the same, and report the same.
type AlikeSeen = (u8, u8, bool, bool);

fn alike(
    rt: &(impl Threads + Sync),
    alloc: Global,
    one: &str,
    other: &str,
) -> Result<AlikeSeen, AllocError> {
    let one = runs(rt, alloc, one)?;
    let other = runs(rt, alloc, other)?;
    let is_same = one.sink.written() == other.sink.written();
    let is_alike = one.report.written() == other.report.written();
    Ok((one.status, other.status, is_same, is_alike))
}

#[test]
fn made_sound_is_written(rt: HostRuntime) {
    // Words, the size, a place and what stands there, and the report.
    const ROWS: [(&str, usize, usize, &[u8], &str); 3] = [
        (
            "make 7 a.dff 3 6",
            84_818,
            0,
            THREE_OF_SIX,
            "made 3 frames\n",
        ),
        (
            "make 8 a.dff 3 6",
            84_818,
            0,
            THREE_OF_SIX,
            "made 3 frames\n",
        ),
        (
            "make 7 a.dff 1 2 --rate 128",
            130 + 18_816,
            60,
            b"\0\x56\x22\0",
            "made 1 frames\n",
        ),
    ];
    for &(text, size, place, part, line) in &ROWS {
        let made = made_by(&rt, rt.alloc(), text, place, part, line);
        assert_eq!(rt; made, Ok((0, size, true, true)), "{text}");
    }
    let alike = alike(&rt, rt.alloc(), "make 7 a.dff 3 6", "make 8 a.dff 3 6");
    assert_eq!(rt; alike, Ok((0, 0, false, true)));
}

#[test]
fn what_is_not_made_is_refused(rt: HostRuntime) {
    const REFUSED: &str = "words not understood\n";
    const ROWS: [Row; 7] = [
        (
            "make 0 e.dff 0 1",
            NOTHING,
            0,
            Known(SILENT),
            "made 0 frames\n",
        ),
        ("make 7 a.dff 1 7", NOTHING, 1, NOTHING, REFUSED),
        ("make 7 a.dff 1001 1", NOTHING, 1, NOTHING, REFUSED),
        ("make 7 a.dff 1 1 --rate 192", NOTHING, 1, NOTHING, REFUSED),
        ("make 7 --run 101 6", NOTHING, 1, NOTHING, REFUSED),
        ("make 7 --run 1 1 --workers 4", NOTHING, 1, NOTHING, REFUSED),
        ("make 7 -run 1 1", NOTHING, 1, NOTHING, REFUSED),
    ];
    all_give(&rt, rt.alloc(), &ROWS);
}

// What is seen of making into a sink that fails at this call.
fn made_into_failing(
    rt: &(impl Threads + Sync),
    alloc: Global,
    call: u64,
) -> Result<Seen, AllocError> {
    let whole = runs(rt, alloc, "make 7 a.dff 3 6")?;
    let words = split(alloc, "make 7 a.dff 3 6")?;
    let fails = [call];
    let mut source = HonestSource::new(&[]);
    let left = run_over(rt, alloc, &words, &mut source, 100_000, &fails, &[])?;
    Ok(left.seen(whole.sink.written(), "write fault\n"))
}

#[test]
fn a_sink_that_fails_holds_the_front_of_made_sound(rt: HostRuntime) {
    let wanted = Seen {
        status: 3,
        is_front: true,
        is_whole: false,
        is_reported: true,
    };
    for call in [0u64, 1, 3] {
        let seen = made_into_failing(&rt, rt.alloc(), call);
        assert_eq!(rt; seen, Ok(wanted), "at call {call}");
    }
}

// What is left where a file is coded at level 2.
fn coded(
    rt: &(impl Threads + Sync),
    alloc: Global,
    plain: &[u8],
) -> Result<Left<'static>, AllocError> {
    let words = split(alloc, "encode a b --level 2")?;
    let mut source = HonestSource::new(plain);
    run_over(rt, alloc, &words, &mut source, 200_000, &[], &[])
}

// What stands between two texts.
fn between<'a>(line: &'a [u8], front: &str, end: &str) -> Option<&'a [u8]> {
    if !line.starts_with(front.as_bytes()) || !line.ends_with(end.as_bytes()) {
        return None;
    }
    let last = line.len().checked_sub(end.len())?;
    if front.len() > last {
        return None;
    }
    Some(&line[front.len()..last])
}

// Words of a run in memory and of making its file, the report around the size that is stored, and what the report on coding that file
// has in front of it.
type RunRow = (
    &'static str,
    &'static str,
    &'static str,
    &'static str,
    &'static str,
);

// The statuses of the run, of making the file and of coding it, whether the run writes nothing, and whether it tells the size that is
// stored.
type RunSeen = (u8, u8, u8, bool, bool);

fn run_and_coded(
    rt: &(impl Threads + Sync),
    alloc: Global,
    row: RunRow,
) -> Result<RunSeen, AllocError> {
    let (run, make, front, end, coded_front) = row;
    let run = runs(rt, alloc, run)?;
    let made = runs(rt, alloc, make)?;
    let coded = coded(rt, alloc, made.sink.written())?;
    let seen = between(run.report.written(), front, end);
    let stored = between(coded.report.written(), coded_front, " bytes\n");
    let is_alike = match (seen, stored) {
        (Some(seen), Some(stored)) => seen == stored,
        _ => false,
    };
    let is_empty = run.sink.written().is_empty();
    Ok((run.status, made.status, coded.status, is_empty, is_alike))
}

#[test]
fn a_run_in_memory_tells_its_sizes(rt: HostRuntime) {
    const ROWS: [RunRow; 4] = [
        (
            "make 7 --run 2 1",
            "make 7 a.dff 2 1",
            "made 2 frames, sound 9408 bytes, coded ",
            " bytes, restored 9408 bytes\n",
            "coded 2 frames into ",
        ),
        (
            "make 7 --run 3 6",
            "make 7 a.dff 3 6",
            "made 3 frames, sound 84672 bytes, coded ",
            " bytes, restored 84672 bytes\n",
            "coded 3 frames into ",
        ),
        (
            "make 7 --run 20 2",
            "make 7 a.dff 20 2",
            "made 20 frames, sound 188160 bytes, coded ",
            " bytes, restored 188160 bytes\n",
            "coded 20 frames into ",
        ),
        (
            "make 7 --run 1 6 --rate 256",
            "make 7 a.dff 1 6 --rate 256",
            "made 1 frames, sound 112896 bytes, coded ",
            " bytes, restored 112896 bytes\n",
            "coded 1 frames into ",
        ),
    ];
    for row in &ROWS {
        let (text, ..) = *row;
        let seen = run_and_coded(&rt, rt.alloc(), *row);
        assert_eq!(rt; seen, Ok((0, 0, 0, true, true)), "{text}");
    }
}

#[test]
fn a_run_of_no_frames_is_reported_and_one_of_two_twice(rt: HostRuntime) {
    let none = made_by(
        &rt,
        rt.alloc(),
        "make 7 --run 0 1",
        0,
        b"",
        "made 0 frames, sound 0 bytes, coded 0 bytes, restored 0 bytes\n",
    );
    let again = alike(&rt, rt.alloc(), "make 7 --run 2 1", "make 7 --run 2 1");
    let wanted = (Ok((0, 0, true, true)), Ok((0, 0, true, true)));
    assert_eq!(rt; (none, again), wanted);
}

// The status where sink and report fail at their first call behind a run in memory, and whether nothing is written.
fn run_failing(rt: &(impl Threads + Sync), alloc: Global) -> Result<(u8, bool), AllocError> {
    let words = split(alloc, "make 7 --run 1 1")?;
    let mut source = HonestSource::new(&[]);
    let left = run_over(rt, alloc, &words, &mut source, 100, &[0], &[0])?;
    Ok((left.status, left.sink.written().is_empty()))
}

#[test]
fn a_report_that_fails_is_answered_behind_a_run(rt: HostRuntime) {
    assert_eq!(rt; run_failing(&rt, rt.alloc()), Ok((7, true)));
}

// Counts the frames that pass.
#[derive(Drop)]
struct Counting {
    passes: AtomicU64,
}

impl Gate for Counting {
    fn pass(&self, _place: usize) {
        self.passes.fetch_add(1, Ordering::SeqCst);
    }
}

#[test]
fn a_run_codes_and_decodes_each_frame(rt: HostRuntime) -> Result<(), Fail> {
    let alloc = rt.alloc();
    let stereo = Channels::new(2).ok_or("no channels")?;
    let gate = Counting {
        passes: AtomicU64::new(0),
    };
    let (encoded, decoded) = make_run(&rt, alloc, 7, 3, stereo, &gate)
        .ok()
        .ok_or("memory")?;
    // Three frames are coded, and three are decoded.
    let passes = gate.passes.load(Ordering::SeqCst);
    assert_eq!(rt;
        (encoded.frames, decoded.frames, decoded.bytes, passes),
        (3, 3, 28_224, 6)
    );
    Ok(())
}
