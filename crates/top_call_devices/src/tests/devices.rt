// Devices that fail: the statuses and the lines.
use dst_streams::{HonestSource, MemorySink, MemorySource, ShortFlowSink};
use example_files::{odd_plain, two_frames, with_bytes};
use std::alloc::{AllocError, Global};
use std::test::Fail;
use std::thread::Threads;
use top_call::{Left, Seen, run_over, run_words, split};

// What is seen of decoding the coded file of two frames over devices of which these calls fail, beside the plain file and a line.
fn decoded(
    rt: &(impl Threads + Sync),
    alloc: Global,
    reads: &[u64],
    writes: &[u64],
    reports: &[u64],
    line: &str,
) -> Result<Seen, AllocError> {
    let file = two_frames(alloc)?;
    let whole = odd_plain(alloc)?;
    let words = split(alloc, "decode in.dff out.dff")?;
    let mut source = MemorySource::new(&file, &[], reads);
    let left = run_over(rt, alloc, &words, &mut source, 10_000, writes, reports)?;
    Ok(left.seen(&whole, line))
}

#[test]
fn a_read_that_fails_leaves_the_front_of_the_output(rt: HostRuntime) -> Result<(), Fail> {
    for call in 0..8u64 {
        let fails = [call];
        let seen = decoded(&rt, rt.alloc(), &fails, &[], &[], "read fault\n")?;
        assert_eq!(rt;
            (seen.status, seen.is_front, seen.is_reported),
            (2, true, true),
            "at call {call}"
        );
    }
    Ok(())
}

#[test]
fn an_append_that_fails_leaves_the_front_of_the_output(rt: HostRuntime) {
    let wanted = Seen {
        status: 3,
        is_front: true,
        is_whole: false,
        is_reported: true,
    };
    for call in 0..4u64 {
        let fails = [call];
        let seen = decoded(&rt, rt.alloc(), &[], &fails, &[], "write fault\n");
        assert_eq!(rt; seen, Ok(wanted), "at call {call}");
    }
}

// What a run into a sink that is full behind so many bytes leaves: its status, how many bytes are written, whether they are a front of
// the plain file, and whether the report is the line of the fault.
type Short = (u8, usize, bool, bool);

fn into_full(rt: &(impl Threads + Sync), alloc: Global, prefix: u16) -> Result<Short, AllocError> {
    let file = two_frames(alloc)?;
    let whole = odd_plain(alloc)?;
    let words = split(alloc, "decode in.dff out.dff")?;
    let mut report = MemorySink::new(alloc, 100, &[])?;
    let mut source = HonestSource::new(&file);
    let mut sink = ShortFlowSink::new(usize::from(prefix));
    let status = run_words(rt, alloc, &words, &mut source, &mut sink, &mut report);
    let written = sink.written();
    let is_front = whole.starts_with(written);
    let is_reported = report.written() == b"write fault\n".as_slice();
    Ok((status, written.len(), is_front, is_reported))
}

#[test]
fn a_full_sink_holds_what_fits(rt: HostRuntime) {
    for prefix in [0u16, 1, 125, 126, 127, 4829, 4830, 4831] {
        let left = into_full(&rt, rt.alloc(), prefix);
        assert_eq!(rt; left, Ok((3, usize::from(prefix), true, true)));
    }
}

#[test]
fn a_report_that_fails_leaves_the_output_whole(rt: HostRuntime) -> Result<(), Fail> {
    const CASES: [(&[u64], u8, &str); 2] = [
        (&[0], 7, "decoded 2 frames"),
        (&[1], 0, "decoded 2 frames into 4705 bytes\n"),
    ];
    for &(fails, status, line) in &CASES {
        let seen = decoded(&rt, rt.alloc(), &[], &[], fails, line)?;
        assert_eq!(rt;
            (seen.status, seen.is_whole, seen.is_reported),
            (status, true, true)
        );
    }
    Ok(())
}

// The size of the sound in the coded file of two frames.
const SOUND_SIZE: &[u8; 8] = b"\0\0\0\0\0\0\x24\xee";

// That file before the sizes of the form and of the sound are written.
fn without_sizes(alloc: Global) -> Result<Vec<u8>, AllocError> {
    let file = two_frames(alloc)?;
    let without_one = with_bytes(alloc, &file, 4, &[0; 8])?;
    with_bytes(alloc, &without_one, 114, &[0; 8])
}

// What is seen beside that file, beside the same with the size of its sound, and beside the file with both.
fn seen_by_sizes(alloc: Global, left: &Left, line: &str) -> Result<(Seen, Seen, Seen), AllocError> {
    let whole = two_frames(alloc)?;
    let without_sizes = without_sizes(alloc)?;
    let sound_sized = with_bytes(alloc, &without_sizes, 114, SOUND_SIZE)?;
    Ok((
        left.seen(&without_sizes, line),
        left.seen(&sound_sized, line),
        left.seen(&whole, line),
    ))
}

// The same of coding the plain file over devices of which these calls fail.
fn coded(
    rt: &(impl Threads + Sync),
    alloc: Global,
    reads: &[u64],
    writes: &[u64],
    line: &str,
) -> Result<(Seen, Seen, Seen), AllocError> {
    let file = odd_plain(alloc)?;
    let words = split(alloc, "encode a b --level 0")?;
    let mut source = MemorySource::new(&file, &[], reads);
    let left = run_over(rt, alloc, &words, &mut source, 10_000, writes, &[])?;
    seen_by_sizes(alloc, &left, line)
}

#[test]
fn a_read_that_fails_leaves_a_coded_file_without_sizes(rt: HostRuntime) -> Result<(), Fail> {
    let mut done = false;
    for call in 0..200u64 {
        let fails = [call];
        let (without, _, whole) = coded(&rt, rt.alloc(), &fails, &[], "read fault\n")?;
        done = whole.status == 0;
        let is_right = if done {
            whole.is_whole
        } else {
            without.status == 2 && without.is_front && without.is_reported
        };
        assert!(rt; is_right, "at call {call}");
        if done {
            break;
        }
    }
    assert!(rt; done);
    Ok(())
}

#[test]
fn a_write_that_fails_leaves_a_coded_file_that_is_not_finished(
    rt: HostRuntime,
) -> Result<(), Fail> {
    // Whether the size of the sound alone was seen, and the whole file that isn't settled.
    let mut seen = [false; 2];
    for call in 0..200u64 {
        let fails = [call];
        let (without, sized, whole) = coded(&rt, rt.alloc(), &[], &fails, "")?;
        let done = whole.status == 0;
        let is_right = if done {
            whole.is_whole
        } else {
            whole.status == 3 && (sized.is_whole || whole.is_whole || without.is_front)
        };
        assert!(rt; is_right, "at call {call}");
        if done {
            break;
        }
        seen = [seen[0] || sized.is_whole, seen[1] || whole.is_whole];
    }
    assert_eq!(rt; seen, [true; 2]);
    Ok(())
}
