// The calls that list and show a file, and give one frame: each by itself, and over devices that fail.
use dsdiff_chunks::OpenFault;
use dst_read::DecodeFault;
use dst_show::{FrameWritten, ListFault, Reported, ShowFault, frame_out, index_file, show_file};
use dst_streams::{HonestSource, MemorySink, MemorySource};
use example_files::two_frames;
use std::alloc::{AllocError, Global};

const REPORTED: Reported = Reported { frames: 2 };

// What showing the coded file of two frames answers where these calls fail, and whether these lines are written.
type Shown = (Result<Reported, ShowFault>, bool);

fn shown(
    alloc: Global,
    frame: Option<u32>,
    reads: &[u64],
    writes: &[u64],
    lines: &[u8],
) -> Result<Shown, AllocError> {
    let two = two_frames(alloc)?;
    let mut source = MemorySource::new(&two, &[], reads);
    let mut report = MemorySink::new(alloc, 300, writes)?;
    let answer = show_file(alloc, &mut source, &mut report, frame);
    Ok((answer, report.written() == lines))
}

// The same of listing it.
type Listed = (Result<Reported, ListFault>, bool);

fn listed(alloc: Global, writes: &[u64], lines: &[u8]) -> Result<Listed, AllocError> {
    let two = two_frames(alloc)?;
    let mut source = HonestSource::new(&two);
    let mut report = MemorySink::new(alloc, 300, writes)?;
    let answer = index_file(alloc, &mut source, &mut report);
    Ok((answer, report.written() == lines))
}

const SUMMARY: &[u8; 94] =
    b"kind coded\nchannels 1\nsound 4705 bytes\nframes 2\nchunks 5\nstored 9410 bytes\nindex yes\nkept yes\n";

#[test]
fn a_file_is_shown_and_listed(rt: HostRuntime) {
    let alloc = rt.alloc();
    let seen = (
        shown(alloc, None, &[], &[], SUMMARY),
        shown(alloc, Some(0), &[], &[], b"frame 0 plain length 4705\n"),
        listed(alloc, &[], b"0 152 4705\n1 4870 4705\n"),
    );
    let done = Ok((Ok(REPORTED), true));
    assert_eq!(rt; seen, (done, done, Ok((Ok(REPORTED), true))));
}

// What giving the sound of frame 1 answers, and whether that sound is written.
type Given = (Result<FrameWritten, DecodeFault>, bool);

fn sound_given(alloc: Global, by_index: bool) -> Result<Given, AllocError> {
    let two = two_frames(alloc)?;
    let mut sound = vec![in alloc; 0x69; 4704]?;
    sound[0] = 186;
    let mut source = HonestSource::new(&two);
    let mut sink = MemorySink::new(alloc, 5_000, &[])?;
    let answer = frame_out(alloc, &mut source, &mut sink, 1, by_index);
    Ok((answer, sink.written() == sound.as_slice()))
}

#[test]
fn the_sound_of_one_frame_is_written(rt: HostRuntime) {
    let given = [
        sound_given(rt.alloc(), false),
        sound_given(rt.alloc(), true),
    ];
    let done = Ok((Ok(FrameWritten { bytes: 4704 }), true));
    assert_eq!(rt; given, [done; 2]);
}

// What giving the sound of frame 0 answers where these calls fail, and how much is written.
type Held = (Result<FrameWritten, DecodeFault>, usize);

fn sound_held(alloc: Global, writes: &[u64]) -> Result<Held, AllocError> {
    let two = two_frames(alloc)?;
    let mut source = HonestSource::new(&two);
    let mut sink = MemorySink::new(alloc, 5_000, writes)?;
    let answer = frame_out(alloc, &mut source, &mut sink, 0, true);
    Ok((answer, sink.written().len()))
}

// What listing the file answers where the first, the second or the third call on the report fails.
#[test]
fn a_report_that_fails_is_answered_by_the_list(rt: HostRuntime) {
    let alloc = rt.alloc();
    let listed = [
        listed(alloc, &[0], b"0 152"),
        listed(alloc, &[1], b"0 152 4705\n1 4870"),
        listed(alloc, &[2], b"0 152 4705\n1 4870 4705\n"),
    ];
    let failed = Ok((Err(ListFault::Report), true));
    assert_eq!(rt; listed, [failed, failed, Ok((Ok(REPORTED), true))]);
}

// What showing the file answers where these calls fail.
fn show_fails(
    alloc: Global,
    frame: Option<u32>,
    reads: &[u64],
    writes: &[u64],
) -> Result<Result<Reported, ShowFault>, AllocError> {
    let (answer, _) = shown(alloc, frame, reads, writes, b"")?;
    Ok(answer)
}

#[test]
fn devices_that_fail_are_answered(rt: HostRuntime) {
    let alloc = rt.alloc();
    let seen = (
        show_fails(alloc, None, &[], &[0]),
        show_fails(alloc, Some(0), &[0], &[]),
        sound_held(alloc, &[0]),
        sound_held(alloc, &[1]),
    );
    let wanted = (
        Ok(Err(ShowFault::Report)),
        Ok(Err(ShowFault::Source(OpenFault::Read))),
        Ok((Err(DecodeFault::Write), 2_352)),
        Ok((Err(DecodeFault::Write), 4_704)),
    );
    assert_eq!(rt; seen, wanted);
}
