// Files of made sound against fronts written by hand and another program's frames, and sinks that fail.
use dst_make::{Made, MakeFault, make_file};
use dst_num::Channels;
use dst_streams::{MemorySink, ShortFlowSink};
use std::alloc::{AllocError, Global};

// Six channels at 64 times 44.1 kHz, three frames.
const SIX: &[u8; 146] = b"FRM8\0\0\0\0\0\x01\x4b\x46DSD \
FVER\0\0\0\0\0\0\0\x04\x01\x05\0\0\
PROP\0\0\0\0\0\0\0\x5aSND \
FS  \0\0\0\0\0\0\0\x04\0\x2b\x11\0\
CHNL\0\0\0\0\0\0\0\x1a\0\x06C000C001C002C003C004C005\
CMPR\0\0\0\0\0\0\0\x13DSD \x0enot compressed\0\
DSD \0\0\0\0\0\x01\x4a\xc0";

// One channel at 256 times 44.1 kHz, no frame.
const SILENT: &[u8; 126] = b"FRM8\0\0\0\0\0\0\0\x72DSD \
FVER\0\0\0\0\0\0\0\x04\x01\x05\0\0\
PROP\0\0\0\0\0\0\0\x46SND \
FS  \0\0\0\0\0\0\0\x04\0\xac\x44\0\
CHNL\0\0\0\0\0\0\0\x06\0\x01C000\
CMPR\0\0\0\0\0\0\0\x13DSD \x0enot compressed\0\
DSD \0\0\0\0\0\0\0\0";

// Whether these bytes stand there.
fn stand_at(file: &[u8], place: usize, bytes: &[u8]) -> bool {
    place <= file.len() && file[place..].starts_with(bytes)
}

// What making three frames answers, how many bytes are written, and whether those of the front and the first ones of two frames are right.
type Three = (Result<Made, MakeFault>, usize, [bool; 3]);

fn three_frames(alloc: Global, channels: Channels) -> Result<Three, AllocError> {
    let mut sink = MemorySink::new(alloc, 84_818, &[])?;
    let answer = make_file(alloc, &mut sink, u32::MAX, 3, channels);
    let file = sink.written();
    // The first bytes of two frames, as another program makes them.
    let is_right = [
        file.starts_with(SIX),
        stand_at(file, 146, &[0x50, 0x8c, 0x99, 0x9e, 0xaf, 0x73]),
        stand_at(file, 28_370, &[0x25, 0x82, 0x92, 0x72, 0xda, 0x7d]),
    ];
    Ok((answer, file.len(), is_right))
}

// What making no frame answers, and whether the silent file is written.
type Silent = (Result<Made, MakeFault>, bool);

fn no_frame(alloc: Global, channels: Channels) -> Result<Silent, AllocError> {
    let mut sink = MemorySink::new(alloc, 126, &[])?;
    let answer = make_file(alloc, &mut sink, 7, 0, channels);
    Ok((answer, sink.written() == SILENT.as_slice()))
}

// Both, at the channels that they need.
fn both_heads(alloc: Global) -> Result<Option<(Three, Silent)>, AllocError> {
    match (Channels::new(6), Channels::at(1, 4)) {
        (Some(six), Some(one)) => {
            let three = three_frames(alloc, six)?;
            Ok(Some((three, no_frame(alloc, one)?)))
        }
        _ => Ok(None),
    }
}

#[test]
fn frames_stand_behind_a_head_written_by_hand(rt: HostRuntime) {
    let three = (Ok(Made { frames: 3 }), 84_818, [true; 3]);
    let silent = (Ok(Made { frames: 0 }), true);
    assert_eq!(rt; both_heads(rt.alloc()), Ok(Some((three, silent))));
}

// What making two frames answers, how many bytes are written, and whether they are a front of the whole file.
type Run = (Result<Made, MakeFault>, usize, bool);

// The same where these calls fail.
fn fails(
    alloc: Global,
    channels: Channels,
    whole: &[u8],
    calls: &[u64],
) -> Result<Run, AllocError> {
    let mut sink = MemorySink::new(alloc, 9_534, calls)?;
    let answer = make_file(alloc, &mut sink, 7, 2, channels);
    let written = sink.written();
    Ok((answer, written.len(), whole.starts_with(written)))
}

// A call that fails is answered, and leaves a front of the whole file. Of the first call where that isn't so: whether more than three calls are before
// it, what is answered, and whether a front is written.
type First = (bool, Result<Made, MakeFault>, bool);

fn first_other(alloc: Global, channels: Channels, whole: &[u8]) -> Result<First, AllocError> {
    for call in 0..100u64 {
        let calls = [call];
        let (answer, _, is_front) = fails(alloc, channels, whole, &calls)?;
        if answer != Err(MakeFault::Write) || !is_front {
            return Ok((3 < call, answer, is_front));
        }
    }
    Ok((false, Err(MakeFault::Write), false))
}

// The same where the sink is full behind so many bytes.
fn fills(alloc: Global, channels: Channels, whole: &[u8], prefix: u16) -> Run {
    let mut sink = ShortFlowSink::new(usize::from(prefix));
    let answer = make_file(alloc, &mut sink, 7, 2, channels);
    let written = sink.written();
    (answer, written.len(), whole.starts_with(written))
}

// What making the whole file answers, and all these runs.
type Runs = (Result<Made, MakeFault>, First, [Run; 5]);

fn runs_of(alloc: Global, channels: Channels) -> Result<Runs, AllocError> {
    let mut whole = MemorySink::new(alloc, 9_534, &[])?;
    let answer = make_file(alloc, &mut whole, 7, 2, channels);
    let whole = whole.written();
    let first = first_other(alloc, channels, whole)?;
    let filled = [
        fills(alloc, channels, whole, 0),
        fills(alloc, channels, whole, 125),
        fills(alloc, channels, whole, 126),
        fills(alloc, channels, whole, 4_830),
        fills(alloc, channels, whole, 9_533),
    ];
    Ok((answer, first, filled))
}

// The same of one channel.
fn runs(alloc: Global) -> Result<Option<Runs>, AllocError> {
    match Channels::new(1) {
        Some(channels) => Ok(Some(runs_of(alloc, channels)?)),
        None => Ok(None),
    }
}

// At least one call for the front, one for each frame and one that has the file settled.
#[test]
fn each_call_on_the_sink_fails_in_its_turn(rt: HostRuntime) {
    let done = Ok(Made { frames: 2 });
    let failed = Err(MakeFault::Write);
    let filled = [
        (failed, 0, true),
        (failed, 125, true),
        (failed, 126, true),
        (failed, 4_830, true),
        (failed, 9_533, true),
    ];
    let wanted = (done, (true, done, true), filled);
    assert_eq!(rt; runs(rt.alloc()), Ok(Some(wanted)));
}
