// Files that are opened by the rules of a command, and how many jobs there are.
use dsdiff_chunks::{FileFault, OpenFault};
use dst_commands::{AllFrames, FrameByWalk, PlainFile, job_count, open_file};
use dst_num::Channels;
use dst_streams::HonestSource;
use std::alloc::Global;

// One channel without sound, plain; and coded, with one frame of a byte.
const PLAIN: [u8; 126] =
    *b"FRM8\0\0\0\0\0\0\0\x72DSD FVER\0\0\0\0\0\0\0\x04\x01\x05\0\0PROP\0\0\0\0\0\0\0\x46SND FS  \0\0\0\0\0\0\0\x04\0\x2b\x11\0CHNL\0\0\0\0\0\0\0\x06\0\x01C000CMPR\0\0\0\0\0\0\0\x13DSD \x0enot compressed\0DSD \0\0\0\0\0\0\0\0";

const CODED: [u8; 142] =
    *b"FRM8\0\0\0\0\0\0\0\x82DSD FVER\0\0\0\0\0\0\0\x04\x01\x05\0\0PROP\0\0\0\0\0\0\0\x36SND FS  \0\0\0\0\0\0\0\x04\0\x2b\x11\0CHNL\0\0\0\0\0\0\0\x06\0\x01C   CMPR\0\0\0\0\0\0\0\x04DST DST \0\0\0\0\0\0\0\x20FRTE\0\0\0\0\0\0\0\x06\0\0\0\x01\0\x4bDSTF\0\0\0\0\0\0\0\x01\0\0";

// Why a plain file isn't opened for its frames, and a coded one as a plain one.
fn refusals(alloc: Global) -> [Option<OpenFault>; 2] {
    let plain = open_file(alloc, &mut HonestSource::new(&PLAIN), &AllFrames);
    let coded = open_file(alloc, &mut HonestSource::new(&CODED), &PlainFile);
    [plain.err(), coded.err()]
}

#[test]
fn a_command_refuses_the_other_kind(rt: HostRuntime) {
    let wanted = [
        Some(OpenFault::File(FileFault::NotCoded)),
        Some(OpenFault::File(FileFault::NotPlain)),
    ];
    assert_eq!(rt; refusals(rt.alloc()), wanted);
}

// Where a frame stands, and its size.
type Place = (u64, u32);

fn found(alloc: Global, source: &mut HonestSource<'_>, number: u32) -> Result<Place, OpenFault> {
    let found = open_file(alloc, source, &FrameByWalk { number })?;
    Ok((found.entry.offset, found.entry.size))
}

#[test]
fn a_frame_is_found_by_its_number(rt: HostRuntime) {
    let mut source = HonestSource::new(&CODED);
    let found = [
        found(rt.alloc(), &mut source, 0),
        found(rt.alloc(), &mut source, 1),
    ];
    let past = FileFault::Range {
        asked: 1,
        frames: 1,
    };
    assert_eq!(rt; found, [Ok((140, 1)), Err(OpenFault::File(past))]);
}

fn jobs_of(multiple: u32, frames: u32, workers: u32) -> Option<u32> {
    match Channels::at(2, multiple) {
        Some(channels) => Some(job_count(channels, frames, workers)),
        None => None,
    }
}

// The multiple of 64 times 44.1 kHz, frames, workers, and the jobs.
const JOBS: [(u32, u32, u32, u32); 6] = [
    (1, 1_000_000, 1, 16),
    (1, 1_000_000, 16, 256),
    (2, 1_000_000, 16, 128),
    (4, 1_000_000, 16, 64),
    (1, 3, 16, 3),
    (4, 0, 1, 1),
];

#[test]
fn jobs_are_sixteen_a_worker_and_fewer_for_longer_frames(rt: HostRuntime) {
    for &(multiple, frames, workers, jobs) in &JOBS {
        assert_eq!(rt;
            jobs_of(multiple, frames, workers),
            Some(jobs),
            "{multiple} {frames}"
        );
    }
}
