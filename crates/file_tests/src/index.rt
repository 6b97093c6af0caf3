// Each call once, with ample memory.
ghost use Rattle.std.specs.Prelude.{◌≡◌, ◌<◌, ◌≤◌, ℕ, Some};

use crate::compared::same;
use dsdiff_chunks::{CodedForm, FileFault, Form, OpenFault, open_form};
use dst_streams::{HonestSource, Source};
use frame_index::{Entry, Index, compare, locate_by_index, read_index, walk};
use std::alloc::Global;

// One channel. Two frames of one and of three bytes, whose count stands at place 125, and a checksum between them. The last
// pad byte is missing.
const TWO_FRAMES: [u8; 171] =
    *b"FRM8\0\0\0\0\0\0\0\x9fDSD FVER\0\0\0\0\0\0\0\x04\x01\x05\0\0PROP\0\0\0\0\0\0\0\x36SND FS  \0\0\0\0\0\0\0\x04\0\x2b\x11\0CHNL\0\0\0\0\0\0\0\x06\0\x01C   CMPR\0\0\0\0\0\0\0\x04DST DST \0\0\0\0\0\0\0\x3dFRTE\0\0\0\0\0\0\0\x06\0\0\0\x02\0\x4bDSTF\0\0\0\0\0\0\0\x01\0\0DSTC\0\0\0\0\0\0\0\x02\0\0DSTF\0\0\0\0\0\0\0\x03\0\0\0";

fn walk_of(alloc: Global, bytes: &[u8]) -> Result<Index, OpenFault> {
    let mut source = HonestSource::new(bytes);
    match open_form(alloc, &mut source) {
        Ok(Form::Coded(form)) => walk(alloc, &mut source, &form),
        Ok(Form::Plain(_)) => Err(OpenFault::File(FileFault::NotCoded)),
        Err(fault) => Err(fault),
    }
}

// Where frame k stands, if there is such a frame.
fn entry_if_any(index: &Index, k: u32) -> Option<Entry> {
    if k < index.length() {
        Some(index.entry(k))
    } else {
        None
    }
}

// Where the first three frames stand that a walk finds.
fn walked(alloc: Global, bytes: &[u8]) -> Result<[Option<Entry>; 3], OpenFault> {
    let index = walk_of(alloc, bytes)?;
    Ok([
        entry_if_any(&index, 0),
        entry_if_any(&index, 1),
        entry_if_any(&index, 2),
    ])
}

const FIRST: Entry = Entry {
    offset: 140,
    size: 1,
};

const SECOND: Entry = Entry {
    offset: 168,
    size: 3,
};

#[test]
fn a_walk_finds_the_frames_between_other_chunks(rt: HostRuntime) {
    let frames = walked(rt.alloc(), &TWO_FRAMES);
    same(&rt, &frames, &Ok([Some(FIRST), Some(SECOND), None]));
}

#[test]
fn a_walk_refuses_another_number_of_frames(rt: HostRuntime) {
    let mut bytes = TWO_FRAMES;
    bytes[125] = 3;
    let expected = OpenFault::File(FileFault::CountDiffers { count: 3, found: 2 });
    same(&rt, &walked(rt.alloc(), &bytes), &Err(expected));
}

// The same frames, named by an index behind `DST `: 140 and 1, 168 and 3.
const INDEXED: [u8; 208] =
    *b"FRM8\0\0\0\0\0\0\0\xc4DSD FVER\0\0\0\0\0\0\0\x04\x01\x05\0\0PROP\0\0\0\0\0\0\0\x36SND FS  \0\0\0\0\0\0\0\x04\0\x2b\x11\0CHNL\0\0\0\0\0\0\0\x06\0\x01C   CMPR\0\0\0\0\0\0\0\x04DST DST \0\0\0\0\0\0\0\x3dFRTE\0\0\0\0\0\0\0\x06\0\0\0\x02\0\x4bDSTF\0\0\0\0\0\0\0\x01\0\0DSTC\0\0\0\0\0\0\0\x02\0\0DSTF\0\0\0\0\0\0\0\x03\0\0\0\0DSTI\0\0\0\0\0\0\0\x18\0\0\0\0\0\0\0\x8c\0\0\0\x01\0\0\0\0\0\0\0\xa8\0\0\0\x03";

// A frame of 9,411 bytes, one more than any of one channel needs, up to its body, and the index behind it.
const LONG_FRAME: [u8; 140] =
    *b"FRM8\0\0\0\0\0\0\x25\x5cDSD FVER\0\0\0\0\0\0\0\x04\x01\x05\0\0PROP\0\0\0\0\0\0\0\x36SND FS  \0\0\0\0\0\0\0\x04\0\x2b\x11\0CHNL\0\0\0\0\0\0\0\x06\0\x01C   CMPR\0\0\0\0\0\0\0\x04DST DST \0\0\0\0\0\0\x24\xe1FRTE\0\0\0\0\0\0\0\x06\0\0\0\x01\0\x4bDSTF\0\0\0\0\0\0\x24\xc3";

const LONG_INDEX: [u8; 24] = *b"DSTI\0\0\0\0\0\0\0\x0c\0\0\0\0\0\0\0\x8c\0\0\x24\xc3";

// The first entry in which the index of a form differs from its walk.
fn first_difference<S: Source>(
    alloc: Global,
    source: &mut S,
    form: &CodedForm,
) -> Result<Option<u32>, OpenFault>
    requires { (n : ℕ) × (S.known source.old ≡ Some n) × (form.now.end ≤ n) }
{
    let index = read_index(alloc, source, form)?;
    let found = walk(alloc, source, form)?;
    Ok(compare(&index, &found))
}

// The same of a file.
fn difference(alloc: Global, bytes: &[u8]) -> Result<Option<u32>, OpenFault> {
    let mut source = HonestSource::new(bytes);
    match open_form(alloc, &mut source) {
        Ok(Form::Coded(form)) => first_difference(alloc, &mut source, &form),
        Ok(Form::Plain(_)) => Err(OpenFault::File(FileFault::NotCoded)),
        Err(fault) => Err(fault),
    }
}

// Where the index of a form tells frame k, if there is such a frame.
fn locate<S: Source>(source: &mut S, form: &CodedForm, k: u32) -> Result<Entry, OpenFault>
    requires { (n : ℕ) × (S.known source.old ≡ Some n) × (form.now.end ≤ n) }
{
    if k >= form.frames {
        return Err(OpenFault::File(FileFault::Range {
            asked: k,
            frames: form.frames,
        }));
    }
    locate_by_index(source, form, k)
}

// The same of a file.
fn located(alloc: Global, bytes: &[u8], k: u32) -> Result<Entry, OpenFault> {
    let mut source = HonestSource::new(bytes);
    match open_form(alloc, &mut source) {
        Ok(Form::Coded(form)) => locate(&mut source, &form, k),
        Ok(Form::Plain(_)) => Err(OpenFault::File(FileFault::NotCoded)),
        Err(fault) => Err(fault),
    }
}

#[test]
fn an_index_tells_the_frames(rt: HostRuntime) {
    let alloc = rt.alloc();
    let found = (
        difference(alloc, &INDEXED),
        located(alloc, &INDEXED, 0),
        located(alloc, &INDEXED, 1),
    );
    same(&rt, &found, &(Ok(None), Ok(FIRST), Ok(SECOND)));
}

// In the file with another value of this byte: the first entry in which the index differs from the walk, and where frame 1 stands.
type Answers = (Result<Option<u32>, OpenFault>, Result<Entry, OpenFault>);

fn answers_of(alloc: Global, place: usize, value: u8) -> Answers
    requires { place < 208 }
{
    let mut bytes = INDEXED;
    bytes[place] = value;
    (difference(alloc, &bytes), located(alloc, &bytes, 1))
}

#[test]
fn a_bad_index_is_refused(rt: HostRuntime) {
    let alloc = rt.alloc();
    // no `DSTI`, an index of one frame fewer, and another place of frame 1
    let found = [
        answers_of(alloc, 175, b'J'),
        answers_of(alloc, 125, 3),
        answers_of(alloc, 203, 0xa7),
    ];
    let missing = OpenFault::File(FileFault::IndexMissing);
    let bad_3 = OpenFault::File(FileFault::IndexBad { entry: 3 });
    let bad_1 = OpenFault::File(FileFault::IndexBad { entry: 1 });
    let wanted = [
        (Err(missing), Err(missing)),
        (Err(bad_3), Err(bad_1)),
        (Ok(Some(1)), Err(bad_1)),
    ];
    same(&rt, &found, &wanted);
}

#[test]
fn a_frame_that_is_too_long_is_refused(rt: HostRuntime) {
    let mut bytes = [0; 9576];
    bytes[..140].copy_from_slice(&LONG_FRAME);
    bytes[9552..].copy_from_slice(&LONG_INDEX);
    let expected = OpenFault::File(FileFault::FrameTooLong {
        frame: 0,
        length: 9411,
    });
    same(&rt, &located(rt.alloc(), &bytes, 0), &Err(expected));
}
