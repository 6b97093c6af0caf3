// Files of one channel that are opened, or refused by name, with ample memory.
use crate::compared::same;
use dsdiff_chunks::{FileFault, Form, OpenFault, open_form};
use dst_streams::HonestSource;
use std::alloc::{AllocError, Global};

// The first chunks of a plain file, and of a coded one.
const PLAIN_FRONT: [u8; 98] =
    *b"FVER\0\0\0\0\0\0\0\x04\x01\x05\0\0PROP\0\0\0\0\0\0\0\x46SND FS  \0\0\0\0\0\0\0\x04\0\x2b\x11\0CHNL\0\0\0\0\0\0\0\x06\0\x01C000CMPR\0\0\0\0\0\0\0\x13DSD \x0enot compressed\0";

const CODED_FRONT: [u8; 82] =
    *b"FVER\0\0\0\0\0\0\0\x04\x01\x05\0\0PROP\0\0\0\0\0\0\0\x36SND FS  \0\0\0\0\0\0\0\x04\0\x2b\x11\0CHNL\0\0\0\0\0\0\0\x06\0\x01C   CMPR\0\0\0\0\0\0\0\x04DST ";

// A coded sound of no frames, and what `KEPT` says of a plain file without sound.
const NO_FRAMES: [u8; 30] = *b"DST \0\0\0\0\0\0\0\x12FRTE\0\0\0\0\0\0\0\x06\0\0\0\0\0\x4b";

const KEPT: [u8; 42] =
    *b"KEPT\0\0\0\0\0\0\0\x1e\x02\0\0\0\0\0\0\0\0\0\0\0\0\0CMPR\0\0\0\0\0\0\0\x04DSD ";

// The parts in a row.
fn joined(alloc: Global, parts: &[&[u8]]) -> Result<Vec<u8>, AllocError> {
    let mut whole = Vec::new(alloc);
    for part in parts {
        whole.extend_from_slice(part)?;
    }
    Ok(whole)
}

// A form of these chunks.
fn form_with(alloc: Global, chunks: &[&[u8]]) -> Result<Vec<u8>, AllocError> {
    let body = joined(alloc, chunks)?;
    let size = (body.len() as u64).saturating_add(4).to_be_bytes();
    joined(alloc, &[b"FRM8", &size, b"DSD ", &body])
}

fn opened(alloc: Global, chunks: &[&[u8]]) -> Result<Form, OpenFault> {
    let file = form_with(alloc, chunks).map_err(OpenFault::Memory)?;
    open_form(alloc, &mut HonestSource::new(&file))
}

// How many chunks a form of these chunks has, or why it isn't opened.
fn count_of(alloc: Global, chunks: &[&[u8]]) -> Result<usize, OpenFault> {
    match opened(alloc, chunks) {
        Ok(Form::Plain(form)) => Ok(form.heads.as_slice().len()),
        Ok(Form::Coded(form)) => Ok(form.heads.as_slice().len()),
        Err(fault) => Err(fault),
    }
}

// The same of a coded form with so many chunks besides its front, which is two chunks, and its sound.
fn count_beside(alloc: Global, many: usize) -> Result<usize, OpenFault> {
    let mut others = Vec::new(alloc);
    for _ in 0..many {
        let other = b"JUNK\0\0\0\0\0\0\0\0";
        others.extend_from_slice(other).map_err(OpenFault::Memory)?;
    }
    count_of(alloc, &[&CODED_FRONT, &others, &NO_FRAMES])
}

// Of a plain form: the place behind it, its frames, its pad byte, and the place and the size of its sound.
fn plain_numbers(alloc: Global, chunks: &[&[u8]]) -> Result<[u64; 5], OpenFault> {
    match opened(alloc, chunks) {
        Ok(Form::Plain(form)) => Ok([
            form.end,
            u64::from(form.frames),
            u64::from(form.pad),
            form.sound.place,
            form.sound.size,
        ]),
        Ok(Form::Coded(_form)) => Err(OpenFault::File(FileFault::NotPlain)),
        Err(fault) => Err(fault),
    }
}

#[test]
fn a_plain_form_is_opened(rt: HostRuntime) {
    let sound = b"DSD \0\0\0\0\0\0\0\x03\x69\x69\x69\x07";
    let numbers = plain_numbers(rt.alloc(), &[&PLAIN_FRONT, sound]);
    same(&rt, &numbers, &Ok([130, 1, 7, 114, 3]));
}

#[test]
fn a_coded_form_is_opened_with_what_is_kept(rt: HostRuntime) {
    let count = count_of(rt.alloc(), &[&CODED_FRONT, &NO_FRAMES, &KEPT]);
    same(&rt, &count, &Ok(4));
}

#[test]
fn what_is_too_much_is_refused_by_name(rt: HostRuntime) {
    let alloc = rt.alloc();
    let twice = count_of(alloc, &[&CODED_FRONT, &NO_FRAMES, &KEPT, &KEPT]);
    // The greatest number of chunks is 1,024: two in front, the others, and the sound.
    let most = count_beside(alloc, 1021);
    let more = count_beside(alloc, 1022);
    let kept_bad = OpenFault::File(FileFault::KeptBad);
    let too_many = OpenFault::File(FileFault::TooManyChunks);
    same(
        &rt,
        &[twice, most, more],
        &[Err(kept_bad), Ok(1024), Err(too_many)],
    );
}
