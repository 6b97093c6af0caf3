// DSF files written by hand, read as the form that stands for them.
use crate::compared::same;
use dsdiff_chunks::{FileFault, OpenFault, read_range};
use dsf_files::{DsfForm, DsfSource, open_dsf, write_dsf_head};
use dst_num::Channels;
use dst_streams::{Failed, HonestSource, MemorySink, Source};
use std::alloc::{AllocError, Global};
use std::test::Fail;

// Twelve samples of one channel, with 1 bit per sample.
const HEAD: &[u8; 92] = b"DSD \x1c\0\0\0\0\0\0\0\x5c\x10\0\0\0\0\0\0\0\0\0\0\0\0\0\0\
fmt \x34\0\0\0\0\0\0\0\x01\0\0\0\0\0\0\0\x01\0\0\0\x01\0\0\0\0\x11\x2b\0\x01\0\0\0\
\x0c\0\0\0\0\0\0\0\0\x10\0\0\0\0\0\0data\x0c\x10\0\0\0\0\0\0";

// The form that stands for it, with the first sample 1 and all others 0.
const PLAIN: &[u8; 154] = b"FRM8\0\0\0\0\0\0\0\x8eDSD \
FVER\0\0\0\0\0\0\0\x04\x01\x05\0\0\
PROP\0\0\0\0\0\0\0\x46SND \
FS  \0\0\0\0\0\0\0\x04\0\x2b\x11\0\
CHNL\0\0\0\0\0\0\0\x06\0\x01C000\
CMPR\0\0\0\0\0\0\0\x13DSD \x0enot compressed\0\
DSD \0\0\0\0\0\0\0\x02\x80\0\
DSFK\0\0\0\0\0\0\0\x0e\x01\0\0\0\0\0\0\0\x0c\0\0\0\x01\x01";

// A file with this head, and a block that begins with a byte.
fn file_of(head: &[u8; 92], first: u8) -> [u8; 4188] {
    let mut file = [0; 4188];
    file[..92].copy_from_slice(head);
    file[92] = first;
    file
}

// What reading 154 bytes answers of a form that stands for a file, whether they are those above, and what is read behind them; where it is of
// another size, that size.
type PlainRead = Result<(Result<(), Failed>, bool, Result<usize, Failed>), Option<u64>>;

fn read_plain<S: Source>(plain: &mut S) -> PlainRead {
    let size = plain.size();
    let Ok(154) = size else {
        return Err(size.ok());
    };
    let mut bytes = [0; 154];
    let read = read_range(plain, 0, &mut bytes);
    let is_plain = bytes == *PLAIN;
    Ok((read, is_plain, plain.read_at(154, &mut bytes)))
}

// The same of the file.
fn opened_and_read() -> Result<PlainRead, OpenFault> {
    let file = file_of(HEAD, 1);
    let mut source = HonestSource::new(&file);
    let form = open_dsf(&mut source)?;
    Ok(read_plain(&mut DsfSource::new(&mut source, form)))
}

#[test]
fn twelve_samples_are_two_bytes_of_sound(rt: HostRuntime) {
    same(&rt, &opened_and_read(), &Ok(Ok((Ok(()), true, Ok(0)))));
}

// What writing the head of a form answers, and whether it is the head above.
fn write_head(alloc: Global, form: &DsfForm) -> Result<(Result<(), Failed>, bool), AllocError> {
    let mut sink = MemorySink::new(alloc, 92, &[])?;
    let written = write_dsf_head(&mut sink, form);
    Ok((written, sink.written() == HEAD.as_slice()))
}

#[test]
fn head_is_written_as_it_is_read(rt: HostRuntime) -> Result<(), Fail> {
    let channels = Channels::new(1).ok_or("no channels")?;
    let form = DsfForm {
        channels,
        samples: 12,
        kind: 1,
        bits: 1,
    };
    let written = write_head(rt.alloc(), &form);
    let read = open_dsf(&mut HonestSource::new(&file_of(HEAD, 0)));
    same(&rt, &(written, read), &(Ok((Ok(()), true)), Ok(form)));
    Ok(())
}

#[test]
fn size_of_blocks_is_compared(rt: HostRuntime) {
    let mut file = file_of(HEAD, 0);
    file[84] = 11;
    let fault = FileFault::DsfCount {
        samples: 12,
        size: 4107,
    };
    let answer = open_dsf(&mut HonestSource::new(&file));
    same(&rt, &answer, &Err(OpenFault::File(fault)));
}
