// A real file that is read.
ghost use Rattle.std.specs.Prelude.{◌≡◌, ◌<◌, ◌≤◌, None, IfOk, length};

use crate::{Failed, Source};
use std::fs::{File, OpenFile};
use std::io::{self, ErrorKind};
use std::os::unix::fs::FileExt;
use std::rt::Files;

/// A file that is read, opened at the first call. It tells no bytes.
///
/// A file that gives nothing below its size has failed.
#[derive(Drop)]
pub struct FileSource<'p, R: Files> {
    rt: &'p R,
    path: &'p str,
    file: Option<R::File>,
    size: Option<u64>,
    faults: u64,
    given: u64,
    reason: Option<io::Error>,
}

impl<'p, R: Files> FileSource<'p, R>
where
    R::File: FileExt,
{
    pub fn new(rt: &'p R, path: &'p str) -> FileSource<'p, R>
        ensures bytes { ⟦<FileSource<'p, R> as Source>⟧.bytes result ≡ None }
        ensures known { ⟦<FileSource<'p, R> as Source>⟧.known result ≡ None }
        ensures faults { ⟦<FileSource<'p, R> as Source>⟧.faults result ≡ 0 }
        ensures given { ⟦<FileSource<'p, R> as Source>⟧.given result ≡ 0 }
    {
        FileSource {
            rt,
            path,
            file: None,
            size: None,
            faults: 0,
            given: 0,
            reason: None,
        }
    }

    /// Why the last call that failed did, in the system's words: for people, since no clause says what a system answers.
    pub fn reason(&self) -> Option<io::Error> {
        self.reason
    }
}

// Opens the file where it isn't open, and asks for its size.
fn opened<R: Files>(rt: &R, path: &str, file: &mut Option<R::File>) -> io::Result<u64> {
    if file.is_none() {
        *file = Some(File::open(rt, path)?);
    }
    match file.as_ref() {
        Some(file) => Ok(file.metadata()?.len()),
        None => Err(ErrorKind::NotFound.into()),
    }
}

// Reads from a place on. That nothing comes is a failure.
fn read_some<F: FileExt>(file: &Option<F>, place: u64, out: &mut [u8]) -> io::Result<usize>
    ensures { IfOk result (λ n. (0 < n) × (n ≤ length out.new)) }
{
    let Some(file) = file else {
        return Err(ErrorKind::NotFound.into());
    };
    let count = file.read_at(out, place)?;
    if count == 0 {
        return Err(io::Error::new(ErrorKind::UnexpectedEof, "ends below its size"));
    }
    Ok(count)
}

impl<'p, R: Files> Source for FileSource<'p, R>
where
    R::File: FileExt,
{
    ghost bytes = { λ _. None };

    ghost known = { λ s. s.size };

    ghost faults = { λ s. s.faults };

    ghost given = { λ s. s.given };

    ghost loan = { λ _. None };

    ghost use Rattle.dst_streams.specs.Laws.{bytes_of_untold, size_of_untold};

    ghost size_is_length = { λ s xs n told known. size_of_untold xs n told };

    ghost told_are_bytes = { λ s xs told. bytes_of_untold xs told };

    fn size(&mut self) -> Result<u64, Failed> {
        if let Some(size) = self.size {
            return Ok(size);
        }
        match opened(self.rt, self.path, &mut self.file) {
            Ok(size) => {
                self.size = Some(size);
                Ok(size)
            }
            Err(reason) => {
                self.reason = Some(reason);
                self.faults = self.faults.saturating_add(1);
                Err(Failed)
            }
        }
    }

    fn read_at(&mut self, place: u64, out: &mut [u8]) -> Result<usize, Failed> {
        // Read, so that it is known to fit.
        let _given = self.given;
        let left = self.size.unwrap_or(0).saturating_sub(place);
        if left == 0 {
            return Ok(0);
        }
        let want = left.min(out.len() as u64) as usize;
        match read_some(&self.file, place, &mut out[..want]) {
            Ok(count) => {
                self.given = self.given.saturating_add(count as u64);
                Ok(count)
            }
            Err(reason) => {
                self.reason = Some(reason);
                self.faults = self.faults.saturating_add(1);
                Err(Failed)
            }
        }
    }
}
