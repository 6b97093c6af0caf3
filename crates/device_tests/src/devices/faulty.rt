// Devices that do less than they are asked: a disk that takes three bytes at a time, one that takes nothing, and a pipe that breaks.
use std::alloc::Allocator;
use std::fs::{File, Files, Metadata, OpenFile, OpenOptions};
use std::io::{self, BufRead, ErrorKind, Input, Lines, Read, Seek, SeekFrom, Write};
use std::os::unix::fs::FileExt;

/// Disks that do less than they are asked.
#[derive(Clone, Copy)]
pub(super) enum Disk<'r> {
    /// The system's files, of which each write takes three bytes at most.
    SmallSteps(&'r HostRuntime),
    /// Files that are made and written, and can't be put on the disk.
    Full,
}

/// One of their files; None on the full disk.
#[derive(Drop)]
pub(super) struct DiskFile {
    file: Option<File>,
}

fn refused() -> io::Error {
    io::Error::from(ErrorKind::StorageFull)
}

impl Read for DiskFile {
    fn read(&mut self, out: &mut [u8]) -> io::Result<usize> {
        match &mut self.file {
            Some(file) => file.read(out),
            None => Ok(0),
        }
    }
}

impl Write for DiskFile {
    fn write(&mut self, piece: &[u8]) -> io::Result<usize> {
        match &mut self.file {
            Some(file) => file.write(&piece[..piece.len().min(3)]),
            None => Ok(piece.len()),
        }
    }

    fn flush(&mut self) -> io::Result<()> {
        match &mut self.file {
            Some(file) => file.flush(),
            None => Ok(()),
        }
    }
}

impl Seek for DiskFile {
    fn seek(&mut self, to: SeekFrom) -> io::Result<u64> {
        match &mut self.file {
            Some(file) => file.seek(to),
            None => Ok(0),
        }
    }
}

impl FileExt for DiskFile {
    fn read_at(&self, out: &mut [u8], place: u64) -> io::Result<usize> {
        match &self.file {
            Some(file) => file.read_at(out, place),
            None => Ok(0),
        }
    }

    fn write_at(&self, piece: &[u8], place: u64) -> io::Result<usize> {
        match &self.file {
            Some(file) => file.write_at(&piece[..piece.len().min(3)], place),
            None => Ok(piece.len()),
        }
    }
}

impl OpenFile for DiskFile {
    fn metadata(&self) -> io::Result<Metadata> {
        match &self.file {
            Some(file) => file.metadata(),
            None => Err(refused()),
        }
    }

    fn set_len(&self, size: u64) -> io::Result<()> {
        match &self.file {
            Some(file) => file.set_len(size),
            None => Err(refused()),
        }
    }

    fn sync_all(&self) -> io::Result<()> {
        match &self.file {
            Some(file) => file.sync_all(),
            None => Err(refused()),
        }
    }

    fn sync_data(&self) -> io::Result<()> {
        match &self.file {
            Some(file) => file.sync_data(),
            None => Err(refused()),
        }
    }
}

fn unasked() -> io::Error {
    ErrorKind::Unsupported.into()
}

impl<'r> Files for Disk<'r> {
    type File = DiskFile;

    type Dir = &'static [u8];

    fn open_file(&self, how: &OpenOptions, path: &str) -> io::Result<DiskFile> {
        let file = match self {
            Disk::SmallSteps(rt) => Some(rt.open_file(how, path)?),
            Disk::Full => None,
        };
        Ok(DiskFile { file })
    }

    fn open_dir(&self, _path: &str) -> io::Result<&'static [u8]> {
        Err(unasked())
    }

    fn metadata(&self, _path: &str) -> io::Result<Metadata> {
        Err(unasked())
    }

    fn symlink_metadata(&self, _path: &str) -> io::Result<Metadata> {
        Err(unasked())
    }

    fn copy(&self, _from: &str, _to: &str) -> io::Result<u64> {
        Err(unasked())
    }

    fn rename(&self, _from: &str, _to: &str) -> io::Result<()> {
        Err(unasked())
    }

    fn remove_file(&self, _path: &str) -> io::Result<()> {
        Err(unasked())
    }

    fn create_dir(&self, _path: &str) -> io::Result<()> {
        Err(unasked())
    }

    fn remove_dir(&self, _path: &str) -> io::Result<()> {
        Err(unasked())
    }

    fn remove_dir_all<A: Allocator>(&self, _alloc: A, _path: &str) -> io::Result<()> {
        Err(unasked())
    }
}

/// A standard input that gives three bytes and then breaks.
pub(super) struct BrokenPipe;

/// What it is read by.
#[derive(Drop)]
pub(super) struct BrokenReader {
    given: bool,
}

impl Read for BrokenReader {
    fn read(&mut self, out: &mut [u8]) -> io::Result<usize> {
        if self.given {
            return Err(ErrorKind::BrokenPipe.into());
        }
        self.given = true;
        Ok(out.len().min(3))
    }
}

impl BufRead for BrokenReader {
    fn fill_buf(&mut self) -> io::Result<&[u8]> {
        Err(unasked())
    }

    fn consume(&mut self, _amount: usize) {}
}

impl Input for BrokenPipe {
    type Reader = BrokenReader;

    fn read_line<A: Allocator + Clone>(&self, _buf: &mut String<A>) -> io::Result<usize> {
        Err(unasked())
    }

    fn lines<A: Allocator>(&self, alloc: A) -> Lines<BrokenReader, A> {
        self.reader().lines(alloc)
    }

    fn reader(&self) -> BrokenReader {
        BrokenReader { given: false }
    }
}
