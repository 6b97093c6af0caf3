// A real file that is made.
ghost use Rattle.std.specs.Prelude.{◌≡◌, None};

use crate::{Failed, Sink};
use std::fs::{File, OpenFile};
use std::io::{self, ErrorKind, Seek, SeekFrom, Write};
use std::rt::Files;

/// A file that is made at the first call. It tells no bytes, and has no sure room.
///
/// A file that exists already is a failure. `finish` waits until the system has all bytes of the file on its disk, with
/// its size; the entry in the folder is the system's to keep. Where no file was made there is nothing to wait for.
#[derive(Drop)]
pub struct FileSink<'p, R: Files> {
    rt: &'p R,
    path: &'p str,
    file: Option<R::File>,
    appended: u64,
    /// Whether the system writes on at the file's end by itself.
    at_end: bool,
    faults: u64,
    /// Whether nothing was written since the file was last synchronised.
    is_settled: bool,
    reason: Option<io::Error>,
}

impl<'p, R: Files> FileSink<'p, R> {
    pub fn new(rt: &'p R, path: &'p str) -> FileSink<'p, R>
        ensures written { ⟦<FileSink<'p, R> as Sink>⟧.written result ≡ None }
        ensures appended { ⟦<FileSink<'p, R> as Sink>⟧.appended result ≡ 0 }
        ensures faults { ⟦<FileSink<'p, R> as Sink>⟧.faults result ≡ 0 }
        ensures room { ⟦<FileSink<'p, R> as Sink>⟧.room result ≡ None }
    {
        FileSink {
            rt,
            path,
            file: None,
            appended: 0,
            at_end: false,
            faults: 0,
            is_settled: false,
            reason: None,
        }
    }

    /// Why the last call that failed did, in the system's words: for people, since no clause says what a system answers.
    pub fn reason(&self) -> Option<io::Error> {
        self.reason
    }

    /// How many bytes the file has, as the system tells it; None where no file was made or the system doesn't tell.
    pub fn held(&self) -> Option<u64> {
        let file = self.file.as_ref()?;
        Some(file.metadata().ok()?.len())
    }
}

// Makes the file where it isn't made, and writes the whole piece where `to` says, or on from where the last one ended.
fn write_there<R: Files>(
    rt: &R,
    path: &str,
    file: &mut Option<R::File>,
    to: Option<SeekFrom>,
    piece: &[u8],
) -> io::Result<()> {
    if file.is_none() {
        *file = Some(File::create_new(rt, path)?);
    }
    match file.as_mut() {
        Some(file) => {
            if let Some(to) = to {
                file.seek(to)?;
            }
            file.write_all(piece)
        }
        None => Err(ErrorKind::NotFound.into()),
    }
}

// Has the system put the file on its disk, where it is made.
fn synchronise<F: OpenFile>(file: &Option<F>) -> io::Result<()> {
    match file {
        Some(file) => file.sync_all(),
        None => Ok(()),
    }
}

impl<'p, R: Files> Sink for FileSink<'p, R> {
    ghost written = { λ _. None };

    ghost appended = { λ s. s.appended };

    ghost faults = { λ s. s.faults };

    ghost room = { λ _. None };

    ghost settled = { λ s. s.is_settled };

    ghost use Rattle.dst_streams.specs.Laws.{le_of_untold};

    ghost appended_within = { λ s xs told. le_of_untold s.appended xs told };

    fn append(&mut self, piece: &[u8]) -> Result<(), Failed> {
        self.is_settled = false;
        if let Some(after) = self.appended.checked_add(piece.len() as u64) {
            let end = if self.at_end {
                None
            } else {
                Some(SeekFrom::End(0))
            };
            match write_there(self.rt, self.path, &mut self.file, end, piece) {
                Ok(()) => {
                    self.appended = after;
                    self.at_end = true;
                    return Ok(());
                }
                Err(reason) => {
                    self.at_end = false;
                    self.reason = Some(reason);
                }
            }
        }
        self.faults = self.faults.saturating_add(1);
        Err(Failed)
    }

    fn overwrite(&mut self, place: u64, piece: &[u8]) -> Result<(), Failed> {
        self.is_settled = false;
        self.at_end = false;
        let there = Some(SeekFrom::Start(place));
        match write_there(self.rt, self.path, &mut self.file, there, piece) {
            Ok(()) => Ok(()),
            Err(reason) => {
                self.reason = Some(reason);
                self.faults = self.faults.saturating_add(1);
                Err(Failed)
            }
        }
    }

    fn finish(&mut self) -> Result<(), Failed> {
        match synchronise(&self.file) {
            Ok(()) => {
                self.is_settled = true;
                Ok(())
            }
            Err(reason) => {
                self.reason = Some(reason);
                self.faults = self.faults.saturating_add(1);
                Err(Failed)
            }
        }
    }
}
