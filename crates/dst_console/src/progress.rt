// How far a run is, shown on a terminal.
ghost use Rattle.std.specs.Prelude.{◌≡◌};

use dsdiff_chunks::{Form, open_form};
use dst_streams::{Failed, FileSource, Source};
use std::alloc::Global;
use std::os::unix::fs::FileExt;
use std::rt::Files;
use std::time::{Clock, Instant};

/// A run shorter than this, in milliseconds, shows nothing.
const FIRST: u64 = 500;

/// So many milliseconds lie between two lines.
const STEP: u64 = 200;

/// Frames a second.
const FRAMES: u64 = 75;

/// A source that tells on standard error how much of it was read, as one line that is written over. It is otherwise the source that
/// it has.
#[derive(Drop)]
pub struct Watched<'r, S: Source, R: Clock + Eprint> {
    pub(crate) source: S,
    rt: &'r R,
    /// What the line needs, where lines are wanted.
    watch: Option<Watch>,
}

// How long the sound lasts in milliseconds, 0 where that isn't known; how many bytes the source has and has given; when the run began,
// and when it showed something last, in milliseconds behind that.
#[derive(Clone, Copy, Drop)]
struct Watch {
    sound: u64,
    size: u64,
    given: u64,
    begun: Instant,
    shown: u64,
}

impl<'r, S: Source, R: Clock + Eprint> Watched<'r, S, R> {
    /// Watches a source whose sound lasts so many milliseconds, or lets it be.
    pub(crate) fn new(rt: &'r R, source: S, sound: Option<u64>) -> Watched<'r, S, R>
        ensures { result.source ≡ source }
    {
        let watch = match (sound, Instant::now(rt)) {
            (Some(sound), Ok(begun)) => Some(Watch {
                sound,
                size: 0,
                given: 0,
                begun,
                shown: 0,
            }),
            _ => None,
        };
        Watched { source, rt, watch }
    }

    /// Takes the line away.
    pub(crate) fn wipe(&self) {
        if let Some(watch) = &self.watch {
            if watch.shown > 0 {
                let _ = eprint!(self.rt; "\r\x1b[K");
            }
        }
    }
}

impl Watch {
    // So many more bytes came.
    fn note<R: Clock + Eprint>(&mut self, rt: &R, count: u64) {
        self.given = self.given.saturating_add(count);
        let Ok(elapsed) = self.begun.elapsed(rt) else {
            return;
        };
        let Ok(now) = u64::try_from(elapsed.as_millis()) else {
            return;
        };
        if now >= FIRST && now >= self.shown.saturating_add(STEP) {
            self.shown = now;
            self.tell(rt, now);
        }
    }

    fn tell<R: Eprint>(&self, rt: &R, now: u64) {
        let size = self.size.max(1);
        let part = self.given.min(size);
        let percent = share(100, part, size);
        let left = share(now, size - part, part.max(1)) / 1000;
        let tenths = share(share(self.sound, part, size), 10, now.max(1));
        let (whole, tenth) = (tenths / 10, tenths % 10);
        let _ = eprint!(rt;
            "\r{percent:>3} %, {whole}.{tenth} times real time, {left} s left\x1b[K"
        );
    }
}

// A part of a number: the number times `part` over `of`, down.
fn share(number: u64, part: u64, of: u64) -> u64 {
    let product = u128::from(number) * u128::from(part);
    u64::try_from(product / u128::from(of.max(1))).unwrap_or(u64::MAX)
}

/// How long the sound of a file lasts, in milliseconds; 0 where it isn't known.
pub(crate) fn sound_of<R: Files>(rt: &R, alloc: Global, name: &str) -> u64
where
    R::File: FileExt,
{
    let mut source = FileSource::new(rt, name);
    let frames = match open_form(alloc, &mut source) {
        Ok(Form::Plain(form)) => form.frames,
        Ok(Form::Coded(form)) => form.frames,
        Err(_) => 0,
    };
    u64::from(frames) * 1000 / FRAMES
}

impl<'r, S: Source, R: Clock + Eprint> Source for Watched<'r, S, R> {
    ghost bytes = { λ w. S.bytes w.source };

    ghost known = { λ w. S.known w.source };

    ghost faults = { λ w. S.faults w.source };

    ghost given = { λ w. S.given w.source };

    ghost loan = { λ w. S.loan w.source };

    ghost size_is_length = { λ w xs n told known. S.size_is_length w.source xs n told known };

    ghost told_are_bytes = { λ w xs told. S.told_are_bytes w.source xs told };

    fn size(&mut self) -> Result<u64, Failed> {
        let size = self.source.size()?;
        if let Some(watch) = self.watch.as_mut() {
            watch.size = size;
        }
        Ok(size)
    }

    fn read_at(&mut self, place: u64, out: &mut [u8]) -> Result<usize, Failed> {
        let count = self.source.read_at(place, out)?;
        if let Some(watch) = self.watch.as_mut() {
            watch.note(self.rt, count as u64);
        }
        Ok(count)
    }
}
