// The machine's files and its standard input, as the devices of a run.
ghost use Rattle.std.specs.Prelude.{◌≡◌, None};

use crate::progress::{Watched, sound_of};
use crate::running::Devices;
use dst_streams::{FileSink, FileSource, Flow, PipeFlow, Sink, Source};
use std::os::unix::fs::FileExt;
use std::rt::Runtime;

/// Names stand for files; a source tells how much of it was read, where that is wanted.
#[derive(Drop)]
pub struct MachineFiles<'r, R: Runtime + AllocGlobal> {
    rt: &'r R,
    is_watched: bool,
}

impl<'r, R: Runtime + AllocGlobal> MachineFiles<'r, R> {
    /// The files of this machine; with `is_watched`, on a terminal that people see, a longer run shows how far it is.
    pub fn new(rt: &'r R, is_watched: bool) -> MachineFiles<'r, R> {
        MachineFiles { rt, is_watched }
    }
}

impl<'r, R: Runtime + AllocGlobal> Devices<'r> for MachineFiles<'r, R>
where
    R::File: FileExt,
{
    type Source = Watched<'r, FileSource<'r, R>, R>;

    type Sink = FileSink<'r, R>;

    type Flow = PipeFlow<'r, R>;

    ghost reads = { λ _ _. None };

    ghost holds = { λ _ _. None };

    ghost flows = { λ _. None };

    ghost makes_source = { λ _ _ source. ⟦<Watched<'r, FileSource<'r, R>, R> as Source>⟧.given source ≡ 0 };

    ghost makes_sink = { λ _ _ sink. ⟦<FileSink<'r, R> as Sink>⟧.appended sink ≡ 0 };

    ghost makes_flow = { λ _ flow. ⟦<PipeFlow<'r, R> as Flow>⟧.faults flow ≡ 0 };

    fn source(&self, name: &'r str) -> Watched<'r, FileSource<'r, R>, R> {
        let sound = if self.is_watched {
            Some(sound_of(self.rt, self.rt.alloc(), name))
        } else {
            None
        };
        Watched::new(self.rt, FileSource::new(self.rt, name), sound)
    }

    fn sink(&self, name: &'r str) -> FileSink<'r, R> {
        FileSink::new(self.rt, name)
    }

    fn flow(&self) -> PipeFlow<'r, R> {
        PipeFlow::new(self.rt)
    }
}
