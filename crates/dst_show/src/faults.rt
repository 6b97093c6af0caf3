// What commands that show a file or a part of it answer.
use dsdiff_chunks::OpenFault;
use dst_spec::FrameFault;
use thiserror::Error;

/// The sound of one frame was written: its bytes.
#[derive(Clone, Copy, Debug, PartialEq, Eq)]
pub struct FrameWritten {
    pub bytes: u64,
}

/// The lines of a file were reported: how many frames it has.
#[derive(Clone, Copy, Debug, PartialEq, Eq)]
pub struct Reported {
    pub frames: u32,
}

/// Why a file or a frame wasn't shown.
#[derive(Clone, Copy, Debug, Drop, PartialEq, Eq, Error)]
pub enum ShowFault {
    /// The source failed, memory was refused, or the file breaks a rule of the command.
    #[error("{0}")]
    Source(OpenFault),
    /// The report failed.
    #[error("report fault")]
    Report,
    /// A frame offends.
    #[error("frame {frame} refused: {fault}")]
    Frame { frame: u32, fault: FrameFault },
}

/// Why the frames of a file weren't listed.
#[derive(Clone, Copy, Debug, Drop, PartialEq, Eq, Error)]
pub enum ListFault {
    /// The source failed, memory was refused, or the file breaks a rule of the command.
    #[error("{0}")]
    Source(OpenFault),
    /// The report failed.
    #[error("report fault")]
    Report,
}
