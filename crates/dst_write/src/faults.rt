// What commands that write coded files answer.
use dsdiff_chunks::OpenFault;
use thiserror::Error;

/// A file was coded: how many frames it has, and the bytes of its stored frames together.
#[derive(Clone, Copy, Debug, PartialEq, Eq)]
pub struct Encoded {
    pub frames: u32,
    pub bytes: u64,
}

/// Why a file wasn't coded.
#[derive(Clone, Copy, Debug, Drop, PartialEq, Eq, Error)]
pub enum EncodeFault {
    /// The source failed, memory was refused, or the file breaks a rule of the command.
    #[error("{0}")]
    Source(OpenFault),
    /// The sink failed.
    #[error("write fault")]
    Write,
}
