// What decoding a stream answers.
use dsdiff_spec::FileFault;
use dst_num::FrameFault;
use std::alloc::AllocError;
use thiserror::Error;

/// A stream was decoded: how many frames it has, and the bytes of their sound.
#[derive(Clone, Copy, Debug, PartialEq, Eq)]
pub struct Piped {
    pub frames: u32,
    pub bytes: u64,
}

/// Why a stream wasn't decoded.
#[derive(Clone, Copy, Debug, Drop, PartialEq, Eq, Error)]
pub enum PipeFault {
    /// The flow failed.
    #[error("read fault")]
    Read,
    /// The sink failed.
    #[error("write fault")]
    Write,
    /// Memory was refused by the allocator, before the first call on the sink.
    #[error("memory")]
    Memory(AllocError),
    /// The stream breaks a rule, or ends too early; what the fault means stands at `FileFault`.
    #[error("file refused: {0}")]
    File(FileFault),
    /// A frame offends; it is named by its number, from 0.
    #[error("frame {frame} refused: {fault}")]
    Frame { frame: u32, fault: FrameFault },
}
