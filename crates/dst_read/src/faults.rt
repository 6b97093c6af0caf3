// What commands that decode a file answer.
use dsdiff_chunks::OpenFault;
use dst_spec::FrameFault;
use thiserror::Error;

/// A file was decoded: how many frames it has, and the bytes of its sound.
#[derive(Clone, Copy, Debug, PartialEq, Eq)]
pub struct Decoded {
    pub frames: u32,
    pub bytes: u64,
}

/// A file is sound: how many frames it has, and how many bytes of them decoding doesn't read.
#[derive(Clone, Copy, Debug, PartialEq, Eq)]
pub struct Checked {
    pub frames: u32,
    pub unread: u64,
}

/// Why sound wasn't written.
#[derive(Clone, Copy, Debug, Drop, PartialEq, Eq, Error)]
pub enum DecodeFault {
    /// The source failed, memory was refused, or the file breaks a rule of the command.
    #[error("{0}")]
    Source(OpenFault),
    /// The sink failed.
    #[error("write fault")]
    Write,
    /// A frame offends.
    #[error("frame {frame} refused: {fault}")]
    Frame { frame: u32, fault: FrameFault },
}

/// Why a file isn't sound.
#[derive(Clone, Copy, Debug, Drop, PartialEq, Eq, Error)]
pub enum CheckFault {
    /// The source failed, memory was refused, or the file breaks a rule.
    #[error("{0}")]
    Source(OpenFault),
    /// A frame offends.
    #[error("frame {frame} refused: {fault}")]
    Frame { frame: u32, fault: FrameFault },
}
