// Why a file is refused, with the numbers that the refusal has.

use crate::text_of_file;
use thiserror::Error;

/// Why a file is refused. Each fault shows as its number, its name and the numbers that it has. Places are those of a chunk's id, in
/// bytes from the file's beginning; lengths and sizes are in bytes.
#[derive(Clone, Copy, Debug, Drop, PartialEq, Eq, Error)]
#[error("{}", text_of_file(*self))]
pub enum FileFault {
    /// The file doesn't begin with the head of a chunk `FRM8`.
    NotForm,
    /// The form type isn't `DSD `.
    FormType,
    /// The chunk at this place passes the end of what it stands in.
    Overrun { place: u64 },
    /// The form doesn't begin with a chunk `FVER` of version 1.
    Version,
    /// There is no chunk `PROP` in front of the sound.
    PropMissing,
    /// There are two or more chunks `PROP`.
    PropTwice,
    /// The properties aren't those of a sound (`SND `).
    PropType,
    /// The body of `PROP` is above 65,536 bytes, or above 65,520 in a plain form.
    PropTooLong,
    /// The sampling rate isn't 64, 128 or 256 times 44.1 kHz.
    Rate,
    /// The number of channels isn't 1 to 6, or their ids aren't there.
    Channels,
    /// The compression type isn't that of the sound chunk.
    Compression,
    /// There is no chunk `DSD ` and none `DST `.
    SoundMissing,
    /// There are two or more sound chunks.
    SoundTwice,
    /// A plain sound doesn't have as many bytes of each channel.
    SoundUneven,
    /// `DST ` doesn't begin with a chunk `FRTE` of 75 frames in a second.
    FrameRate,
    /// `FRTE` says another number of frames than are found.
    CountDiffers { count: u32, found: u32 },
    /// A frame is longer than any stored frame needs to be.
    FrameTooLong { frame: u32, length: u64 },
    /// There are more than 1,000,000 frames.
    TooManyFrames,
    /// There are more than 1,024 chunks in a form, 1,022 in a plain one, or 4,000,000 in `DST `.
    TooManyChunks,
    /// The command asks for a plain form.
    NotPlain,
    /// The chunk `KEPT`, or a second one, isn't lawful.
    KeptBad,
    /// The frame that is asked for isn't there.
    Range { asked: u32, frames: u32 },
    /// There is no chunk `DSTI`.
    IndexMissing,
    /// The index has another size than the frames need, or this entry isn't that of a frame.
    IndexBad { entry: u32 },
    /// The size of `FRM8` is above 2^50, or above 2^49 in a plain form.
    FormTooLarge,
    /// A plain form has a chunk `DSTI` or `KEPT`, the first of them at this place.
    CodedChunk { place: u64 },
    /// The command asks for a coded form.
    NotCoded,
    /// More than 65,536 bytes stand behind a plain form.
    TailTooLong { length: u64 },
    /// The file isn't laid out as a DSF file.
    DsfForm,
    /// Version, format, bits per sample or block size of a DSF file is another.
    DsfFormat,
    /// The data chunk of a DSF file is smaller than its blocks.
    DsfCount { samples: u64, size: u64 },
    /// The chunk `DSFK`, or a second one, isn't lawful.
    DsfKeptBad,
    /// A part ends behind the last group of eight samples of each channel.
    RangePast { end: u64, groups: u64 },
}
