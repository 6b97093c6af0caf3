// The texts of refused files. Report lines and what a fault shows have them from here.
ghost use Rattle.std.specs.Prelude.{◌≡◌, ◌≤◌, [], ◌∷◌, length, codes};
ghost use Rattle.dsdiff_spec.specs.Texts.{text_of};
ghost use Rattle.dsdiff_spec.specs.Numbers.{numbers_seen};

use crate::FileFault;
use Numbers::{Nothing, One, Two};
use thiserror::Error;

/// The numbers behind a refusal's name. Each shows with a space in front of it.
#[derive(Clone, Copy, Debug, Drop, Error)]
pub enum Numbers {
    #[error("")]
    Nothing,
    #[error(" {0}")]
    One(u64),
    #[error(" {0} {1}")]
    Two(u64, u64),
}

/// A refusal's number, its name and the numbers behind it, which it shows in this order.
#[derive(Clone, Copy, Debug, Drop, Error)]
#[error("{0} {1}{2}")]
pub struct Text(pub u8, pub &'static str, pub Numbers);

/// Why a file is refused.
pub fn text_of_file(fault: FileFault) -> Text
    ensures number { result.0 ≡ (text_of fault).number }
    ensures name { result.1.now ≡ codes (text_of fault).name }
    ensures numbers { numbers_seen result.2 ≡ (text_of fault).numbers }
    ensures short { length result.1.now ≤ 16 }
{
    use FileFault::*;

    match fault {
        NotForm => Text(1, "NotForm", Nothing),
        FormType => Text(2, "FormType", Nothing),
        Overrun { place } => Text(3, "Overrun", One(place)),
        Version => Text(4, "Version", Nothing),
        PropMissing => Text(5, "PropMissing", Nothing),
        PropTwice => Text(6, "PropTwice", Nothing),
        PropType => Text(7, "PropType", Nothing),
        PropTooLong => Text(8, "PropTooLong", Nothing),
        Rate => Text(9, "Rate", Nothing),
        Channels => Text(10, "Channels", Nothing),
        Compression => Text(11, "Compression", Nothing),
        SoundMissing => Text(12, "SoundMissing", Nothing),
        SoundTwice => Text(13, "SoundTwice", Nothing),
        SoundUneven => Text(14, "SoundUneven", Nothing),
        FrameRate => Text(15, "FrameRate", Nothing),
        CountDiffers { count, found } => Text(16, "CountDiffers", Two(count as u64, found as u64)),
        FrameTooLong { frame, length } => Text(17, "FrameTooLong", Two(frame as u64, length)),
        TooManyFrames => Text(18, "TooManyFrames", Nothing),
        TooManyChunks => Text(19, "TooManyChunks", Nothing),
        NotPlain => Text(20, "NotPlain", Nothing),
        KeptBad => Text(21, "KeptBad", Nothing),
        Range { asked, frames } => Text(22, "Range", Two(asked as u64, frames as u64)),
        IndexMissing => Text(23, "IndexMissing", Nothing),
        IndexBad { entry } => Text(24, "IndexBad", One(entry as u64)),
        FormTooLarge => Text(25, "FormTooLarge", Nothing),
        CodedChunk { place } => Text(26, "CodedChunk", One(place)),
        NotCoded => Text(27, "NotCoded", Nothing),
        TailTooLong { length } => Text(28, "TailTooLong", One(length)),
        DsfForm => Text(29, "DsfForm", Nothing),
        DsfFormat => Text(30, "DsfFormat", Nothing),
        DsfCount { samples, size } => Text(31, "DsfCount", Two(samples, size)),
        DsfKeptBad => Text(32, "DsfKeptBad", Nothing),
        RangePast { end, groups } => Text(33, "RangePast", Two(end, groups)),
    }
}
