// What commands answer, as far as the line of a report says it.
ghost use Rattle.std.specs.Prelude.{◌≡◌};
ghost use Rattle.dst_tool.specs.Answers.{answered, of_check, of_cut, of_decode, of_encode, of_list, of_make, of_run, of_show, of_source};

use crate::making::RunFault;
use dsdiff_chunks::{FileFault, OpenFault};
use dst_cut::{Cut, CutFault};
use dst_make::{Made, MakeFault};
use dst_num::FrameFault;
use dst_ranges::RangeWritten;
use dst_read::{CheckFault, Checked, DecodeFault, Decoded};
use dst_show::{FrameWritten, ListFault, Reported, ShowFault};
use dst_write::{EncodeFault, Encoded};
use std::alloc::AllocError;

/// The numbers that the line of a command has which is done.
#[derive(Clone, Copy)]
pub(crate) struct Numbers {
    pub(crate) frames: u32,
    pub(crate) bytes: u64,
    pub(crate) unread: u64,
    pub(crate) restored: u64,
}

impl Numbers {
    // Those of a command that has frames and bytes alone.
    fn of(frames: u32, bytes: u64) -> Numbers
        ensures { result ≡ record { frames = frames; bytes = bytes; unread = 0; restored = 0 } }
    {
        Numbers {
            frames,
            bytes,
            unread: 0,
            restored: 0,
        }
    }
}

/// Why a command wasn't done.
#[derive(Clone, Copy, Drop)]
pub(crate) enum Fault {
    Read,
    Write,
    Memory(AllocError),
    Report,
    File(FileFault),
    Frame { frame: u32, fault: FrameFault },
}

fn of_source(fault: OpenFault) -> Fault
    ensures { result ≡ of_source fault }
{
    match fault {
        OpenFault::Read => Fault::Read,
        OpenFault::Memory(refused) => Fault::Memory(refused),
        OpenFault::File(fault) => Fault::File(fault),
    }
}

fn of_decode(fault: DecodeFault) -> Fault
    ensures { result ≡ of_decode fault }
{
    match fault {
        DecodeFault::Source(fault) => of_source(fault),
        DecodeFault::Write => Fault::Write,
        DecodeFault::Frame { frame, fault } => Fault::Frame { frame, fault },
    }
}

/// The answer of `encode`.
pub(crate) fn encoded(answer: Result<Encoded, EncodeFault>) -> Result<Numbers, Fault>
    ensures { result ≡ answered (λ d. record { frames = d.frames; bytes = d.bytes; unread = 0; restored = 0 }) of_encode answer }
{
    match answer {
        Ok(Encoded { frames, bytes }) => Ok(Numbers::of(frames, bytes)),
        Err(EncodeFault::Source(fault)) => Err(of_source(fault)),
        Err(EncodeFault::Write) => Err(Fault::Write),
    }
}

/// The answer of `decode`.
pub(crate) fn decoded(answer: Result<Decoded, DecodeFault>) -> Result<Numbers, Fault>
    ensures { result ≡ answered (λ d. record { frames = d.frames; bytes = d.bytes; unread = 0; restored = 0 }) of_decode answer }
{
    match answer {
        Ok(Decoded { frames, bytes }) => Ok(Numbers::of(frames, bytes)),
        Err(fault) => Err(of_decode(fault)),
    }
}

/// The answer of `cut`.
pub(crate) fn cut_out(answer: Result<Cut, CutFault>) -> Result<Numbers, Fault>
    ensures { result ≡ answered (λ d. record { frames = d.frames; bytes = 0; unread = 0; restored = 0 }) of_cut answer }
{
    match answer {
        Ok(Cut { frames }) => Ok(Numbers::of(frames, 0)),
        Err(CutFault::Source(fault)) => Err(of_source(fault)),
        Err(CutFault::Write) => Err(Fault::Write),
    }
}

/// The answer of `make`.
pub(crate) fn made(answer: Result<Made, MakeFault>) -> Result<Numbers, Fault>
    ensures { result ≡ answered (λ d. record { frames = d.frames; bytes = 0; unread = 0; restored = 0 }) of_make answer }
{
    match answer {
        Ok(Made { frames }) => Ok(Numbers::of(frames, 0)),
        Err(MakeFault::Memory(refused)) => Err(Fault::Memory(refused)),
        Err(MakeFault::Write) => Err(Fault::Write),
    }
}

/// The answer of `make` with `--run`.
pub(crate) fn ran(answer: Result<(Encoded, Decoded), RunFault>) -> Result<Numbers, Fault>
    ensures { result ≡ answered (λ d. record { frames = d.0.frames; bytes = d.0.bytes; unread = 0; restored = d.1.bytes }) of_run answer }
{
    match answer {
        Ok((encoded, decoded)) => Ok(Numbers {
            frames: encoded.frames,
            bytes: encoded.bytes,
            unread: 0,
            restored: decoded.bytes,
        }),
        Err(RunFault::Memory(refused)) => Err(Fault::Memory(refused)),
    }
}

/// The answer of `frame`.
pub(crate) fn frame_written(answer: Result<FrameWritten, DecodeFault>) -> Result<Numbers, Fault>
    ensures { result ≡ answered (λ f. record { frames = 1; bytes = f.bytes; unread = 0; restored = 0 }) of_decode answer }
{
    match answer {
        Ok(FrameWritten { bytes }) => Ok(Numbers::of(1, bytes)),
        Err(fault) => Err(of_decode(fault)),
    }
}

/// The answer of `range`.
pub(crate) fn range_written(answer: Result<RangeWritten, DecodeFault>) -> Result<Numbers, Fault>
    ensures { result ≡ answered (λ r. record { frames = 0; bytes = r.bytes; unread = 0; restored = 0 }) of_decode answer }
{
    match answer {
        Ok(RangeWritten { bytes }) => Ok(Numbers::of(0, bytes)),
        Err(fault) => Err(of_decode(fault)),
    }
}

/// The answer of `check`.
pub(crate) fn checked(answer: Result<Checked, CheckFault>) -> Result<Numbers, Fault>
    ensures { result ≡ answered (λ d. record { frames = d.frames; bytes = 0; unread = d.unread; restored = 0 }) of_check answer }
{
    match answer {
        Ok(Checked { frames, unread }) => Ok(Numbers {
            frames,
            bytes: 0,
            unread,
            restored: 0,
        }),
        Err(CheckFault::Source(fault)) => Err(of_source(fault)),
        Err(CheckFault::Frame { frame, fault }) => Err(Fault::Frame { frame, fault }),
    }
}

/// The answer of `show`.
pub(crate) fn shown(answer: Result<Reported, ShowFault>) -> Result<Numbers, Fault>
    ensures { result ≡ answered (λ d. record { frames = d.frames; bytes = 0; unread = 0; restored = 0 }) of_show answer }
{
    match answer {
        Ok(Reported { frames }) => Ok(Numbers::of(frames, 0)),
        Err(ShowFault::Source(fault)) => Err(of_source(fault)),
        Err(ShowFault::Report) => Err(Fault::Report),
        Err(ShowFault::Frame { frame, fault }) => Err(Fault::Frame { frame, fault }),
    }
}

/// The answer of `index`.
pub(crate) fn listed(answer: Result<Reported, ListFault>) -> Result<Numbers, Fault>
    ensures { result ≡ answered (λ d. record { frames = d.frames; bytes = 0; unread = 0; restored = 0 }) of_list answer }
{
    match answer {
        Ok(Reported { frames }) => Ok(Numbers::of(frames, 0)),
        Err(ListFault::Source(fault)) => Err(of_source(fault)),
        Err(ListFault::Report) => Err(Fault::Report),
    }
}
