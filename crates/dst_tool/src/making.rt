// Made sound, coded and decoded in memory.
ghost use Rattle.std.specs.Prelude.{◌≡◌, ◌≤◌, ◌*◌, ℕ, List, [], ◌∷◌, length, Some, None, IfOk};
ghost use Rattle.dst_spec.specs.Bits.{AreBytes};
ghost use Rattle.dst_spec.specs.Sample.{IsShape, sound_bytes};
ghost use Rattle.dst_streams.specs.Told.{and_then};
ghost use Rattle.dsdiff_spec.specs.Form.{size_of_sound};
ghost use Rattle.dsdiff_spec.specs.Laws.{IsTheOutcome};
ghost use Rattle.dsdiff_spec.specs.Lines.{Line, made_run_line};
ghost use Rattle.dsdiff_spec.specs.Outcome.{coded_at, stored_at, done, run_line};
ghost use Rattle.dsdiff_spec.specs.Refusal.{refusal};
ghost use Rattle.dsdiff_spec.specs.Rules.{accepted};
ghost use Rattle.dsdiff_spec.specs.Words.{encode, decode};
ghost use Rattle.dst_make.specs.Making.{made_file};
ghost use Rattle.dst_write.specs.Unfinished.{HoldsNothing};

use dsdiff_chunks::OpenFault;
use dst_make::{MakeFault, make_file};
use dst_num::Channels;
use dst_read::{DecodeFault, Decoded, decode_file};
use dst_streams::{HonestSource, MemorySink, Sink};
use dst_write::{EncodeFault, Encoded, encode_file};
use filter_analyser::LevelPicker;
use frame_crew::Gate;
use std::alloc::{AllocError, Global};
use std::thread::Threads;
use thiserror::Error;

// How many workers a run has.
const WORKERS: u32 = 4;

// The least level at which all is tried.
const LEVEL: u32 = 2;

/// Why made sound wasn't coded and decoded in memory.
#[derive(Clone, Copy, Debug, Drop, PartialEq, Eq, Error)]
pub enum RunFault {
    /// Memory was refused.
    #[error("memory")]
    Memory(AllocError),
}

impl From<AllocError> for RunFault {
    fn from(refused: AllocError) -> RunFault {
        RunFault::Memory(refused)
    }
}

/// Makes a file of made sound in memory, so many frames, 0 to 100, from the number `start`; codes it at level 2, and decodes what was
/// coded. Answers what the two came to.
///
/// Nothing but want of memory can refuse it. Both go by four workers and this gate.
pub fn make_run<R: Threads + Sync, G: Gate>(
    rt: &R,
    alloc: Global,
    start: u32,
    frames: u32,
    channels: Channels,
    gate: &G,
) -> Result<(Encoded, Decoded), RunFault>
    requires most { frames ≤ 100 }
    // as many frames as were made; what is stored of them, and the sound that comes back
    ensures frames { IfOk result (λ r. (r.0.frames ≡ frames) × (r.1.frames ≡ frames)) }
    ensures coded { IfOk result (λ r. r.0.bytes ≡ stored_at 2 (made_file start frames channels) (accepted (made_file start frames channels))) }
    ensures restored { IfOk result (λ r. r.1.bytes ≡ frames * sound_bytes channels) }
    ensures shape { IsShape channels }
    // which are the numbers of its line
    ensures line { IfOk result (λ r. run_line frames (made_file start frames channels) ≡ made_run_line frames (frames * sound_bytes channels) r.0.bytes r.1.bytes) }
{
    let size = file_size(frames, channels);
    let mut plain = MemorySink::new(alloc, size, &[])?;
    make_whole(alloc, &mut plain, start, frames, channels)?;
    let made = plain.written();
    known_as_bytes(made);
    let mut stored = MemorySink::new(alloc, size + 26 * frames as usize + 200, &[])?;
    let encoded = code_whole(rt, alloc, made, &mut stored, gate)?;
    let mut restored = MemorySink::new(alloc, size, &[])?;
    let decoded = restore_whole(rt, alloc, stored.written(), &mut restored, gate)?;
    Ok((encoded, decoded))
}

// That what is lent is bytes: its clause is what the laws of files ask for.
fn known_as_bytes(bytes: &[u8])
    ensures { AreBytes bytes.now }
{
    let _ = bytes;
}

// Bytes of a file of made sound.
fn file_size(frames: u32, channels: Channels) -> usize
    requires most { frames ≤ 100 }
    ensures shape { IsShape channels }
    ensures size { (start : ℕ) → length (made_file start frames channels) ≡ result }
    ensures most { result ≤ 11289800 }
{
    122 + 4 * channels.count() + frames as usize * channels.sound_bytes()
}

// Makes the file in a sink that has room for it.
fn make_whole<K: Sink>(
    alloc: Global,
    sink: &mut K,
    start: u32,
    frames: u32,
    channels: Channels,
) -> Result<(), RunFault>
    requires most { frames ≤ 1000 }
    requires room { (room : ℕ) × (K.room sink.old ≡ Some room) × (length (made_file start frames channels) ≤ room) }
    ensures { IfOk result (λ _. K.written sink.new ≡ and_then (K.written sink.old) (made_file start frames channels)) }
{
    match make_file(alloc, sink, start, frames, channels) {
        Ok(_) => Ok(()),
        Err(MakeFault::Memory(refused)) => Err(RunFault::Memory(refused)),
        Err(MakeFault::Write) => unreachable!(),
    }
}

// Codes an accepted file into an empty sink that has room for what is written of it.
fn code_whole<R: Threads + Sync, K: Sink, G: Gate>(
    rt: &R,
    alloc: Global,
    made: &[u8],
    sink: &mut K,
    gate: &G,
) -> Result<Encoded, RunFault>
    requires accepted { refusal (encode 2) made.now ≡ None }
    requires empty { HoldsNothing (K.written sink.old) }
    requires room { (room : ℕ) × (K.room sink.old ≡ Some room) × (length (coded_at 2 made.now (accepted made.now)) ≤ room) }
    ensures written { IfOk result (λ _. K.written sink.new ≡ and_then (K.written sink.old) (coded_at 2 made.now (accepted made.now))) }
    ensures frames { IfOk result (λ e. e.frames ≡ (accepted made.now).frames) }
    ensures bytes { IfOk result (λ e. e.bytes ≡ stored_at 2 made.now (accepted made.now)) }
{
    let mut source = HonestSource::new(made);
    let Some(picker) = LevelPicker::new(LEVEL) else {
        unreachable!()
    };
    match encode_file(rt, alloc, &mut source, sink, &picker, WORKERS, gate) {
        Ok(encoded) => Ok(encoded),
        Err(EncodeFault::Source(OpenFault::Memory(refused))) => Err(RunFault::Memory(refused)),
        Err(EncodeFault::Source(OpenFault::Read)) => unreachable!(),
        Err(EncodeFault::Source(OpenFault::File(_))) => unreachable!(),
        Err(EncodeFault::Write) => unreachable!(),
    }
}

// Decodes a file, whose one outcome is a whole file, into a sink that has room for it.
fn restore_whole<R: Threads + Sync, K: Sink, G: Gate>(
    rt: &R,
    alloc: Global,
    coded: &[u8],
    sink: &mut K,
    gate: &G,
) -> Result<Decoded, RunFault>
    requires outcome { (out : List ℕ) × (line : Line) × IsTheOutcome decode coded.now (done out (line ∷ []))
        × ((room : ℕ) × (K.room sink.old ≡ Some room) × (length out ≤ room)) }
    ensures frames { IfOk result (λ d. d.frames ≡ (accepted coded.now).frames) }
    ensures bytes { IfOk result (λ d. d.bytes ≡ size_of_sound (accepted coded.now)) }
{
    let mut source = HonestSource::new(coded);
    match decode_file(rt, alloc, &mut source, sink, WORKERS, gate) {
        Ok(decoded) => Ok(decoded),
        Err(DecodeFault::Source(OpenFault::Memory(refused))) => Err(RunFault::Memory(refused)),
        Err(DecodeFault::Source(OpenFault::Read)) => unreachable!(),
        Err(DecodeFault::Source(OpenFault::File(_))) => unreachable!(),
        Err(DecodeFault::Frame { .. }) => unreachable!(),
        Err(DecodeFault::Write) => unreachable!(),
    }
}
