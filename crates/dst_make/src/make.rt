// Making a plain file of made sound.
ghost use Rattle.std.specs.Prelude.{◌≡◌, ◌≤◌, ◌*◌, ℕ, true, length, Some, Err, IfOk, OnOk, MatchResult};
ghost use Rattle.std.specs.declared.alloc.AllocError.{AllocError};
ghost use Rattle.dst_spec.specs.Sample.{IsShape, sound_bytes};
ghost use Rattle.dst_streams.specs.Causes.{Rose, HasCause};
ghost use Rattle.dst_streams.specs.Told.{IsCutShort, and_then};
ghost use Rattle.dsdiff_spec.specs.Made.{made_sound};
ghost use Rattle.dst_commands.specs.Writing.{Adds, Stops};
ghost use Rattle.dst_make.specs.Making.{made_file, made_front};

use dsdiff_chunks::append_all;
use dst_num::Channels;
use dst_streams::{Failed, Sink};
use sound_maker::SoundMaker;
use std::alloc::{AllocError, Global};
use thiserror::Error;

/// A plain file of made sound was written: how many frames it has.
#[derive(Clone, Copy, Debug, PartialEq, Eq)]
pub struct Made {
    pub frames: u32,
}

/// Why no file of made sound was written.
#[derive(Clone, Copy, Debug, Drop, PartialEq, Eq, Error)]
pub enum MakeFault {
    /// Memory was refused.
    #[error("memory")]
    Memory(AllocError),
    /// The sink failed.
    #[error("write fault")]
    Write,
}

// What stands in front of the sound, up to a number each: the sizes of the form and of `PROP`, the rate, the size of
// `CHNL`, the count of channels, with their ids behind it, and the size of the sound.
const FORM: [u8; 4] = *b"FRM8";

const VERSION: [u8; 24] = *b"DSD FVER\0\0\0\0\0\0\0\x04\x01\x05\0\0PROP";

const RATE: [u8; 16] = *b"SND FS  \0\0\0\0\0\0\0\x04";

const CHANNELS: [u8; 4] = *b"CHNL";

const CHANNEL_IDS: [u8; 24] = *b"C000C001C002C003C004C005";

const NOT_COMPRESSED: [u8; 36] = *b"CMPR\0\0\0\0\0\0\0\x13DSD \x0enot compressed\0DSD ";

/// Writes a plain file of made sound: so many frames, 0 to 1,000, of the sound that the number `start` gives.
///
/// All sizes are known before the first byte, so that nothing is written over. One frame's sound is all the memory that
/// it takes.
pub fn make_file<K: Sink>(
    alloc: Global,
    sink: &mut K,
    start: u32,
    frames: u32,
    channels: Channels,
) -> Result<Made, MakeFault>
    requires most { frames ≤ 1000 }
    ensures later { K.faults sink.old ≤ K.faults sink.new }
    // the file is written whole
    ensures written { IfOk result (λ _. K.written sink.new ≡ and_then (K.written sink.old) (made_file start frames channels)) }
    ensures frames { IfOk result (λ m. m.frames ≡ frames) }
    ensures settled { IfOk result (λ _. K.settled sink.new ≡ true) }
    // a failed sink holds a prefix of the file
    ensures write { result ≡ Err MakeFault.Write → Rose (K.faults sink.old) (K.faults sink.new) }
    ensures cut_short { result ≡ Err MakeFault.Write → IsCutShort (K.written sink.old) (made_file start frames channels) (K.written sink.new) }
    ensures sure { result ≡ Err MakeFault.Write → (room : ℕ) → K.room sink.old ≡ Some room → length (made_file start frames channels) ≤ room → ⊥ }
    // want of memory, before anything is written
    ensures memory { (fault : AllocError) → result ≡ Err (MakeFault.Memory fault) → sink.new ≡ sink.old }
{
    let mut sound = match vec![in alloc; 0; channels.sound_bytes()] {
        Ok(sound) => sound,
        Err(fault) => return Err(MakeFault::Memory(fault)),
    };
    match write_made(sink, start, frames, channels, &mut sound) {
        Ok(()) => Ok(Made { frames }),
        Err(_) => Err(MakeFault::Write),
    }
}

// Writes the file, frame by frame, and has it settled.
fn write_made<K: Sink>(
    sink: &mut K,
    start: u32,
    frames: u32,
    channels: Channels,
    sound: &mut [u8],
) -> Result<(), Failed>
    requires most { frames ≤ 1000 }
    requires sound { length sound.old ≡ sound_bytes channels }
    ensures cause { HasCause (K.faults sink.old) (K.faults sink.new) result }
    ensures written { MatchResult result
        (λ _. K.written sink.new ≡ and_then (K.written sink.old) (made_file start frames channels))
        (λ _. Stops (Unit {0}) (made_file start frames channels) (K.written sink.old) (K.written sink.new) (K.room sink.old)) }
    ensures settled { OnOk result (K.settled sink.new ≡ true) }
{
    let Ok(()) = write_front(sink, frames, channels) else {
        return Err(Failed);
    };
    let Ok(()) = write_sound(sink, start, frames, channels, sound) else {
        return Err(Failed);
    };
    sink.finish()
}

// Writes what stands in front of the sound.
fn write_front<K: Sink>(sink: &mut K, frames: u32, channels: Channels) -> Result<(), Failed>
    requires most { frames ≤ 1000 }
    ensures shape { IsShape channels }
    ensures cause { HasCause (K.faults sink.old) (K.faults sink.new) result }
    ensures written { MatchResult result
        (λ _. Adds (made_front frames channels) (K.written sink.old) (K.written sink.new) (K.room sink.old) (K.room sink.new))
        (λ _. Stops (Unit {0}) (made_front frames channels) (K.written sink.old) (K.written sink.new) (K.room sink.old)) }
{
    let count = channels.count();
    let rate = 2_822_400 * channels.multiple() as u32;
    let ids = 4 * count;
    let sound = u64::from(frames) * channels.sound_bytes() as u64;
    append_all(
        sink,
        &[
            &FORM,
            &(110 + ids as u64 + sound).to_be_bytes(),
            &VERSION,
            &(66 + ids as u64).to_be_bytes(),
            &RATE,
            &rate.to_be_bytes(),
            &CHANNELS,
            &(2 + ids as u64).to_be_bytes(),
            &(count as u16).to_be_bytes(),
            &CHANNEL_IDS[..ids],
            &NOT_COMPRESSED,
            &sound.to_be_bytes(),
        ],
    )
}

// Makes the frames, and writes each behind the one before.
fn write_sound<K: Sink>(
    sink: &mut K,
    start: u32,
    frames: u32,
    channels: Channels,
    sound: &mut [u8],
) -> Result<(), Failed>
    requires sound { length sound.old ≡ sound_bytes channels }
    ensures cause { HasCause (K.faults sink.old) (K.faults sink.new) result }
    ensures written { MatchResult result
        (λ _. Adds (made_sound start frames channels) (K.written sink.old) (K.written sink.new) (K.room sink.old) (K.room sink.new))
        (λ _. Stops (Unit {0}) (made_sound start frames channels) (K.written sink.old) (K.written sink.new) (K.room sink.old)) }
{
    let mut maker = SoundMaker::new(start, channels);
    for frame in 0..frames {
        maker.next_frame(sound);
        let Ok(()) = sink.append(sound) else {
            return Err(Failed);
        };
    }
    Ok(())
}
