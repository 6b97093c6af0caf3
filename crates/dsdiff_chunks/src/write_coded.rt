// Writing the chunks of a coded form.
ghost use Rattle.std.specs.Prelude.{◌≡◌, ◌+◌, ◌++◌, ◌≤◌, ◌∷◌, length, OnOk, MatchResult};
ghost use Rattle.byteorder.specs.Endian.{big_bytes};
ghost use Rattle.dst_streams.specs.Causes.{HasCause};
ghost use Rattle.dst_streams.specs.Told.{IsCutShort, IsSure, and_then};
ghost use Rattle.dsdiff_spec.specs.Written.{frte, dstf, origin_chunk};

use crate::write::{append_all, head_bytes};
use dst_streams::{Failed, Sink};

/// Appends `FRTE` of so many frames, at 75 frames in a second.
pub fn write_frte<K: Sink>(sink: &mut K, frames: u32) -> Result<(), Failed>
    ensures written { MatchResult result (λ _. K.written sink.new ≡ and_then (K.written sink.old) (frte frames)) (λ _. IsCutShort (K.written sink.old) (frte frames) (K.written sink.new)) }
    ensures appended { OnOk result (K.appended sink.new ≡ K.appended sink.old + length (frte frames)) }
    ensures grows { K.appended sink.old ≤ K.appended sink.new }
    ensures sure { IsSure (K.room sink.old) (K.room sink.new) (length (frte frames)) result }
    ensures cause { HasCause (K.faults sink.old) (K.faults sink.new) result }
{
    let head = head_bytes(*b"FRTE", 6);
    append_all(sink, &[&head, &frames.to_be_bytes(), &[0, 75]])
}

/// Appends a stored frame in a chunk of its own.
pub fn write_frame<K: Sink>(sink: &mut K, frame: &[u8]) -> Result<(), Failed>
    ensures written { MatchResult result (λ _. K.written sink.new ≡ and_then (K.written sink.old) (dstf frame.now)) (λ _. IsCutShort (K.written sink.old) (dstf frame.now) (K.written sink.new)) }
    ensures appended { OnOk result (K.appended sink.new ≡ K.appended sink.old + length (dstf frame.now)) }
    ensures grows { K.appended sink.old ≤ K.appended sink.new }
    ensures sure { IsSure (K.room sink.old) (K.room sink.new) (length (dstf frame.now)) result }
    ensures cause { HasCause (K.faults sink.old) (K.faults sink.new) result }
{
    let head = head_bytes(*b"DSTF", frame.len() as u64);
    let pad = [0];
    append_all(sink, &[&head, frame, &pad[..frame.len() % 2]])
}

/// Appends the entry of a frame in `DSTI`: the place of its stored bytes, and how many they are.
pub fn write_entry<K: Sink>(sink: &mut K, offset: u64, size: u32) -> Result<(), Failed>
    ensures written { MatchResult result (λ _. K.written sink.new ≡ and_then (K.written sink.old) (big_bytes 8 offset ++ big_bytes 4 size)) (λ _. IsCutShort (K.written sink.old) (big_bytes 8 offset ++ big_bytes 4 size) (K.written sink.new)) }
    ensures appended { OnOk result (K.appended sink.new ≡ K.appended sink.old + 12) }
    ensures grows { K.appended sink.old ≤ K.appended sink.new }
    ensures sure { IsSure (K.room sink.old) (K.room sink.new) 12 result }
    ensures cause { HasCause (K.faults sink.old) (K.faults sink.new) result }
{
    sink.append(&entry_bytes(offset, size))
}

// An entry as it stands in a file.
fn entry_bytes(offset: u64, size: u32) -> [u8; 12]
    ensures { result ≡ big_bytes 8 offset ++ big_bytes 4 size }
{
    let mut entry = [0; 12];
    entry[..8].copy_from_slice(&offset.to_be_bytes());
    entry[8..].copy_from_slice(&size.to_be_bytes());
    entry
}

/// Appends `KEPT` of version 2: the size and the pad byte of a plain file's sound, its whole `CMPR` chunk, and the bytes behind its form.
pub fn write_origin<K: Sink>(
    sink: &mut K,
    sound: u64,
    pad: u8,
    cmpr: &[u8],
    kept: &[u8],
) -> Result<(), Failed>
    requires cmpr { length cmpr.now ≤ 65536 }
    requires kept { length kept.now ≤ 65536 }
    ensures written { MatchResult result (λ _. K.written sink.new ≡ and_then (K.written sink.old) (origin_chunk sound pad cmpr.now kept.now)) (λ _. IsCutShort (K.written sink.old) (origin_chunk sound pad cmpr.now kept.now) (K.written sink.new)) }
    ensures appended { OnOk result (K.appended sink.new ≡ K.appended sink.old + length (origin_chunk sound pad cmpr.now kept.now)) }
    ensures grows { K.appended sink.old ≤ K.appended sink.new }
    ensures sure { IsSure (K.room sink.old) (K.room sink.new) (length (origin_chunk sound pad cmpr.now kept.now)) result }
    ensures cause { HasCause (K.faults sink.old) (K.faults sink.new) result }
{
    let size = 14 + cmpr.len() + kept.len();
    let head = head_bytes(*b"KEPT", size as u64);
    let fields = origin_bytes(sound, pad, kept.len() as u32);
    let pad = [0];
    append_all(sink, &[&head, &fields, cmpr, kept, &pad[..size % 2]])
}

// The first fields of `KEPT`: its version, the size and the pad byte of the sound, and how many bytes are kept.
fn origin_bytes(sound: u64, pad: u8, kept: u32) -> [u8; 14]
    ensures { result ≡ 2 ∷ big_bytes 8 sound ++ pad ∷ big_bytes 4 kept }
{
    let mut fields = [2; 14];
    fields[1..9].copy_from_slice(&sound.to_be_bytes());
    fields[9] = pad;
    fields[10..].copy_from_slice(&kept.to_be_bytes());
    fields
}
