// The sound of one frame.
ghost use Rattle.std.specs.Prelude.{◌≡◌, ◌≢◌, ◌+◌, ◌*◌, ◌<◌, ◌≤◌, ℕ, true, List, [], ◌∷◌, length, Some, None, IfOk, IfErr, OnOk, Err, MatchResult};
ghost use Rattle.dst_spec.specs.Sample.{IsShape, sound_bytes};
ghost use Rattle.dst_spec.specs.declared.faults.FrameFault.{FrameFault};
ghost use Rattle.dst_streams.specs.Causes.{Rose, HasCause};
ghost use Rattle.dst_streams.specs.Told.{IsCutShort, and_then};
ghost use Rattle.dsdiff_spec.specs.declared.faults.FileFault.{FileFault};
ghost use Rattle.dsdiff_spec.specs.Form.{sound_bytes_of};
ghost use Rattle.dsdiff_spec.specs.Lines.{frame_line};
ghost use Rattle.dsdiff_spec.specs.Rules.{accepted};
ghost use Rattle.dsdiff_spec.specs.Refusal.{refusal};
ghost use Rattle.dsdiff_spec.specs.Walk.{frame_at};
ghost use Rattle.dsdiff_spec.specs.Words as words;
ghost use Rattle.dsdiff_spec.specs.Outcome.{Answer, done, frame_refused};
ghost use Rattle.frame_index.specs.Entries.{entry_seen};
ghost use Rattle.dsdiff_chunks.specs.Opening as opening;
ghost use Rattle.dst_commands.specs.Commands.{OutcomeOf};
ghost use Rattle.dst_commands.specs.Opened.{IsFound};
ghost use Rattle.dst_commands.specs.Writing.{Stops};
ghost use Rattle.dst_show.specs.Frame.{IsSoundOf, HasNoSound, FindsNoSound};

use crate::faults::FrameWritten;
use dsdiff_chunks::{OpenFault, read_range};
use dst_commands::{FoundFrame, FrameByIndex, FrameByWalk, open_file};
use dst_frames::{Scratch, decode_frame};
use dst_num::Channels;
use dst_read::DecodeFault;
use dst_streams::{Failed, Sink, Source};
use std::alloc::{AllocError, Global};

/// Writes the sound of one frame, frames being counted from 0.
///
/// The frame is found by a walk of the file; or, where `by_index` is given, by the index in the file alone. No walk is
/// made then, so that the bytes that are read don't grow with the number of frames.
pub fn frame_out<S: Source, K: Sink>(
    alloc: Global,
    source: &mut S,
    sink: &mut K,
    frame: u32,
    by_index: bool,
) -> Result<FrameWritten, DecodeFault>
    ensures bytes { S.bytes source.new ≡ S.bytes source.old }
    ensures later { (S.faults source.old ≤ S.faults source.new) × (K.faults sink.old ≤ K.faults sink.new) }
    // the sound is written whole
    ensures written { IfOk result (λ s. (file : List ℕ) → S.bytes source.old ≡ Some file →
        (out : List ℕ) × OutcomeOf (words.frame frame by_index) file (done out (frame_line frame s.bytes ∷ [])) × (K.written sink.new ≡ and_then (K.written sink.old) out)) }
    ensures settled { IfOk result (λ _. K.settled sink.new ≡ true) }
    // a refused file, or a refused frame
    ensures file { (fault : FileFault) → result ≡ Err (DecodeFault.Source (OpenFault.File fault)) → (file : List ℕ) → S.bytes source.old ≡ Some file → refusal (words.frame frame by_index) file ≡ Some fault }
    ensures frame { (k : ℕ) (fault : FrameFault) → result ≡ Err (DecodeFault.Frame k fault) → (file : List ℕ) → S.bytes source.old ≡ Some file → OutcomeOf (words.frame frame by_index) file (frame_refused k fault []) }
    // failed devices, each by its cause; a failed sink holds a prefix of the sound
    ensures read { result ≡ Err (DecodeFault.Source OpenFault.Read) → Rose (S.faults source.old) (S.faults source.new) }
    ensures write { result ≡ Err DecodeFault.Write → Rose (K.faults sink.old) (K.faults sink.new) }
    ensures cut_short { result ≡ Err DecodeFault.Write → (file : List ℕ) → S.bytes source.old ≡ Some file →
        (o : Answer) × OutcomeOf (words.frame frame by_index) file o × IsCutShort (K.written sink.old) o.out (K.written sink.new) }
    ensures sure { result ≡ Err DecodeFault.Write → (file : List ℕ) → S.bytes source.old ≡ Some file → (o : Answer) → OutcomeOf (words.frame frame by_index) file o →
        (room : ℕ) → K.room sink.old ≡ Some room → length o.out ≤ room → ⊥ }
    // every other refusal comes before the first byte
    ensures untouched { (fault : DecodeFault) → result ≡ Err fault → (fault ≢ DecodeFault.Write) → sink.new ≡ sink.old }
    ensures refused { (file : List ℕ) → S.bytes source.old ≡ Some file → (fault : FileFault) → refusal (words.frame frame by_index) file ≡ Some fault → sink.new ≡ sink.old }
    // by the index little is read
    ensures given { by_index ≡ true → (file : List ℕ) → S.bytes source.old ≡ Some file → S.given source.new ≤ S.given source.old + 208974 + 2 * sound_bytes_of (accepted file) }
    ensures given_any { by_index ≡ true → S.given source.new ≤ S.given source.old + 208974 + 225792 }
    // by a walk each stored byte is read once beside opening
    ensures given_walk { S.given source.new ≤ S.given source.old + 208948 + 48000000 + 225794 }
{
    let sound = match find_sound(alloc, source, frame, by_index) {
        Ok(sound) => sound,
        Err(fault) => return Err(fault),
    };
    match write_sound(sink, &sound) {
        Ok(()) => Ok(FrameWritten {
            bytes: sound.len() as u64,
        }),
        Err(_) => Err(DecodeFault::Write),
    }
}

// Opens a coded file, and works the sound of one of its frames.
fn find_sound<S: Source>(
    alloc: Global,
    source: &mut S,
    frame: u32,
    by_index: bool,
) -> Result<Vec<u8>, DecodeFault>
    ensures bytes { S.bytes source.new ≡ S.bytes source.old }
    ensures later { S.faults source.old ≤ S.faults source.new }
    ensures accepted { IfOk result (λ _. (file : List ℕ) → S.bytes source.old ≡ Some file → refusal (words.frame frame by_index) file ≡ None) }
    ensures sound { IfOk result (λ s. (file : List ℕ) → S.bytes source.old ≡ Some file →
        OutcomeOf (words.frame frame by_index) file (done s.items (frame_line frame (length s.items) ∷ []))) }
    ensures no_sound { IfErr result (FindsNoSound (words.frame frame by_index) (S.bytes source.old) (S.faults source.old) (S.faults source.new)) }
    ensures given { by_index ≡ true → (file : List ℕ) → S.bytes source.old ≡ Some file → S.given source.new ≤ S.given source.old + 208974 + 2 * sound_bytes_of (accepted file) }
    ensures given_any { by_index ≡ true → S.given source.new ≤ S.given source.old + 208974 + 225792 }
    ensures given_walk { S.given source.new ≤ S.given source.old + 208948 + 48000000 + 225794 }
{
    let found = match open_frame(alloc, source, frame, by_index) {
        Ok(found) => found,
        Err(fault) => return Err(DecodeFault::Source(fault)),
    };
    let FoundFrame { form, entry } = &found;
    let room = match FrameRoom::new(alloc, form.channels, entry.size) {
        Ok(room) => room,
        Err(refused) => return Err(DecodeFault::Source(OpenFault::Memory(refused))),
    };
    read_sound(source, &found, frame, room)
}

// Appends a sound, and has it settled.
fn write_sound<K: Sink>(sink: &mut K, sound: &[u8]) -> Result<(), Failed>
    ensures cause { HasCause (K.faults sink.old) (K.faults sink.new) result }
    ensures written { MatchResult result
        (λ _. K.written sink.new ≡ and_then (K.written sink.old) sound.now)
        (λ _. Stops (Unit {0}) sound.now (K.written sink.old) (K.written sink.new) (K.room sink.old)) }
    ensures settled { OnOk result (K.settled sink.new ≡ true) }
{
    let Ok(()) = sink.append(sound) else {
        return Err(Failed);
    };
    sink.finish()
}

// Opens a coded file, and finds one of its frames, by the walk or by the index in the file.
fn open_frame<S: Source>(
    alloc: Global,
    source: &mut S,
    number: u32,
    by_index: bool,
) -> Result<FoundFrame, OpenFault>
    ensures bytes { S.bytes source.new ≡ S.bytes source.old }
    ensures later { S.faults source.old ≤ S.faults source.new }
    ensures given { by_index ≡ true → S.given source.new ≤ S.given source.old + 208972 }
    ensures given_walk { S.given source.new ≤ S.given source.old + 208948 + 48000000 }
    ensures size { IfOk result (λ f. (n : ℕ) × (S.known source.new ≡ Some n) × (f.form.end ≤ n)) }
    ensures accepted { IfOk result (λ _. (file : List ℕ) → S.bytes source.old ≡ Some file → refusal (words.frame number by_index) file ≡ None) }
    ensures found { IfOk result (λ f. (file : List ℕ) → S.bytes source.old ≡ Some file → IsFound by_index file number f) }
    ensures stops { IfErr result (opening.HasOpenCause (refusal (words.frame number by_index)) (S.bytes source.old) (S.faults source.old) (S.faults source.new)) }
{
    if by_index {
        open_file(alloc, source, &FrameByIndex { number })
    } else {
        open_file(alloc, source, &FrameByWalk { number })
    }
}

// What a frame is read and decoded in: its stored bytes, its sound, and what decoding takes.
#[derive(Drop)]
struct FrameRoom {
    stored: Vec<u8>,
    sound: Vec<u8>,
    scratch: Scratch,
}

impl FrameRoom {
    // Room for a frame of these channels that has so many stored bytes.
    fn new(alloc: Global, channels: Channels, size: u32) -> Result<FrameRoom, AllocError>
        ensures lawful { IfOk result (λ _. IsShape channels) }
        ensures stored { IfOk result (λ r. length r.stored.items ≡ size) }
        ensures sound { IfOk result (λ r. length r.sound.items ≡ sound_bytes channels) }
        ensures scratch { IfOk result (λ r. r.scratch.channels ≡ channels) }
    {
        Ok(FrameRoom {
            stored: vec![in alloc; 0; size as usize]?,
            sound: vec![in alloc; 0; channels.sound_bytes()]?,
            scratch: Scratch::new(alloc, channels)?,
        })
    }
}

// Reads a frame into room that was taken for it, and works its sound. It takes no memory.
fn read_sound<S: Source>(
    source: &mut S,
    found: &FoundFrame,
    frame: u32,
    room: FrameRoom,
) -> Result<Vec<u8>, DecodeFault>
    requires size { (n : ℕ) × (S.known source.old ≡ Some n) × (found.now.form.end ≤ n) }
    requires lawful { IsShape found.now.form.channels }
    requires stored { length room.stored.items ≡ found.now.entry.size }
    requires sound { length room.sound.items ≡ sound_bytes found.now.form.channels }
    requires scratch { room.scratch.channels ≡ found.now.form.channels }
    ensures bytes { S.bytes source.new ≡ S.bytes source.old }
    ensures later { S.faults source.old ≤ S.faults source.new }
    ensures given { S.given source.new ≤ S.given source.old + found.now.entry.size }
    ensures sound { IfOk result (λ s. (file : List ℕ) → S.bytes source.old ≡ Some file → IsSoundOf found.now.form.channels (frame_at file (entry_seen found.now.entry)) s.items) }
    ensures no_sound { IfErr result (λ fault. HasNoSound found.now.form.channels frame (entry_seen found.now.entry) fault (S.bytes source.old) (S.faults source.old) (S.faults source.new)) }
{
    let channels = found.form.channels;
    let entry = found.entry;
    let FrameRoom {
        mut stored,
        mut sound,
        mut scratch,
    } = room;
    let Ok(()) = read_range(source, entry.offset, &mut stored) else {
        return Err(DecodeFault::Source(OpenFault::Read));
    };
    match decode_frame(&stored, channels, &mut scratch, &mut sound) {
        Ok(_) => Ok(sound),
        Err(fault) => Err(DecodeFault::Frame { frame, fault }),
    }
}
