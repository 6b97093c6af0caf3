// A reader of parts of a sound.
ghost use Rattle.std.specs.Prelude.{◌≡◌, ◌+◌, ◌*◌, ◌<◌, ◌≤◌, ◌^◌, ◌∷◌, [], ℕ, List, Some, false, length, slice_get, IfOk, OnOk, OnErr, Err};
ghost use Rattle.dst_spec.specs.Sample.{sound_bytes, IsShape};
ghost use Rattle.dst_spec.specs.Means.{Means};
ghost use Rattle.dst_spec.specs.Offends.{Offends};
ghost use Rattle.dst_spec.specs.declared.faults.FrameFault.{FrameFault};
ghost use Rattle.dst_streams.specs.Causes.{Rose};
ghost use Rattle.dst_streams.specs.Told.{counted};
ghost use Rattle.dsdiff_spec.specs.Bytes.{bytes_at};
ghost use Rattle.dsdiff_spec.specs.Form.{Form, size_of_sound};
ghost use Rattle.dsdiff_spec.specs.Walk.{entry, frame_at};
ghost use Rattle.dsdiff_spec.specs.Ranges.{Sound, is_held, keys_after, decoded_of};
ghost use Rattle.dsdiff_chunks.specs.Forms.{coded_seen};
ghost use Rattle.frame_index.specs.Entries.{entry_seen};
ghost use Rattle.frame_index.specs.Fitting.{IsIndexOf};
ghost use Rattle.frame_cache.specs.Slots.{HeldSound};
ghost use Rattle.frame_cache.specs.Reader.{HoldsTogether, fresh_reader, order, wanted, stored_bytes, frame_in, IsSame, IsReaderOf, HoldsSounds};
ghost use Rattle.frame_cache.specs.Reads.{HasWanted, MeanSounds, IsPartWay, IsRefusedAt};

use crate::part::{copy_part, end_of_touched};
use crate::slots::{Slot, fresh_slots, key_at, move_to_front, newest, renew_last};
use dsdiff_chunks::{CodedForm, read_range};
use dst_frames::{Scratch, decode_frame};
use dst_num::{Channels, FrameFault};
use dst_streams::{Failed, Source};
use frame_index::{Entry, Index};
use lru::LruCache;
use std::alloc::{AllocError, Global};
use std::marker::Model;
use thiserror::Error;

/// How many frames a read decoded.
#[derive(Clone, Copy, Debug, PartialEq, Eq)]
pub struct Reading {
    pub decoded: u32,
}

/// Why a part wasn't read.
#[derive(Clone, Copy, Debug, Drop, PartialEq, Eq, Error)]
pub enum RangeFault {
    /// The source failed.
    #[error("read fault")]
    Read,
    /// The first frame of the part that isn't held and is refused.
    #[error("frame {frame} refused: {fault}")]
    Frame { frame: u32, fault: FrameFault },
}

/// Reads parts of the sound of a coded file, and holds the sounds of the frames that were wanted last.
///
/// It has no source of its own: with one source for all reads each part is that of the source's sound, whatever is held.
#[derive(Drop)]
pub struct RangeReader {
    channels: Channels,
    index: Index,
    size: u64,
    end: u64,
    slots: LruCache<u32, Slot>,
    spare: Vec<u8>,
    stored: Vec<u8>,
    scratch: Scratch,
}

impl Model for RangeReader {
    ghost use Rattle.frame_cache.specs.Reader.{Reader};

    ghost Value = { Reader };

    ghost use Rattle.frame_cache.specs.Inside.{reader_seen, IsWhole};

    ghost view = { reader_seen };

    ghost invariant = { IsWhole };
}

impl RangeReader {
    /// A reader of a form and its frames, with room for `capacity` frames, 1 to 64. All memory is taken here: for each frame of the
    /// capacity the bytes of its sound, and once more with the longest stored frame and the tables of each channel.
    pub fn new(
        alloc: Global,
        form: &CodedForm,
        index: Index,
        capacity: u32,
    ) -> Result<RangeReader, AllocError>
        requires least { 1 ≤ capacity }
        requires most { capacity ≤ 64 }
        requires index { IsIndexOf (coded_seen form.now) index }
        ensures fresh { IfOk result (λ r. r ≡ fresh_reader (coded_seen form.now) index capacity) }
        // the sound is no longer than that of all frames
        ensures size { size_of_sound (coded_seen form.now) ≤ length index * sound_bytes form.now.channels }
    {
        let channels = form.channels;
        let bytes = channels.sound_bytes();
        let _frames = index.length();
        let size = sound_size(form);
        let end = form.end;
        let slots = fresh_slots(alloc, capacity, bytes)?;
        let spare = vec![in alloc; 0; bytes]?;
        let stored = vec![in alloc; 0; 2 * (bytes + 1)]?;
        let scratch = Scratch::new(alloc, channels)?;
        Ok(RangeReader {
            channels,
            index,
            size,
            end,
            slots,
            spare,
            stored,
            scratch,
        })
    }

    /// Bytes of the whole sound.
    pub fn size(&self) -> u64
        ensures { result ≡ self.now.size }
    {
        self.size
    }

    /// The frame at a place of the order, in which the frame that was wanted last stands at place 0.
    pub fn key(&self, place: u32) -> Option<u32>
        ensures { result ≡ slice_get (order self.now) place }
    {
        key_at(&self.slots, place)
    }

    /// Fills `out` with the bytes of the sound from a place on.
    ///
    /// The frames that `out` touches are wanted one after the other. One that isn't held is read and decoded; it is held then, in the
    /// place of the frame that was wanted longest ago. The first one that is refused is answered. After a fault nothing is said of
    /// `out`, and the frames that were wanted before it are held.
    pub fn read<S: Source>(
        &mut self,
        source: &mut S,
        from: u64,
        out: &mut [u8],
    ) -> Result<Reading, RangeFault>
        requires within { from + length out.old ≤ self.old.size }
        requires size { (n : ℕ) × (S.known source.old ≡ Some n) × (self.old.end ≤ n) }
        ensures bytes { S.bytes source.new ≡ S.bytes source.old }
        ensures size_stays { S.known source.new ≡ S.known source.old }
        ensures later { S.faults source.old ≤ S.faults source.new }
        ensures same { IsSame self.old self.new }
        ensures holds_sounds { (file : List ℕ) → S.bytes source.old ≡ Some file → HoldsSounds file self.old → HoldsSounds file self.new }
        // the part is that of the whole sound, and each frame that it touches means a sound
        ensures sound { OnOk result ((file : List ℕ) (form : Form) (sound : List ℕ) → S.bytes source.old ≡ Some file → HoldsSounds file self.old → IsReaderOf file form self.old →
            Sound file form sound → out.new ≡ bytes_at sound from (length out.old)) }
        ensures means { OnOk result ((file : List ℕ) → S.bytes source.old ≡ Some file → HoldsSounds file self.old → MeanSounds file self.old (wanted self.old from (length out.old))) }
        // which frames are held then, how many were decoded, and that the source gave their bytes and no others
        ensures order { OnOk result (order self.new ≡ keys_after (order self.old) (wanted self.old from (length out.old)) self.old.capacity) }
        ensures decoded { IfOk result (λ r. r.decoded ≡ length (decoded_of (order self.old) (wanted self.old from (length out.old)) self.old.capacity)) }
        ensures given { OnOk result (S.given source.old < 2 ^ 64 → S.given source.new ≡ counted (S.given source.old)
            (stored_bytes self.old (decoded_of (order self.old) (wanted self.old from (length out.old)) self.old.capacity))) }
        // the first frame that is refused, or a failed source
        ensures frame { (k : ℕ) (fault : FrameFault) → result ≡ Err (RangeFault.Frame k fault) →
            IsRefusedAt self.old (wanted self.old from (length out.old)) (order self.new) (S.bytes source.old) k fault }
        ensures read { result ≡ Err RangeFault.Read → Rose (S.faults source.old) (S.faults source.new) }
        ensures quiet { OnOk result (S.faults source.new ≡ S.faults source.old) }
        ensures part_way { OnErr result (IsPartWay self.old (wanted self.old from (length out.old)) (order self.new)) }
    {
        let bytes = self.sound_bytes();
        let end = end_of_touched(bytes, from, out.len() as u64);
        let mut decoded = 0;
        for frame in from / bytes..end {
            match self.bring(source, frame) {
                Ok(count) => decoded += count,
                Err(fault) => return Err(fault),
            }
            copy_part(self.front(), frame * bytes, from, out);
        }
        Ok(Reading { decoded })
    }

    // Bytes of one frame's sound.
    fn sound_bytes(&self) -> u64
        ensures bytes { result ≡ sound_bytes self.now.shape }
        ensures least { 4704 ≤ result }
        ensures most { result ≤ 112896 }
        ensures shape { IsShape self.now.shape }
        ensures together { HoldsTogether self.now }
    {
        self.channels.sound_bytes() as u64
    }

    // The sound of the frame in front.
    fn front(&self) -> &[u8]
        requires some { (x : HeldSound) × (xs : List HeldSound) × (self.now.held ≡ x ∷ xs) }
        ensures sound { (x : HeldSound) (xs : List HeldSound) → self.now.held ≡ x ∷ xs → result.now ≡ x.sound }
        ensures long { length result.now ≡ sound_bytes self.now.shape }
    {
        newest(&self.slots)
    }

    // Has a frame in front, decoded where it isn't held, and says how many frames were decoded for it.
    fn bring<S: Source>(&mut self, source: &mut S, frame: u64) -> Result<u32, RangeFault>
        requires frame { frame < length self.old.index }
        requires size { (n : ℕ) × (S.known source.old ≡ Some n) × (self.old.end ≤ n) }
        ensures bytes { S.bytes source.new ≡ S.bytes source.old }
        ensures size_stays { S.known source.new ≡ S.known source.old }
        ensures later { S.faults source.old ≤ S.faults source.new }
        ensures wanted { IfOk result (λ n. HasWanted self.old self.new (frame ∷ []) n (S.bytes source.old) (S.given source.old) (S.given source.new)) }
        ensures unchanged { OnErr result (self.new ≡ self.old) }
        ensures not_held { OnErr result (is_held (order self.old) frame ≡ false) }
        ensures fault { (k : ℕ) (fault : FrameFault) → result ≡ Err (RangeFault.Frame k fault) → (k ≡ frame) × ((file : List ℕ) → S.bytes source.old ≡ Some file → Offends self.old.shape (frame_in file self.old frame) fault) }
        ensures read { result ≡ Err RangeFault.Read → Rose (S.faults source.old) (S.faults source.new) }
        ensures quiet { OnOk result (S.faults source.new ≡ S.faults source.old) }
    {
        let _frames = self.index.length();
        let number = frame as u32;
        if move_to_front(&mut self.slots, number) {
            return Ok(0);
        }
        let entry = self.index.entry(number);
        match decode_entry(
            source,
            number,
            entry,
            self.channels,
            &mut self.stored,
            &mut self.scratch,
            &mut self.spare,
        ) {
            Ok(()) => {}
            Err(fault) => return Err(fault),
        }
        renew_last(&mut self.slots, &mut self.spare, number);
        Ok(1)
    }
}

// Reads a stored frame, and works its sound.
fn decode_entry<S: Source>(
    source: &mut S,
    frame: u32,
    entry: Entry,
    channels: Channels,
    stored: &mut [u8],
    scratch: &mut Scratch,
    sound: &mut [u8],
) -> Result<(), RangeFault>
    requires size { (n : ℕ) × (S.known source.old ≡ Some n) × (entry.offset + entry.size ≤ n) }
    requires fits { entry.offset + entry.size < 2 ^ 64 }
    requires short { entry.size ≤ 2 * (sound_bytes channels + 1) }
    requires stored { length stored.old ≡ 2 * (sound_bytes channels + 1) }
    requires scratch { scratch.old.channels ≡ channels }
    requires sound { length sound.old ≡ sound_bytes channels }
    ensures bytes { S.bytes source.new ≡ S.bytes source.old }
    ensures size_stays { S.known source.new ≡ S.known source.old }
    ensures later { S.faults source.old ≤ S.faults source.new }
    ensures given { OnOk result (S.given source.old < 2 ^ 64 → S.given source.new ≡ counted (S.given source.old) entry.size) }
    ensures means { OnOk result ((file : List ℕ) → S.bytes source.old ≡ Some file → Means channels (frame_at file (entry_seen entry)) sound.new) }
    ensures fault { (k : ℕ) (fault : FrameFault) → result ≡ Err (RangeFault.Frame k fault) → (k ≡ frame) × ((file : List ℕ) → S.bytes source.old ≡ Some file → Offends channels (frame_at file (entry_seen entry)) fault) }
    ensures read { result ≡ Err RangeFault.Read → Rose (S.faults source.old) (S.faults source.new) }
    ensures quiet { OnOk result (S.faults source.new ≡ S.faults source.old) }
    ensures scratch { scratch.new.channels ≡ scratch.old.channels }
{
    let _bytes = channels.sound_bytes();
    let stored = &mut stored[..entry.size as usize];
    let Ok(()) = read_range(source, entry.offset, stored) else {
        return Err(RangeFault::Read);
    };
    match decode_frame(stored, channels, scratch, sound) {
        Ok(_) => Ok(()),
        Err(fault) => Err(RangeFault::Frame { frame, fault }),
    }
}

// Bytes of the sound of a form.
fn sound_size(form: &CodedForm) -> u64
    ensures size { result ≡ size_of_sound (coded_seen form.now) }
    ensures most { result ≤ form.now.frames * sound_bytes form.now.channels }
{
    let whole = form.channels.sound_bytes() as u64;
    match &form.origin {
        Some(origin) => origin.sound,
        None => u64::from(form.frames) * whole,
    }
}
