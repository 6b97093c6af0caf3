// Entries of an index.
ghost use Rattle.std.specs.Prelude.{◌≡◌, ◌+◌, ◌*◌, ◌<◌, ◌≤◌, ◌++◌, ◌∷◌, [], length, IfOk, IfSome, IfNone, vec_capacity};
ghost use Rattle.byteorder.specs.Endian.{big_bytes};
ghost use Rattle.dsdiff_spec.specs.Walk.{entry};
ghost use Rattle.frame_index.specs.Entries.{entries_in, entry_at, entry_seen};
ghost use Rattle.frame_index.specs.Lookup.{DifferFirstAt};

use byteorder::{BigEndian, ByteOrder};
use chunk_view::entry_of;
use std::alloc::{AllocError, Global};
use std::marker::Model;

/// Where a frame stands: the place of the first byte of its body in the file, and the size of its body in bytes.
#[derive(Clone, Copy, Debug, PartialEq, Eq)]
pub struct Entry {
    pub offset: u64,
    pub size: u32,
}

/// The frames of a form in order, as contracts see it a list of entries. Each entry stands in the twelve bytes that it
/// has in a chunk `DSTI`.
#[derive(Drop)]
pub struct Index {
    bytes: Vec<u8>,
    frames: u32,
}

impl Model for Index {
    ghost use Rattle.std.specs.Prelude.{List};
    ghost use Rattle.dsdiff_spec.specs.Walk.{Entry};

    ghost Value = { List Entry };

    ghost use Rattle.std.specs.Prelude.{◌≡◌, ◌*◌, ◌≤◌, length};
    ghost use Rattle.frame_index.specs.Entries.{entries_in};

    ghost view = { λ i. entries_in i.bytes.items };

    ghost invariant = { λ i. (length i.bytes.items ≡ 12 * i.frames) × (i.frames ≤ 1000000) };
}

impl Index {
    // The entries of bytes that have twelve for each frame.
    pub(crate) fn from_bytes(bytes: Vec<u8>, frames: u32) -> Index
        requires long { length bytes.items ≡ 12 * frames }
        requires few { frames ≤ 1000000 }
        ensures { result ≡ entries_in bytes.items }
    {
        Index { bytes, frames }
    }

    /// How many frames there are.
    pub fn length(&self) -> u32
        ensures length { result ≡ length self.now }
        ensures most { result ≤ 1000000 }
    {
        self.frames
    }

    /// Where frame k stands, frames being counted from 0.
    pub fn entry(&self, k: u32) -> Entry
        requires { k < length self.now }
        ensures { entry_seen result ≡ entry self.now k }
    {
        entry_in(&self.bytes, k as usize)
    }
}

// Entries that are gathered, in room that was taken for so many of them.
#[derive(Drop)]
pub(crate) struct Gathering {
    bytes: Vec<u8>,
    frames: u32,
    room: u32,
}

impl Model for Gathering {
    ghost use Rattle.frame_index.specs.Entries.{Gathered};

    ghost Value = { Gathered };

    ghost use Rattle.std.specs.Prelude.{◌≡◌, ◌*◌, ◌≤◌, length, vec_capacity};
    ghost use Rattle.frame_index.specs.Entries.{entries_in};

    ghost view = { λ g. record { entries = entries_in g.bytes.items; room = g.room } };

    ghost invariant = { λ g. (length g.bytes.items ≡ 12 * g.frames) × (g.frames ≤ 1000000) × (g.frames ≤ g.room) × (12 * g.room ≤ vec_capacity g.bytes) };
}

// Room for so many entries, and no more.
pub(crate) fn room_for(alloc: Global, frames: u32) -> Result<Vec<u8>, AllocError>
    ensures none { IfOk result (λ room. room.items ≡ []) }
    ensures exact { IfOk result (λ room. vec_capacity room ≡ 12 * frames) }
{
    Vec::with_capacity(alloc, 12 * frames as usize)
}

impl Gathering {
    // No entry yet, in the room of so many.
    pub(crate) fn in_room(room: Vec<u8>, frames: u32) -> Gathering
        requires none { room.items ≡ [] }
        requires room { vec_capacity room ≡ 12 * frames }
        ensures { result ≡ record { entries = []; room = frames } }
    {
        Gathering {
            bytes: room,
            frames: 0,
            room: frames,
        }
    }

    // One entry more.
    pub(crate) fn push(&mut self, offset: u64, size: u32)
        requires few { length self.old.entries < 1000000 }
        requires room { length self.old.entries < self.old.room }
        ensures { self.new ≡ record { entries = self.old.entries ++ record { offset = offset; size = size } ∷ []; room = self.old.room } }
    {
        push_bytes(&mut self.bytes, offset, size);
        self.frames += 1;
    }

    // The entries as an index.
    pub(crate) fn into_index(self) -> Index
        ensures { result ≡ self.entries }
    {
        Index {
            bytes: self.bytes,
            frames: self.frames,
        }
    }
}

/// The first entry in which two indexes of as many frames differ, counted from 0.
pub fn compare(a: &Index, b: &Index) -> Option<u32>
    requires same_length { length a.now ≡ length b.now }
    ensures differ { IfSome result (λ k. DifferFirstAt k a.now b.now) }
    ensures same { IfNone result (a.now ≡ b.now) }
{
    for k in 0..a.length() {
        if a.entry(k) != b.entry(k) {
            return Some(k);
        }
    }
    None
}

// Entry k of bytes that are entries.
pub(crate) fn entry_in(bytes: &[u8], k: usize) -> Entry
    requires { 12 * k + 12 ≤ length bytes.now }
    ensures { entry_seen result ≡ entry_at bytes.now k }
{
    let at = 12 * k;
    match entry_of(&bytes[at..]) {
        Some((offset, size)) => Entry { offset, size },
        None => unreachable!(),
    }
}

// The twelve bytes of an entry at the end of others, where there is room for them.
fn push_bytes(bytes: &mut Vec<u8>, offset: u64, size: u32)
    requires room { length bytes.old.items + 12 ≤ vec_capacity bytes.old }
    ensures pushed { bytes.new.items ≡ bytes.old.items ++ big_bytes 8 offset ++ big_bytes 4 size }
    ensures capacity { vec_capacity bytes.old ≤ vec_capacity bytes.new }
{
    let mut entry = [0; 12];
    BigEndian::write_u64(&mut entry, offset);
    BigEndian::write_u32(&mut entry[8..], size);
    let Ok(()) = bytes.extend_from_slice(&entry) else {
        unreachable!()
    };
}
