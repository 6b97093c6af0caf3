// Slots for the sounds of frames, in the order of their use.
ghost use Rattle.std.specs.Prelude.{◌≡◌, ◌<◌, ℕ, List, [], ◌∷◌, length, take, nat_eq, slice_get, is_some, IsSome, IfOk, IfSome, Some};
ghost use Rattle.std.specs.Map.{lookup, set_value};
ghost use Rattle.lru.specs.LruCache.{promoted};
ghost use Rattle.frame_cache.specs.Slots.{HeldSound, held, held_in, frames_in, found, moved, slot_of, AreSlots};

use lru::LruCache;
use std::alloc::{AllocError, Global};
use std::mem;
use std::num::NonZeroUsize;

/// Room for the sound of a frame, and the frame whose sound it holds, or none.
#[derive(Drop)]
pub(crate) struct Slot {
    pub(crate) frame: Option<u32>,
    pub(crate) sound: Vec<u8>,
}

/// So many slots, each with room for so many bytes, that hold no frame.
pub(crate) fn fresh_slots(
    alloc: Global,
    capacity: u32,
    bytes: usize,
) -> Result<LruCache<u32, Slot>, AllocError>
    requires some { 0 < capacity }
    ensures capacity { IfOk result (λ slots. slots.cap ≡ capacity) }
    ensures slots { IfOk result (λ slots. AreSlots capacity bytes slots.entries) }
    ensures none { IfOk result (λ slots. held_in slots.entries ≡ []) }
{
    let Some(most) = NonZeroUsize::new(capacity as usize) else {
        unreachable!();
    };
    let mut slots = LruCache::new(alloc, most)?;
    for number in 0..capacity {
        let sound = vec![in alloc; 0; bytes]?;
        slots.put(number, Slot { frame: None, sound })?;
    }
    Ok(slots)
}

/// The frame at a place of the order.
pub(crate) fn key_at(slots: &LruCache<u32, Slot>, place: u32) -> Option<u32>
    ensures { result ≡ slice_get (frames_in (held_in slots.now.entries)) place }
{
    let mut left = place;
    for (_, slot) in slots.iter() {
        if let Some(frame) = slot.frame {
            if left == 0 {
                return Some(frame);
            }
            left -= 1;
        }
    }
    None
}

// The number of the first slot that holds a frame.
fn slot_of(slots: &LruCache<u32, Slot>, frame: u32) -> Option<u32>
    ensures { result ≡ slot_of slots.now.entries frame }
{
    for (number, slot) in slots.iter() {
        if slot.frame == Some(frame) {
            return Some(*number);
        }
    }
    None
}

/// Has a frame in front where it is held, and says whether it is.
pub(crate) fn move_to_front(slots: &mut LruCache<u32, Slot>, frame: u32) -> bool
    ensures found { result ≡ is_some (found (held_in slots.old.entries) frame) }
    ensures held { held_in slots.new.entries ≡ moved (held_in slots.old.entries) frame }
    ensures slots { (count bytes : ℕ) → AreSlots count bytes slots.old.entries → AreSlots count bytes slots.new.entries }
    ensures capacity { slots.new.cap ≡ slots.old.cap }
{
    let _count = slots.len();
    match slot_of(slots, frame) {
        Some(number) => slots.promote(&number),
        None => false,
    }
}

/// Has the last slot in front, holding a frame with the sound in `spare`. The room that it had is spare then.
pub(crate) fn renew_last(slots: &mut LruCache<u32, Slot>, spare: &mut Vec<u8>, frame: u32)
    requires some { 0 < length slots.old.entries }
    ensures held { (count bytes : ℕ) → AreSlots count bytes slots.old.entries → held_in slots.new.entries ≡ take count (held frame spare.old.items ∷ held_in slots.old.entries) }
    ensures slots { (count bytes : ℕ) → AreSlots count bytes slots.old.entries → length spare.old.items ≡ bytes → AreSlots count bytes slots.new.entries }
    ensures spare { (count bytes : ℕ) → AreSlots count bytes slots.old.entries → length spare.new.items ≡ bytes }
    ensures capacity { slots.new.cap ≡ slots.old.cap }
{
    let _count = slots.len();
    let Some((number, _)) = slots.peek_lru() else {
        unreachable!();
    };
    let number = *number;
    renew(slots, spare, number, frame);
}

// Has a slot in front, holding a frame with the sound in `spare`, and exchanges the rooms.
fn renew(slots: &mut LruCache<u32, Slot>, spare: &mut Vec<u8>, number: u32, frame: u32)
    requires there { IsSome (lookup (nat_eq number) slots.old.entries) }
    ensures entries { slots.new.entries ≡ set_value (nat_eq number) (promoted (nat_eq number) slots.old.entries) (record { frame = Some frame; sound = spare.old }) }
    ensures spare { IfSome (lookup (nat_eq number) slots.old.entries) (λ slot. spare.new ≡ slot.sound) }
    ensures capacity { slots.new.cap ≡ slots.old.cap }
{
    let Some(slot) = slots.get_mut(&number) else {
        unreachable!();
    };
    slot.frame = Some(frame);
    mem::swap(&mut slot.sound, spare);
}

/// The sound of the frame in front.
pub(crate) fn newest(slots: &LruCache<u32, Slot>) -> &[u8]
    requires some { (x : HeldSound) × (xs : List HeldSound) × (held_in slots.now.entries ≡ x ∷ xs) }
    requires slots { (count : ℕ) × (bytes : ℕ) × AreSlots count bytes slots.now.entries }
    ensures sound { (x : HeldSound) (xs : List HeldSound) → held_in slots.now.entries ≡ x ∷ xs → result.now ≡ x.sound }
    ensures long { (count bytes : ℕ) → AreSlots count bytes slots.now.entries → length result.now ≡ bytes }
{
    let Some((_, slot)) = slots.peek_mru() else {
        unreachable!();
    };
    slot.sound.as_slice()
}
