// A sound, stored.
ghost use Rattle.std.specs.Prelude.{◌≡◌, ℕ, ◌+◌, ◌*◌, ◌<◌, ◌≤◌, ◌^◌, false, List, [], ◌∷◌, length, get_or, All, IfSome, IfNone, IsTrue};
ghost use Rattle.dst_spec.specs.Sample.{Shape, IsShape, sound_bytes};
ghost use Rattle.dst_spec.specs.Header.{IsParams, Params as Parameters};
ghost use Rattle.dst_spec.specs.Spell.{spell, stored as stored_of};
ghost use Rattle.frame_store.specs.Choosing.{IsChosen};
ghost use Rattle.frame_store.specs.Storing.{written, IsWriter};

use crate::lay_out::lay_out;
use crate::measure::spelling_lengths;
use crate::picker::Picker;
use crate::scratch::{Latest, StoreScratch};
use crate::spell::{spell_shorter, write_into};
use bit_io::BitWriter;
use dst_num::{Channels, Params};
use frame_predictions::Predictions;

/// Stores a sound: the first of the shortest of the plain form and the spellings by the parameters that are picked. No memory is
/// taken.
///
/// A spelling of `spell_frame` is let go.
pub fn store_frame<P: Picker>(
    picker: &P,
    sound: &[u8],
    channels: Channels,
    scratch: &mut StoreScratch,
)
    requires sound { length sound.now ≡ sound_bytes channels }
    requires scratch { scratch.old.channels ≡ channels }
    ensures stored { scratch.new.stored ≡ stored_of channels sound.now (P.picks picker.now sound.now channels) }
    ensures no_spelling { scratch.new.spelled ≡ [] }
    ensures channels { scratch.new.channels ≡ scratch.old.channels }
{
    scratch.predictions.begin(sound);
    picker.pick(
        sound,
        channels,
        &mut scratch.predictions,
        &mut scratch.found,
    );
    let shorter = write_shortest(
        scratch.found.as_slice(),
        &mut scratch.predictions,
        scratch.symbols.as_mut_slice(),
        scratch.steps.as_mut_slice(),
        &mut scratch.writer,
    );
    if shorter {
        scratch.latest = Latest::SpelledFrame;
    } else {
        keep_plain(scratch.plain.as_mut_slice(), sound);
        scratch.latest = Latest::PlainFrame;
    }
}

// Writes the first of the shortest spellings in place of what the writer has. False where none is shorter than the plain form.
fn write_shortest(
    found: &[Params],
    predictions: &mut Predictions,
    symbols: &mut [u8],
    steps: &mut [[u16; 8]],
    writer: &mut Option<BitWriter>,
) -> bool
    requires lawful { All (IsParams predictions.old.channels.channels) found.now }
    requires few { length found.now ≤ 11 }
    requires shape { IsShape predictions.old.channels }
    requires sound { length predictions.old.sound ≡ sound_bytes predictions.old.channels }
    requires many { length symbols.old ≡ 8 * sound_bytes predictions.old.channels }
    requires some { 6 ≤ length steps.old }
    requires most { length steps.old ≤ 8000 }
    requires writer { IsWriter predictions.old.channels writer.old }
    ensures written { IsTrue result → written writer.new ≡ stored_of predictions.old.channels predictions.old.sound found.now }
    ensures none { result ≡ false → stored_of predictions.old.channels predictions.old.sound found.now ≡ 0 ∷ predictions.old.sound }
    ensures writer { IsWriter predictions.old.channels writer.new }
    ensures many { length symbols.new ≡ length symbols.old }
    ensures steps { length steps.new ≡ length steps.old }
    ensures channels { predictions.new.channels ≡ predictions.old.channels }
{
    if found.len() == 1 {
        return spell_shorter(&found[0], predictions, symbols, writer);
    }
    let channels = predictions.channels();
    match shortest(found, predictions, symbols, steps, channels.sound_bytes()) {
        None => false,
        Some(place) => {
            let params = &found[place];
            lay_out(params, predictions, symbols);
            write_into(params, symbols, channels, writer)
        }
    }
}

// The place of the first of the shortest spellings, if it is shorter than the plain form of a sound of so many bytes. Eight are
// measured at once.
fn shortest(
    found: &[Params],
    predictions: &mut Predictions,
    symbols: &mut [u8],
    steps: &mut [[u16; 8]],
    bytes: usize,
) -> Option<usize>
    requires lawful { All (IsParams predictions.old.channels.channels) found.now }
    requires few { length found.now ≤ 11 }
    requires shape { IsShape predictions.old.channels }
    requires bytes { bytes ≡ sound_bytes predictions.old.channels }
    requires sound { length predictions.old.sound ≡ bytes }
    requires many { length symbols.old ≡ 8 * bytes }
    requires some { 6 ≤ length steps.old }
    requires most { length steps.old ≤ 8000 }
    ensures none { IfNone result (stored_of predictions.old.channels predictions.old.sound found.now ≡ 0 ∷ predictions.old.sound) }
    ensures inside { IfSome result (λ place. place < length found.now) }
    ensures some { IfSome result (λ place. (other : Parameters) → stored_of predictions.old.channels predictions.old.sound found.now
        ≡ spell predictions.old.channels (get_or found.now place other) predictions.old.sound) }
    ensures fits { IfSome result (λ place. (other : Parameters) → length (spell predictions.old.channels (get_or found.now place other) predictions.old.sound) ≤ 1 + bytes) }
    ensures many { length symbols.new ≡ length symbols.old }
    ensures steps { length steps.new ≡ length steps.old }
    ensures sound { predictions.new.sound ≡ predictions.old.sound }
    ensures channels { predictions.new.channels ≡ predictions.old.channels }
{
    let mut choice = Choice {
        best: None,
        least: 1 + bytes as u64,
    };
    let mut first = 0;
    while first < found.len() {
        let count = (found.len() - first).min(8);
        let group = &found[first..first + count];
        let lengths = spelling_lengths(group, predictions, symbols, steps);
        choose(&mut choice, &lengths, first, count);
        first += count;
    }
    choice.best
}

// The first of the shortest so far, none being the plain form, and its bytes.
#[derive(Drop)]
struct Choice {
    best: Option<usize>,
    least: u64,
}

// Goes on with the lengths of some more candidates.
fn choose(choice: &mut Choice, lengths: &[u64; 8], first: usize, count: usize)
    requires few { count ≤ 8 }
    requires small { first ≤ 2 ^ 32 }
    ensures chosen { (f : Shape) (sound : List ℕ) (found : List Parameters) → first + count ≤ length found
        → ((lane : ℕ) (other : Parameters) → lane < count → get_or lengths.now lane 0 ≡ length (spell f (get_or found (first + lane) other) sound))
        → IsChosen f sound found first choice.old.best choice.old.least → IsChosen f sound found (first + count) choice.new.best choice.new.least }
    ensures fits { choice.new.least ≤ choice.old.least }
{
    for lane in 0..count {
        let length = lengths[lane];
        if length < choice.least {
            choice.best = Some(first + lane);
            choice.least = length;
        }
    }
}

// The plain form: a byte 0 and the sound.
fn keep_plain(plain: &mut [u8], sound: &[u8])
    requires { length plain.old ≡ 1 + length sound.now }
    ensures { plain.new ≡ 0 ∷ sound.now }
{
    plain[0] = 0;
    plain[1..].copy_from_slice(sound);
}
