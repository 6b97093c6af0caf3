// What is predicted of a frame's sound.
ghost use Rattle.std.specs.Prelude.{◌≡◌, ℕ, ◌+◌, ◌*◌, ◌<◌, ◌≤◌, ◌++◌, [], ◌∷◌, length, get_or, replicate, All, Contains, IfOk};
ghost use Rattle.dst_spec.specs.Sample.{samples, sound_bytes};
ghost use Rattle.frame_predictions.specs.Codes.{codes};
ghost use Rattle.frame_predictions.specs.Predicting.{Predicted, nothing};

use crate::row::{Row, provide};
use byte_predictor::KnownFilter;
use dst_num::{Channels, FilterTable};
use std::alloc::{AllocError, Global};
use std::marker::Model;

/// The codes of one frame's sound, by channel and filter. A row has one byte for each sample of a channel: its low six bits are
/// the place of the prediction, an eighth of its size and at most 63, and 64 is added where the sample isn't as guessed.
#[derive(Drop)]
pub struct Predictions {
    channels: Channels,
    sound: Vec<u8>,
    known: KnownFilter,
    rows: Vec<Row>,
    held: usize,
    filled: usize,
}

impl Model for Predictions {
    ghost use Rattle.std.specs.Prelude.{map, take};
    ghost use Rattle.frame_predictions.specs.Predicting.{Predicting};

    ghost Value = { Predicting };

    ghost use Rattle.frame_predictions.specs.Rows.{predicted, AreRows};

    ghost view = { λ p. record { channels = p.channels; sound = p.sound.items; rows = map predicted (take p.held p.rows.items) } };

    ghost invariant = { λ p. AreRows p.channels p.sound.items p.rows.items p.held p.filled };
}

impl Predictions {
    /// Takes all memory: eight rows for each channel, of one byte for each of its samples, and the sound. The sound is silent, all
    /// bytes 0, until another one is begun.
    pub fn new(alloc: Global, channels: Channels) -> Result<Predictions, AllocError>
        ensures channels { IfOk result (λ p. p.channels ≡ channels) }
        ensures sound { IfOk result (λ p. p.sound ≡ replicate (sound_bytes channels) 0) }
        ensures rows { IfOk result (λ p. p.rows ≡ []) }
    {
        let samples = 8 * 4704 * channels.multiple();
        let count = 8 * channels.count();
        let mut rows = Vec::with_capacity(alloc, count)?;
        for _ in 0..count {
            rows.push(Row {
                channel: 0,
                filter: FilterTable::default(),
                codes: vec![in alloc; 0u8; samples]?,
            })?;
        }
        Ok(Predictions {
            channels,
            sound: vec![in alloc; 0u8; channels.sound_bytes()]?,
            known: KnownFilter::new(),
            rows,
            held: 0,
            filled: 0,
        })
    }

    /// Begins with another sound, without rows.
    pub fn begin(&mut self, sound: &[u8])
        requires { length sound.now ≡ sound_bytes self.old.channels }
        ensures sound { self.new.sound ≡ sound.now }
        ensures rows { self.new.rows ≡ [] }
        ensures channels { self.new.channels ≡ self.old.channels }
    {
        self.sound.as_mut_slice().copy_from_slice(sound);
        self.held = 0;
        self.filled = 0;
    }

    /// Lets all rows go, so that there is room for eight rows for each channel. One that is asked for again isn't made again,
    /// unless its room was needed.
    pub fn release(&mut self)
        ensures rows { self.new.rows ≡ [] }
        ensures sound { self.new.sound ≡ self.old.sound }
        ensures channels { self.new.channels ≡ self.old.channels }
    {
        self.held = 0;
    }

    /// The number of the row of a channel with a filter, which is made behind the others where it isn't there. The others stay, as
    /// long as there are fewer than eight for each channel; else they are let go.
    pub fn row(&mut self, channel: usize, filter: &FilterTable) -> usize
        requires { channel < self.old.channels.channels }
        ensures inside { result < length self.new.rows }
        ensures is { (other : Predicted) → get_or self.new.rows result other ≡ record { channel = channel; filter = filter.now } }
        ensures stay { length self.old.rows < 8 * self.old.channels.channels → (k : ℕ) (other : Predicted) → k < length self.old.rows
            → get_or self.new.rows k other ≡ get_or self.old.rows k other }
        ensures more { length self.old.rows < 8 * self.old.channels.channels → length self.old.rows ≤ length self.new.rows }
        ensures one { length self.new.rows ≤ length self.old.rows + 1 }
        ensures there { length self.old.rows < 8 * self.old.channels.channels → Contains self.old.rows (record { channel = channel; filter = filter.now })
            → self.new.rows ≡ self.old.rows }
        ensures made { length self.old.rows < 8 * self.old.channels.channels → (Contains self.old.rows (record { channel = channel; filter = filter.now }) → ⊥)
            → self.new.rows ≡ self.old.rows ++ record { channel = channel; filter = filter.now } ∷ [] }
        ensures full { 8 * self.old.channels.channels ≤ length self.old.rows → self.new.rows ≡ record { channel = channel; filter = filter.now } ∷ [] }
        ensures sound { self.new.sound ≡ self.old.sound }
        ensures channels { self.new.channels ≡ self.old.channels }
    {
        let held = next_place(self.held, self.rows.len());
        let place = provide(
            self.rows.as_mut_slice(),
            &mut self.known,
            self.sound.as_slice(),
            self.channels,
            self.filled,
            channel,
            filter,
        );
        self.filled = self.filled.max(place + 1);
        if place < held {
            return place;
        }
        self.rows.swap(place, held);
        self.held = held + 1;
        held
    }

    /// The codes of a row, the first sample's first.
    pub fn codes(&self, row: usize) -> &[u8]
        requires { row < length self.now.rows }
        ensures codes { result.now ≡ codes self.now.channels self.now.sound (get_or self.now.rows row nothing).channel (get_or self.now.rows row nothing).filter }
        ensures long { length result.now ≡ samples self.now.channels }
        ensures small { All (λ code. code < 128) result.now }
    {
        self.rows[row].codes.as_slice()
    }

    /// The channels that the sound has.
    pub fn channels(&self) -> Channels
        ensures { result ≡ self.now.channels }
    {
        self.channels
    }

    /// The sound that was begun.
    pub fn sound(&self) -> &[u8]
        ensures sound { result.now ≡ self.now.sound }
        ensures long { length result.now ≡ sound_bytes self.now.channels }
    {
        self.sound.as_slice()
    }
}

// The place behind the rows that are held, or the first one where there is none behind them.
fn next_place(held: usize, most: usize) -> usize
    ensures behind { held < most → result ≡ held }
    ensures first { most ≤ held → result ≡ 0 }
{
    if held < most { held } else { 0 }
}
