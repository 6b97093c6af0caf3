// The memory in which frames are stored.
ghost use Rattle.std.specs.Prelude.{◌≡◌, ◌*◌, ◌+◌, ◌≤◌, [], length, IfOk};
ghost use Rattle.dst_spec.specs.Sample.{sound_bytes};
ghost use Rattle.frame_store.specs.Storing.{written, IsWriter};

use crate::picker::Candidates;
use bit_io::BitWriter;
use dst_num::Channels;
use frame_predictions::Predictions;
use std::alloc::{AllocError, Global};
use std::marker::Model;

// What the latest call left.
#[derive(Clone, Copy)]
pub(crate) enum Latest {
    // a spelling of `spell_frame`, or nothing
    Spelling,
    // a frame of `store_frame`, which is a spelling
    SpelledFrame,
    // a frame of `store_frame`, which is the plain form
    PlainFrame,
}

/// The memory in which frames of some channels are stored: predictions, candidates, the symbols of one of them, a spelling
/// and the plain form. Nothing of one frame is used for the next one.
#[derive(Drop)]
pub struct StoreScratch {
    pub(crate) channels: Channels,
    pub(crate) predictions: Predictions,
    pub(crate) found: Candidates,
    pub(crate) symbols: Vec<u8>,
    pub(crate) steps: Vec<[u16; 8]>,
    // a writer that isn't there is at work
    pub(crate) writer: Option<BitWriter>,
    pub(crate) plain: Vec<u8>,
    pub(crate) latest: Latest,
}

impl Model for StoreScratch {
    ghost use Rattle.frame_store.specs.Storing.{Storing, written, spelling_left, frame_left, IsStorage};

    ghost Value = { Storing };

    ghost view = { λ s. record { channels = s.channels; spelled = spelling_left s.latest (written s.writer); stored = frame_left s.latest (written s.writer) s.plain.items } };

    ghost invariant = { λ s. IsStorage s.channels s.predictions s.symbols.items s.steps.items s.writer s.plain.items };
}

impl StoreScratch {
    /// Takes all memory that storing needs: for a frame's sound of F bytes, 64 F for predictions, 8 F for symbols and 3 F for the sound,
    /// its plain form and a spelling, and less than 300,000 bytes besides.
    pub fn new(alloc: Global, channels: Channels) -> Result<StoreScratch, AllocError>
        ensures channels { IfOk result (λ s. s.channels ≡ channels) }
        ensures no_spelling { IfOk result (λ s. s.spelled ≡ []) }
        ensures no_frame { IfOk result (λ s. s.stored ≡ []) }
    {
        let bytes = channels.sound_bytes();
        Ok(StoreScratch {
            channels,
            predictions: Predictions::new(alloc, channels)?,
            found: Candidates::new(),
            symbols: vec![in alloc; 0u8; 8 * bytes]?,
            steps: vec![in alloc; [0u16; 8]; 1024]?,
            writer: Some(BitWriter::new(alloc, 1 + bytes)?),
            plain: vec![in alloc; 0u8; 1 + bytes]?,
            latest: Latest::Spelling,
        })
    }

    /// What the latest call spelled, if it was one of `spell_frame`; else nothing, since a frame that is stored ends the spelling.
    pub fn spelled(&self) -> &[u8]
        ensures spelled { result.now ≡ self.now.spelled }
        ensures short { length result.now ≤ 1 + sound_bytes self.now.channels }
    {
        match self.latest {
            Latest::Spelling => written_in(&self.writer, self.channels),
            _ => &[],
        }
    }

    /// The frame that the latest call stored, if it was one of `store_frame`; else nothing, since a spelling ends what was stored.
    pub fn stored(&self) -> &[u8]
        ensures stored { result.now ≡ self.now.stored }
        ensures short { length result.now ≤ 1 + sound_bytes self.now.channels }
    {
        match self.latest {
            Latest::Spelling => &[],
            Latest::SpelledFrame => written_in(&self.writer, self.channels),
            Latest::PlainFrame => self.plain.as_slice(),
        }
    }
}

// The bytes of a writer that is there.
fn written_in(writer: &Option<BitWriter>, channels: Channels) -> &[u8]
    requires { IsWriter channels writer.now }
    ensures written { result.now ≡ written writer.now }
    ensures short { length result.now ≤ 1 + sound_bytes channels }
{
    match writer {
        Some(writer) => writer.bytes(),
        None => unreachable!(),
    }
}
