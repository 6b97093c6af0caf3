// Bytes that are whole chunks.
ghost use Rattle.std.specs.Prelude.{List, IfOk, IfErr};
ghost use Rattle.dsdiff_spec.specs.Chunks.{Chunk, Tiles};
ghost use Rattle.chunk_view.specs.Placed.{AreChunksOf, AreFoundWherever, IsCutAt, OverrunsWherever};

use crate::view::{ChunkView, chunk_at};
use std::marker::Model;

/// The chunks of some bytes, in order. A contract sees those that are left, each with its place.
#[derive(Clone, Debug, Drop)]
pub struct Chunks<'a> {
    bytes: &'a [u8],
    place: usize,
}

impl<'a> Model for Chunks<'a> {
    ghost use Rattle.std.specs.Prelude.{List};
    ghost use Rattle.chunk_view.specs.Placed.{PlacedChunk, AreWholeFrom, placed_in};

    ghost Value = { List PlacedChunk };

    ghost view = { λ c. placed_in c.bytes.now c.place };

    ghost invariant = { λ c. AreWholeFrom c.bytes.now c.place };
}

impl<'a> Iterator for Chunks<'a> {
    ghost use Rattle.std.specs.Iterator.{YieldsFirstBy, item_count};
    ghost use Rattle.chunk_view.specs.Seen.{seen};

    type Item = ChunkView<'a>;

    ghost next_gives = { YieldsFirstBy seen (λ left. left) };

    ghost remaining = { item_count (λ left. left) };

    fn next(&mut self) -> Option<ChunkView<'a>> {
        if self.place == self.bytes.len() {
            return None;
        }
        let (view, next) = chunk_at(self.bytes, self.place)?;
        self.place = next;
        Some(view)
    }
}

/// The chunk at `place` passes the end of the bytes, or the end cuts its twelve bytes of id and size.
#[derive(Clone, Copy, Debug, PartialEq, Eq)]
pub struct Overrun {
    /// How many bytes stand before its id.
    pub place: u64,
}

/// The chunks of bytes that are whole chunks, each with its pad byte.
pub fn split_chunks<'a>(bytes: &'a [u8]) -> Result<Chunks<'a>, Overrun>
    ensures chunks { IfOk result (λ chunks. AreChunksOf bytes.now chunks) }
    ensures found { IfOk result (λ chunks. AreFoundWherever bytes.now chunks) }

    // Otherwise no chunks tile the bytes.
    ensures untiled { IfErr result (λ _. (chunks : List Chunk) → Tiles bytes.now chunks → ⊥) }
    ensures cut { IfErr result (λ overrun. IsCutAt bytes.now overrun.place) }
    ensures overrun { IfErr result (λ overrun. OverrunsWherever bytes.now overrun.place) }
{
    let mut place = 0;
    while place < bytes.len() {
        let Some((_, next)) = chunk_at(bytes, place) else {
            return Err(Overrun {
                place: place as u64,
            });
        };
        place = next;
    }
    Ok(Chunks { bytes, place: 0 })
}
