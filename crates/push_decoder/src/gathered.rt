// Bytes that are gathered in a buffer of fixed length.
ghost use Rattle.std.specs.Prelude.{◌≡◌, ◌+◌, ◌≤◌, ◌++◌, [], length, take, IfOk};

use std::alloc::{AllocError, Global};
use std::marker::Model;

/// Bytes gathered one piece behind the other. A contract sees those that were gathered, and how many have room.
#[derive(Drop)]
pub struct Gathered {
    buffer: Vec<u8>,
    count: usize,
}

impl Model for Gathered {
    ghost use Rattle.std.specs.Prelude.{◌≤◌, take, length};
    ghost use Rattle.push_decoder.specs.Gathered.{Gathered};

    ghost Value = { Gathered };

    ghost view = { λ g. record { bytes = take g.count g.buffer.items; room = length g.buffer.items } };

    ghost invariant = { λ g. g.count ≤ length g.buffer.items };
}

impl Gathered {
    /// None, and room for so many.
    pub fn new(alloc: Global, room: usize) -> Result<Gathered, AllocError>
        ensures { IfOk result (λ g. g ≡ record { bytes = []; room = room }) }
    {
        Ok(Gathered {
            buffer: vec![in alloc; 0u8; room]?,
            count: 0,
        })
    }

    pub fn as_slice(&self) -> &[u8]
        ensures bytes { result.now ≡ self.now.bytes }
        ensures room { length self.now.bytes ≤ self.now.room }
    {
        &self.buffer[..self.count]
    }

    pub fn clear(&mut self)
        ensures { self.new ≡ record { bytes = []; room = self.old.room } }
    {
        self.count = 0;
    }

    /// Gathers a piece for which there is room.
    pub fn gather(&mut self, piece: &[u8])
        requires { length self.old.bytes + length piece.now ≤ self.old.room }
        ensures { self.new ≡ record { bytes = self.old.bytes ++ piece.now; room = self.old.room } }
    {
        put_at(&mut self.buffer, self.count, piece);
        self.count += piece.len();
    }
}

// Puts a piece into a buffer at a place.
fn put_at(buffer: &mut [u8], place: usize, piece: &[u8])
    requires { place + length piece.now ≤ length buffer.old }
    ensures long { length buffer.new ≡ length buffer.old }
    ensures front { take (place + length piece.now) buffer.new ≡ take place buffer.old ++ piece.now }
{
    buffer[place..place + piece.len()].copy_from_slice(piece);
}
