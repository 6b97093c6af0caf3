// Heads of chunks, and the lists that a form has: of heads and of bytes.
ghost use Rattle.std.specs.Prelude.{◌≡◌, ◌<◌};

use std::marker::Model;

/// The head of a chunk: its id, the place of its id in the file, and the size of its body in bytes.
#[derive(Clone, Copy, Debug, PartialEq, Eq)]
pub struct ChunkHead {
    pub id: [u8; 4],
    pub place: u64,
    pub size: u64,
}

/// Bytes of its own.
#[derive(Drop)]
pub struct Octets {
    bytes: Vec<u8>,
}

impl Model for Octets {
    ghost use Rattle.std.specs.Prelude.{List, ℕ};

    ghost Value = { List ℕ };

    ghost view = { λ o. o.bytes.items };
}

impl Octets {
    /// These bytes; it takes no memory.
    pub fn from_vec(bytes: Vec<u8>) -> Octets
        ensures { result ≡ bytes.items }
    {
        Octets { bytes }
    }

    pub fn as_slice(&self) -> &[u8]
        ensures { result.now ≡ self.now }
    {
        self.bytes.as_slice()
    }

    /// The bytes back; it takes no memory.
    pub fn into_vec(self) -> Vec<u8>
        ensures { result.items ≡ self }
    {
        self.bytes
    }
}

/// Chunk heads in order.
#[derive(Drop)]
pub struct Heads {
    heads: Vec<ChunkHead>,
}

impl Model for Heads {
    ghost use Rattle.std.specs.Prelude.{List};
    ghost use Rattle.dsdiff_chunks.specs.declared.lists.ChunkHead.{ChunkHead};

    ghost Value = { List ChunkHead };

    ghost view = { λ h. h.heads.items };
}

impl Heads {
    /// These heads; it takes no memory.
    pub fn from_vec(heads: Vec<ChunkHead>) -> Heads
        ensures { result ≡ heads.items }
    {
        Heads { heads }
    }

    pub fn as_slice(&self) -> &[ChunkHead]
        ensures { result.now ≡ self.now }
    {
        self.heads.as_slice()
    }
}
