// A chunk as it stands in some bytes.
ghost use Rattle.std.specs.Prelude.{◌≡◌, ◌<◌, ◌≤◌, length, IfNone, IfSome};
ghost use Rattle.dsdiff_spec.specs.Chunks.{next_place, head_at};
ghost use Rattle.chunk_view.specs.Placed.{placed_at};
ghost use Rattle.chunk_view.specs.Seen.{seen};

use byteorder::{BigEndian, ByteOrder};

/// One chunk, lent from the bytes in which it was found.
#[derive(Clone, Copy, Debug)]
pub struct ChunkView<'a> {
    pub id: [u8; 4],
    /// How many bytes stand before its id.
    pub place: u64,
    pub body: &'a [u8],
    /// The byte behind a body of odd size.
    pub pad: Option<u8>,
}

// The chunk at a place and the place behind its pad byte, unless it passes the end.
pub(crate) fn chunk_at<'a>(bytes: &'a [u8], place: usize) -> Option<(ChunkView<'a>, usize)>
    requires { place ≤ length bytes.now }
    ensures passes { IfNone result (length bytes.now < next_place (head_at bytes.now place)) }
    ensures view { IfSome result (λ r. seen r.0 ≡ placed_at bytes.now (head_at bytes.now place)) }
    ensures next { IfSome result (λ r. r.1 ≡ next_place (head_at bytes.now place)) }
    ensures inside { IfSome result (λ r. r.1 ≤ length bytes.now) }
{
    let here = &bytes[place..];
    if here.len() < 12 {
        return None;
    }
    let size = BigEndian::read_u64(&here[4..]);
    if size > (here.len() - 12) as u64 {
        return None;
    }
    let (body, behind) = here[12..].split_at(size as usize);
    let pad = match (body.len() % 2, behind.first()) {
        (0, _) => None,
        (_, Some(byte)) => Some(*byte),
        (_, None) => return None,
    };
    let id = [here[0], here[1], here[2], here[3]];
    let view = ChunkView {
        id,
        place: place as u64,
        body,
        pad,
    };
    Some((view, place + 12 + body.len() + body.len() % 2))
}
