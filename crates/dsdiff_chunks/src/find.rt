// Chunks by their ids.
ghost use Rattle.std.specs.Prelude.{◌≡◌, ◌∷◌, ◌++◌, [], ◌||◌, List, bytes_eq, map, filter};
ghost use Rattle.dsdiff_spec.specs.Chunks.{Head};
ghost use Rattle.dsdiff_chunks.specs.Found.{FoundAre};
ghost use Rattle.dsdiff_chunks.specs.Seen.{head_seen};

use crate::lists::ChunkHead;

/// The chunks with some ids: none, one, or several, of which the first is given.
#[derive(Clone, Copy)]
pub enum Finding {
    Nothing,
    One(ChunkHead),
    Several(ChunkHead),
}

/// What was found, and another chunk behind it.
fn and_then(found: Finding, head: ChunkHead) -> Finding
    ensures { (heads : List Head) → FoundAre found heads → FoundAre result (heads ++ head_seen head ∷ []) }
{
    match found {
        Finding::Nothing => Finding::One(head),
        Finding::One(first) => Finding::Several(first),
        Finding::Several(first) => Finding::Several(first),
    }
}

fn has_either(head: ChunkHead, id: [u8; 4], other: [u8; 4]) -> bool
    ensures { result ≡ (bytes_eq head.id id || bytes_eq head.id other) }
{
    head.id == id || head.id == other
}

/// The chunks whose id is one of two.
pub fn find_either(heads: &[ChunkHead], id: [u8; 4], other: [u8; 4]) -> Finding
    ensures { FoundAre result (filter (λ h. bytes_eq h.id id || bytes_eq h.id other) (map head_seen heads.now)) }
{
    let mut found = Finding::Nothing;
    for head in heads {
        if has_either(*head, id, other) {
            found = and_then(found, *head);
        }
    }
    found
}

/// The chunks with an id.
pub fn find(heads: &[ChunkHead], id: [u8; 4]) -> Finding
    ensures { FoundAre result (filter (λ h. bytes_eq h.id id) (map head_seen heads.now)) }
{
    find_either(heads, id, id)
}
