// The chunks in `PROP` of a small file, and what is refused.
use crate::compared::same;
use chunk_view::{
    ChunkView, Overrun, channels_of, compression_of, entry_of, frames_of, rate_of, split_chunks,
};

// The body of `PROP` behind `SND `.
const LOCAL: &[u8; 62] = b"FS  \0\0\0\0\0\0\0\x04\0\x2b\x11\0\
CHNL\0\0\0\0\0\0\0\x06\0\x01C000\
CMPR\0\0\0\0\0\0\0\x10DST \x0bDST Encoded";

// A chunk's id, place, size and pad byte.
type Seen = ([u8; 4], u64, usize, Option<u8>);

fn seen(chunk: Option<ChunkView<'_>>) -> Option<Seen> {
    match chunk {
        Some(view) => Some((view.id, view.place, view.body.len(), view.pad)),
        None => None,
    }
}

// What is seen of each of the first four chunks.
fn seen_of(bytes: &[u8]) -> Result<[Option<Seen>; 4], Overrun> {
    let mut chunks = split_chunks(bytes)?;
    Ok([
        seen(chunks.next()),
        seen(chunks.next()),
        seen(chunks.next()),
        seen(chunks.next()),
    ])
}

#[test]
fn chunks_are_lent_in_order(rt: HostRuntime) {
    let odd = b"odd \0\0\0\0\0\0\0\x01ApNONE\0\0\0\0\0\0\0\0";
    let found = [seen_of(b""), seen_of(LOCAL), seen_of(odd)];
    let local = [
        Some((*b"FS  ", 0, 4, None)),
        Some((*b"CHNL", 16, 6, None)),
        Some((*b"CMPR", 34, 16, None)),
        None,
    ];
    let two = [
        Some((*b"odd ", 0, 1, Some(b'p'))),
        Some((*b"NONE", 14, 0, None)),
        None,
        None,
    ];
    same(&rt, &found, &[Ok([None; 4]), Ok(local), Ok(two)]);
}

// Where bytes that are no whole chunks are cut.
fn cut_at(bytes: &[u8]) -> Option<u64> {
    match split_chunks(bytes) {
        Ok(_) => None,
        Err(overrun) => Some(overrun.place),
    }
}

#[test]
fn bytes_that_are_no_whole_chunks_are_refused(rt: HostRuntime) {
    let found = [
        cut_at(&LOCAL[..61]),
        cut_at(&LOCAL[..45]),
        cut_at(b"odd \0\0\0\0\0\0\0\x01A"),
        cut_at(b"all \xff\xff\xff\xff\xff\xff\xff\xff"),
    ];
    same(&rt, &found, &[Some(34), Some(34), Some(0), Some(0)]);
}

// A rate, a number of channels, a compression, the frames with their rate, and an index's entry, where they are there.
type Fields = (
    Option<u32>,
    Option<u16>,
    Option<[u8; 4]>,
    Option<(u32, u16)>,
    Option<(u64, u32)>,
);

// What is read of whole fields, and of fields that end early.
fn fields() -> [Fields; 2] {
    let body = b"\0\x2b\x11\0\0\x4b\0\0\0\0\0\x06";
    let whole = (
        rate_of(&body[..4]),
        channels_of(&body[4..]),
        compression_of(b"DST \x0bDST Encoded"),
        frames_of(b"\0\0\0\x01\0\x4b"),
        entry_of(b"\0\0\0\0\0\0\x13\x06\0\0\0\x06"),
    );
    let short = (
        rate_of(&body[..3]),
        channels_of(&body[..1]),
        compression_of(&body[..3]),
        frames_of(&body[..5]),
        entry_of(&body[..11]),
    );
    [whole, short]
}

#[test]
fn fields_are_read_with_their_greatest_byte_first(rt: HostRuntime) {
    let whole = (
        Some(2_822_400),
        Some(75),
        Some(*b"DST "),
        Some((1, 75)),
        Some((4870, 6)),
    );
    same(&rt, &fields(), &[whole, (None, None, None, None, None)]);
}
