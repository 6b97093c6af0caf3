// The index of a cut file, written buffer by buffer.
ghost use Rattle.std.specs.Prelude.{◌≡◌, ◌+◌, ◌*◌, ◌≤◌, ◌<◌, ◌^◌, ◌++◌, length, take, drop, MatchResult};
ghost use Rattle.byteorder.specs.Endian.{big_bytes};
ghost use Rattle.dst_streams.specs.Causes.{HasCause};
ghost use Rattle.dsdiff_spec.specs.Written.{dsti};
ghost use Rattle.dst_commands.specs.Writing.{Adds, Stops};
ghost use Rattle.dst_cut.specs.CutLayout as layout;

use crate::cut_form::CutForm;
use dsdiff_chunks::write_head;
use dst_streams::{Failed, Sink};

/// Bytes of an entry: a place of eight bytes, and a size of four.
const ENTRY: usize = 12;

/// Writes `DSTI`: the entries of the frames, which are moved with them to a place.
pub(crate) fn write_index<K: Sink>(
    sink: &mut K,
    cut: &CutForm,
    place: u64,
    buffer: &mut [u8],
) -> Result<(), Failed>
    requires place { place ≤ 2 ^ 62 }
    requires buffer { length buffer.old ≡ 65536 }
    ensures cause { HasCause (K.faults sink.old) (K.faults sink.new) result }
    ensures written { MatchResult result
        (λ _. Adds (dsti (layout.entries_left cut.now.index cut.now.first cut.now.last place)) (K.written sink.old) (K.written sink.new) (K.room sink.old) (K.room sink.new))
        (λ _. Stops (Unit {0}) (dsti (layout.entries_left cut.now.index cut.now.first cut.now.last place)) (K.written sink.old) (K.written sink.new) (K.room sink.old)) }
{
    let Ok(()) = write_head(sink, *b"DSTI", 12 * u64::from(cut.count())) else {
        return Err(Failed);
    };
    write_entries(sink, cut, place, buffer)
}

// Writes the entries of the frames, as many at a time as the buffer holds.
fn write_entries<K: Sink>(
    sink: &mut K,
    cut: &CutForm,
    place: u64,
    buffer: &mut [u8],
) -> Result<(), Failed>
    requires place { place ≤ 2 ^ 62 }
    requires buffer { length buffer.old ≡ 65536 }
    ensures cause { HasCause (K.faults sink.old) (K.faults sink.new) result }
    ensures written { MatchResult result
        (λ _. Adds (layout.index_bytes (layout.entries_left cut.now.index cut.now.first cut.now.last place)) (K.written sink.old) (K.written sink.new) (K.room sink.old) (K.room sink.new))
        (λ _. Stops (Unit {0}) (layout.index_bytes (layout.entries_left cut.now.index cut.now.first cut.now.last place)) (K.written sink.old) (K.written sink.new) (K.room sink.old)) }
{
    let most = (buffer.len() / ENTRY) as u32;
    let mut k = 0;
    while k < cut.count() {
        let count = (cut.count() - k).min(most);
        fill_entries(buffer, cut, place, k, count);
        let Ok(()) = sink.append(&buffer[..ENTRY * count as usize]) else {
            return Err(Failed);
        };
        k += count;
    }
    Ok(())
}

// Puts so many entries, from the one of the k-th frame that is cut out on, into the front of the buffer.
fn fill_entries(buffer: &mut [u8], cut: &CutForm, place: u64, k: u32, count: u32)
    requires place { place ≤ 2 ^ 62 }
    requires there { k + count ≤ layout.count cut.now.first cut.now.last }
    requires room { 12 * count ≤ length buffer.old }
    ensures entries { take (12 * count) buffer.new ≡ layout.index_bytes (take count (drop k (layout.entries_left cut.now.index cut.now.first cut.now.last place))) }
    ensures long { length buffer.new ≡ length buffer.old }
{
    let from = cut.begins();
    for next in 0..count {
        let entry = cut.index.entry(cut.first + (k + next));
        let at = ENTRY * next as usize;
        let part = &mut buffer[at..at + ENTRY];
        put_entry(part, place + (entry.offset - from), entry.size);
    }
}

// Puts an entry into its bytes.
fn put_entry(bytes: &mut [u8], offset: u64, size: u32)
    requires { length bytes.old ≡ 12 }
    ensures { bytes.new ≡ big_bytes 8 offset ++ big_bytes 4 size }
{
    bytes[..8].copy_from_slice(&offset.to_be_bytes());
    bytes[8..].copy_from_slice(&size.to_be_bytes());
}
