// Writing chunks.
ghost use Rattle.std.specs.Prelude.{◌≡◌, ◌+◌, ◌^◌, ◌++◌, ◌≤◌, length, true, OnOk, MatchResult, flat_map};
ghost use Rattle.byteorder.specs.Endian.{big_bytes};
ghost use Rattle.dst_streams.specs.Causes.{HasCause};
ghost use Rattle.dst_streams.specs.Told.{IsCutShort, IsSure, and_then};
ghost use Rattle.dsdiff_spec.specs.Chunks.{next_place};
ghost use Rattle.dsdiff_spec.specs.Origin.{is_one_chunk};
ghost use Rattle.dsdiff_spec.specs.Parts.{cmpr_head};
ghost use Rattle.dsdiff_spec.specs.Written.{cmpr_in, prop_with};
ghost use Rattle.dsdiff_chunks.specs.Lawful.{IsPropBody};

use crate::prop::local;
use byteorder::{BigEndian, ByteOrder};
use dst_streams::{Failed, Sink};

/// Appends the head of a chunk: its id, and the size of its body in 8 bytes.
pub fn write_head<K: Sink>(sink: &mut K, id: [u8; 4], size: u64) -> Result<(), Failed>
    ensures written { MatchResult result (λ _. K.written sink.new ≡ and_then (K.written sink.old) (id ++ big_bytes 8 size)) (λ _. IsCutShort (K.written sink.old) (id ++ big_bytes 8 size) (K.written sink.new)) }
    ensures appended { OnOk result (K.appended sink.new ≡ K.appended sink.old + 12) }
    ensures grows { K.appended sink.old ≤ K.appended sink.new }
    ensures sure { IsSure (K.room sink.old) (K.room sink.new) 12 result }
    ensures cause { HasCause (K.faults sink.old) (K.faults sink.new) result }
{
    sink.append(&head_bytes(id, size))
}

// An id and a size as they stand in a file.
pub(crate) fn head_bytes(id: [u8; 4], size: u64) -> [u8; 12]
    ensures { result ≡ id ++ big_bytes 8 size }
{
    let mut head = [0; 12];
    head[..4].copy_from_slice(&id);
    BigEndian::write_u64(&mut head[4..], size);
    head
}

/// Appends `PROP` with this body, in which another whole `CMPR` chunk, with its pad byte, stands in the place of its own.
pub fn write_prop<K: Sink>(sink: &mut K, prop: &[u8], cmpr: &[u8]) -> Result<(), Failed>
    requires prop { IsPropBody prop.now }
    requires cmpr { is_one_chunk "CMPR" cmpr.now ≡ true }
    requires short { length cmpr.now ≤ 65536 }
    ensures written { MatchResult result (λ _. K.written sink.new ≡ and_then (K.written sink.old) (prop_with prop.now cmpr.now)) (λ _. IsCutShort (K.written sink.old) (prop_with prop.now cmpr.now) (K.written sink.new)) }
    ensures appended { OnOk result (K.appended sink.new ≡ K.appended sink.old + length (prop_with prop.now cmpr.now)) }
    ensures grows { K.appended sink.old ≤ K.appended sink.new }
    ensures sure { IsSure (K.room sink.old) (K.room sink.new) (length (prop_with prop.now cmpr.now)) result }
    ensures cause { HasCause (K.faults sink.old) (K.faults sink.new) result }
{
    let (place, end) = place_of_cmpr(prop);
    let size = prop.len() - (end - place) + cmpr.len();
    let head = head_bytes(*b"PROP", size as u64);
    append_all(sink, &[&head, &prop[..place], cmpr, &prop[end..]])
}

/// Bytes that `write_prop` appends.
pub fn prop_length(prop: &[u8], cmpr: &[u8]) -> u64
    requires prop { IsPropBody prop.now }
    requires cmpr { is_one_chunk "CMPR" cmpr.now ≡ true }
    requires short { length cmpr.now ≤ 65536 }
    ensures length { result ≡ length (prop_with prop.now cmpr.now) }
    ensures most { result ≤ 2 ^ 18 }
{
    let (place, end) = place_of_cmpr(prop);
    (12 + prop.len() - (end - place) + cmpr.len()) as u64
}

/// The chunk `CMPR` in a body of `PROP`, with its pad byte.
pub fn cmpr_of_prop(prop: &[u8]) -> &[u8]
    requires { IsPropBody prop.now }
    ensures chunk { result.now ≡ cmpr_in prop.now }
    ensures most { length result.now ≤ 65536 }
{
    let (place, end) = place_of_cmpr(prop);
    &prop[place..end]
}

/// Appends pieces one after the other.
pub fn append_all<K: Sink>(sink: &mut K, pieces: &[&[u8]]) -> Result<(), Failed>
    ensures written { MatchResult result (λ _. K.written sink.new ≡ and_then (K.written sink.old) (flat_map (λ p. p.now) pieces.now)) (λ _. IsCutShort (K.written sink.old) (flat_map (λ p. p.now) pieces.now) (K.written sink.new)) }
    ensures appended { OnOk result (K.appended sink.new ≡ K.appended sink.old + length (flat_map (λ p. p.now) pieces.now)) }
    ensures grows { K.appended sink.old ≤ K.appended sink.new }
    ensures sure { IsSure (K.room sink.old) (K.room sink.new) (length (flat_map (λ p. p.now) pieces.now)) result }
    ensures cause { HasCause (K.faults sink.old) (K.faults sink.new) result }
{
    for piece in pieces {
        sink.append(piece)?;
    }
    Ok(())
}

// Where `CMPR` stands in a body of `PROP`, and the place behind its pad byte.
fn place_of_cmpr(prop: &[u8]) -> (usize, usize)
    requires { IsPropBody prop.now }
    ensures place { result.0 ≡ (cmpr_head prop.now).place }
    ensures end { result.1 ≡ next_place (cmpr_head prop.now) }
    ensures inside { result.1 ≤ length prop.now }
{
    let Some(cmpr) = local(prop, *b"CMPR") else {
        unreachable!()
    };
    let place = 4 + cmpr.place as usize;
    (place, place + 12 + cmpr.body.len() + cmpr.body.len() % 2)
}
