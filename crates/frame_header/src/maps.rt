// Maps of channels to their tables.
ghost use Rattle.std.specs.Prelude.{◌≡◌, ◌≤◌, replicate, IfOk, IfErr};
ghost use Rattle.dst_spec.specs.Offends.{map_fields, both_maps};
ghost use Rattle.frame_header.specs.Steps.{element_fields};
ghost use Rattle.bit_io.specs.Reading.{HasRead, IsAtFault};

use crate::fields::{read_map_number, read_number};
use arrayvec::ArrayVec;
use bit_io::BitReader;
use dst_num::{FrameFault, Map};

/// The map of filters and that of probability tables, which may be given at once.
pub(crate) fn read_both_maps(
    reader: &mut BitReader,
    channels: usize,
) -> Result<(Map, Map), FrameFault>
    requires least { 1 ≤ channels }
    requires most { channels ≤ 6 }
    ensures read { IfOk result (λ maps. HasRead (both_maps channels) reader.old (maps.0, maps.1) reader.new) }
    ensures fault { IfErr result (IsAtFault (both_maps channels) reader.old) }
    ensures bytes { reader.new.bytes ≡ reader.old.bytes }
{
    let same = read_number(reader, 1)?;
    let filter_map = read_map(reader, channels)?;
    if same == 1 {
        let prob_map = copy_of(&filter_map);
        return Ok((filter_map, prob_map));
    }
    let prob_map = read_map(reader, channels)?;
    Ok((filter_map, prob_map))
}

// One map, which is given for all channels at once or for each one.
fn read_map(reader: &mut BitReader, channels: usize) -> Result<Map, FrameFault>
    requires least { 1 ≤ channels }
    requires most { channels ≤ 6 }
    ensures read { IfOk result (λ map. HasRead (map_fields channels) reader.old map reader.new) }
    ensures fault { IfErr result (IsAtFault (map_fields channels) reader.old) }
    ensures bytes { reader.new.bytes ≡ reader.old.bytes }
{
    let elements = read_elements(reader, channels)?;
    Ok(Map::new(elements.as_slice()).unwrap())
}

// The map with the same elements.
fn copy_of(map: &Map) -> Map
    ensures { result ≡ map.now }
{
    Map::new(map.elements()).unwrap()
}

// Element 0 for each channel.
fn zeros(channels: usize) -> ArrayVec<u8, 6>
    requires { channels ≤ 6 }
    ensures { result.items ≡ replicate channels 0 }
{
    let mut elements = ArrayVec::new();
    for channel in 0..channels {
        elements.push(0);
    }
    elements
}

// The element of each channel.
fn read_elements(reader: &mut BitReader, channels: usize) -> Result<ArrayVec<u8, 6>, FrameFault>
    requires least { 1 ≤ channels }
    requires most { channels ≤ 6 }
    ensures read { IfOk result (λ elements. HasRead (map_fields channels) reader.old elements.items reader.new) }
    ensures fault { IfErr result (IsAtFault (map_fields channels) reader.old) }
    ensures bytes { reader.new.bytes ≡ reader.old.bytes }
{
    let same = read_number(reader, 1)?;
    if same == 1 {
        Ok(zeros(channels))
    } else {
        read_numbers(reader, channels)
    }
}

// Element 0, and a number for each later channel.
fn read_numbers(reader: &mut BitReader, channels: usize) -> Result<ArrayVec<u8, 6>, FrameFault>
    requires least { 1 ≤ channels }
    requires most { channels ≤ 6 }
    ensures read { IfOk result (λ elements. HasRead (element_fields channels) reader.old elements.items reader.new) }
    ensures fault { IfErr result (IsAtFault (element_fields channels) reader.old) }
    ensures bytes { reader.new.bytes ≡ reader.old.bytes }
{
    let mut elements = ArrayVec::new();
    elements.push(0);
    let mut count = 1;
    for channel in 1..channels {
        let element = read_map_number(reader, count)?;
        elements.push(element as u8);
        count = count.max(element + 1);
    }
    Ok(elements)
}
