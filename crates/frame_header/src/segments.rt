// Segmentations, each of one segment for each channel.
ghost use Rattle.std.specs.Prelude.{◌≡◌, IfOk, IfErr};
ghost use Rattle.dst_spec.specs.Fields.{gives, field};
ghost use Rattle.dst_spec.specs.Offends.{times, end_rule, segment_fields, both_segments};
ghost use Rattle.bit_io.specs.Reading.{HasPassed, IsAtFault};

use crate::fields::{read_end, read_number};
use bit_io::BitReader;
use dst_num::FrameFault;

/// Passes the segmentation of filters and that of probabilities, which may be given at once.
pub(crate) fn read_both_segments(reader: &mut BitReader, channels: usize) -> Result<(), FrameFault>
    ensures read { IfOk result (λ _. HasPassed (both_segments channels) reader.old reader.new) }
    ensures fault { IfErr result (IsAtFault (both_segments channels) reader.old) }
    ensures bytes { reader.new.bytes ≡ reader.old.bytes }
{
    let same = read_number(reader, 1)?;
    read_segments(reader, channels)?;
    if same == 0 {
        read_segments(reader, channels)?;
    }
    Ok(())
}

// Passes one segmentation, which is given for all channels at once or for each one.
fn read_segments(reader: &mut BitReader, channels: usize) -> Result<(), FrameFault>
    ensures read { IfOk result (λ _. HasPassed (segment_fields channels) reader.old reader.new) }
    ensures fault { IfErr result (IsAtFault (segment_fields channels) reader.old) }
    ensures bytes { reader.new.bytes ≡ reader.old.bytes }
{
    let same = read_number(reader, 1)?;
    let ends = if same == 1 { 1 } else { channels };
    read_ends(reader, ends)
}

// Passes so many end bits.
fn read_ends(reader: &mut BitReader, count: usize) -> Result<(), FrameFault>
    ensures read { IfOk result (λ _. HasPassed (times count (field 1 end_rule gives)) reader.old reader.new) }
    ensures fault { IfErr result (IsAtFault (times count (field 1 end_rule gives)) reader.old) }
    ensures bytes { reader.new.bytes ≡ reader.old.bytes }
{
    for passed in 0..count {
        read_end(reader)?;
    }
    Ok(())
}
