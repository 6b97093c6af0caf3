// The header of a coded frame, read field by field.
ghost use Rattle.std.specs.Prelude.{◌≡◌, ◌*◌, ◌≤◌, length, take, get_or, IfOk, IfErr, Ok, Err};
ghost use Rattle.dst_spec.specs.Bits.{bits};
ghost use Rattle.dst_spec.specs.Header.{IsParams, HasHeader};
ghost use Rattle.dst_spec.specs.Fields.{read};
ghost use Rattle.dst_spec.specs.Offends.{header_fields};
ghost use Rattle.bit_io.specs.Reading.{left, HasRead, IsAtFault};

use crate::maps::read_both_maps;
use crate::segments::read_both_segments;
use crate::tables::{read_half_bits, read_tables};
use bit_io::BitReader;
use dst_num::{Channels, FrameFault, Params};
use table_code::{Filters, Probs};

/// What a coded frame has in front of its arithmetic code.
#[derive(Drop, Debug)]
pub struct Header {
    pub params: Params,
    /// The place of the first code bit, in bits from the frame's first on. It may be the end of the frame.
    pub code: u64,
}

/// Reads what follows the first bit of a coded frame, which is 1, up to the arithmetic code. The fault is the first field
/// that isn't there with all its bits or breaks its rule; the reader is then somewhere in the header.
pub fn read_header(reader: &mut BitReader, channels: Channels) -> Result<Header, FrameFault>
    requires few { length (left reader.old) ≤ 2000000 }
    requires place { reader.old.place ≡ 1 }
    requires coded { get_or (bits reader.old.bytes) 0 0 ≡ 1 }
    ensures fields { IfOk result (λ h. read (header_fields channels.channels) (left reader.old) 1 ≡ Ok (h.params, left reader.new, h.code)) }
    ensures place { IfOk result (λ h. reader.new.place ≡ h.code) }
    ensures inside { IfOk result (λ h. h.code ≤ 8 * length reader.old.bytes) }
    ensures header { IfOk result (λ h. HasHeader channels.channels h.params (take h.code (bits reader.old.bytes))) }
    ensures params { IfOk result (λ h. IsParams channels.channels h.params) }
    ensures fault { IfErr result (λ fault. read (header_fields channels.channels) (left reader.old) 1 ≡ Err fault) }
    ensures bytes { reader.new.bytes ≡ reader.old.bytes }
{
    let params = read_params(reader, channels.count())?;
    Ok(Header {
        params,
        code: reader.place(),
    })
}

// Reads the parts of a header in order.
fn read_params(reader: &mut BitReader, channels: usize) -> Result<Params, FrameFault>
    requires least { 1 ≤ channels }
    requires most { channels ≤ 6 }
    requires few { length (left reader.old) ≤ 2000000 }
    ensures read { IfOk result (λ params. HasRead (header_fields channels) reader.old params reader.new) }
    ensures fault { IfErr result (IsAtFault (header_fields channels) reader.old) }
    ensures bytes { reader.new.bytes ≡ reader.old.bytes }
{
    read_both_segments(reader, channels)?;
    let (filter_map, prob_map) = read_both_maps(reader, channels)?;
    let half_prob = read_half_bits(reader, channels)?;
    let filters = read_tables::<Filters>(reader, filter_map.count())?;
    let probs = read_tables::<Probs>(reader, prob_map.count())?;
    Ok(Params::new(filter_map, prob_map, half_prob, filters, probs).unwrap())
}
