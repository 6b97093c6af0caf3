// The parts of a frame, lent.
ghost use Rattle.std.specs.Prelude.{◌≡◌, ◌≢◌, ◌+◌, ◌*◌, ◌<◌, ◌≤◌, ◌^◌, length, take, get_or, IfOk, IfErr};
ghost use Rattle.dst_spec.specs.Bits.{bits, number_from};
ghost use Rattle.dst_spec.specs.Sample.{sound_bytes};
ghost use Rattle.dst_spec.specs.Header.{IsParams, HasHeader};
ghost use Rattle.dst_spec.specs.Means.{IsPlain};
ghost use Rattle.dst_spec.specs.Offends.{Offends, plain_frame_fields};
ghost use Rattle.dst_spec.specs.Reasons.{reason_number};
ghost use Rattle.frame_header.specs.Steps.{IsReadable};
ghost use Rattle.frame_header.specs.View.{IfPlain, IfCoded, OffendsNowhere, first_bit_fault, range_fault};
ghost use Rattle.bit_io.specs.Reading.{IsAtFault};

use crate::fields::{read_number, read_stuffing};
use crate::header::read_header;
use bit_io::{BitReader, BitSlice};
use dst_num::{Channels, FrameFault, Params, Reason};

/// What a frame has, lent from its bytes.
#[derive(Drop, Debug)]
pub enum FrameView<'a> {
    /// The sound of a plain frame, whole.
    Plain(&'a [u8]),
    /// The parameters of a coded frame, and its bits from the arithmetic code's first on.
    Coded(Params, BitSlice<'a>),
}

/// Reads a frame up to its sound or its arithmetic code. The fault is the first field there that isn't there with all its
/// bits or breaks its rule; of a coded frame, the code isn't looked at.
pub fn view_frame<'a>(frame: &'a [u8], channels: Channels) -> Result<FrameView<'a>, FrameFault>
    requires { length frame.now ≤ 2 * (sound_bytes channels + 1) }
    ensures plain { IfPlain result (λ sound. IsPlain channels frame.now sound) }
    ensures plain_whole { IfPlain result (λ sound. OffendsNowhere channels frame.now) }
    ensures bytes { IfCoded result (λ params code. code.bytes.now ≡ frame.now) }
    ensures inside { IfCoded result (λ params code. code.first ≤ 8 * length frame.now) }
    ensures early { IfCoded result (λ params code. code.first < 2 ^ 21) }
    ensures header { IfCoded result (λ params code. HasHeader channels.channels params (take code.first (bits frame.now))) }
    ensures params { IfCoded result (λ params code. IsParams channels.channels params) }
    ensures first_bit { IfCoded result (λ params code. get_or (bits frame.now) code.first 0 ≡ 1 → Offends channels frame.now (first_bit_fault code.first)) }
    ensures range { IfCoded result (λ params code. get_or (bits frame.now) code.first 0 ≡ 0 → number_from (bits frame.now) (code.first + 1) 12 ≡ 4095 → Offends channels frame.now (range_fault code.first)) }
    ensures coded_whole { IfCoded result (λ params code. get_or (bits frame.now) code.first 0 ≡ 0 → number_from (bits frame.now) (code.first + 1) 12 ≢ 4095 → OffendsNowhere channels frame.now) }
    ensures fault { IfErr result (Offends channels frame.now) }
    ensures reason { IfErr result (λ fault. reason_number fault.reason ≤ 8) }
{
    check_bits(channels);
    let mut reader = BitReader::new(frame);
    let coded = read_number(&mut reader, 1)?;
    if coded == 0 {
        let sound = lend_sound(frame, &mut reader, channels)?;
        return Ok(FrameView::Plain(sound));
    }
    let header = read_header(&mut reader, channels)?;
    Ok(FrameView::Coded(header.params, reader.rest()))
}

// Reads what follows the first bit of a plain frame, which is 0, and lends the sound.
fn lend_sound<'a>(
    frame: &'a [u8],
    reader: &mut BitReader,
    channels: Channels,
) -> Result<&'a [u8], FrameFault>
    requires bytes { reader.old.bytes ≡ frame.now }
    requires place { reader.old.place ≡ 1 }
    requires plain { get_or (bits frame.now) 0 0 ≡ 0 }
    ensures plain { IfOk result (λ sound. IsPlain channels frame.now sound.now) }
    ensures whole { IfOk result (λ _. IsReadable (plain_frame_fields channels) reader.old) }
    ensures fault { IfErr result (IsAtFault (plain_frame_fields channels) reader.old) }
{
    let reserved = read_number(reader, 1)?;
    read_stuffing(reader)?;
    let bit = reader.place();
    let bytes = channels.sound_bytes();
    if frame.len() < 1 + bytes {
        return Err(FrameFault {
            reason: Reason::Truncated,
            bit,
        });
    }
    Ok(&frame[1..1 + bytes])
}

// The bits of two stored frames are few.
fn check_bits(channels: Channels)
    ensures { 8 * (2 * (sound_bytes channels + 1)) ≤ 2000000 }
{
    let _ = channels.sound_bytes();
}
