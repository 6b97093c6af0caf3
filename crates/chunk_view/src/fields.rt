// Numbers and names at the beginning of a body.
ghost use Rattle.std.specs.Prelude.{◌≡◌, ◌<◌, ◌≤◌, length, drop, take, IfNone, IfSome};
ghost use Rattle.byteorder.specs.Endian.{big_number};

use byteorder::{BigEndian, ByteOrder};

/// The sampling rate in a body of `FS  `, in samples of one channel a second. None of a body below 4 bytes.
pub fn rate_of(body: &[u8]) -> Option<u32>
    ensures short { IfNone result (length body.now < 4) }
    ensures long { IfSome result (λ _. 4 ≤ length body.now) }
    ensures rate { IfSome result (λ rate. rate ≡ big_number 4 body.now) }
{
    if body.len() < 4 {
        return None;
    }
    Some(BigEndian::read_u32(body))
}

/// The number of channels in a body of `CHNL`. None of a body below 2 bytes.
pub fn channels_of(body: &[u8]) -> Option<u16>
    ensures short { IfNone result (length body.now < 2) }
    ensures long { IfSome result (λ _. 2 ≤ length body.now) }
    ensures channels { IfSome result (λ channels. channels ≡ big_number 2 body.now) }
{
    if body.len() < 2 {
        return None;
    }
    Some(BigEndian::read_u16(body))
}

/// The compression type in a body of `CMPR`: `DSD ` or `DST `. None of a body below 4 bytes.
pub fn compression_of(body: &[u8]) -> Option<[u8; 4]>
    ensures short { IfNone result (length body.now < 4) }
    ensures long { IfSome result (λ _. 4 ≤ length body.now) }
    ensures compression { IfSome result (λ compression. compression ≡ take 4 body.now) }
{
    if body.len() < 4 {
        return None;
    }
    Some([body[0], body[1], body[2], body[3]])
}

/// The number of frames and the frames per second in a body of `FRTE`. None of a body below 6 bytes.
pub fn frames_of(body: &[u8]) -> Option<(u32, u16)>
    ensures short { IfNone result (length body.now < 6) }
    ensures long { IfSome result (λ _. 6 ≤ length body.now) }
    ensures frames { IfSome result (λ fields. fields.0 ≡ big_number 4 body.now) }
    ensures rate { IfSome result (λ fields. fields.1 ≡ big_number 2 (drop 4 body.now)) }
{
    if body.len() < 6 {
        return None;
    }
    Some((BigEndian::read_u32(body), BigEndian::read_u16(&body[4..])))
}

/// An entry of `DSTI`: the place of a frame's bytes in the file, and how many they are. None of fewer than 12 bytes.
pub fn entry_of(body: &[u8]) -> Option<(u64, u32)>
    ensures short { IfNone result (length body.now < 12) }
    ensures long { IfSome result (λ _. 12 ≤ length body.now) }
    ensures offset { IfSome result (λ entry. entry.0 ≡ big_number 8 body.now) }
    ensures length { IfSome result (λ entry. entry.1 ≡ big_number 4 (drop 8 body.now)) }
{
    if body.len() < 12 {
        return None;
    }
    Some((BigEndian::read_u64(body), BigEndian::read_u32(&body[8..])))
}
