// Frames worked out by hand, each decoded behind another one or beside others, and the faults of others.
ghost use Rattle.std.specs.Prelude.{◌≡◌, ◌<◌, ◌≤◌, ◌+◌, ◌*◌, ℕ, true, length, get_or};
ghost use Rattle.dst_spec.specs.Sample.{sound_bytes};
ghost use Rattle.dst_frames.specs.Running.{AreStored};
ghost use Rattle.dst_frames.specs.declared.stored.StoredFrame.{StoredFrame};
ghost use Rattle.dst_frames.specs.declared.stored.DecodedFrame.{DecodedFrame};

use dst_frames::{BatchScratch, DecodedFrame, Scratch, StoredFrame, decode_batch, decode_frame};
use dst_num::{Channels, FrameFault, Reason};
use std::alloc::{AllocError, Global};
use std::process::Abort;

// One channel, the coefficient 0 and the probabilities 128 and 128: each sample is 1.
const ONES: [u8; 6] = [0xfc, 0x00, 0x00, 0x05, 0xff, 0xf8];

// The same with the coefficients 1 and -1: each sample is as the one before it, and each is other than that.
const AS_BEFORE: [u8; 6] = [0xfc, 0x00, 0x01, 0x05, 0xff, 0xf8];

const TURNED: [u8; 6] = [0xfc, 0x01, 0xff, 0x05, 0xff, 0xf8];

// With two segmentations, and with two maps.
const TWO_SEGMENTATIONS: [u8; 6] = [0xbf, 0x00, 0x00, 0x01, 0x7f, 0xfe];

const TWO_MAPS: [u8; 6] = [0x94, 0x00, 0x00, 0x00, 0xbf, 0xff];

// The same with three coefficients 0 by method 2.
const BY_METHOD_2: [u8; 9] = [0xfc, 0x0b, 0x00, 0x00, 0x00, 0x00, 0x0b, 0xff, 0xf0];

// Two channels with the coefficients 0 and 1.
const TWO_CHANNELS: [u8; 11] = [
    0xfa, 0x00, 0x00, 0x00, 0x00, 0x20, 0xbf, 0xff, 0x05, 0xff, 0xf8,
];

// Two channels with the coefficient 0 and one probability table: each sample is 1.
const TWO_ALIKE: [u8; 6] = [0xfc, 0x00, 0x00, 0x02, 0xff, 0xfc];

// The first code bit is 1; the first twelve bits of the code's number are.
const FIRST_BIT_1: [u8; 6] = [0xfc, 0x00, 0x00, 0x05, 0xff, 0xfc];

const TWELVE_ONES: [u8; 8] = [0xfc, 0x00, 0x00, 0x05, 0xff, 0xfb, 0xff, 0xc0];

// The second probability is 0, and 129.
const PROBABILITY_0: [u8; 6] = [0xfc, 0x00, 0x00, 0x06, 0x00, 0x0c];

const PROBABILITY_129: [u8; 6] = [0xfc, 0x00, 0x00, 0x06, 0x7f, 0x08];

// The beginning of a frame whose code is no encoder's.
const NOISE: [u8; 6] = [0xfc, 0x00, 0x00, 0x04, 0x00, 0x03];

// The sound of a frame behind another one, with the same scratch, and its tail. None where a frame is too long.
fn decoded(
    alloc: Global,
    channels: Channels,
    before: &[u8],
    frame: &[u8],
) -> Result<Option<(Vec<u8>, Tail)>, AllocError> {
    if before.len() > 9408 || frame.len() > 9410 {
        return Ok(None);
    }
    let mut scratch = Scratch::new(alloc, channels)?;
    let mut sound = vec![in alloc; 0u8; channels.sound_bytes()]?;
    let _ = decode_frame(before, channels, &mut scratch, &mut sound);
    let tail = decode_frame(frame, channels, &mut scratch, &mut sound);
    Ok(Some((sound, tail)))
}

// How many bytes of a frame are unread, or why it is refused.
type Tail = Result<u32, FrameFault>;

// The first byte of a sound that isn't the one of these two whose turn it is, and its place.
fn first_other(sound: &[u8], bytes: [u8; 2]) -> Option<(usize, u8)> {
    for (place, byte) in sound.iter().enumerate() {
        if *byte != bytes[place % 2] {
            return Some((place, *byte));
        }
    }
    None
}

// The beginning of a frame, and one byte behind it.
fn filled<const N: usize>(front: &[u8], filling: u8) -> [u8; N] {
    let mut frame = [filling; N];
    for (byte, place) in front.iter().zip(frame.iter_mut()) {
        *place = *byte;
    }
    frame
}

// The tail of a frame of so many channels behind the noise, and the first byte of its sound that isn't one of these two in turn.
type SoundAndTail = Option<(Tail, Option<(usize, u8)>)>;

fn heard(
    alloc: Global,
    (count, multiple): (u32, u32),
    frame: &[u8],
    bytes: [u8; 2],
) -> Result<SoundAndTail, AllocError> {
    let Some(channels) = Channels::at(count, multiple) else {
        return Ok(None);
    };
    let noise: [u8; 9408] = filled(&NOISE, 0xbb);
    match decoded(alloc, channels, &noise, frame)? {
        Some((sound, tail)) => Ok(Some((tail, first_other(&sound, bytes)))),
        None => Ok(None),
    }
}

#[test]
fn frames_give_their_sound_and_tail(rt: HostRuntime) {
    // the channels and the multiple, the frame, the bytes of its first two channels in turn
    const CASES: [((u32, u32), &[u8], [u8; 2]); 10] = [
        ((1, 1), &ONES, [0xff, 0xff]),
        ((1, 2), &ONES, [0xff, 0xff]),
        ((1, 1), &AS_BEFORE, [0x00, 0x00]),
        ((1, 1), &TURNED, [0xaa, 0xaa]),
        ((1, 1), &TWO_SEGMENTATIONS, [0xff, 0xff]),
        ((1, 1), &TWO_MAPS, [0xff, 0xff]),
        ((1, 1), &BY_METHOD_2, [0xff, 0xff]),
        // one probability
        ((1, 1), &[0xfc, 0x00, 0x00, 0x00], [0xff, 0xff]),
        ((2, 1), &TWO_CHANNELS, [0xff, 0x00]),
        ((2, 1), &TWO_ALIKE, [0xff, 0xff]),
    ];
    for &(channels, frame, bytes) in &CASES {
        let heard = heard(rt.alloc(), channels, frame, bytes);
        assert_eq!(rt; (frame, heard), (frame, Ok(Some((Ok(0), None)))));
    }
}

#[test]
fn what_is_behind_the_code_is_unread(rt: HostRuntime) {
    // 37,689 bits are taken
    let long: [u8; 9410] = filled(&ONES, 0x00);
    let heard = heard(rt.alloc(), (1, 1), &long, [0xff, 0xff]);
    assert_eq!(rt; heard, Ok(Some((Ok(4698), None))));
}

// The tail of a frame of so many channels behind one whose samples are 1.
fn tail_of(alloc: Global, count: u32, frame: &[u8]) -> Result<Option<Tail>, AllocError> {
    let Some(channels) = Channels::new(count) else {
        return Ok(None);
    };
    match decoded(alloc, channels, &ONES, frame)? {
        Some((_, tail)) => Ok(Some(tail)),
        None => Ok(None),
    }
}

#[test]
fn a_code_that_is_no_encoders_is_decoded_all_the_same(rt: HostRuntime) {
    let noise: [u8; 9410] = filled(&NOISE, 0xbb);
    assert_eq!(rt; tail_of(rt.alloc(), 1, &noise), Ok(Some(Ok(9261))));
}

// The tail of a plain frame with this first byte, of so many bytes, and whether its sound is the bytes behind the first.
fn plain(alloc: Global, first: u8, length: usize) -> Result<Option<(Tail, bool)>, AllocError>
    requires { length ≤ 4708 }
{
    let Some(mono) = Channels::new(1) else {
        return Ok(None);
    };
    let mut frame = [0x69; 4708];
    frame[0] = first;
    match decoded(alloc, mono, &ONES, &frame[..length])? {
        Some((sound, tail)) => Ok(Some((tail, sound.as_slice() == &frame[1..4705]))),
        None => Ok(None),
    }
}

#[test]
fn plain_frames_give_their_sound(rt: HostRuntime) {
    let alloc = rt.alloc();
    let answers = [
        plain(alloc, 0x00, 4705),
        plain(alloc, 0x00, 4708),
        plain(alloc, 0x40, 4705),
        plain(alloc, 0x40, 4708),
    ];
    assert_eq!(rt;
        answers,
        [0, 3, 0, 3].map(|unread| Ok(Some((Ok(unread), true))))
    );
}

#[test]
fn frames_are_refused_at_their_first_fault(rt: HostRuntime) {
    const CASES: [(u32, &[u8], Reason, u64); 16] = [
        (1, &FIRST_BIT_1, Reason::FirstCodeBit, 45),
        (1, &TWELVE_ONES, Reason::CodeRange, 46),
        (1, &[0xe0], Reason::MultiSegment, 3),
        (3, &[0xfb, 0x80], Reason::MapSkips, 7),
        (3, &[0xfb, 0x00], Reason::Truncated, 12),
        (1, &[0xfc, 0x07, 0x80], Reason::MethodReserved, 15),
        (1, &[0xfc, 0x07, 0x00], Reason::TableTooShort, 15),
        (1, &[0xfc, 0x06, 0x3f, 0xc2], Reason::CoefRange, 29),
        (1, &PROBABILITY_0, Reason::ProbRange, 43),
        (1, &PROBABILITY_129, Reason::ProbRange, 43),
        (1, &[], Reason::Truncated, 0),
        (1, &[0xfc], Reason::Truncated, 7),
        (1, &[0xfc, 0x00], Reason::Truncated, 15),
        (1, &[0xfc, 0x00, 0x00], Reason::Truncated, 24),
        (1, &[0xfc, 0x00, 0x00, 0x05], Reason::Truncated, 31),
        (1, &[0xfc, 0x00, 0x00, 0x05, 0xff], Reason::Truncated, 38),
    ];
    for &(count, frame, reason, bit) in &CASES {
        let tail = tail_of(rt.alloc(), count, frame);
        let refused = Ok(Some(Err(FrameFault { reason, bit })));
        assert_eq!(rt; (frame, tail), (frame, refused));
    }
}

#[test]
fn plain_frames_are_refused_at_their_first_fault(rt: HostRuntime) {
    let alloc = rt.alloc();
    let stuffed = FrameFault {
        reason: Reason::PlainStuffing,
        bit: 2,
    };
    let short = FrameFault {
        reason: Reason::Truncated,
        bit: 8,
    };
    let tails = [
        tail_of(alloc, 1, &[0x01; 4705]),
        tail_of(alloc, 1, &[0x00; 4704]),
    ];
    assert_eq!(rt; tails, [stuffed, short].map(|fault| Ok(Some(Err(fault)))));
}

// Whether frames may be decoded side by side into these sounds.
fn are_fit(frames: &[StoredFrame], channels: Channels, heard: &[DecodedFrame]) -> bool
    ensures few { result ≡ true → length frames.now ≤ 8 }
    ensures same { result ≡ true → length heard.now ≡ length frames.now }
    ensures stored { result ≡ true → AreStored frames.now }
    ensures frames { result ≡ true → (n : ℕ) (other : StoredFrame) → n < length frames.now
        → (get_or frames.now n other).size ≤ 2 * (sound_bytes channels + 1) }
    ensures sounds { result ≡ true → (n : ℕ) (other : DecodedFrame) → n < length frames.now
        → length (get_or heard.now n other).sound.items ≡ sound_bytes channels }
{
    if frames.len() > 8 || heard.len() != frames.len() {
        return false;
    }
    let bytes = channels.sound_bytes();
    for n in 0..frames.len() {
        let size = frames[n].size as usize;
        if size > frames[n].bytes.len() || size > 2 * (bytes + 1) {
            return false;
        }
        if heard[n].sound.len() != bytes {
            return false;
        }
    }
    true
}

// A frame in a buffer of the greatest length.
fn stored(alloc: Global, channels: Channels, frame: &[u8]) -> Result<StoredFrame, AllocError> {
    let most = channels.sound_bytes() + 1;
    let mut bytes = vec![in alloc; 0u8; most]?;
    let size = frame.len().min(most);
    bytes[..size].copy_from_slice(&frame[..size]);
    Ok(StoredFrame {
        bytes,
        size: size as u32,
    })
}

// Frames in such buffers.
fn all_stored(
    alloc: Global,
    channels: Channels,
    frames: &[&[u8]],
) -> Result<Vec<StoredFrame>, AllocError> {
    let mut all = Vec::with_capacity(alloc, frames.len())?;
    for frame in frames {
        all.push(stored(alloc, channels, frame)?)?;
    }
    Ok(all)
}

// Room for the sounds of so many frames.
fn rooms(alloc: Global, channels: Channels, count: usize) -> Result<Vec<DecodedFrame>, AllocError> {
    let mut heard = Vec::with_capacity(alloc, count)?;
    for _ in 0..count {
        heard.push(DecodedFrame {
            sound: vec![in alloc; 0u8; channels.sound_bytes()]?,
            answer: Ok(9),
        })?;
    }
    Ok(heard)
}

// Decodes frames side by side. False where they aren't fit.
fn decode_all(
    alloc: Global,
    channels: Channels,
    frames: &[&[u8]],
    heard: &mut [DecodedFrame],
) -> Result<bool, AllocError> {
    let stored = all_stored(alloc, channels, frames)?;
    if !are_fit(&stored, channels, heard) {
        return Ok(false);
    }
    let mut scratch = BatchScratch::new(alloc, channels)?;
    decode_batch(&stored, channels, &mut scratch, heard);
    Ok(true)
}

// Whether decoding a frame alone makes this of it.
fn is_as_alone(
    alloc: Global,
    channels: Channels,
    frame: &[u8],
    heard: &DecodedFrame,
) -> Result<bool, AllocError> {
    match decoded(alloc, channels, &ONES, frame)? {
        Some((sound, tail)) => Ok(
            heard.answer == tail && (tail.is_err() || heard.sound.as_slice() == sound.as_slice()),
        ),
        None => Ok(false),
    }
}

fn are_as_alone(
    alloc: Global,
    channels: Channels,
    frames: &[&[u8]],
    heard: &[DecodedFrame],
) -> Result<bool, AllocError> {
    for (frame, one) in frames.iter().zip(heard.iter()) {
        if !is_as_alone(alloc, channels, frame, one)? {
            return Ok(false);
        }
    }
    Ok(true)
}

// What decoding makes of frames side by side, which for each of them is what it makes of the frame alone. None where it isn't.
fn side_by_side(
    alloc: Global,
    channels: Channels,
    frames: &[&[u8]],
) -> Result<Option<Vec<DecodedFrame>>, AllocError> {
    let mut heard = rooms(alloc, channels, frames.len())?;
    if !decode_all(alloc, channels, frames, &mut heard)? {
        return Ok(None);
    }
    if !are_as_alone(alloc, channels, frames, &heard)? {
        return Ok(None);
    }
    Ok(Some(heard))
}

// The byte at this place of the sound of each of at most eight frames of so many channels, none where it is refused; and how many they are.
type Bytes = (usize, [Option<u8>; 8]);

fn bytes_of(
    alloc: Global,
    count: u32,
    frames: &[&[u8]],
    place: usize,
) -> Result<Option<Bytes>, AllocError> {
    let Some(channels) = Channels::new(count) else {
        return Ok(None);
    };
    let Some(heard) = side_by_side(alloc, channels, frames)? else {
        return Ok(None);
    };
    let mut bytes = [None; 8];
    for (one, byte) in heard.iter().zip(bytes.iter_mut()) {
        *byte = byte_of(one, place);
    }
    Ok(Some((heard.len(), bytes)))
}

// The byte at a place of a frame's sound, none where it is refused.
fn byte_of(heard: &DecodedFrame, place: usize) -> Option<u8> {
    if heard.answer.is_err() {
        return None;
    }
    heard.sound.as_slice().get(place).copied()
}

// The first bytes of so many, and none behind them.
fn first_of(bytes: &[Option<u8>; 8], count: usize) -> [Option<u8>; 8] {
    let mut first = [None; 8];
    for (byte, place) in bytes.iter().zip(first.iter_mut()).take(count) {
        *place = *byte;
    }
    first
}

// Frames with a filter for each channel, and with one for both.
#[test]
fn channels_side_by_side_share_tables_or_do_not(rt: HostRuntime) {
    const FRAMES: [&[u8]; 5] = [
        &TWO_ALIKE,
        &TWO_CHANNELS,
        &TWO_CHANNELS,
        &TWO_ALIKE,
        &TWO_CHANNELS,
    ];
    let second = [
        Some(0xff),
        Some(0x00),
        Some(0x00),
        Some(0xff),
        Some(0x00),
        None,
        None,
        None,
    ];
    assert_eq!(rt; bytes_of(rt.alloc(), 2, &FRAMES, 1), Ok(Some((5, second))));
}

// Of eight frames of one channel the first alone, the first two, and so on, side by side: the first byte of each one's sound.
fn first_bytes_are(rt: &impl Abort, alloc: Global, frames: &[&[u8]; 8], bytes: &[Option<u8>; 8]) {
    for count in 1..9usize {
        assert_eq!(rt;
            bytes_of(alloc, 1, &frames[..count], 0),
            Ok(Some((count, first_of(bytes, count))))
        );
    }
}

// A plain frame of one channel.
fn plain_frame() -> [u8; 4705] {
    let mut plain = [0x69; 4705];
    plain[0] = 0x00;
    plain
}

// Coefficients 0, 1 and -1, two segmentations, two maps, three coefficients by method 2; then a plain frame, and one whose first code bit is 1:
// up to six all are coded.
#[test]
fn frames_side_by_side_are_decoded_as_alone(rt: HostRuntime) {
    let plain = plain_frame();
    let frames: [&[u8]; 8] = [
        &ONES,
        &AS_BEFORE,
        &TURNED,
        &TWO_SEGMENTATIONS,
        &TWO_MAPS,
        &BY_METHOD_2,
        &plain,
        &FIRST_BIT_1,
    ];
    let bytes = [
        Some(0xff),
        Some(0x00),
        Some(0xaa),
        Some(0xff),
        Some(0xff),
        Some(0xff),
        Some(0x69),
        None,
    ];
    first_bytes_are(&rt, rt.alloc(), &frames, &bytes);
}

// The same frames, the refused one first.
#[test]
fn frames_behind_a_refused_one_are_decoded_as_alone(rt: HostRuntime) {
    let plain = plain_frame();
    let frames: [&[u8]; 8] = [
        &FIRST_BIT_1,
        &plain,
        &BY_METHOD_2,
        &TWO_MAPS,
        &TWO_SEGMENTATIONS,
        &TURNED,
        &AS_BEFORE,
        &ONES,
    ];
    let bytes = [
        None,
        Some(0x69),
        Some(0xff),
        Some(0xff),
        Some(0xff),
        Some(0xaa),
        Some(0x00),
        Some(0xff),
    ];
    first_bytes_are(&rt, rt.alloc(), &frames, &bytes);
}
