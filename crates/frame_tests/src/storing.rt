// Spellings worked out apart, frames that are stored plain, and stored frames decoded again.
use arrayvec::ArrayVec;
use dst_frames::{Scratch, decode_frame};
use dst_num::{Channels, FilterTable, Map, Params, ProbTable};
use frame_store::{OnePick, StoreScratch, spell_frame, store_frame};
use std::alloc::{AllocError, Global};

// Parameters by which each channel has a filter and a table of its own, or all have the first ones.
fn params_of(map: &[u8], filters: &[&[i16]], probs: &[&[u8]], half_prob: bool) -> Option<Params> {
    let mut halves = ArrayVec::new();
    for _ in map.iter().take(6) {
        let _ = halves.try_push(half_prob);
    }
    let mut tables = ArrayVec::new();
    for coefs in filters {
        let _ = tables.try_push(FilterTable::new(coefs)?);
    }
    let mut entries = ArrayVec::new();
    for table in probs {
        let _ = entries.try_push(ProbTable::new(table)?);
    }
    Params::new(Map::new(map)?, Map::new(map)?, halves, tables, entries)
}

// These bytes with zeros behind them, as many as the longest spelling has, and how many they are.
fn with_zeros(front: &[u8]) -> ([u8; 36], usize) {
    let mut bytes = [0; 36];
    for (byte, place) in front.iter().zip(bytes.iter_mut()) {
        *place = *byte;
    }
    (bytes, front.len())
}

// A spelling that is at most as long as the plain form, with zeros behind it, and its length. None where there is none, or there are no such
// parameters.
type Spelling = Option<([u8; 36], usize)>;

// The spelling of a sound of one channel by these parameters.
fn spelled(alloc: Global, params: &Params, sound: &[u8]) -> Result<Spelling, AllocError> {
    let Some(mono) = Channels::new(1) else {
        return Ok(None);
    };
    if params.half_prob.len() != mono.count() || sound.len() != mono.sound_bytes() {
        return Ok(None);
    }
    let mut scratch = StoreScratch::new(alloc, mono)?;
    if !spell_frame(params, sound, &mut scratch) {
        return Ok(None);
    }
    Ok(Some(with_zeros(scratch.spelled())))
}

// The same by an entry for both places, and a half bit: whether there are such parameters, and the spelling.
fn spelled_by(
    alloc: Global,
    sound: &[u8],
    entry: u8,
    half_prob: bool,
) -> Result<(bool, Spelling), AllocError> {
    match params_of(&[0], &[&[0]], &[&[entry, entry]], half_prob) {
        Some(params) => Ok((true, spelled(alloc, &params, sound)?)),
        None => Ok((false, None)),
    }
}

#[test]
fn spellings_are_those_worked_out(rt: HostRuntime) {
    let alloc = rt.alloc();
    let ones = [0xff; 4704];
    let mut one_zero = ones;
    one_zero[2] = 0xf7;
    let spellings = [
        spelled_by(alloc, &ones, 128, false),
        spelled_by(alloc, &ones, 1, false),
        spelled_by(alloc, &ones, 1, true),
        spelled_by(alloc, &one_zero, 1, false),
    ];
    // the spelling up to the zeros at its end, and its length; none is too long
    let (alike, _) = with_zeros(&[0xfc, 0x00, 0x00, 0x06, 0x00, 0x17, 0xf8]);
    let (half, _) = with_zeros(&[0xfe, 0x00, 0x00, 0x06, 0x00, 0x17, 0xf8]);
    let (but_one, _) = with_zeros(&[0xfc, 0x00, 0x00, 0x06, 0x00, 0x17, 0xfe, 0xea]);
    let wanted = [
        None,
        Some((alike, 35)),
        Some((half, 35)),
        Some((but_one, 36)),
    ];
    assert_eq!(rt; spellings, wanted.map(|spelling| Ok((true, spelling))));
}

// Whether a frame is decoded to the sound, with no byte unread.
fn comes_back(
    alloc: Global,
    channels: Channels,
    frame: &[u8],
    sound: &[u8],
) -> Result<bool, AllocError> {
    if frame.len() > 1 + channels.sound_bytes() {
        return Ok(false);
    }
    let mut again = vec![in alloc; 0u8; channels.sound_bytes()]?;
    let mut decoding = Scratch::new(alloc, channels)?;
    let tail = decode_frame(frame, channels, &mut decoding, &mut again);
    Ok(tail == Ok(0) && again.as_slice() == sound)
}

// The length and the first byte of the frame that is stored by these parameters alone, and whether it is decoded to the sound. None where the
// sound has another length, or there are no such parameters.
type Stored = Option<(usize, Option<u8>, bool)>;

fn stored_by(
    alloc: Global,
    channels: Channels,
    params: Option<Params>,
    sound: &[u8],
) -> Result<Stored, AllocError> {
    let Some(params) = params else {
        return Ok(None);
    };
    if sound.len() != channels.sound_bytes() {
        return Ok(None);
    }
    let mut scratch = StoreScratch::new(alloc, channels)?;
    store_frame(&OnePick::new(params), sound, channels, &mut scratch);
    let frame = scratch.stored();
    let same = comes_back(alloc, channels, frame, sound)?;
    Ok(Some((frame.len(), frame.first().copied(), same)))
}

// The same of so many channels, whose samples are 1, by these probabilities.
fn ones_stored(alloc: Global, count: u32, probs: [u8; 2]) -> Result<Stored, AllocError> {
    let Some(channels) = Channels::new(count) else {
        return Ok(None);
    };
    let ones = vec![in alloc; 0xffu8; channels.sound_bytes()]?;
    let params = params_of(&[0], &[&[0]], &[&probs], false);
    stored_by(alloc, channels, params, &ones)
}

#[test]
fn shorter_spellings_are_stored(rt: HostRuntime) {
    let alloc = rt.alloc();
    let stored = [
        ones_stored(alloc, 1, [128, 128]),
        ones_stored(alloc, 1, [1, 1]),
        ones_stored(alloc, 2, [1, 1]),
    ];
    // the length, the first byte
    let wanted = [(4705, 0x00), (35, 0xfc), (9409, 0x00)];
    assert_eq!(rt;
        stored,
        wanted.map(|(length, first)| Ok(Some((length, Some(first), true))))
    );
}

// Four samples of a kind in turn, and another one now and then by the numbers behind this state.
fn uneven_sound(alloc: Global, channels: Channels, state: &mut u32) -> Result<Vec<u8>, AllocError> {
    let mut sound = vec![in alloc; 0xc3u8; channels.sound_bytes()]?;
    for byte in sound.iter_mut() {
        *state = state.wrapping_mul(1_664_525).wrapping_add(1_013_904_223);
        *byte ^= (*state >> 24 & *state >> 16 & *state >> 8 & 0x41) as u8;
    }
    Ok(sound)
}

// Parameters with this map, and of three filters and tables as many as it has places for.
fn params_by(map: &[u8], half_prob: bool) -> Option<Params> {
    let filters: [&[i16]; 3] = [&[0, 0, 0, -90], &[10, -7, 30, -60, 15], &[-20, 0, 0, -100]];
    let probs: [&[u8]; 3] = [&[60, 40, 30, 25, 20], &[128, 100, 12], &[128]];
    let count = map.len().min(3);
    params_of(map, &filters[..count], &probs[..count], half_prob)
}

// Whether a stored frame of such sound is decoded to it, and whether it is shorter. None where it isn't stored.
fn uneven_stored(
    alloc: Global,
    map: &[u8],
    (count, multiple): (u32, u32),
    half_prob: bool,
    state: &mut u32,
) -> Result<Option<(bool, bool)>, AllocError> {
    let Some(channels) = Channels::at(count, multiple) else {
        return Ok(None);
    };
    let sound = uneven_sound(alloc, channels, state)?;
    match stored_by(alloc, channels, params_by(map, half_prob), &sound)? {
        Some((length, _, same)) => Ok(Some((same, length < sound.len()))),
        None => Ok(None),
    }
}

#[test]
fn stored_frames_are_decoded_to_their_sound(rt: HostRuntime) {
    // the map, the channels and the multiple
    const OWN: [(&[u8], (u32, u32)); 3] = [
        (&[0], (1, 2)),
        (&[0, 1], (2, 1)),
        (&[0, 1, 2, 0, 1, 2], (6, 1)),
    ];
    let mut state = 1u32;
    for &(map, channels) in &OWN {
        for half_prob in [false, true] {
            let stored = uneven_stored(rt.alloc(), map, channels, half_prob, &mut state);
            assert_eq!(rt; (map, stored), (map, Ok(Some((true, true)))));
        }
    }
}
