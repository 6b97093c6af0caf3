use dst_num::Channels;
use sound_maker::SoundMaker;
use std::alloc::{AllocError, Global};
use std::test::Fail;

// The bytes, each times its place from 1 on, together.
fn weighed(sound: &[u8]) -> u64 {
    let mut sum = 0u64;
    let mut place = 1u64;
    for byte in sound {
        sum = sum.wrapping_add(place.wrapping_mul(u64::from(*byte)));
        place = place.wrapping_add(1);
    }
    sum
}

// The first six bytes.
fn front_of(sound: &[u8]) -> [u8; 6] {
    let mut front = [0; 6];
    for (byte, place) in sound.iter().zip(front.iter_mut()) {
        *place = *byte;
    }
    front
}

// The first six bytes of each of the first two frames, and the bytes of the second one weighed.
type TwoFrames = ([u8; 6], [u8; 6], u64);

// What is made of a sound's first two frames.
fn two_frames(alloc: Global, start: u32, channels: Channels) -> Result<TwoFrames, AllocError> {
    let mut maker = SoundMaker::new(start, channels);
    let mut sound = vec![in alloc; 0u8; channels.sound_bytes()]?;
    maker.next_frame(&mut sound);
    let first = front_of(&sound);
    maker.next_frame(&mut sound);
    Ok((first, front_of(&sound), weighed(&sound)))
}

// The expected bytes are those of another program, which does the steps of the definition one by one, with the
// generator's published steps.
#[test]
fn two_frames_are_those_of_another_program(rt: HostRuntime) -> Result<(), Fail> {
    const ROWS: [(u32, u32, u32, [u8; 6], [u8; 6], u64); 3] = [
        (
            7,
            1,
            1,
            [0x84, 0x85, 0x05, 0x09, 0x09, 0x12],
            [0x25, 0x25, 0x18, 0xa4, 0xa4, 0x94],
            1_454_109_820,
        ),
        (
            u32::MAX,
            6,
            1,
            [0x50, 0x8c, 0x99, 0x9e, 0xaf, 0x73],
            [0x25, 0x82, 0x92, 0x72, 0xda, 0x7d],
            50_642_380_316,
        ),
        (
            1,
            2,
            2,
            [0x84, 0x61, 0x85, 0x92, 0x06, 0x94],
            [0x56, 0x4a, 0x38, 0x4a, 0xe3, 0x30],
            22_702_971_715,
        ),
    ];
    for &(start, count, multiple, first, second, sum) in &ROWS {
        let channels = Channels::at(count, multiple).ok_or("no channels")?;
        let made = two_frames(rt.alloc(), start, channels)?;
        assert_eq!(rt; made, (first, second, sum), "frames of {start}");
    }
    Ok(())
}
