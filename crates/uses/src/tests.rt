// A small file, read by its frames, and one of these decoded and stored again.
use crate::{Listener, PlayFault, frames_of_file, is_coded, sound_of_frame, stored_frame};
use dst_num::{Channels, Params};
use dst_streams::HonestSource;
use example_files::EXAMPLE;
use std::test::Fail;

// The lengths of what it heard, added up.
#[derive(Drop)]
struct Heard {
    bytes: usize,
}

impl Listener for Heard {
    fn hear(&mut self, frame: &[u8], _channels: Channels) {
        self.bytes = self.bytes.saturating_add(frame.len());
    }
}

#[test]
fn the_frames_of_a_file_are_answered(rt: HostRuntime) -> Result<(), Fail> {
    let mut source = HonestSource::new(EXAMPLE);
    let mut heard = Heard { bytes: 0 };
    let count = frames_of_file(rt.alloc(), &mut source, &mut heard);
    assert!(rt; matches!(count, Ok(1)));
    assert_eq!(rt; heard.bytes, 6);
    Ok(())
}

#[test]
fn a_frame_is_decoded_and_stored_again(rt: HostRuntime) -> Result<(), Fail> {
    let alloc = rt.alloc();
    let channels = Channels::at(1, 1).ok_or("no channels")?;
    let coded = [0xfc, 0, 0, 5, 0xff, 0xf8];
    assert_eq!(rt; is_coded(&coded, channels), Ok(true));
    let sound = sound_of_frame(alloc, &coded, channels).map_err(|_| "no sound")?;
    assert!(rt; sound.iter().all(|byte| *byte == 0xff));
    let damaged = [0xfc, 0, 0, 5];
    assert!(rt;
        matches!(
            sound_of_frame(alloc, &damaged, channels),
            Err(PlayFault::Frame(_))
        )
    );
    let stored = stored_frame(alloc, &sound, channels, Params::default())?;
    assert!(rt; stored.len() <= 4705);
    Ok(())
}
