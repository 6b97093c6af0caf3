// How a player calls the decoder.
use crate::decoder::PushDecoder;
use crate::step::Step;
use dsdiff_spec::FileFault;

/// What plays frames of coded sound.
pub trait Player {
    fn play(&mut self, frame: &[u8]);
}

/// Feeds a piece to a decoder, and its frames to a player. False where more bytes are to come.
pub fn play_piece<P: Player>(
    decoder: &mut PushDecoder,
    piece: &[u8],
    player: &mut P,
) -> Result<bool, FileFault> {
    let mut rest = piece;
    for _ in 0..u64::MAX {
        let (count, step) = match decoder.take(rest) {
            Ok(taken) => taken,
            Err(fault) => return Err(fault),
        };
        match step {
            Step::Head { .. } => {}
            Step::Frame { bytes, .. } => player.play(bytes),
            Step::More => return Ok(false),
            Step::End => return Ok(true),
        }
        rest = &rest[count..];
    }
    Ok(false)
}
