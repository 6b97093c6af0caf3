// A picker of the tests.
ghost use Rattle.std.specs.Prelude.{[]};

use dst_num::Channels;
use frame_predictions::Predictions;
use frame_store::{Candidates, Picker};

/// Picks no parameters, so that each frame is stored in its plain form.
pub(crate) struct NoPick;

impl Picker for NoPick {
    ghost picks = { λ _ _ _. [] };

    fn pick(
        &self,
        _sound: &[u8],
        _channels: Channels,
        _predictions: &mut Predictions,
        found: &mut Candidates,
    ) {
        found.clear();
    }
}
