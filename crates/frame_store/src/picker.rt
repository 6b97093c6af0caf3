// Where the parameters of a frame come from.
ghost use Rattle.std.specs.Prelude.{◌≡◌, ◌==◌, ℕ, if◌then◌else◌, List, [], ◌∷◌, length, All};
ghost use Rattle.dst_spec.specs.Sample.{Shape, sound_bytes};
ghost use Rattle.dst_spec.specs.Header.{Params as Parameters, IsParams};

use arrayvec::ArrayVec;
use dst_num::{Channels, Params};
use frame_predictions::Predictions;
use std::marker::Model;

/// The parameters that a frame is tried with, at most eleven.
pub type Candidates = ArrayVec<Params, 11>;

/// What finds parameters for a sound. Which these are depends on the sound and its channels alone.
pub trait Picker {
    /// The parameters that are picked, in order.
    ghost picks: { Self → List ℕ → Shape → List Parameters };

    /// Finds parameters for a frame's sound, with which the predictions were begun. Rows of predictions that it asks for are not
    /// made again for storing.
    fn pick(
        &self,
        sound: &[u8],
        channels: Channels,
        predictions: &mut Predictions,
        found: &mut Candidates,
    )
        requires sound { length sound.now ≡ sound_bytes channels }
        requires begun { predictions.old.sound ≡ sound.now }
        requires channels { predictions.old.channels ≡ channels }
        ensures found { found.new.items ≡ picks self.now sound.now channels }
        ensures lawful { All (IsParams channels.channels) found.new.items }
        ensures sound { predictions.new.sound ≡ predictions.old.sound }
        ensures channels { predictions.new.channels ≡ predictions.old.channels };
}

/// Picks the same parameters for each frame of as many channels, and none for others.
#[derive(Drop)]
pub struct OnePick {
    params: Params,
}

impl Model for OnePick {
    ghost use Rattle.dst_spec.specs.Header.{Params as Parameters};

    ghost Value = { Parameters };

    ghost view = { λ p. p.params };
}

impl OnePick {
    /// Picks these parameters.
    pub fn new(params: Params) -> OnePick
        ensures { result ≡ params }
    {
        OnePick { params }
    }
}

impl Picker for OnePick {
    ghost picks = { λ P sound f. if length P.half_prob == f.channels then P ∷ [] else [] };

    fn pick(
        &self,
        sound: &[u8],
        channels: Channels,
        predictions: &mut Predictions,
        found: &mut Candidates,
    ) {
        found.clear();
        if self.params.half_prob.len() == channels.count() {
            found.push(self.params.copy());
        }
    }
}
