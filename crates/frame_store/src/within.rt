// Probabilities in seven bits.
ghost use Rattle.std.specs.Prelude.{◌≡◌, ◌<◌};
ghost use Rattle.frame_store.specs.Probs.{prob_in};

use dst_num::Prob;

/// The probability in the low seven bits of a byte, where 128 is 0.
#[inline(always)]
pub(crate) fn prob_within(low: u8) -> Prob
    requires { low < 128 }
    ensures { result ≡ prob_in low }
{
    let value = if low == 0 { 128 } else { u32::from(low) };
    match Prob::new(value) {
        Some(prob) => prob,
        None => unreachable!(),
    }
}
