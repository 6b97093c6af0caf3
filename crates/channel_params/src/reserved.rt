// The probability of the reserved symbol, with which each code begins.
ghost use Rattle.std.specs.Prelude.{◌≡◌, ◌<◌, ◌≤ℤ◌, ◌^◌, pos, negsuc, [], length, get_or};
ghost use Rattle.dst_spec.specs.Bits.{signed_bits, low_bits};
ghost use Rattle.dst_spec.specs.Symbols.{reserved_probability as probability_of};
ghost use Rattle.channel_params.specs.Reserved.{turned};

use dst_num::{Params, Prob};

/// 1 and the low seven bits of coefficient 0 of filter 0 in reversed order.
pub fn reserved_probability(params: &Params) -> Prob
    requires { 0 < length params.now.half_prob }
    ensures { result ≡ probability_of params.now }
{
    let low = turned_round(nine_bits(first_coef(params)));
    match Prob::new(u32::from(low) + 1) {
        Some(prob) => prob,
        None => unreachable!(),
    }
}

fn first_coef(params: &Params) -> i16
    requires { 0 < length params.now.half_prob }
    ensures value { result ≡ get_or (get_or params.now.filters 0 []) 0 (pos 0) }
    ensures least { negsuc 255 ≤ℤ result }
    ensures most { result ≤ℤ pos 255 }
{
    let filters = params.filters.as_slice();
    filters[0].coefs()[0]
}

// The number of a coefficient's nine bits in two's complement.
fn nine_bits(coef: i16) -> u16
    requires least { negsuc 255 ≤ℤ coef }
    requires most { coef ≤ℤ pos 255 }
    ensures bits { signed_bits 9 coef ≡ low_bits 9 result }
    ensures small { result < 2 ^ 9 }
{
    if coef < 0 {
        (coef + 512) as u16
    } else {
        coef as u16
    }
}

// The low seven bits in reversed order.
fn turned_round(bits: u16) -> u8
    ensures value { result ≡ turned 7 bits }
    ensures small { result < 128 }
{
    let mut left = bits;
    let mut number = 0;
    for place in 0..7u32 {
        number = 2 * number + (left % 2) as u8;
        left /= 2;
    }
    number
}
