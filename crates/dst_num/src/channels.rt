// The channels of a file, and their rate.
ghost use Rattle.std.specs.Prelude.{◌≡◌, ◌*◌, ◌≤◌, IfNone, IfSome};
ghost use Rattle.dst_spec.specs.Sample.{Shape, IsShape, sound_bytes};
ghost use Rattle.dst_num.specs.Channels.{shape_of};

use std::marker::Model;

/// One to six channels, at a sampling rate of 64, 128 or 256 times 44.1 kHz. They give the shape of each frame, which is
/// a 75th of a second of sound.
#[derive(Clone, Copy, Debug, PartialEq, Eq)]
pub struct Channels {
    count: u32,
    multiple: u32,
}

impl Model for Channels {
    ghost use Rattle.std.specs.Prelude.{◌/◌};
    ghost use Rattle.std.proofs.Common.{ap, lit<};
    ghost use Rattle.std.proofs.Math.Nat.{mul-div_cancel_left};
    ghost use Rattle.dst_spec.specs.Sample.{Shape, IsShape};
    ghost use Rattle.dst_num.specs.Channels.{shape_of};

    ghost Value = { Shape };

    ghost view = { λ c. shape_of c.count c.multiple };

    ghost invariant = { λ c. IsShape (shape_of c.count c.multiple) };

    ghost inverse = { λ f. record { count = f.channels; multiple = f.octets / 4704 } };

    ghost inverse_ok = { λ c _. ap (λ m. record { count = c.count; multiple = m }) (mul-div_cancel_left c.multiple {n = 4704} (lit< tt)) };
}

impl Channels {
    /// So many channels at 64 times 44.1 kHz.
    pub fn new(count: u32) -> Option<Channels>
        ensures none { IfNone result (IsShape (shape_of count 1) → ⊥) }
        ensures value { IfSome result (λ c. c ≡ shape_of count 1) }
        ensures shape { IfSome result IsShape }
    {
        Channels::at(count, 1)
    }

    /// So many channels at `multiple` times 64 times 44.1 kHz. There are none unless the count is 1 to 6 and the multiple
    /// 1, 2 or 4.
    pub fn at(count: u32, multiple: u32) -> Option<Channels>
        ensures none { IfNone result (IsShape (shape_of count multiple) → ⊥) }
        ensures value { IfSome result (λ c. c ≡ shape_of count multiple) }
        ensures shape { IfSome result IsShape }
    {
        if count == 0 || count > 6 {
            return None;
        }
        if multiple != 1 && multiple != 2 && multiple != 4 {
            return None;
        }
        Some(Channels { count, multiple })
    }

    /// How many channels there are.
    pub fn count(self) -> usize
        ensures count { result ≡ self.channels }
        ensures shape { IsShape self }
    {
        self.count as usize
    }

    /// The rate in multiples of 64 times 44.1 kHz.
    pub fn multiple(self) -> usize
        ensures multiple { self.octets ≡ 4704 * result }
        ensures least { 1 ≤ result }
        ensures most { result ≤ 4 }
        ensures shape { IsShape self }
    {
        self.multiple as usize
    }

    /// Bytes of one frame's sound.
    pub fn sound_bytes(self) -> usize
        ensures bytes { result ≡ sound_bytes self }
        ensures least { 4704 ≤ result }
        ensures most { result ≤ 4704 * 4 * 6 }
        ensures shape { IsShape self }
    {
        4704 * self.multiple as usize * self.count as usize
    }
}
