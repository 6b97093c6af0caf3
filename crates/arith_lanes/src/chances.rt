// What a lane needs of each probability, in sixteen bits.
ghost use Rattle.std.specs.Prelude.{◌≡◌, ◌+◌, ◌/◌, ◌%◌};
ghost use Rattle.arith_lanes.specs.Chances.{IsChance};

// The chances of all probabilities: each less 1, a mark, and the power of 2 with which it has eight bits.
macro_rules! chances {
    ($mark:literal) => {
        chances!(
            $mark;
            128: 1;
            64: 2 3;
            32: 4 5 6 7;
            16: 8 9 10 11 12 13 14 15;
            8: 16 17 18 19 20 21 22 23 24 25 26 27 28 29 30 31;
            4: 32 33 34 35 36 37 38 39 40 41 42 43 44 45 46 47 48 49 50 51 52 53 54 55 56 57 58 59 60 61 62 63;
            2: 64 65 66 67 68 69 70 71 72 73 74 75 76 77 78 79 80 81 82 83 84 85 86 87 88 89 90 91 92 93 94 95
                96 97 98 99 100 101 102 103 104 105 106 107 108 109 110 111 112 113 114 115 116 117 118 119
                120 121 122 123 124 125 126 127;
            1: 128;
        )
    };
    ($mark:literal; $($factor:literal: $($p:literal)*;)*) => {
        [$($($p - 1 + $mark + 256 * $factor),*),*]
    };
}

static CHANCES: [[u16; 128]; 2] = [chances!(0), chances!(128)];

/// The chance of an entry, which has a probability less 1 in its low seven bits. Bit 7 of the chance is that of the entry.
#[inline(always)]
pub fn chance(entry: u8) -> u16
    ensures prob { IsChance (entry % 128 + 1) result }
    ensures mark { result / 128 % 2 ≡ entry / 128 }
{
    CHANCES.as_flattened()[entry as usize]
}
