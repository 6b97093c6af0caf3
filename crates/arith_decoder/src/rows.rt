// What a symbol needs of its probability and of the range.
ghost use Rattle.std.specs.Prelude.{◌≤◌};
ghost use Rattle.arith_decoder.specs.Registers.{IsRow};

// The part of symbol 0 of a probability for the five highest bits of a range: its scale times the probability.
macro_rules! part {
    ($five:literal, $p:literal) => {
        ($five / 2 | $five % 2) * $p
    };
}

// The parts of all probabilities, that of 128 in front of the others.
macro_rules! column {
    ($five:literal) => {
        column!(
            $five,
            128 1 2 3 4 5 6 7 8 9 10 11 12 13 14 15 16 17 18 19 20 21 22 23 24 25 26 27 28 29 30 31
            32 33 34 35 36 37 38 39 40 41 42 43 44 45 46 47 48 49 50 51 52 53 54 55 56 57 58 59 60
            61 62 63 64 65 66 67 68 69 70 71 72 73 74 75 76 77 78 79 80 81 82 83 84 85 86 87 88 89
            90 91 92 93 94 95 96 97 98 99 100 101 102 103 104 105 106 107 108 109 110 111 112 113
            114 115 116 117 118 119 120 121 122 123 124 125 126 127
        )
    };
    ($five:literal, $($p:literal)*) => {
        [$(part!($five, $p)),*]
    };
}

// The powers of 2 with which the probabilities have eight bits, that of 128 in front of the others.
const FACTORS: [u16; 128] = [
    1, 128, 64, 64, 32, 32, 32, 32, 16, 16, 16, 16, 16, 16, 16, 16, 8, 8, 8, 8, 8, 8, 8, 8, 8, 8,
    8, 8, 8, 8, 8, 8, 4, 4, 4, 4, 4, 4, 4, 4, 4, 4, 4, 4, 4, 4, 4, 4, 4, 4, 4, 4, 4, 4, 4, 4, 4, 4,
    4, 4, 4, 4, 4, 4, 2, 2, 2, 2, 2, 2, 2, 2, 2, 2, 2, 2, 2, 2, 2, 2, 2, 2, 2, 2, 2, 2, 2, 2, 2, 2,
    2, 2, 2, 2, 2, 2, 2, 2, 2, 2, 2, 2, 2, 2, 2, 2, 2, 2, 2, 2, 2, 2, 2, 2, 2, 2, 2, 2, 2, 2, 2, 2,
    2, 2, 2, 2, 2, 2,
];

const NONE: [u16; 128] = [0; 128];

// In column 0 are the factors, from column 16 on the parts for a range's six highest bits. A range below 2048 has those of
// its double.
macro_rules! columns {
    ($($five:literal)*) => {
        [
            FACTORS, NONE, NONE, NONE, NONE, NONE, NONE, NONE,
            NONE, NONE, NONE, NONE, NONE, NONE, NONE, NONE,
            $(column!($five)),*,
            $(column!($five), column!($five)),*
        ]
    };
}

static COLUMNS: [[u16; 128]; 64] = columns!(16 17 18 19 20 21 22 23 24 25 26 27 28 29 30 31);

// The row of a probability, 128 places from column to column. Its place comes first, since the range is known last.
#[inline(always)]
pub(crate) fn row(p: u32) -> &'static [u16]
    requires least { 1 ≤ p }
    requires most { p ≤ 128 }
    ensures { IsRow p result.now }
{
    &COLUMNS.as_flattened()[(p % 128) as usize..]
}
