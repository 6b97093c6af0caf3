// What a symbol needs of its probability.
ghost use Rattle.arith_encoder.specs.Registers.{AreScalings};

// How far a probability is shifted to have eight bits, and what it is then.
#[derive(Clone, Copy)]
pub(crate) struct Scaling {
    pub(crate) scaled: u64,
    pub(crate) shift: u64,
}

macro_rules! scalings {
    ($($shift:literal: $($p:literal)*;)*) => {
        [$($(Scaling { scaled: $p << $shift, shift: $shift }),*),*]
    };
}

// The scaling of each probability from 1 to 127 at its place, that of 128 at place 0.
static SCALINGS: [Scaling; 128] = scalings! {
    0: 128;
    7: 1;
    6: 2 3;
    5: 4 5 6 7;
    4: 8 9 10 11 12 13 14 15;
    3: 16 17 18 19 20 21 22 23 24 25 26 27 28 29 30 31;
    2: 32 33 34 35 36 37 38 39 40 41 42 43 44 45 46 47 48 49 50 51 52 53 54 55 56 57 58 59 60 61 62 63;
    1: 64 65 66 67 68 69 70 71 72 73 74 75 76 77 78 79 80 81 82 83 84 85 86 87 88 89 90 91 92 93 94 95
       96 97 98 99 100 101 102 103 104 105 106 107 108 109 110 111 112 113 114 115 116 117 118 119 120
       121 122 123 124 125 126 127;
};

#[inline(always)]
pub(crate) fn scalings() -> &'static [Scaling; 128]
    ensures { AreScalings result.now }
{
    &SCALINGS
}
