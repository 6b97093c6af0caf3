// Parts of the sound.
use super::files::Made::{Known, OddPlain, TwoChanged, TwoFrames};
use super::{NOTHING, Row, all_give};

// Frames of 4,704 and 1 counting bytes of one channel, so that a group is a byte: bytes 4,702 to 4,704 are 184 to 186.
const PARTS: [Row; 8] = [
    (
        "range a b 4704 1\nrange 1 bytes\n",
        TwoFrames,
        0,
        Known(&[186]),
    ),
    (
        "range a b 4702 3 0 2 4704 1\nrange 6 bytes\n",
        TwoFrames,
        0,
        Known(&[184, 185, 186, 0, 1, 186]),
    ),
    ("range a b 4705 0\nrange 0 bytes\n", TwoFrames, 0, NOTHING),
    (
        "range a b 0 1 4704 2 9999 9\nfile refused: 33 RangePast 4706 4705\n",
        TwoFrames,
        5,
        NOTHING,
    ),
    (
        "range a b 4294967295 4294967295\nfile refused: 33 RangePast 8589934590 4705\n",
        TwoFrames,
        5,
        NOTHING,
    ),
    (
        "range a b 0 1\nfile refused: 27 NotCoded\n",
        OddPlain,
        5,
        NOTHING,
    ),
    (
        "range a b 7 1 4702 3 0 1\nframe 1 refused: 2 PlainStuffing at bit 2\n",
        TwoChanged(b"\0", b"\x03"),
        6,
        Known(&[7, 184, 185]),
    ),
    (
        "range a b 4703 1\nrange 1 bytes\n",
        TwoChanged(b"\0", b"\x03"),
        0,
        Known(&[185]),
    ),
];

#[test]
fn parts_of_the_sound_are_written(rt: HostRuntime) {
    all_give(&rt, rt.alloc(), &PARTS);
}
