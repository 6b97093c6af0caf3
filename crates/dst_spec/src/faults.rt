// Why a frame is refused, and at which of its bits.
ghost use Rattle.std.specs.Prelude.{◌≡◌, ◌≤◌, length, codes};
ghost use Rattle.dst_spec.specs.Reasons.{reason_number, reason_name};

use thiserror::Error;

/// What is wrong with the first field of a frame that breaks a rule. Each reason shows as its number and its name.
#[derive(Clone, Copy, Debug, Drop, PartialEq, Eq, Error)]
#[error("{} {}", self.number(), self.name())]
pub enum Reason {
    /// The frame ends inside the field.
    Truncated = 1,
    /// One of the six bits behind a plain frame's first two isn't 0.
    PlainStuffing = 2,
    /// A channel has more than one segment.
    MultiSegment = 3,
    /// The number of a channel's table is greater than that of the next new table.
    MapSkips = 4,
    /// A table is coded by method 3.
    MethodReserved = 5,
    /// A table has fewer values than its method has plain.
    TableTooShort = 6,
    /// A coefficient isn't from -256 to 255.
    CoefRange = 7,
    /// A probability isn't from 1 to 128.
    ProbRange = 8,
    /// The first bit of the arithmetic code is 1.
    FirstCodeBit = 9,
    /// The first twelve bits of the code number are all 1.
    CodeRange = 10,
}

impl Reason {
    /// The reason's number in reports.
    pub fn number(self) -> u32
        ensures { result ≡ reason_number self }
    {
        self as u32
    }

    /// The reason's name in reports.
    pub fn name(self) -> &'static str
        ensures name { result.now ≡ codes (reason_name self) }
        ensures short { length result.now ≤ 14 }
    {
        match self {
            Reason::Truncated => "Truncated",
            Reason::PlainStuffing => "PlainStuffing",
            Reason::MultiSegment => "MultiSegment",
            Reason::MapSkips => "MapSkips",
            Reason::MethodReserved => "MethodReserved",
            Reason::TableTooShort => "TableTooShort",
            Reason::CoefRange => "CoefRange",
            Reason::ProbRange => "ProbRange",
            Reason::FirstCodeBit => "FirstCodeBit",
            Reason::CodeRange => "CodeRange",
        }
    }
}

/// The first field of a frame that breaks a rule: why, and its first bit. Bit 0 is the most significant bit of the
/// frame's first byte.
#[derive(Clone, Copy, Debug, Drop, PartialEq, Eq, Error)]
#[error("{reason} at bit {bit}")]
pub struct FrameFault {
    pub reason: Reason,
    pub bit: u64,
}
