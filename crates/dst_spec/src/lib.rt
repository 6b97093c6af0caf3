//! What a frame of Direct Stream Transfer means, in definitions: the lossless coding of one-bit sound of
//! ISO/IEC 14496-3, subpart 10, with one segment for each channel. The contracts of the coder's crates cite these
//! definitions, and whoever believes them needs to believe nothing else about frames. docs/FORMAT.md describes the format
//! in words and names the definition of each part.
//!
//! The definitions are in `specs/`: `Bits`, `Sample`, `Rice`, `Table`, `Map` and `Header` say how parameters are
//! spelled, `Guess`, `Symbols` and `Interval` what the arithmetic code has in it, `Means` which sound a frame means,
//! `Offends` which field of a frame is at fault, and `Spell` what the encoder writes. Worked examples of them are
//! theorems in `proofs/`.
//!
//! All that runs here is a reason's number and name, and what faults show. A contract of a crate above cites a definition:
//!
//! ```rust
//! ghost use Rattle.std.specs.Prelude.{◌≡◌, ◌<◌};
//! ghost use Rattle.dst_spec.specs.Interval.{scale as scale_of};
//!
//! /// What a symbol 0 of probability 1 has of a range.
//! pub fn scale(range: u32) -> u32
//!     requires { range < 4096 }
//!     ensures { result ≡ scale_of range }
//! {
//!     range >> 8 | range >> 7 & 1
//! }
//! ```
//!
//! A body whose proof needs a law calls it, as `dst_spec::laws::decoding_law();`, which does nothing, and its proof has
//! the law as `c.decoding_law.ensures`.
#![tactic(auto)]

mod faults;
pub mod laws;

pub use faults::{FrameFault, Reason};
