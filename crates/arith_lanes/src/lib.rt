//! Eight decoders of the twelve-bit arithmetic code of Direct Stream Transfer (ISO/IEC 14496-3, subpart 10) side by side: a step
//! takes one symbol of each of eight codes. All eight are in arrays of sixteen bits, so that a plain loop over them becomes
//! instructions for eight numbers at once.
//!
//! ```text
//! let mut lanes = ArithLanes::new();           // eight empty codes, all bits 0
//! lanes.begin(3, code)?;                       // lane 3 has this code
//! if lanes.are_short() {
//!     lanes.refill(3, bytes);                  // and so each lane: 47 bits ahead again
//! }
//! let symbols = lanes.decode(&chances);          // a chance has a lane's probability: `chance` gives that of an entry
//! lanes.end(3);                                // the place behind the bits of its code that are used so far
//! ```
//!
//! A step takes at most eight bits of a lane, and lanes that aren't short hold sixteen: two steps can follow one test.
#![tactic(auto)]

mod chances;
mod lane;
mod lanes;

pub use chances::chance;
pub use lanes::ArithLanes;
