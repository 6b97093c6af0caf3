//! The encoder of the twelve-bit arithmetic code of Direct Stream Transfer (ISO/IEC 14496-3, subpart 10): from symbols with
//! their probabilities it writes the code. The low end of the symbols' interval is the code, and bits of it that have left the
//! encoder may still be turned over by a carry, so the last of them are held back; what is written never changes.
//!
//! ```text
//! let mut encoder = ArithEncoder::new(writer)?;            // the writer again where it has no room for 13 bits
//! if !encoder.encode(symbol, probability) {
//!     return encoder.abandon();                            // the code doesn't fit; the writer, without bits
//! }
//! let writer = encoder.finish();                           // with the code behind what it had
//! ```
//!
//! How long a code is can be known without its bits, in less time:
//!
//! ```text
//! let mut measure = CodeLength::new();
//! measure.add(symbol, probability);
//! measure.bits();                                          // 13, and one for each doubling
//! ```
//!
//! `narrow_lanes` measures eight codes side by side.
#![tactic(auto)]

mod encoder;
mod held;
mod lanes;
mod length;
mod narrow;
mod scaling;

pub use encoder::ArithEncoder;
pub use lanes::{narrow_lanes, step_of};
pub use length::CodeLength;
