//! The decoder of the twelve-bit arithmetic code of Direct Stream Transfer (ISO/IEC 14496-3, subpart 10): from the bits of a
//! code and the probability of each symbol it gives the symbols.
//!
//! ```text
//! let mut decoder = ArithDecoder::new(code)?;    // the bits behind a frame's header
//! let symbol = decoder.decode(probability);      // true where the symbol is 1
//! decoder.used();                                // bits of the code that are used so far
//! ```
#![tactic(auto)]

mod decoder;
pub mod laws;
mod rows;
mod step;

pub use decoder::ArithDecoder;
