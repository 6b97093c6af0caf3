//! What both coders of the twelve-bit arithmetic code of Direct Stream Transfer (ISO/IEC 14496-3, subpart 10) stand on: the
//! ranges between two symbols, the scale of a range, choices without a jump, and the laws on the interval of symbols that
//! decoding and encoding share.
//!
//! ```text
//! let scale = scale(3968);                    // 15: the quotient by 256, with bit 7 put in by OR
//! let high = 3968 - scale * 128;              // 2,048: where the part of a symbol 0 of probability 128 begins
//! select(symbol, high, scale * 128);          // the size of the symbol's part, by a mask
//! ```
//!
//! The definitions are in `specs/`: `Range` says what a range is, and by which power of 2 a probability has eight bits. A
//! proof of a coder takes the lemmas of `proofs/`.
#![tactic(auto)]

mod step;

pub use step::{scale, select};
