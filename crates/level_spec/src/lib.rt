//! Which parameters an encoder of Direct Stream Transfer tries for a frame's sound, in definitions: what is picked at each level
//! is part of what a coded file is, so that one file has one coded form.
//!
//! The definitions are in `specs/`: `Correlation` says how far samples agree with earlier ones, `Recursion` and `Scale` how a
//! filter's coefficients come from that, `Counts` how a table of probabilities comes from the filter's guesses, `Picks` which
//! filters and tables a level has. Sums are plain sums over samples; the recursion is a procedure in whole numbers, with its
//! roundings. Worked examples are theorems in `proofs/`.
//!
//! Nothing runs here. A contract of a crate above cites a definition:
//!
//! ```rust
//! ghost use Rattle.std.specs.Prelude.{◌≡◌};
//! ghost use Rattle.level_spec.specs.Scale.{bounded as bounded_of};
//!
//! /// A number, or the nearer bound of a filter's coefficients.
//! pub fn bounded(number: i64) -> i64
//!     ensures { result ≡ bounded_of number }
//! {
//!     number.min(255).max(-256)
//! }
//! ```
//!
//! A body whose proof needs a law calls it, as `level_spec::laws::picks_law();`, which does nothing.
#![tactic(auto)]

pub mod laws;
