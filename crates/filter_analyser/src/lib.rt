//! Prediction filters and probability tables for a frame's sound, in Direct Stream Transfer (ISO/IEC 14496-3, subpart 10), by
//! level: the values of `level_spec`.
//!
//! ```text
//! let mut lags = [0; 129];
//! correlate(&sound, stereo, 0, &mut lags);   // of the first channel
//! let solution = solve_filter(&lags, 32);    // with 24 fraction bits
//! let filter = quantise(&solution, 32);      // 1 to 32 coefficients
//! let table = count_table(&sound, stereo, &[0], &filter);
//! ```
#![tactic(auto)]

mod counts;
mod lags;
mod picker;
mod picks;
mod recursion;
mod refined;
mod refining;
mod scale;
mod stretches;

pub use counts::count_table;
pub use lags::correlate;
pub use picker::LevelPicker;
pub use recursion::{solve_all, solve_filter};
pub use scale::quantise;
