//! What prediction filters predict of one frame's sound, in Direct Stream Transfer (ISO/IEC 14496-3, subpart 10), as codes
//! of seven bits: for each sample the place of its prediction in a probability table, and whether the guess is wrong. An
//! encoder needs this of each filter more than once: it counts codes to choose probabilities, and measures and writes what
//! they come to. Each filter is followed through the sound once.
//!
//! ```text
//! let mut predictions = Predictions::new(alloc, channels)?;  // used again from frame to frame
//! predictions.begin(&sound);
//! let row = predictions.row(0, &filter);                     // of the first channel
//! for code in predictions.codes(row) {
//!     counts[*code as usize] += 1;                           // below 64 the sample is as guessed
//! }
//! ```
#![tactic(auto)]

mod fill;
pub mod laws;
mod predictions;
mod row;
mod single;

pub use predictions::Predictions;
pub use single::write_codes;
