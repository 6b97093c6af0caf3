//! The prediction of a sample from the 128 samples before it, as in Direct Stream Transfer (ISO/IEC 14496-3,
//! subpart 10): the sum of a filter's coefficients, each positive where its sample is 1 and negative where it is 0.
//!
//! `predict` looks up eight samples at a time, and is the plain meaning:
//!
//! ```text
//! let filter = ByteFilter::build(&table);
//! let mut history = History::fresh();    // the samples before a frame: 0, 1, 0, 1 and so on, the newest first
//! let first = predict(&filter, &history);
//! history.push(true);                    // the first sample is 1
//! let second = predict(&filter, &history);
//! ```
//!
//! Loops over whole frames hold the sums of samples to come instead, and add a row of them for each byte of samples.
//! They work with what the coefficients add upward, a number from 0 to 32,768: the prediction is twice that, less the
//! sum of the coefficients' sizes.
//!
//! ```text
//! rows.build(&table);                    // a `RowFilter` for frame after frame
//! let mut ahead = Ahead::fresh(&rows);
//! for byte in sound.iter_mut() {
//!     for place in 0..8 {
//!         let prediction = rows.prediction(ahead.upward(&rows, place));
//!         ahead.push(next_sample(prediction));
//!     }
//!     *byte = ahead.newest();
//!     ahead.take_byte(&rows);
//! }
//! ```
//!
//! `EightAhead` has the same of eight frames side by side, for loops over one sample of each. An encoder knows the samples, and
//! takes a byte of them at a time:
//!
//! ```text
//! filter.build(&table);                  // a `KnownFilter` for sound after sound
//! let mut ahead = KnownAhead::fresh(&filter);
//! for byte in sound.iter() {
//!     let upward = ahead.take_byte(&filter, *byte);   // for each of the eight samples
//! }
//! ```
#![tactic(auto)]

mod ahead;
mod byte_filter;
mod eight;
mod history;
mod known;
pub mod laws;
mod row_filter;
mod rows;

pub use ahead::Ahead;
pub use byte_filter::{ByteFilter, predict};
pub use eight::EightAhead;
pub use history::History;
pub use known::{KnownAhead, KnownFilter};
pub use row_filter::{RowFilter, filter_size};
