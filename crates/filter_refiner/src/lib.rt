//! Steps by which an encoder of Direct Stream Transfer (ISO/IEC 14496-3, subpart 10) refines a prediction filter, in whole numbers:
//! the values of `level_spec`. A filter is moved to where its guesses, weighted by how surprising each sample was, have nothing
//! left to learn from.
//!
//! ```text
//! let sums = sums_of(&counts);                      // of the filter's codes; the sums of what it predicts
//! let weights = weights_of(&counts);                // of a code, how surprising it is
//! add_gradient(&mut gradient, &codes, &weights, &sound, stereo, 0, 32);
//! let wanted = pulls(r0, sums, &gradient, &filter);
//! let moves = solve(&rows, &wanted)?;               // none where refining ends
//! let next = fit(&rows, &target(&filter, &moves));  // the greatest coefficient is 255 in size
//! let table = short_table(&counts);
//! filter_size(&next, &table, 1, &counts)            // in 4096ths of a bit
//! ```
#![tactic(auto)]

mod fitting;
mod gradient;
mod history;
mod rows;
mod sizes;
mod solving;
mod steps;

pub use fitting::{fit, length_without_zeros};
pub use gradient::add_gradient;
pub use rows::Rows;
pub use sizes::{filter_size, shorten};
pub use solving::solve;
pub use steps::{Sums, agree_little, entry, pulls, sums_of, target, weights_of};
