//! Tables of filter coefficients and of probabilities, as a frame of Direct Stream Transfer (ISO/IEC 14496-3, subpart 10) spells
//! them: plain, or as what a predictor leaves of them, in the code of Rice. Reading refuses at the first field that is cut
//! short or breaks its rule; writing takes the shortest of the spellings.
//!
//! ```text
//! let mut writer = BitWriter::new(alloc, 64)?;
//! let Some(table) = FilterTable::new(&[10, 20, 30]) else { return };
//! best_spelling::<Filters>(&table); // method 1 with m = 0, 32 bits
//! write_table::<Filters>(&table, &mut writer); // true
//!
//! let mut reader = BitReader::new(writer.bytes());
//! read_table::<Filters>(&mut reader)?.coefs(); // 10, 20, 30
//! ```
#![tactic(auto)]

mod appending;
mod kinds;
mod prediction;
mod reading;
mod rice;
mod spelling;
mod writing;

pub use kinds::{Filters, Probs, TableKind};
pub use reading::read_table;
pub use rice::{rice_length, rice_read, rice_write};
pub use spelling::{Spelling, best_spelling};
pub use writing::write_table;
