//! Frames of Direct Stream Transfer (ISO/IEC 14496-3, subpart 10), spelled and stored. A picker gives parameters for a sound; what
//! is stored is the shortest of their spellings and the plain form, and so never longer than the plain form.
//!
//! ```text
//! let mut scratch = StoreScratch::new(alloc, channels)?;   // used again from frame to frame
//! store_frame(&picker, &sound, channels, &mut scratch);
//! scratch.stored();                                        // the stored frame
//!
//! if spell_frame(&params, &sound, &mut scratch) {
//!     scratch.spelled();                                   // the spelling by these parameters, at most as long as the plain form
//! }
//! ```
//!
//! The length of each spelling is known before its bits, so that no more than one is written for each stored frame.
#![tactic(auto)]

mod coded;
mod lanes;
mod lay_out;
mod measure;
mod picker;
mod scratch;
mod spell;
mod store;
mod within;

pub use picker::{Candidates, OnePick, Picker};
pub use scratch::StoreScratch;
pub use spell::spell_frame;
pub use store::store_frame;
