//! Parts of the sound of a coded file, read from its frames, of which those that were wanted last are held decoded.
//!
//! ```text
//! let mut reader = RangeReader::new(alloc, &form, index, 16)?; // room for 16 frames, the last memory that is taken
//! let mut part = [0; 1000];
//! match reader.read(&mut source, 44_100, &mut part) {
//!     Ok(reading) => .. // bytes 44,100 to 45,099 of the sound; reading.decoded of its frames weren't held
//!     Err(RangeFault::Read) => .. // the source failed
//!     Err(RangeFault::Frame { frame, fault }) => .. // the first frame of the part that is refused
//! }
//! ```
//!
//! Which frames are decoded depends on the reads and the capacity alone. A fault leaves the reader serving.
#![tactic(auto)]

mod part;
mod reader;
mod slots;

pub use reader::{RangeFault, RangeReader, Reading};
