//! Values of a frame of Direct Stream Transfer (ISO/IEC 14496-3, subpart 10), each made only where its rule holds.
//!
//! ```text
//! let Some(stereo) = Channels::new(2) else { return };
//! stereo.sound_bytes(); // 9,408: a 75th of a second of two channels at 64 times 44.1 kHz
//! let Some(filter) = FilterTable::new(&[128, -3]) else { return };
//! filter.coefs(); // 128 for the latest sample, -3 for the one before
//! ```
#![tactic(auto)]

mod channels;
mod map;
mod params;
mod prob;
mod tables;

pub use channels::Channels;
pub use dst_spec::{FrameFault, Reason};
pub use map::Map;
pub use params::Params;
pub use prob::Prob;
pub use tables::{FilterTable, ProbTable};
