//! What the parameters of a frame of Direct Stream Transfer (ISO/IEC 14496-3, subpart 10) give a channel, for decoding and for
//! encoding alike: its filter, its probability table and its half bit, and the probability of the reserved symbol before all samples.
//!
//! ```text
//! let filter = channel_filter(&params, c);           // by the number that the filters' map has for the channel
//! let probs = channel_probs(&params, c);
//! let first = alike_channel(&params, c);             // the first channel that has the same of all three
//! let reserved = reserved_probability(&params);
//! ```
#![tactic(auto)]

mod channel;
mod reserved;

pub use channel::{alike_channel, channel_filter, channel_half_prob, channel_probs};
pub use reserved::reserved_probability;
