//! The command that writes a plain file of made sound, from a number and a shape.
//!
//! ```text
//! match make_file(alloc, &mut sink, 7, 3, channels) {
//!     Ok(Made { frames }) => .. // three frames of made sound stand in the sink, settled
//!     Err(MakeFault::Memory(refused)) => .. // nothing was written
//!     Err(MakeFault::Write) => .. // a prefix of the file stands there
//! }
//! ```
#![tactic(auto)]

mod make;

pub use make::{Made, MakeFault, make_file};
