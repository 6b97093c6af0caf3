//! Bits read from lent bytes, and bits written into a buffer that never grows. The most significant bit of a byte is its
//! first. A call that refuses changes nothing.
//!
//! ```text
//! let mut writer = BitWriter::new(alloc, 2)?;
//! writer.put(5, 3); // 101
//! writer.put(9, 4); // 1001
//! writer.finish(); // one zero bit
//!
//! let mut reader = BitReader::new(writer.bytes());
//! reader.read(3); // Some(5)
//! reader.read_signed(4); // Some(-7)
//! reader.read(2); // None: one bit is left
//! reader.read_or_zero(2); // 0
//! ```
#![tactic(auto)]

mod reader;
mod window;
mod writer;

pub use reader::{BitReader, BitSlice};
pub use writer::BitWriter;
