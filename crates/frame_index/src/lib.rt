//! Where the frames of a coded form stand.
//!
//! [`walk`] goes from chunk to chunk through `DST ` (DSDIFF 1.5). Each `DSTF` is the next frame, and all other chunks, as
//! the checksums `DSTC`, are passed over. Twelve bytes of each chunk are read and no body. The [`Index`] that it gives has
//! an [`Entry`] for each frame, in twelve bytes.
//!
//! A file may have such an index of its own, the chunk `DSTI`. [`read_index`] reads it, [`compare`] finds where it differs
//! from the walk, and [`locate_by_index`] finds one frame by its entry alone, from 24 bytes. [`laws`] ties what they answer
//! to the rules of checking a file.
//!
//! ```
//! let Form::Coded(form) = open_form(alloc, &mut source)? else {
//!     return Err(OpenFault::File(FileFault::NotCoded));
//! };
//! let index = walk(alloc, &mut source, &form)?;
//! for k in 0..index.length() {
//!     let frame = index.entry(k);
//!     read_range(&mut source, frame.offset, &mut buffer[..frame.size as usize])?;
//! }
//! let own = read_index(alloc, &mut source, &form)?; // that of the file
//! let same = compare(&own, &index).is_none();
//! let third = locate_by_index(&mut source, &form, 2)?; // where there are three frames
//! ```
#![tactic(auto)]

mod frames;
mod index;
pub mod laws;
mod lookup;

pub use frames::walk;
pub use index::{Entry, Index, compare};
pub use lookup::{locate_by_index, read_index};
