//! DSF files, read as the DSDIFF form that stands for them, and the header of a DSF file.
//!
//! ```text
//! let form = open_dsf(&mut source)?; // what the header says, or the first fault of the file
//! let mut plain = DsfSource::new(&mut source, form); // a source of the plain DSDIFF form
//! write_dsf_head(&mut sink, &form)?; // the 92 bytes in front of the blocks
//! ```
//!
//! A DSF file has its samples in blocks of 4,096 bytes, the channels' blocks in turn; with 1 bit per sample the earliest is in the least
//! significant bit of a byte, with 8 in the most significant one. [`DsfSource`] holds one row of blocks, and takes no memory. Contracts
//! see a [`DsfForm`] as the record that the definitions of DSF files have (`specs/Forms.antt`).
#![tactic(auto)]

mod form;
mod header;
mod open;
mod plain;
mod row;
mod source;

pub use form::DsfForm;
pub use header::write_dsf_head;
pub use open::open_dsf;
pub use row::{clear_past, turn_bytes};
pub use source::DsfSource;
