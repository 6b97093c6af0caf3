//! Forms of DSDIFF 1.5 files: opening one, and writing chunks of another.
//!
//! ```text
//! match open_form(alloc, source)? {
//!     // the channels, the chunks, the sound of each; or the file's first fault
//!     Form::Plain(form) => .. // with the bytes behind the form
//!     Form::Coded(form) => .. // with what `KEPT` says of the plain file
//! }
//! write_head(sink, *b"FRM8", size)?;
//! write_prop(sink, form.prop.as_slice(), cmpr)?; // `PROP` with another `CMPR`
//! copy_range(source, sink, buffer, head.place, head.place + 12 + head.size)?; // a chunk as it stands
//! write_frte(sink, frames)?; // and the chunks of coded sound: `FRTE`, frames, entries, `KEPT`
//! write_frame(sink, stored)?;
//! ```
//!
//! A contract sees a form as the record that the definitions of files have (`specs/Forms.antt`). What is said of contents
//! holds where the source tells its bytes. Each [`PlainForm`] and each [`CodedForm`] is lawful (`specs/Lawful.antt`), of
//! whatever source: its chunks tile it, its places lie within it, its lists are short.
#![tactic(auto)]

mod build;
mod coded;
mod common;
mod copy;
mod find;
mod form;
mod head;
mod lists;
mod open;
mod origin;
mod plain;
mod prop;
mod read;
mod top;
mod write;
mod write_coded;

pub use coded::frame_count_in;
pub use copy::{CopyFault, copy_range};
pub use dsdiff_spec::FileFault;
pub use find::{Finding, find_either};
pub use form::{CodedForm, Form, PlainForm};
pub use head::{head_of, read_head};
pub use lists::{ChunkHead, Heads, Octets};
pub use open::{OpenFault, open_form};
pub use origin::Origin;
pub use prop::{PropFields, read_prop};
pub use read::read_range;
pub use write::{append_all, cmpr_of_prop, prop_length, write_head, write_prop};
pub use write_coded::{write_entry, write_frame, write_frte, write_origin};
