//! Files of one-bit sound (Philips DSDIFF 1.5) and the product's runs over them, as definitions.
//!
//! The crate has no code but [`FileFault`] and the texts of refused files ([`text_of_file`]); its substance is in `specs/`, which
//! contracts of the crates above cite:
//!
//! - `Bytes`, `Chunks`, `Form`, `Parts`, `Faults`, `Rules`: bytes and numbers, chunks, the form of a file, and the rules in
//!   their order (`form file` is `Ok` of a form, or `Err` of the first fault);
//! - `Origin`: the chunk `KEPT`; `Walk`: the frames in `DST ` and their index; `Streams`: files that come once, piece by piece;
//! - `Written`, `Coded`, `Decoded`, `Pieces`, `Cut`, `Made`, `Dsf`, `Samples`, `Ranges`: what each command writes;
//! - `Words`, `Refusal`, `Numbers`, `Texts`, `Lines`: command lines, refusals by command, the texts of reports;
//! - `Progress`, `Outcome`: how far a command came, and the one outcome of words and a file; `Laws`: the laws of files, as
//!   statements.
//!
//! A file is the list of its bytes, places are counted in bytes from its beginning, and all numbers in a DSDIFF file
//! have their greatest byte first. A contract cites a definition by its name:
//!
//! ```text
//! ghost use Rattle.dsdiff_spec.specs.Rules.{form_fault};
//!
//! pub fn check_form(file: &[u8]) -> Option<FileFault>
//!     ensures { result ≡ form_fault file.now }
//! ```
//!
//! `proofs/` has examples of each definition, by bytes and texts, and lemmas for the crates above; the first line of each file
//! says what it shows. `dsdiff_laws` has lemmas that need more of the files.
#![tactic(auto)]

mod faults;
pub mod laws;
mod refusal_texts;

pub use faults::FileFault;
pub use refusal_texts::{Numbers, Text, text_of_file};
