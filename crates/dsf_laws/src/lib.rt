//! The law of DSF files: what encoding writes of one is decoded to that file again, with its samples alone.
//!
//! The law is the contract of a function of [`laws`], which does nothing. A proof above takes it by calling the function:
//!
//! ```text
//! laws::samples_come_back(); // the file of the same header and samples, and no other
//! ```
//!
//! It speaks of the definitions of `dsdiff_spec` alone: of files of any size, for every list of parameters that an encoder may pick. The proof sees the
//! plain form that stands for the file as four chunks (`proofs/PlainForm.antt`), which keep the rules of a plain form since an accepted DSF file has
//! numbers of their sizes (`Accepted`); so the laws of coded files hold of it, and what is coded has the same `DSFK` behind its sound (`Chunks`). From
//! both come the header and the samples of the file (`Alike`, `ComingBack`).
#![tactic(auto)]

pub mod laws;
