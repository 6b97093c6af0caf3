//! The laws of DSDIFF 1.5 files (Philips, version 1.5) whose sound is coded by Direct Stream Transfer: what encoding writes is
//! accepted, and decoding gives back the file that was encoded, byte for byte; what cutting writes is accepted, and is decoded to
//! the sounds of the frames that were asked for.
//!
//! The laws are contracts of the functions of [`laws`], which do nothing. A proof above takes a law by calling its function:
//!
//! ```text
//! laws::acceptance(); // the written file is accepted, its frames are the stored ones, its index is its walk
//! laws::restoring();  // the file that was encoded comes back from it, and no other
//! laws::cutting();    // what is cut out of a file is accepted, its frames are those that were asked for
//! ```
//!
//! They speak of the definitions of `dsdiff_spec` alone: of files of any size, for every list of parameters that an encoder may
//! pick. The proofs see a file as the chunks that it is made of (`proofs/Filed.antt`): a file that keeps the rules of a form has
//! its `FVER` first, one `PROP` and one sound (`FormParts`, `PlainParts`); what encoding writes has the same chunks around `DST `,
//! `DSTI` and `KEPT` (`CodedChunks`), keeps all rules (`CodedRules`), is walked (`CodedWalk`, `CodedIndex`), and comes back
//! (`Restoring`). A file that `cut` accepts has frames among the chunks in its `DST ` (`CutRules`, `FrameChunks`), which is cut at
//! them (`MiddleFrames`); what is written has these chunks (`CutChunks`), keeps all rules (`CutForm`) and is walked (`CutWalk`).
#![tactic(auto)]

pub mod laws;
