//! The laws of streams: what a coded file of DSDIFF 1.5 is when it is read forward and comes once.
//!
//! The laws are contracts of the functions of [`laws`], which do nothing. A proof above takes a law by calling its function:
//!
//! ```text
//! laws::accepted_files_stream(); // a file that is accepted for decoding is a stream of its frames, and ends behind the last of them
//! laws::streams_are_lawful();    // what stands in front of frames keeps its rules, and no frame is too long
//! ```
//!
//! They speak of the definitions of `dsdiff_spec` alone. The proofs follow a stream chunk by chunk, along the chunks that opening and the walk find in the
//! file (`proofs/FramesCome.antt` in `DST `, `proofs/ChunksCome.antt` in the form), and along any bytes (`proofs/Lawful.antt`).
#![tactic(auto)]

pub mod laws;
