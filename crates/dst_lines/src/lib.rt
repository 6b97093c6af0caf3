//! The lines of a report. The texts of refused files are those of `dsdiff_spec`, the names of a frame's faults those of
//! `dst_spec`.
//!
//! ```text
//! report.append(lines::decoded(2, 4705).as_bytes());       // "decoded 2 frames into 4705 bytes", with its line feed
//! report.append(lines::file_refused(fault).as_bytes());    // "file refused: 1 NotForm"
//! ```
//!
//! Nothing here takes memory: a line is text of a fixed room, which has place for the longest.
#![tactic(auto)]

pub mod lines;
