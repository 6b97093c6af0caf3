//! Tests of `chunk_view`, `dsdiff_chunks`, `dsf_files` and `frame_index`: small files by their bytes, opened, walked or refused. They stand in a
//! crate of their own, so that the gate doesn't prove those crates once more for them.
#![tactic(auto)]

#[cfg(test)]
mod chunks;
#[cfg(test)]
mod compared;
#[cfg(test)]
mod dsf;
#[cfg(test)]
mod forms;
#[cfg(test)]
mod index;
