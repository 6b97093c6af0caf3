//! Tests of `push_decoder`, `frame_cache`, `dst_ranges` and `pipe_tool`: streams in pieces and parts of a sound, by their bytes. They stand in a
//! crate of their own, so that the gate doesn't prove those crates once more for them.
#![tactic(auto)]

#[cfg(test)]
mod fed;
#[cfg(test)]
mod held;
#[cfg(test)]
mod pipes;
#[cfg(test)]
mod ranges;
