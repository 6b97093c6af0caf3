//! Tests of `dst_streams` and `frame_crew`: which calls of a device in memory fail, what real files and streams do, and one answer for every
//! number of workers. They stand in a crate of their own, so that the gate doesn't prove those crates once more for them.
#![tactic(auto)]

#[cfg(test)]
mod compared;
#[cfg(test)]
mod crew;
#[cfg(test)]
mod devices;
