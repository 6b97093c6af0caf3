//! Tests of `dst_read`, `dst_write` and `dst_dsf`, each call by itself: several workers, devices that fail, files known byte for byte. They stand
//! in a crate of their own, so that the gate doesn't prove those crates once more for them.
#![tactic(auto)]

#[cfg(test)]
mod compared;
#[cfg(test)]
mod dsf;
#[cfg(test)]
mod holding;
#[cfg(test)]
mod no_pick;
#[cfg(test)]
mod reading;
#[cfg(test)]
mod writing;
