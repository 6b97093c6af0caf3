//! Tests of whole frames: decoded alone and side by side, followed by filters, and stored. They stand here so that the gate doesn't
//! prove those crates again for them.
#![tactic(auto)]

#[cfg(test)]
mod frames;
#[cfg(test)]
mod rows;
#[cfg(test)]
mod storing;
