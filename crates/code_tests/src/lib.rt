//! Tests of the arithmetic code: ranges, decoding, one code at a time and eight side by side, and encoding. They stand here so that
//! the gate doesn't prove those crates again for them.
#![tactic(auto)]

#[cfg(test)]
mod compared;
#[cfg(test)]
mod decoding;
#[cfg(test)]
mod encoding;
#[cfg(test)]
mod lanes;
#[cfg(test)]
mod ranges;
