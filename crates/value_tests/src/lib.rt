//! Tests of what a frame is made of: reasons of refusals, bits, values, tables, headers, channels and predictions. They stand here so
//! that the gate doesn't prove those crates again for them.
#![tactic(auto)]

#[cfg(test)]
mod bits;
#[cfg(test)]
mod channels;
#[cfg(test)]
mod compared;
#[cfg(test)]
mod headers;
#[cfg(test)]
mod prediction;
#[cfg(test)]
mod reasons;
#[cfg(test)]
mod tables;
#[cfg(test)]
mod values;
