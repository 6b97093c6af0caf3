//! Tests of the parameters that an encoder picks, of the steps that refine them, and of made sound. They stand here so that the gate
//! doesn't prove those crates again for them.
#![tactic(auto)]

#[cfg(test)]
mod making;
#[cfg(test)]
mod picks;
#[cfg(test)]
mod refining;
