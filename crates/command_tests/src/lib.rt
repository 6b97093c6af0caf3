//! Tests of `dst_commands`, `dst_show`, `dst_make` and `dst_cut`, each call by itself, over devices that fail as well. They stand in a crate of
//! their own, so that the gate doesn't prove those crates once more for them.
#![tactic(auto)]

#[cfg(test)]
mod cutting;
#[cfg(test)]
mod making;
#[cfg(test)]
mod opening;
#[cfg(test)]
mod showing;
