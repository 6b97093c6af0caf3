//! Tests of devices that fail and of several workers, whole runs of the top call over files in memory.
#![tactic(auto)]

#[cfg(test)]
mod tests;
