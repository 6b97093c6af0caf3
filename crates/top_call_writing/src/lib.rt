//! Tests of the commands that write, whole runs of the top call over files in memory: coding, cutting, making.
#![tactic(auto)]

#[cfg(test)]
mod tests;
