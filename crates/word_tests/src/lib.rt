//! Tests of `dst_lines` and `dst_words`: the tables of a report's lines and of a command's words. They stand in a crate of their own, so that the
//! gate doesn't prove those crates once more for them.
#![tactic(auto)]

#[cfg(test)]
mod texts;
#[cfg(test)]
mod words;
