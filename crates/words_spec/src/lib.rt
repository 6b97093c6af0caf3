//! The words of the product's command lines, as definitions: which words are which command, and the one outcome of words and a
//! file.
//!
//! The crate has no code; its substance is in `specs/`, which contracts of the crates above cite:
//!
//! - `Slots`: words of a kind, and options; `Rows`: the rows of words, each with its command;
//! - `Outcome`: the one outcome of words and a file; `Laws`: the laws of words, as statements.
//!
//! A word is the list of its bytes. A contract cites a definition by its name:
//!
//! ```text
//! ghost use Rattle.words_spec.specs.Rows.{task_of};
//!
//! pub fn read_words(words: &[String]) -> Option<Task>
//!     ensures { option_map task_seen result ≡ task_of (map string_bytes words.now) }
//! ```
//!
//! `proofs/` has examples of each row and of outcomes, by words, bytes and texts.
#![tactic(auto)]

pub mod laws;
