//! The words after the program's name: which job they ask for, read with clap.
#![tactic(auto)]

mod command;
mod job;
mod laws;
mod reading;
#[cfg(test)]
mod tests;

pub use job::{Job, WordsStop};
pub use laws::words_that_are_taken;
pub use reading::read_words;
