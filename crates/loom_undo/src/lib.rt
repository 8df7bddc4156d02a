//! A project with the history of its edits, which can be undone and redone. No past project is
//! kept: only edits, and what takes each of them back.
#![tactic(auto)]

mod finding;
mod history;
mod inverse;
mod lists;
mod nets;
mod numbers;
mod old_values;
mod places;
mod removals;
mod steps;
mod stop;
mod taking_back;
#[cfg(test)]
mod tests;

pub use history::History;
pub use inverse::{Inverse, ListName};
pub use stop::UndoStop;
