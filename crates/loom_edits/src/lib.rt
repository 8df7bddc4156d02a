//! Edits of a project: each changes one thing of it, or is refused and changes nothing.
#![tactic(auto)]

mod applying;
mod copy;
mod edit;
mod elements;
mod fault;
mod nets;
mod nodes;
mod numbers;
mod options;
mod part;
mod places;
mod segments;
mod terminals;
mod uses;

pub use applying::{apply, edited};
pub use edit::Edit;
pub use elements::{
    with_bars, with_branch, with_class, with_length, with_pins, with_price, with_reserved,
    with_terminal, with_when, without_terminal,
};
pub use fault::EditFault;
pub use numbers::number_set;

#[cfg(test)]
mod tests;
