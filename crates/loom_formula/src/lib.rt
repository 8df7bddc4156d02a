//! Formulas over options, choices of options, and lists of decision rows.
#![tactic(auto)]

mod choice;
mod formula;
mod holds;
mod measures;
mod name_index;
mod options;
mod row_list;

pub use choice::{Choice, ChoiceFault};
pub use formula::{Formula, Members};
pub use holds::broken;
pub use name_index::NameIndex;
pub use options::Options;
pub use row_list::{Row, RowFault, RowList};

#[cfg(test)]
mod tests;
