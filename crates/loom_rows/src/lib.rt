//! Conditions over options as shared decision rows.
//!
//! A condition is never, always, or a row: an option, and the conditions that are left where it is
//! false and where it is true. For a fixed order of the options each condition has one reduced
//! graph, in which no two rows are equal and no row has equal branches. A table finds each row
//! again, so two of its conditions have one number exactly where no choice tells them apart, and
//! its rows are exactly the different leftovers of the conditions that were worked out.
//!
//! The limit on rows doesn't bound the memos of a call: two conditions may have as many pairs as
//! the product of their sizes.
#![tactic(auto)]

mod cond;
pub mod laws;
mod meetings;
mod op;
mod reduced;
mod rows;
mod stop;
#[cfg(test)]
mod tests;

pub use cond::{Cond, Row};
pub use meetings::Meetings;
pub use reduced::first_unreduced;
pub use rows::Rows;
pub use stop::RowsStop;
