//! Tables of the least costs of wiring trees: a row for each set of cavities, worked out from the
//! rows of smaller sets by splits, and then spread over the segments from a worklist.
#![tactic(auto)]

mod filler;
mod filling;
mod ground;
mod least_table;
mod row;
mod scratch_table;
mod split;
#[cfg(test)]
mod tests;
mod ways;
mod worklist;

pub use filler::{DirectFiller, Filler};
pub use filling::fill;
pub use least_table::table;
pub use scratch_table::ScratchTable;
