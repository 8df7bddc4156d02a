//! What is said of a plan, whoever made it, and what a plan is that passes the nine rules.
#![tactic(auto)]

mod conditions;
mod judging;
pub mod laws;
mod live_lines;
mod met_sets;
mod pin_tables;
mod pins;
mod printed;
mod tables;
mod verdict;

pub use judging::check;
pub use verdict::Verdict;
