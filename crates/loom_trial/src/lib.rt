//! The trial: the draft of a harness of any size, a body with door branches.
#![tactic(auto)]

mod cavities;
mod names;
mod nets;
mod nodes;
mod options;
mod segments;
#[cfg(test)]
mod tests;
mod trial;

pub use trial::trial_project;
