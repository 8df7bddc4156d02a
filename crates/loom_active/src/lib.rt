//! What nets need under the choices that the rules allow, and what a right plan of a project is.
#![tactic(auto)]

mod clash;
pub mod laws;
mod live;
#[cfg(test)]
mod live_tests;
mod patterns;
mod printed;
mod rules;
mod stop;
mod terminals;
#[cfg(test)]
mod tests;

pub use live::{LiveSet, Sets, live_sets};
pub use printed::{ValidRows, valid_printed};
pub use rules::valid;
pub use stop::ActiveStop;
