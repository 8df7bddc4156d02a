//! Whether a table of costs is legal: no cell is above what its inequalities allow, and so no cell
//! is above what any wiring tree costs.
#![tactic(auto)]

mod first_break;
mod inequalities;
mod laws;
mod parts;
#[cfg(test)]
mod tests;
mod ways;

pub use first_break::{FirstBreak, Part};
pub use inequalities::legal;
pub use laws::unbroken_is_legal;
