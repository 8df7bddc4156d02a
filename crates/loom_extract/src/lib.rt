//! What one vehicle's harness takes of a plan: the wires that its choice of options makes live.
#![tactic(auto)]

mod stop;
#[cfg(test)]
mod tests;
mod variant;

pub use stop::ExtractStop;
pub use variant::{Variant, extract};
