//! Pins for the crossings of couplers, by first fit.
//!
//! A slot is one crossing of a coupler by a net. In their order slots take the least pin of their
//! coupler that isn't reserved and that no earlier slot has which some choice makes used together
//! with them.
#![tactic(auto)]

mod fitting;
mod holders;
pub mod laws;
mod reserved;
mod slot;
mod stop;
#[cfg(test)]
mod tests;

pub use fitting::first_fit;
pub use slot::{CouplerPins, Slot};
pub use stop::PinStop;
