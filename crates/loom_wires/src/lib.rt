//! The wires of all nets: each set's layout is cut at its stops, equal wires are one, and each has
//! the condition under which some set has it. Wires of equal condition make the modules of a
//! harness.
#![tactic(auto)]

mod cut_wire;
mod found;
mod harness_modules;
mod joined;
mod laid_set;
pub mod laws;
mod leg;
mod pin_index;
mod set_wires;
mod splice;
mod stop;
#[cfg(test)]
mod tests;
mod thread;
mod walk;
mod wire_key;
mod wires;

pub use cut_wire::CutWire;
pub use harness_modules::modules;
pub use laid_set::LaidSet;
pub use stop::WireStop;
pub use wires::cut;
