//! The plan of a project: from live sets over layouts and pins to wires and modules.
#![tactic(auto)]

mod finding;
pub mod laws;
mod pinning;
mod planning;
mod printing;
mod slot_users;
mod slots;
pub mod stop_laws;
mod stops;
mod wiring;

pub use planning::{plan, plan_kept};
