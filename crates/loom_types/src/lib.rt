//! What a plan is made of: layouts, ends, wires, sets, pins, tables and modules, and the stops of
//! planning; and laws on the wires of a layout.
#![tactic(auto)]

mod laws;
mod layout;
mod plan;
mod set_mask;
mod stop;
#[cfg(test)]
mod tests;
mod wire;

pub use laws::{
    layout_wires_are_routed, layout_wires_cost, layout_wires_end_at_pins, layout_wires_form_tree,
};
pub use layout::Layout;
pub use plan::{Module, PinLine, Plan, SetLine, TableLine};
pub use set_mask::{rest, set_is_stem_and_rest, stem};
pub use stop::PlanStop;
pub use wire::{End, Wire};
