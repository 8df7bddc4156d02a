//! Layouts: how a live set's wiring tree lies over a topology, fixed by the least costs alone.
#![tactic(auto)]

mod laws;
mod rule;
mod set_layout;
mod stop;
#[cfg(test)]
mod tests;
mod walk;

pub use laws::{layout_exists, layout_is_unique, layouts_are_least_trees, nodes_fix_layouts};
pub use set_layout::layout;
pub use stop::LayoutStop;
