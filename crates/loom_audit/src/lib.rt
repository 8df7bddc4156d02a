//! The tests by which any plan of a project is judged, whoever made it, one by one. Each tells
//! whether it holds, and where not, the first place where it fails.
#![tactic(auto)]

mod costs;
mod cut_sets;
mod degrees;
mod end_counts;
mod laid;
mod laid_set;
mod layout_cost;
mod layout_tree;
mod layout_wires;
mod layouts;
mod leg;
mod links;
mod module_lines;
mod pin_index;
mod pin_lines;
mod point_costs;
mod rising;
mod routes;
mod rows;
mod set_cavities;
mod set_tables;
mod splice;
mod spot;
mod thread;
mod trees;
mod union_find;
mod walk;
mod wires_cost;

pub use costs::costs_failure;
pub use layouts::layouts_failure;
pub use routes::routes_failure;
pub use rows::rows_failure;
pub use spot::{PlanPart, Spot};
pub use trees::trees_failure;
