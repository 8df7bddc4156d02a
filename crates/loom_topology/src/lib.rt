//! Nodes, segments and cavities of a harness, the wiring trees over them, and tables of least
//! costs.
#![tactic(auto)]

mod fault;
mod incidence;
mod kind;
mod laws;
mod spreading;
mod table;
mod topology;
mod ways;

pub use fault::TopologyFault;
pub use kind::Kind;
pub use laws::{
    a_rule_applies, first_cavity_suffices, least_costs_are_legal, least_costs_are_unique,
    least_ways_are_short, legal_and_attained_is_least, legal_is_below_every_tree,
    power_is_one_cavity, reached_is_treed, trees_compose,
};
pub use table::Table;
pub use topology::Topology;
pub use ways::Way;
