//! Design rules: what of a harness's wires is too long or too crowded. A rule is shown the wires of
//! all variants one by one and then gives its findings; the caller hands rules in as boxes.
#![tactic(auto)]

mod busy_splice;
mod crowded_segment;
mod design_rule;
mod finding;
mod judging;
mod long_wire;
mod report;
mod tally;
#[cfg(test)]
mod tests;
mod watch;

pub use busy_splice::BusySplice;
pub use crowded_segment::CrowdedSegment;
pub use design_rule::DesignRule;
pub use finding::{Finding, Findings};
pub use judging::{add_rule, judge};
pub use long_wire::LongWire;
pub use report::Report;
