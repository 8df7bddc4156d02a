use loom_base::{CavityNo, List, NetNo, NodeNo, SegmentNo, Which};
use loom_formula::Choice;

/// Why a project has no plan.
#[derive(Debug, Drop)]
pub enum PlanStop {
    /// No choice is valid.
    NoChoice,
    /// The valid choice makes the cavity active in both nets.
    Clash {
        cavity: CavityNo,
        first: NetNo,
        second: NetNo,
        choice: Choice,
    },
    /// The cavity isn't among the nodes that are reached from the set's first cavity.
    Unreachable {
        net: NetNo,
        cavity: CavityNo,
        reached: List<NodeNo>,
    },
    /// First fit has no pin for this crossing.
    NoPin {
        net: NetNo,
        coupler: SegmentNo,
        ordinal: u32,
    },
    /// The quantity passes its limit; the count is the limit plus one.
    Limit {
        which: Which,
        count: u64,
    },
    /// Memory ran out.
    NoMemory,
}
