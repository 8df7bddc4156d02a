use loom_base::{Branch, List, Name};
use loom_formula::Formula;
use loom_topology::Kind;

/// A project as it is written down. All links are names, and nothing is promised of them.
#[derive(Drop)]
pub struct Draft {
    /// The names of the vehicle options.
    pub options: List<Name>,
    /// What every choice of the options has to meet.
    pub rules: List<Formula>,
    pub nodes: List<NodeDraft>,
    /// Runs and couplers together.
    pub segments: List<SegmentDraft>,
    pub cavities: List<CavityDraft>,
    pub nets: List<NetDraft>,
}

/// A place of a harness.
#[derive(Clone, Copy, Debug, Drop)]
pub struct NodeDraft {
    pub name: Name,
    /// The harness in which the node lies, a label.
    pub harness: Name,
    /// The cost of a splice at the node for each wire past the second.
    pub branch: Branch,
}

/// A run or a coupler between two nodes.
#[derive(Debug, Drop)]
pub struct SegmentDraft {
    pub name: Name,
    /// The name of the node where the segment begins.
    pub from: Name,
    /// The name of the node where it ends.
    pub to: Name,
    pub kind: Kind,
    /// The classes of nets that may not pass the segment; a class may be named more than once.
    pub bars: List<Name>,
    /// The pins of a coupler that no net gets; a pin may be named more than once.
    pub reserved: List<u16>,
}

/// A cavity of a device.
#[derive(Clone, Copy, Debug, Drop)]
pub struct CavityDraft {
    pub name: Name,
    /// The device that has the cavity, a label.
    pub device: Name,
    /// The name of the node where the cavity lies.
    pub node: Name,
}

/// A net, which joins the cavities of its terminals.
#[derive(Drop)]
pub struct NetDraft {
    pub name: Name,
    /// The class of the net, a label.
    pub class: Name,
    pub terminals: List<TerminalDraft>,
}

/// A cavity that a net needs where a formula holds.
#[derive(Drop)]
pub struct TerminalDraft {
    /// The name of the cavity.
    pub cavity: Name,
    pub when: Formula,
}
