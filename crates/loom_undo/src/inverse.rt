use loom_base::{Branch, List, Name, Pins, Price};
use loom_formula::Formula;
use loom_project::{CavityDraft, NetDraft, NodeDraft, SegmentDraft, TerminalDraft};

/// A list of a project.
#[derive(Clone, Copy, Debug, PartialEq, Eq)]
pub enum ListName {
    Options,
    Rules,
    Nodes,
    Segments,
    Cavities,
    Nets,
}

/// What takes an edit back. Places are positions in the project as the edit left it, but for `Put`,
/// where they are those at which the removed thing stood.
#[derive(Drop)]
pub enum Inverse {
    /// Drops the last thing of a list, which was added.
    DropLast(ListName),
    /// Drops the last terminal of a net, which was added.
    DropTerminal {
        net: u32,
    },
    /// Puts a removed option back.
    PutOption {
        at: u32,
        name: Name,
    },
    /// Puts a removed rule back.
    PutRule {
        at: u32,
        when: Formula,
    },
    /// Puts a removed node back.
    PutNode {
        at: u32,
        node: NodeDraft,
    },
    /// Puts a removed run or coupler back.
    PutSegment {
        at: u32,
        segment: SegmentDraft,
    },
    /// Puts a removed cavity back.
    PutCavity {
        at: u32,
        cavity: CavityDraft,
    },
    /// Puts a removed net back.
    PutNet {
        at: u32,
        net: NetDraft,
    },
    /// Puts a removed terminal of a net back.
    PutTerminal {
        net: u32,
        at: u32,
        terminal: TerminalDraft,
    },
    /// Gives a run its old length.
    SetLength {
        at: u32,
        length: Price,
    },
    /// Gives a coupler its old price.
    SetPrice {
        at: u32,
        price: Price,
    },
    /// Gives a coupler its old number of pins.
    SetPins {
        at: u32,
        pins: Pins,
    },
    /// Gives a node its old branch cost.
    SetBranch {
        at: u32,
        branch: Branch,
    },
    /// Gives a terminal of a net its old formula.
    SetWhen {
        net: u32,
        at: u32,
        when: Formula,
    },
    /// Gives a net its old class.
    SetClass {
        net: u32,
        class: Name,
    },
    /// Gives a segment its old bars.
    SetBars {
        at: u32,
        bars: List<Name>,
    },
    /// Gives a coupler its old reserved pins.
    SetReserved {
        at: u32,
        reserved: List<u16>,
    },
}
