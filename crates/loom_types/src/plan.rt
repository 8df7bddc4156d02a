use crate::{Layout, Wire};
use loom_base::{List, NetNo, SegmentNo};
use loom_formula::RowList;
use loom_topology::Table;

/// A live set of a net, with its least cost and its layout.
#[derive(Debug, Drop)]
pub struct SetLine {
    pub net: NetNo,
    /// Bit i stands for the net's terminal i.
    pub mask: u32,
    pub cost: u64,
    /// The number of the set's condition.
    pub row: u32,
    pub layout: Layout,
}

/// The pin that a crossing has: the ordinal-th step over the coupler in a layout of the net.
#[derive(Clone, Copy, Debug, PartialEq, Eq)]
pub struct PinLine {
    pub net: NetNo,
    pub coupler: SegmentNo,
    /// Counted from 1.
    pub ordinal: u32,
    /// Counted from 1.
    pub pin: u16,
}

/// The least costs of a net with a live set: its potentials.
#[derive(Debug, Drop)]
pub struct TableLine {
    pub net: NetNo,
    pub table: Table,
}

/// The wires of one harness that have one condition.
#[derive(Debug, Drop)]
pub struct Module {
    pub harness: u32,
    /// The number of the wires' condition.
    pub row: u32,
    /// The wires' positions, rising.
    pub wires: List<u32>,
}

/// The plan of a project.
#[derive(Debug, Drop)]
pub struct Plan {
    /// The rows of the conditions; condition 0 is never, 1 is always, the i-th row is i + 2.
    pub rows: RowList,
    /// In order of net, then mask.
    pub sets: List<SetLine>,
    /// In order of nets.
    pub tables: List<TableLine>,
    /// In order of net, coupler, ordinal.
    pub pins: List<PinLine>,
    /// In order of net, from, to, route.
    pub wires: List<Wire>,
    /// In order of harness, then of their first wires.
    pub modules: List<Module>,
}
