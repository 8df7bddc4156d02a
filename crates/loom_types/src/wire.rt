ghost use Rattle.std.specs.Prelude.{◌≡◌, IfOk};
ghost use Rattle.loom_types.specs.WireOrder.{end_cmp, wire_cmp};

use loom_base::{CavityNo, List, NetNo, NoMemory, NodeNo, SegmentNo};
use std::alloc::Global;
use std::cmp::Ordering;

/// An end of a wire. Ends are ordered: cavities by number, then splices by node and ordinal, then
/// pins by coupler, pin and side.
#[derive(Clone, Copy, Debug, PartialEq, Eq, PartialOrd, Ord)]
pub enum End {
    Cavity(CavityNo),
    /// The ordinal-th splice at the node, counted from 1; a splice belongs to its wire's net.
    Splice {
        node: NodeNo,
        ordinal: u32,
    },
    /// A side of a coupler's pin: side 1 is at the coupler's `from` node, side 2 at its `to` node.
    Pin {
        coupler: SegmentNo,
        pin: u16,
        side: u32,
    },
}

impl End {
    /// How the end stands to another in the order of ends.
    pub fn order(&self, other: &End) -> Ordering
        ensures { result ≡ end_cmp self.now other.now }
    {
        self.cmp(other)
    }
}

/// A wire: a chain of runs between two ends.
#[derive(Debug, Drop)]
pub struct Wire {
    pub net: NetNo,
    /// The lesser end.
    pub from: End,
    /// The greater end.
    pub to: End,
    /// The runs in order, from `from` to `to`.
    pub route: List<SegmentNo>,
    /// The sum of the runs' lengths, in millimetres.
    pub length: u64,
    /// The number of the wire's condition among the printed rows: 0 never, 1 always.
    pub row: u32,
}

impl Wire {
    /// How the wire stands to another in the order of wires: by net, from, to and route.
    pub fn order(&self, other: &Wire) -> Ordering
        ensures { result ≡ wire_cmp self.now other.now }
    {
        self.net
            .cmp(&other.net)
            .then(self.from.order(&other.from))
            .then(self.to.order(&other.to))
            .then(self.route.as_slice().cmp(other.route.as_slice()))
    }

    /// The same wire.
    pub fn copy(&self, alloc: Global) -> Result<Wire, NoMemory>
        ensures { IfOk result (λ copy. copy ≡ self.now) }
    {
        Ok(Wire {
            net: self.net,
            from: self.from,
            to: self.to,
            route: self.route.copy(alloc)?,
            length: self.length,
            row: self.row,
        })
    }
}
