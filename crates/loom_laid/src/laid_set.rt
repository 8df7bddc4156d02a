use loom_base::{List, NetNo};
use loom_rows::Cond;
use loom_types::{Layout, TableLine};

/// A live set with its layout.
#[derive(Drop)]
pub struct LaidSet<'a> {
    pub net: NetNo,
    /// Bit i stands for the net's terminal i.
    pub mask: u32,
    /// The condition under which the set is live.
    pub cond: Cond<'a>,
    /// The least cost of a wiring tree for the set, in millimetres.
    pub cost: u64,
    pub layout: Layout,
}

/// The live sets in order with their layouts, and the tables of least costs of the nets that have
/// one, in order of nets.
#[derive(Drop)]
pub struct Laid<'a> {
    pub sets: List<LaidSet<'a>>,
    pub tables: List<TableLine>,
}
