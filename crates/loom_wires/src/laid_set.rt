use loom_base::{CavityNo, List, NetNo};
use loom_rows::Cond;
use loom_types::Layout;

/// A live set with its layout.
#[derive(Drop)]
pub struct LaidSet<'a> {
    pub net: NetNo,
    /// Bit i stands for the net's terminal i.
    pub mask: u32,
    /// The condition under which the set is live.
    pub cond: Cond<'a>,
    /// Its cavities in the order of the net's terminals.
    pub cavities: List<CavityNo>,
    /// The wiring tree from the node of the first cavity for the others.
    pub layout: Layout,
}
