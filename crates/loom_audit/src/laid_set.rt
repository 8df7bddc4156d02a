use loom_base::{CavityNo, List, NetNo};
use loom_types::Layout;

/// A set whose layout is cut into wires.
#[derive(Drop)]
pub(crate) struct LaidSet {
    pub net: NetNo,
    /// Its cavities in the order of the net's terminals.
    pub cavities: List<CavityNo>,
    /// The wiring tree from the node of the first cavity for the others.
    pub layout: Layout,
}
