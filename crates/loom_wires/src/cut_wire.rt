use loom_base::{List, NetNo, SegmentNo};
use loom_rows::Cond;
use loom_types::End;

/// A wire with the condition under which it is live.
#[derive(Drop)]
pub struct CutWire<'a> {
    pub net: NetNo,
    /// The lesser end.
    pub from: End,
    /// The greater end.
    pub to: End,
    /// The runs in order, from `from` to `to`.
    pub route: List<SegmentNo>,
    /// The sum of the runs' lengths, in millimetres.
    pub length: u64,
    pub cond: Cond<'a>,
}
