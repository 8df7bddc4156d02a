use loom_base::{List, NetNo, SegmentNo};
use loom_rows::Cond;

/// A crossing of a coupler: the ordinal-th step over it, counted from 1, in a layout of the net;
/// and the condition under which it is used.
#[derive(Clone, Copy)]
pub struct Slot<'a> {
    pub net: NetNo,
    pub coupler: SegmentNo,
    pub ordinal: u32,
    pub usage: Cond<'a>,
}

/// The pins of a segment, numbered from 1, and those that are reserved; a run has none.
#[derive(Debug, Drop)]
pub struct CouplerPins {
    pub pins: u16,
    pub reserved: List<u16>,
}
