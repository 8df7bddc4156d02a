//! The words that every crate of loom speaks: names, numbers with a range, positions, limits,
//! want of memory, lists, and the sources and sinks of bytes.
#![tactic(auto)]

mod bytes;
mod failed;
mod limits;
mod list;
mod memory;
mod memory_sink;
mod memory_source;
mod name;
mod numbers;
mod positions;
mod sink;
mod source;
mod std_sink;
mod std_source;
mod steady_sink;
mod steady_source;
#[cfg(test)]
mod stream_tests;
#[cfg(test)]
mod tests;

pub use failed::{Failed, ReadStop};
pub use limits::{
    MAX_BARS, MAX_CAVITIES, MAX_CELLS, MAX_EDITS, MAX_ELEMENTS, MAX_FORMULA_DEPTH,
    MAX_FORMULA_NODES, MAX_INPUT_BYTES, MAX_NETS, MAX_NODES, MAX_OPTIONS, MAX_ROWS, MAX_RULES,
    MAX_SEGMENTS, MAX_SETS, MAX_STEPS, MAX_TERMINALS, MAX_WIRES, Which,
};
pub use list::List;
pub use memory::NoMemory;
pub use memory_sink::MemorySink;
pub use memory_source::MemorySource;
pub use name::Name;
pub use numbers::{Branch, Pins, Price};
pub use positions::{CavityNo, NetNo, NodeNo, OptionNo, SegmentNo};
pub use sink::{Sink, write_all};
pub use source::{Source, read_all};
pub use std_sink::StdSink;
pub use std_source::StdSource;
pub use steady_sink::SteadySink;
pub use steady_source::SteadySource;
