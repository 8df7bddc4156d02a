/// A quantity that has a limit, as a refusal names it.
#[derive(Clone, Copy, Debug, PartialEq, Eq)]
pub enum Which {
    Options,
    Rules,
    FormulaNodes,
    FormulaDepth,
    Nodes,
    Segments,
    Bars,
    Cavities,
    Nets,
    Terminals,
    Edits,
    Sets,
    Cells,
    Steps,
    Wires,
    Rows,
}

/// Bytes of an input.
pub const MAX_INPUT_BYTES: u64 = 67_108_864;
/// Options of a project.
pub const MAX_OPTIONS: u64 = 512;
/// Rules of a project.
pub const MAX_RULES: u64 = 1_024;
/// Nodes of all formulas of a project together.
pub const MAX_FORMULA_NODES: u64 = 65_536;
/// Depth of a formula; a leaf has depth 1.
pub const MAX_FORMULA_DEPTH: u64 = 64;
/// Nodes of a topology.
pub const MAX_NODES: u64 = 1_024;
/// Segments of a topology, runs and couplers together.
pub const MAX_SEGMENTS: u64 = 4_096;
/// Names that one segment bars.
pub const MAX_BARS: u64 = 64;
/// Cavities of a topology.
pub const MAX_CAVITIES: u64 = 8_192;
/// Nets of a project.
pub const MAX_NETS: u64 = 2_048;
/// Terminals of one net; it has at least 2.
pub const MAX_TERMINALS: u64 = 12;
/// Edits of a document.
pub const MAX_EDITS: u64 = 4_096;
/// Live sets of all nets together.
pub const MAX_SETS: u64 = 16_384;
/// Table cells of all nets together.
pub const MAX_CELLS: u64 = 2_097_152;
/// Layout steps of all live sets together.
pub const MAX_STEPS: u64 = 1_000_000;
/// Wires of a plan.
pub const MAX_WIRES: u64 = 65_536;
/// Decision rows of one job.
pub const MAX_ROWS: u64 = 262_144;
/// Elements of an array that is read, so that their positions fit a u32.
pub const MAX_ELEMENTS: u64 = 4_294_967_293;
