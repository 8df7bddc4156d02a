//! Laws on the wires of sets. Each function does nothing: its contract is the law, and a caller
//! whose proof needs the law calls it.

ghost use Rattle.loom_wires.specs.Laws.{WiresAreUnique};

/// Sets have one list of wires.
pub fn wires_are_unique()
    ensures { WiresAreUnique }
{}
