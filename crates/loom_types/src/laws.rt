//! Laws on the wires of a set's layout. Each function does nothing: its contract is the law, which
//! holds of every topology, set, layout and choice of pins, and a caller whose proof needs the law
//! calls it.

ghost use Rattle.loom_types.specs.Laws.{LayoutWiresAreRouted, LayoutWiresCost, LayoutWiresEndAtPins, LayoutWiresFormTree};

/// The wires of a layout form one tree whose leaves are the set's cavities, where these are
/// different, and different steps over one coupler have different pins.
#[tactic(auto, using(crate::proofs::LayoutLaws::layout_wires_form_tree))]
pub fn layout_wires_form_tree()
    ensures { LayoutWiresFormTree }
{}

/// The wires of a layout cost what the layout does: the sum of their lengths, each pin's coupler
/// once, and the branch cost of each splice for each end past the second.
#[tactic(auto, using(crate::proofs::LayoutLaws::layout_wires_cost))]
pub fn layout_wires_cost()
    ensures { LayoutWiresCost }
{}

/// Each wire of a layout has its ends in range and a route that is a chain of open runs from end
/// to end, of the sum of whose lengths in millimetres it is; and it is of the layout's net.
pub fn layout_wires_are_routed()
    ensures { LayoutWiresAreRouted }
{}

/// Wires of a layout end at a pin of a coupler exactly where one of its steps over the coupler has
/// this pin.
pub fn layout_wires_end_at_pins()
    ensures { LayoutWiresEndAtPins }
{}
