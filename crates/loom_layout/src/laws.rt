//! Laws on layouts. Each function does nothing: its contract is the law, which holds of every
//! topology, net and least costs, and a caller whose proof needs the law calls it.

ghost use Rattle.loom_layout.specs.Laws.{LayoutIsUnique, LayoutExists, LayoutsAreLeastTrees, NodesFixLayouts, NodesFixLeastCosts};

/// A set has one layout at most: least costs leave no choice.
pub fn layout_is_unique()
    ensures { LayoutIsUnique }
{}

/// Where a mask has a least cost at a node, it has a layout from there.
pub fn layout_exists()
    ensures { LayoutExists }
{}

/// Least costs and layouts depend on the nodes of the terminals alone, and not on which cavities
/// lie there: what is kept for a list of nodes holds of each net whose terminals lie at them.
pub fn nodes_fix_layouts()
    ensures layouts { NodesFixLayouts }
    ensures least_costs { NodesFixLeastCosts }
{}

/// A layout is a wiring tree for its mask's cavities, none of its points has degree 1, and it costs
/// the least cost.
pub fn layouts_are_least_trees()
    ensures { LayoutsAreLeastTrees }
{}
