//! Laws on wiring trees and legal tables. Each function does nothing: its contract is the law,
//! which holds of every topology, net and table, and a caller whose proof needs the law calls it.

ghost use Rattle.loom_topology.specs.Laws.{ARuleApplies, AttainedLegalIsLeast, FirstCavitySuffices, LeastCostsAreLegal, LeastCostsAreUnique, LeastWaysAreShort, LegalIsBelowEveryTree, NumberWhereReached, OneCavityIsFree, PowerIsOneCavity, ReachedIsTreed, StepAddsPrice, TreedIsReached, TreesJoin};

/// A legal table's number for a mask at a node is at most the cost of every wiring tree for the
/// mask's cavities from that node, however many steps the tree has.
#[tactic(auto, using(crate::proofs::LowerBound::legal_is_below_every_tree))]
pub fn legal_is_below_every_tree()
    ensures { LegalIsBelowEveryTree }
{}

/// Larger wiring trees are made of smaller ones: one cavity at its own node is free, a step over an
/// open segment in front adds its price, and two trees from one node for disjoint masks join for
/// the branch cost of the node.
pub fn trees_compose()
    ensures one { OneCavityIsFree }
    ensures over { StepAddsPrice }
    ensures both { TreesJoin }
{}

/// The mask of one terminal stands for its cavity alone.
#[tactic(auto, using(crate::proofs::Masks::power_is_one_cavity))]
pub fn power_is_one_cavity()
    ensures { PowerIsOneCavity }
{}

/// A split of a mask and its mirror image are one inequality, so a table that meets it for each
/// part that holds the mask's first cavity meets it for all parts.
#[tactic(auto, using(crate::proofs::FirstCavity::first_cavity_suffices))]
pub fn first_cavity_suffices()
    ensures { FirstCavitySuffices }
{}

/// A legal table each number of which is the cost of some wiring tree has the least costs, and
/// where it has no number there is no wiring tree.
#[tactic(auto, using(crate::proofs::LeastCost::attained_legal_is_least))]
pub fn legal_and_attained_is_least()
    ensures { AttainedLegalIsLeast }
{}

/// The cavities of a list have a wiring tree from a node exactly where each of them lies at a node
/// that chains of open segments reach from it, and so a least cost is a number exactly there.
pub fn reached_is_treed()
    ensures reached { ReachedIsTreed }
    ensures treed { TreedIsReached }
    ensures number { NumberWhereReached }
{}

/// A table of least costs is legal.
#[tactic(auto, using(crate::proofs::LeastLegal::least_costs_are_legal))]
pub fn least_costs_are_legal()
    ensures { LeastCostsAreLegal }
{}

/// Where a least cost is a number, some rule of laying a tree out applies there: the mask is one
/// cavity that lies at the node, or some first part and the rest come to the number with the branch
/// cost, or some open segment leads to a node whose number and the price come to it.
pub fn a_rule_applies()
    ensures { ARuleApplies }
{}

/// A least cost is one number, so two tables of least costs of one net have equal cells.
#[tactic(auto, using(crate::proofs::LeastCost::least_costs_are_unique))]
pub fn least_costs_are_unique()
    ensures { LeastCostsAreUnique }
{}

/// A least cost for one cavity is at most 1,000,000 for each node of the topology, since the way
/// over which it falls passes no node twice.
pub fn least_ways_are_short()
    ensures { LeastWaysAreShort }
{}
