ghost use Rattle.std.specs.Prelude.{◌≡◌, ◌<◌, ◌++◌, ◌∷◌, [], length, IfOk, OnOk};
ghost use Rattle.loom_project.specs.Draft.{node_names};
ghost use Rattle.loom_project.specs.Project.{placed_nodes};
ghost use Rattle.loom_project.specs.Sound.{node_check, nodes_check, Gives};

use crate::require::{add_name, label_number, within_limit};
use crate::{NodeDraft, Of, ProjectFault};
use loom_base::{MAX_NODES, Which};
use loom_formula::NameIndex;
use loom_topology::Topology;
use std::alloc::Global;

/// The nodes of a topology, found again by their names.
#[derive(Drop)]
pub struct Nodes {
    pub names: NameIndex,
    pub topology: Topology,
}

/// The nodes by their names and in a topology without segments, or the first failure among them.
#[tactic(auto, using(loom_base::proofs::EachLemmas::each_steps), unfolding(crate::specs::Sound::nodes_check))]
pub fn checked_nodes(alloc: Global, nodes: &[NodeDraft]) -> Result<Nodes, ProjectFault>
    ensures gives { Gives result (nodes_check nodes.now) }
    ensures names { IfOk result (λ made. made.names ≡ node_names nodes.now) }
    ensures topology { IfOk result (λ made. made.topology
        ≡ record { nodes = placed_nodes nodes.now; segments = []; cavities = [] }) }
{
    within_limit(Which::Nodes, MAX_NODES, nodes.len() as u64)?;
    let mut names = NameIndex::new(alloc);
    let mut harnesses = NameIndex::new(alloc);
    let mut topology = Topology::new(alloc);
    for node in nodes {
        check_node(&mut names, node)?;
        let harness = label_number(&mut harnesses, node.harness)?;
        topology.add_node(harness, node.branch)?;
    }
    Ok(Nodes { names, topology })
}

/// Takes the name of a node, or answers its first failure.
#[tactic(auto, unfolding(crate::specs::Sound::node_check))]
fn check_node(taken: &mut NameIndex, node: &NodeDraft) -> Result<(), ProjectFault>
    requires { length taken.old < 1024 }
    ensures gives { Gives result (node_check taken.old node.now) }
    ensures taken { OnOk result (taken.new ≡ taken.old ++ node.now.name ∷ []) }
{
    add_name(taken, Of::Node, node.name)
}
