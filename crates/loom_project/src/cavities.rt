ghost use Rattle.std.specs.Prelude.{◌≡◌, ◌<◌, ◌++◌, ◌∷◌, [], length, map, IfOk, OnOk};
ghost use Rattle.loom_project.specs.Draft.{index_of, node_names, cavity_names};
ghost use Rattle.loom_project.specs.Sound.{cavity_check, cavities_check, Gives};

use crate::require::{add_name, known, within_limit};
use crate::{CavityDraft, Of, ProjectFault};
use loom_base::{MAX_CAVITIES, NodeNo, Which};
use loom_formula::NameIndex;
use loom_topology::Topology;
use std::alloc::Global;

/// Adds the cavities to a topology of the nodes and gives them by their names, or answers the first
/// failure among them.
#[tactic(auto, using(loom_base::proofs::EachLemmas::each_steps), unfolding(crate::specs::Sound::cavities_check))]
pub fn add_cavities(
    alloc: Global,
    topology: &mut Topology,
    places: &NameIndex,
    cavities: &[CavityDraft],
) -> Result<NameIndex, ProjectFault>
    requires nodes { length topology.old.nodes ≡ length places.now }
    requires none { topology.old.cavities ≡ [] }
    ensures gives { Gives result (cavities_check places.now cavities.now) }
    ensures names { IfOk result (λ names. names ≡ cavity_names cavities.now) }
    ensures added { OnOk result (topology.new ≡ record topology.old {
      cavities = map (λ cavity. index_of places.now cavity.node) cavities.now;
    }) }
{
    within_limit(Which::Cavities, MAX_CAVITIES, cavities.len() as u64)?;
    let mut names = NameIndex::new(alloc);
    for cavity in cavities {
        let node = checked_cavity(places, &mut names, cavity)?;
        topology.add_cavity(node)?;
    }
    Ok(names)
}

/// The node of a cavity, whose name is taken from then on, or its first failure.
#[tactic(auto, unfolding(crate::specs::Sound::cavity_check))]
fn checked_cavity(
    places: &NameIndex,
    taken: &mut NameIndex,
    cavity: &CavityDraft,
) -> Result<NodeNo, ProjectFault>
    requires { length taken.old < 8192 }
    ensures gives { Gives result (cavity_check places.now taken.old cavity.now) }
    ensures taken { OnOk result (taken.new ≡ taken.old ++ cavity.now.name ∷ []) }
    ensures node { IfOk result (λ node. node.0 ≡ index_of places.now cavity.now.node) }
    ensures within { IfOk result (λ node. node.0 < length places.now) }
{
    add_name(taken, Of::Cavity, cavity.name)?;
    Ok(NodeNo(known(Of::Node, places, cavity.node)?))
}
