ghost use Rattle.std.specs.Prelude.{◌≡◌, ◌<◌, All, length, map, IfOk, bytes_eq};
ghost use Rattle.std.proofs.Common.{rules};
ghost use Rattle.std.specs.Hash as fed;
ghost use Rattle.std.specs.Cmp.{partial_equiv_from_equiv};
ghost use Rattle.std.specs.Cmp.Lexicographic.{nat_list_eq_equiv};
ghost use Rattle.std.specs.Cmp.Rules.{hashing};
ghost use Rattle.loom_topology.specs.Topology.{node_of};
ghost use Rattle.loom_laid.specs.Kept.{key_of};
ghost use Rattle.loom_laid.specs.Keys.{pair_of};

use loom_base::{CavityNo, List, Name, NetNo, NoMemory};
use loom_project::Project;
use loom_topology::Topology;
use std::alloc::Global;
use std::hash::{Hash, Hasher};
use std::marker::Model;

/// The nodes of a net's terminals, by number, in the order of the terminals.
#[derive(Drop)]
pub(crate) struct TerminalNodes {
    numbers: List<u32>,
}

impl Model for TerminalNodes {
    ghost use Rattle.std.specs.Prelude.{ℕ, List};
    ghost use Rattle.std.specs.Coded.{coded_list, coded_ℕ};

    ghost Value = { List ℕ };

    ghost coded = { coded_list coded_ℕ };

    ghost view = { λ nodes. nodes.numbers };
}

impl PartialEq for TerminalNodes {
    ghost eq = { λ a b. bytes_eq a b };

    ghost laws = { partial_equiv_from_equiv nat_list_eq_equiv };

    fn eq(&self, other: &TerminalNodes) -> bool {
        self.numbers.as_slice() == other.numbers.as_slice()
    }
}

impl Eq for TerminalNodes {
    ghost laws = { nat_list_eq_equiv };
}

impl Hash for TerminalNodes {
    ghost hash_input = { λ nodes. fed.slice fed.u32 nodes };

    ghost respects_eq = { Prim.search (hashing, rules) };

    fn hash<H: Hasher>(&self, state: &mut H) {
        self.numbers.as_slice().hash(state);
    }
}

/// Under what a net's table is kept: the net's class and the nodes of its terminals.
#[derive(PartialEq, Eq, Hash, Drop)]
pub(crate) struct TableKey {
    class: Name,
    nodes: TerminalNodes,
}

/// The numbers of the nodes at which cavities lie.
fn nodes_of(
    alloc: Global,
    topology: &Topology,
    cavities: &[CavityNo],
) -> Result<List<u32>, NoMemory>
    requires { All (λ cavity. cavity.0 < length topology.now.cavities) cavities.now }
    ensures { IfOk result (λ nodes. nodes
        ≡ map (λ cavity. node_of topology.now cavity.0) cavities.now) }
{
    let mut nodes = List::new(alloc);
    for cavity in cavities {
        nodes.push(topology.cavity_node(*cavity).0)?;
    }
    Ok(nodes)
}

impl TableKey {
    /// The key of a net.
    pub(crate) fn of(alloc: Global, project: &Project, net: NetNo) -> Result<TableKey, NoMemory>
        requires { net.0 < length project.now.nets }
        ensures { IfOk result (λ key. pair_of key ≡ key_of project.now net.0) }
    {
        let numbers = nodes_of(alloc, project.topology(), project.cavities(net))?;
        Ok(TableKey {
            class: project.class(net),
            nodes: TerminalNodes { numbers },
        })
    }
}
