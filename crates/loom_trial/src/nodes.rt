ghost use Rattle.std.specs.Prelude.{◌≡◌, ◌≤◌, ◌+◌, ◌++◌, map, IfOk, OnOk, IsTrue};
ghost use Rattle.std.specs.List.{range_with_len};
ghost use Rattle.loom_base.specs.Names.{is_name};
ghost use Rattle.loom_trial.specs.Trial.{are_letters, node as node_of, body_node, door_nodes, trial_nodes};

use crate::names::{label, numbered_name};
use loom_base::{Branch, List, NoMemory};
use loom_project::NodeDraft;
use std::alloc::Global;

/// The branch cost of each node.
fn branch() -> Branch
    ensures { result ≡ 20 }
{
    match Branch::new(20) {
        Some(branch) => branch,
        None => unreachable!(),
    }
}

/// A numbered node of a harness.
#[tactic(auto, unfolding(crate::specs::Trial::node))]
fn node(alloc: Global, letters: &str, i: u32, harness: &str) -> Result<NodeDraft, NoMemory>
    requires letters { IsTrue (are_letters letters.now) }
    requires few { i ≤ 200 }
    requires harness { IsTrue (is_name harness.now) }
    ensures { IfOk result (λ node. node ≡ node_of letters.now i harness.now) }
{
    Ok(NodeDraft {
        name: numbered_name(alloc, letters, i)?,
        harness: label(harness),
        branch: branch(),
    })
}

/// The nodes of the body.
#[tactic(auto, unfolding(loom_base::specs::Names::is_name))]
fn body_nodes(alloc: Global, n: u32) -> Result<List<NodeDraft>, NoMemory>
    requires { n ≤ 200 }
    ensures { IfOk result (λ nodes. nodes ≡ map body_node (range_with_len 0 (n + 1))) }
{
    let mut nodes = List::new(alloc);
    for i in 0..n + 1 {
        nodes.push(node(alloc, "B", i, "BODY")?)?;
    }
    Ok(nodes)
}

/// Appends the nodes of a door.
#[tactic(auto, unfolding(loom_base::specs::Names::is_name))]
fn push_door(alloc: Global, nodes: &mut List<NodeDraft>, i: u32) -> Result<(), NoMemory>
    requires { i ≤ 200 }
    ensures { OnOk result (nodes.new ≡ nodes.old ++ door_nodes i) }
{
    let hinge = node(alloc, "D", i, "DOOR")?;
    let lock = node(alloc, "E", i, "DOOR")?;
    nodes.extend_from_slice(&[hinge, lock])
}

/// The nodes of the body and of the doors.
#[tactic(auto, unfolding(crate::specs::Trial::trial_nodes))]
pub fn all_nodes(alloc: Global, n: u32) -> Result<List<NodeDraft>, NoMemory>
    requires { n ≤ 200 }
    ensures { IfOk result (λ nodes. nodes ≡ trial_nodes n) }
{
    let mut nodes = body_nodes(alloc, n)?;
    for i in 1..n + 1 {
        push_door(alloc, &mut nodes, i)?;
    }
    Ok(nodes)
}
