ghost use Rattle.std.specs.Prelude.{◌≡◌, ◌≤◌, ◌++◌, codes, IfOk, OnOk, IsTrue};
ghost use Rattle.std.specs.List.{flat_map};
ghost use Rattle.loom_base.specs.Names.{is_name};
ghost use Rattle.loom_trial.specs.Trial.{are_letters, numbered, cavity as cavity_of, door_cavities, doors};

use crate::names::{label, numbered_name};
use loom_base::{List, Name, NoMemory};
use loom_project::CavityDraft;
use std::alloc::Global;

/// A numbered cavity of a device.
#[tactic(auto, unfolding(crate::specs::Trial::cavity))]
fn cavity(
    alloc: Global,
    letters: &str,
    i: u32,
    device: &str,
    node: Name,
) -> Result<CavityDraft, NoMemory>
    requires letters { IsTrue (are_letters letters.now) }
    requires few { i ≤ 200 }
    requires device { IsTrue (is_name device.now) }
    ensures { IfOk result (λ cavity. cavity ≡ cavity_of letters.now i device.now node) }
{
    Ok(CavityDraft {
        name: numbered_name(alloc, letters, i)?,
        device: label(device),
        node,
    })
}

/// A numbered cavity of the body, at the body's node of that number.
#[tactic(auto, unfolding(loom_base::specs::Names::is_name))]
fn in_body(alloc: Global, letters: &str, i: u32, node: u32) -> Result<CavityDraft, NoMemory>
    requires letters { IsTrue (are_letters letters.now) }
    requires few { (i ≤ 200) × (node ≤ 200) }
    ensures { IfOk result (λ cavity.
        cavity ≡ cavity_of letters.now i (codes "BODY") (numbered (codes "B") node)) }
{
    let node = numbered_name(alloc, "B", node)?;
    cavity(alloc, letters, i, "BODY", node)
}

/// A numbered cavity of a door, at the door's node of those letters.
#[tactic(auto, unfolding(loom_base::specs::Names::is_name))]
fn in_door(alloc: Global, letters: &str, i: u32, node: &str) -> Result<CavityDraft, NoMemory>
    requires letters { IsTrue (are_letters letters.now) }
    requires few { i ≤ 200 }
    requires node { IsTrue (are_letters node.now) }
    ensures { IfOk result (λ cavity.
        cavity ≡ cavity_of letters.now i (codes "DOOR") (numbered node.now i)) }
{
    let node = numbered_name(alloc, node, i)?;
    cavity(alloc, letters, i, "DOOR", node)
}

/// Appends the cavities of a door's two nets.
fn push_door(alloc: Global, cavities: &mut List<CavityDraft>, i: u32) -> Result<(), NoMemory>
    requires { (1 ≤ i) × (i ≤ 200) }
    ensures { OnOk result (cavities.new ≡ cavities.old ++ door_cavities i) }
{
    let power = [in_body(alloc, "PB", i, 0)?, in_door(alloc, "PD", i, "E")?];
    let signal = [in_body(alloc, "SB", i, i)?, in_door(alloc, "SD", i, "E")?];
    let extra = [
        in_body(alloc, "SE", i, i - 1)?,
        in_door(alloc, "ST", i, "D")?,
    ];
    cavities.extend_from_slice(&power)?;
    cavities.extend_from_slice(&signal)?;
    cavities.extend_from_slice(&extra)
}

/// The cavities of the doors' nets.
pub fn all_cavities(alloc: Global, n: u32) -> Result<List<CavityDraft>, NoMemory>
    requires { n ≤ 200 }
    ensures { IfOk result (λ cavities. cavities ≡ flat_map door_cavities (doors n)) }
{
    let mut cavities = List::new(alloc);
    for i in 1..n + 1 {
        push_door(alloc, &mut cavities, i)?;
    }
    Ok(cavities)
}
