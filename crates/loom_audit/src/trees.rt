ghost use Rattle.std.specs.Prelude.{[], ◌∷◌, ◌≡◌, ◌<◌, ◌↔◌, All, IsTrue, length, map, slice_get, IfOk, IfSome, IfNone};
ghost use Rattle.std.specs.List.{filter_map, flat_map};
ghost use Rattle.loom_topology.specs.Legal.{chosen};
ghost use Rattle.loom_project.specs.Project.{cavities_of};
ghost use Rattle.loom_types.specs.declared.wire.End.TheVariants.{Cavity};
ghost use Rattle.loom_types.specs.WireTree.{ends_of, FormsTree};
ghost use Rattle.loom_active.specs.SetWires.{SetFormsTree};
ghost use Rattle.loom_audit.specs.EndKeys.{count_in};
ghost use Rattle.loom_audit.specs.EndRule.{IsEndRight, AreEndsRight, IsOnePiece};
ghost use Rattle.loom_audit.specs.SetWires.{AreMembers, AreWiresOf, HasSets, wires_at};
ghost use Rattle.loom_audit.specs.Trees.{AreTrees, TreesFailAt};

use crate::end_counts::{EndKey, count_of, counted};
use crate::links::links_of;
use crate::union_find::{are_all_joined, joined};
use crate::{PlanPart, Spot};
use loom_base::{CavityNo, List, NoMemory};
use loom_project::Project;
use loom_types::{End, Plan, SetLine, Wire};
use std::alloc::Global;
use std::collections::HashMap;

/// The ends of the wires at some positions.
fn ends_at(alloc: Global, wires: &[Wire], positions: &[u32]) -> Result<Vec<(End, End)>, NoMemory>
    ensures { IfOk result (λ ends.
        ends.items ≡ map ends_of (filter_map (slice_get wires.now) positions.now)) }
{
    let mut ends = Vec::new(alloc);
    for at in positions {
        if let Some(wire) = wires.get(*at as usize) {
            ends.push((wire.from, wire.to))?;
        }
    }
    Ok(ends)
}

/// The ends of wires, one after another.
fn flat(alloc: Global, wires: &[(End, End)]) -> Result<Vec<End>, NoMemory>
    ensures { IfOk result (λ ends. ends.items ≡ flat_map (λ w. w.0 ∷ w.1 ∷ []) wires.now) }
{
    let mut ends = Vec::new(alloc);
    for wire in wires {
        ends.push(wire.0)?;
        ends.push(wire.1)?;
    }
    Ok(ends)
}

/// The cavities whose bits stand in a mask, the first one's bit lowest.
fn cavities_in(alloc: Global, cavities: &[CavityNo], mask: u32) -> Result<Vec<u32>, NoMemory>
    ensures { IfOk result (λ some. some.items ≡ chosen (map (λ c. c.0) cavities.now) mask) }
{
    let mut some = Vec::new(alloc);
    let mut rest = mask;
    for cavity in cavities {
        if rest % 2 == 1 {
            some.push(cavity.0)?;
        }
        rest /= 2;
    }
    Ok(some)
}

/// Whether an end is a cavity of the set, a splice with at least three ends, or at a pin with one
/// end on each side.
fn is_end_right(counts: &HashMap<EndKey, usize>, cavities: &[u32], end: End) -> bool
    ensures { IsTrue result ↔ IsEndRight (count_in counts.now) cavities.now end }
{
    match end {
        End::Cavity(cavity) => cavities.contains(&cavity.0),
        End::Splice { .. } => count_of(counts, end) >= 3,
        End::Pin { coupler, pin, .. } => {
            let first = End::Pin {
                coupler,
                pin,
                side: 1,
            };
            let second = End::Pin {
                coupler,
                pin,
                side: 2,
            };
            count_of(counts, first) == 1 && count_of(counts, second) == 1
        }
    }
}

/// Whether one wire ends at each of the cavities.
fn have_one_wire(counts: &HashMap<EndKey, usize>, cavities: &[u32]) -> bool
    ensures { IsTrue result
        ↔ All (λ c. count_in counts.now (Cavity (record { 0 = c })) ≡ 1) cavities.now }
{
    for cavity in cavities {
        if count_of(counts, End::Cavity(CavityNo(*cavity))) != 1 {
            return false;
        }
    }
    true
}

/// Whether each of the ends is one as in a tree of these cavities.
fn are_all_right(counts: &HashMap<EndKey, usize>, cavities: &[u32], ends: &[End]) -> bool
    ensures { IsTrue result ↔ All (IsEndRight (count_in counts.now) cavities.now) ends.now }
{
    for end in ends {
        if !is_end_right(counts, cavities, *end) {
            return false;
        }
    }
    true
}

/// Whether as many wires end at each cavity, splice and pin as in a tree of these cavities.
fn are_ends_right(alloc: Global, cavities: &[u32], ends: &[End]) -> Result<bool, NoMemory>
    ensures { IfOk result (λ right. IsTrue right ↔ AreEndsRight cavities.now ends.now) }
{
    let counts = counted(alloc, ends)?;
    Ok(have_one_wire(&counts, cavities) && are_all_right(&counts, cavities, ends))
}

/// Whether wires are joined to one piece without a cycle.
fn are_one_piece(alloc: Global, wires: &[(End, End)]) -> Result<bool, NoMemory>
    ensures { IfOk result (λ one. IsTrue one ↔ IsOnePiece wires.now) }
{
    let links = links_of(alloc, wires)?;
    match joined(alloc, &links.pairs, links.point_count)? {
        Some(parents) => Ok(are_all_joined(parents, &links.pairs)),
        None => Ok(false),
    }
}

/// Whether wires form one tree with these cavities as leaves.
fn form_tree(alloc: Global, cavities: &[u32], wires: &[(End, End)]) -> Result<bool, NoMemory>
    ensures { IfOk result (λ tree. IsTrue tree ↔ FormsTree cavities.now wires.now) }
{
    let ends = flat(alloc, wires)?;
    if !are_ends_right(alloc, cavities, &ends)? {
        return Ok(false);
    }
    are_one_piece(alloc, wires)
}

/// Whether the wires of a set form one tree with its cavities as leaves.
fn set_forms_tree(
    alloc: Global,
    project: &Project,
    plan: &Plan,
    set: &SetLine,
    positions: &[u32],
) -> Result<bool, NoMemory>
    requires net { set.now.net.0 < length project.now.nets }
    requires members { AreWiresOf plan.now set.now (wires_at plan.now positions.now) }
    ensures { IfOk result (λ tree. IsTrue tree ↔ SetFormsTree project.now plan.now set.now) }
{
    let cavities = cavities_in(alloc, project.cavities(set.net), set.mask)?;
    let wires = ends_at(alloc, plan.wires.as_slice(), positions)?;
    form_tree(alloc, &cavities, &wires)
}

/// The first set of a plan whose wires don't form one tree with the set's cavities as leaves; None
/// exactly where there is none. `members` has the positions of each set's wires.
pub fn trees_failure(
    alloc: Global,
    project: &Project,
    plan: &Plan,
    members: &[List<u32>],
) -> Result<Option<Spot>, NoMemory>
    requires sets { HasSets project.now plan.now }
    requires members { AreMembers plan.now members.now }
    ensures holds { IfOk result (λ found. IfNone found (AreTrees project.now plan.now)) }
    ensures fails { IfOk result (λ found. IfSome found (TreesFailAt project.now plan.now)) }
{
    for (at, set) in plan.sets.as_slice().iter().enumerate() {
        if !set_forms_tree(alloc, project, plan, set, members[at].as_slice())? {
            return Ok(Some(Spot::line(PlanPart::Sets, at)?));
        }
    }
    Ok(None)
}
