//! The printed sets of which a wire is one, and the wires of a printed set.
ghost use Rattle.std.specs.Prelude.{◌≡◌, ◌<◌, ◌+◌, [], ℕ, All, AllPairs, IfOk, OnOk, length, slice_index_or};
ghost use Rattle.loom_rows.specs.RowLists.{AreConditionsOf};
ghost use Rattle.loom_audit.specs.Rows.{SetsRefer, WiresRefer};
ghost use Rattle.loom_audit.specs.SetWires.{AreMembers};
ghost use Rattle.loom_check.specs.MetSets.{AreMet, KnowsMetBefore};
ghost use Rattle.loom_check.specs.MetParts.{IsOfNet, ArePlaces, positions_in, with_position, KnowsNets, HaveGot};

use crate::printed::condition;
use loom_base::{List, NoMemory};
use loom_rows::{Cond, Meetings};
use loom_types::{Plan, SetLine, Wire};
use std::alloc::Global;
use std::collections::HashMap;

/// Appends a position to those of a net.
fn add_set(
    alloc: Global,
    by_net: &mut HashMap<u32, List<u32>>,
    net: u32,
    position: u32,
) -> Result<(), NoMemory>
    ensures { OnOk result ((other : ℕ) → positions_in by_net.new other
        ≡ with_position net position (positions_in by_net.old other) other) }
{
    by_net
        .entry(net)?
        .or_insert(List::new(alloc))
        .push(position)?;
    Ok(())
}

/// The positions, rising, of each net's sets.
fn sets_by_net(alloc: Global, sets: &[SetLine]) -> Result<HashMap<u32, List<u32>>, NoMemory>
    ensures { IfOk result (KnowsNets sets.now) }
{
    let mut by_net = HashMap::new(alloc);
    for (at, set) in sets.iter().enumerate() {
        let Ok(position) = u32::try_from(at) else {
            return Err(NoMemory);
        };
        add_set(alloc, &mut by_net, set.net.0, position)?;
    }
    Ok(by_net)
}

/// The positions, rising, of the sets of which a wire is one, out of those of the wire's net.
fn met_among<'a>(
    alloc: Global,
    plan: &Plan,
    meetings: &mut Meetings<'_, 'a>,
    conds: &[Cond<'a>],
    wire: &Wire,
    among: &[u32],
) -> Result<List<u32>, NoMemory>
    requires sets { SetsRefer plan.now }
    requires row { wire.now.row < length plan.now.rows + 2 }
    requires counted { length conds.now ≡ length plan.now.rows }
    requires conds { AreConditionsOf plan.now.rows meetings.old conds.now }
    requires among { ArePlaces (IsOfNet wire.now.net.0) plan.now.sets among.now }
    ensures met { IfOk result (AreMet plan.now wire.now) }
    ensures unchanged { meetings.new ≡ meetings.old }
{
    let own = condition(conds, wire.row);
    let mut met = List::new(alloc);
    for at in among {
        let set = &plan.sets.as_slice()[*at as usize];
        if meetings.meet(own, condition(conds, set.row))? {
            met.push(*at)?;
        }
    }
    Ok(met)
}

/// The positions, rising, of the sets of which a wire is one.
fn met_of<'a>(
    alloc: Global,
    plan: &Plan,
    meetings: &mut Meetings<'_, 'a>,
    conds: &[Cond<'a>],
    by_net: &HashMap<u32, List<u32>>,
    wire: &Wire,
) -> Result<List<u32>, NoMemory>
    requires sets { SetsRefer plan.now }
    requires row { wire.now.row < length plan.now.rows + 2 }
    requires counted { length conds.now ≡ length plan.now.rows }
    requires conds { AreConditionsOf plan.now.rows meetings.old conds.now }
    requires by_net { KnowsNets plan.now.sets by_net.now }
    ensures met { IfOk result (AreMet plan.now wire.now) }
    ensures unchanged { meetings.new ≡ meetings.old }
{
    match by_net.get(&wire.net.0) {
        Some(among) => met_among(alloc, plan, meetings, conds, wire, among.as_slice()),
        None => met_among(alloc, plan, meetings, conds, wire, &[]),
    }
}

/// For the net and the condition of each wire of a plan, the positions, rising, of the sets of which
/// such a wire is one: those of the net whose conditions hold together with the wire's under some
/// choice.
pub(crate) fn sets_met<'a>(
    alloc: Global,
    plan: &Plan,
    meetings: &mut Meetings<'_, 'a>,
    conds: &[Cond<'a>],
) -> Result<HashMap<(u32, u32), List<u32>>, NoMemory>
    requires sets { SetsRefer plan.now }
    requires wires { WiresRefer plan.now }
    requires counted { length conds.now ≡ length plan.now.rows }
    requires conds { AreConditionsOf plan.now.rows meetings.old conds.now }
    ensures { IfOk result (λ met. KnowsMetBefore plan.now met (length plan.now.wires)) }
{
    let by_net = sets_by_net(alloc, plan.sets.as_slice())?;
    let mut met = HashMap::new(alloc);
    for wire in plan.wires.as_slice() {
        let key = (wire.net.0, wire.row);
        if !met.contains_key(&key) {
            let positions = met_of(alloc, plan, meetings, conds, &by_net, wire)?;
            met.insert(key, positions)?;
        }
    }
    Ok(met)
}

/// So many empty lists.
fn no_members(alloc: Global, sets: usize) -> Result<Vec<List<u32>>, NoMemory>
    ensures counted { IfOk result (λ members. length members.items ≡ sets) }
    ensures empty { IfOk result (λ members. (at : ℕ) → slice_index_or members.items at [] ≡ []) }
{
    let mut members = Vec::new(alloc);
    for _ in 0..sets {
        members.push(List::new(alloc))?;
    }
    Ok(members)
}

/// Appends a wire's position to the lists of its sets.
fn add_member(members: &mut Vec<List<u32>>, sets: &[u32], position: u32) -> Result<(), NoMemory>
    requires within { All (λ at. at < length members.old.items) sets.now }
    requires rising { AllPairs (λ one other. one < other) sets.now }
    ensures counted { OnOk result (length members.new.items ≡ length members.old.items) }
    ensures added { OnOk result (HaveGot members.old.items members.new.items sets.now position) }
{
    for set in sets {
        members[*set as usize].push(position)?;
    }
    Ok(())
}

/// For each set of a plan, the positions of its wires.
pub(crate) fn members(
    alloc: Global,
    plan: &Plan,
    met: &HashMap<(u32, u32), List<u32>>,
) -> Result<List<List<u32>>, NoMemory>
    requires { KnowsMetBefore plan.now met.now (length plan.now.wires) }
    ensures { IfOk result (AreMembers plan.now) }
{
    let mut members = no_members(alloc, plan.sets.len())?;
    for (at, wire) in plan.wires.as_slice().iter().enumerate() {
        let Ok(position) = u32::try_from(at) else {
            return Err(NoMemory);
        };
        if let Some(sets) = met.get(&(wire.net.0, wire.row)) {
            add_member(&mut members, sets.as_slice(), position)?;
        }
    }
    Ok(List::from_vec(members))
}
