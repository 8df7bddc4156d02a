//! Whether wires end at pins that are free, and apart from those of other nets.
ghost use Rattle.std.specs.Prelude.{ℕ, Some, ◌≡◌, ◌↔◌, ◌<◌, ◌+◌, AllPairs, length, slice_get, IfOk, IfSome, IfNone, IsTrue};
ghost use Rattle.std.specs.List.{All};
ghost use Rattle.loom_rows.specs.RowLists.{AreConditionsOf};
ghost use Rattle.loom_active.specs.RightPlan.{IsFreePin};
ghost use Rattle.loom_audit.specs.FirstFailure.{Each, IsFirstWithout};
ghost use Rattle.loom_audit.specs.PinRule.{EndsAtFreePins, ArePinsApart, PinsFailAt, IsPinClash};
ghost use Rattle.loom_audit.specs.Rows.{WiresRefer};
ghost use Rattle.loom_check.specs.PinTables.{pin_of as pin_of_end, FindsShared, IsLeast, lesser_of, IsRival, IsRivalAmong, IsRivalAt, IsFirstClash};

use crate::pin_tables::{pin_of, wires_by_pin};
use crate::printed::condition;
use loom_audit::{PlanPart, Spot};
use loom_base::{List, NoMemory, SegmentNo};
use loom_project::Project;
use loom_rows::{Cond, Meetings};
use loom_topology::Kind;
use loom_types::{End, Plan, Wire};
use std::alloc::Global;
use std::collections::HashMap;

/// Whether a pin is one of a coupler's that isn't reserved.
fn is_free(project: &Project, coupler: SegmentNo, pin: u16) -> bool
    ensures { IsTrue result ↔ IsFreePin project.now coupler.0 pin }
{
    if coupler.0 >= project.topology().segment_count() {
        return false;
    }
    match project.topology().kind(coupler) {
        Kind::Run { .. } => false,
        Kind::Coupler { pins, .. } => {
            1 <= pin && u64::from(pin) <= pins.get() && !project.reserved(coupler).contains(&pin)
        }
    }
}

/// Whether an end lies at no pin, or at one that is free.
fn is_end_free(project: &Project, end: &End) -> bool
    ensures { IsTrue result ↔ ((coupler pin : ℕ) → pin_of_end end.now ≡ Some (coupler, pin)
        → IsFreePin project.now coupler pin) }
{
    match pin_of(end) {
        Some((coupler, pin)) => is_free(project, SegmentNo(coupler), pin),
        None => true,
    }
}

/// Whether a wire ends at free pins, if at any.
fn ends_at_free_pins(project: &Project, wire: &Wire) -> bool
    ensures { IsTrue result ↔ EndsAtFreePins project.now wire.now }
{
    is_end_free(project, &wire.from) && is_end_free(project, &wire.to)
}

/// The first wire that ends at a pin that isn't free.
fn first_unfree(project: &Project, wires: &[Wire]) -> Option<usize>
    ensures holds { IfNone result (Each (λ i w. EndsAtFreePins project.now w) wires.now) }
    ensures fails { IfSome result (IsFirstWithout (λ i w. EndsAtFreePins project.now w) wires.now) }
{
    for (at, wire) in wires.iter().enumerate() {
        if !ends_at_free_pins(project, wire) {
            return Some(at);
        }
    }
    None
}

/// Whether the wire at a place comes after a position, and is of another net than a wire with whose
/// condition its own holds together under some choice.
fn is_rival<'a>(
    plan: &Plan,
    meetings: &mut Meetings<'_, 'a>,
    conds: &[Cond<'a>],
    at: usize,
    wire: &Wire,
    place: usize,
) -> Result<bool, NoMemory>
    requires refer { WiresRefer plan.now }
    requires row { wire.now.row < length plan.now.rows + 2 }
    requires counted { length conds.now ≡ length plan.now.rows }
    requires conds { AreConditionsOf plan.now.rows meetings.old conds.now }
    requires place { place < length plan.now.wires }
    ensures rival { IfOk result (λ found. IsTrue found ↔ IsRival plan.now at wire.now place) }
    ensures unchanged { meetings.new ≡ meetings.old }
{
    let other = &plan.wires.as_slice()[place];
    if place <= at || other.net == wire.net {
        return Ok(false);
    }
    meetings.meet(condition(conds, wire.row), condition(conds, other.row))
}

/// The first of rising positions, past that of a wire, at which there is a wire of another net whose
/// condition holds together with the wire's under some choice.
fn first_rival<'a>(
    plan: &Plan,
    meetings: &mut Meetings<'_, 'a>,
    conds: &[Cond<'a>],
    at: usize,
    wire: &Wire,
    others: &[u32],
) -> Result<Option<u32>, NoMemory>
    requires refer { WiresRefer plan.now }
    requires row { wire.now.row < length plan.now.rows + 2 }
    requires counted { length conds.now ≡ length plan.now.rows }
    requires conds { AreConditionsOf plan.now.rows meetings.old conds.now }
    requires within { All (λ place. place < length plan.now.wires) others.now }
    requires rising { AllPairs (λ one other. one < other) others.now }
    ensures least { IfOk result (IsLeast (IsRivalAmong plan.now at wire.now others.now)) }
    ensures unchanged { meetings.new ≡ meetings.old }
{
    for other in others {
        if is_rival(plan, meetings, conds, at, wire, *other as usize)? {
            return Ok(Some(*other));
        }
    }
    Ok(None)
}

/// The first such position among those of the pin at which an end of the wire lies.
fn rival_at<'a>(
    plan: &Plan,
    meetings: &mut Meetings<'_, 'a>,
    conds: &[Cond<'a>],
    by_pin: &HashMap<(u32, u16), List<u32>>,
    at: usize,
    wire: &Wire,
    end: &End,
) -> Result<Option<u32>, NoMemory>
    requires refer { WiresRefer plan.now }
    requires row { wire.now.row < length plan.now.rows + 2 }
    requires counted { length conds.now ≡ length plan.now.rows }
    requires conds { AreConditionsOf plan.now.rows meetings.old conds.now }
    requires by_pin { FindsShared plan.now.wires by_pin.now }
    ensures least { IfOk result (IsLeast
        (IsRivalAt plan.now by_pin.now at wire.now (pin_of_end end.now))) }
    ensures unchanged { meetings.new ≡ meetings.old }
{
    let Some(pin) = pin_of(end) else {
        return Ok(None);
    };
    match by_pin.get(&pin) {
        Some(others) => first_rival(plan, meetings, conds, at, wire, others.as_slice()),
        None => Ok(None),
    }
}

/// The lesser of two numbers, of which either may be missing.
fn lesser(one: Option<u32>, other: Option<u32>) -> Option<u32>
    ensures { result ≡ lesser_of one other }
{
    match (one, other) {
        (Some(a), Some(b)) => Some(a.min(b)),
        (Some(a), None) => Some(a),
        (None, b) => b,
    }
}

/// The first position past a wire's at which there is a wire that it meets at a pin.
fn partner<'a>(
    plan: &Plan,
    meetings: &mut Meetings<'_, 'a>,
    conds: &[Cond<'a>],
    by_pin: &HashMap<(u32, u16), List<u32>>,
    at: usize,
    wire: &Wire,
) -> Result<Option<u32>, NoMemory>
    requires refer { WiresRefer plan.now }
    requires stands { slice_get plan.now.wires at ≡ Some wire.now }
    requires counted { length conds.now ≡ length plan.now.rows }
    requires conds { AreConditionsOf plan.now.rows meetings.old conds.now }
    requires by_pin { FindsShared plan.now.wires by_pin.now }
    ensures least { IfOk result (IsLeast (IsPinClash plan.now at)) }
    ensures unchanged { meetings.new ≡ meetings.old }
{
    let from = rival_at(plan, meetings, conds, by_pin, at, wire, &wire.from)?;
    let to = rival_at(plan, meetings, conds, by_pin, at, wire, &wire.to)?;
    Ok(lesser(from, to))
}

/// The positions of the first two wires that meet at a pin.
fn first_clash<'a>(
    plan: &Plan,
    meetings: &mut Meetings<'_, 'a>,
    conds: &[Cond<'a>],
    by_pin: &HashMap<(u32, u16), List<u32>>,
) -> Result<Option<(usize, u32)>, NoMemory>
    requires refer { WiresRefer plan.now }
    requires counted { length conds.now ≡ length plan.now.rows }
    requires conds { AreConditionsOf plan.now.rows meetings.old conds.now }
    requires by_pin { FindsShared plan.now.wires by_pin.now }
    ensures holds { IfOk result (λ found. IfNone found
        ((i j : ℕ) → IsPinClash plan.now i j → ⊥)) }
    ensures fails { IfOk result (λ found. IfSome found
        (λ clash. IsFirstClash plan.now clash.0 clash.1)) }
{
    for (at, wire) in plan.wires.as_slice().iter().enumerate() {
        if let Some(other) = partner(plan, meetings, conds, by_pin, at, wire)? {
            return Ok(Some((at, other)));
        }
    }
    Ok(None)
}

/// The first wire that ends at a pin that its coupler doesn't have or that is reserved; or else the
/// first two wires of different nets, whose conditions hold together under some choice, that end at
/// one pin; None exactly where there is neither.
pub(crate) fn pins_failure<'a>(
    alloc: Global,
    project: &Project,
    plan: &Plan,
    meetings: &mut Meetings<'_, 'a>,
    conds: &[Cond<'a>],
) -> Result<Option<Spot>, NoMemory>
    requires refer { WiresRefer plan.now }
    requires counted { length conds.now ≡ length plan.now.rows }
    requires conds { AreConditionsOf plan.now.rows meetings.old conds.now }
    ensures holds { IfOk result (λ found. IfNone found (ArePinsApart project.now plan.now)) }
    ensures fails { IfOk result (λ found. IfSome found (PinsFailAt project.now plan.now)) }
{
    let wires = plan.wires.as_slice();
    if let Some(at) = first_unfree(project, wires) {
        return Ok(Some(Spot::line(PlanPart::Wires, at)?));
    }
    let by_pin = wires_by_pin(alloc, wires)?;
    let Some((first, second)) = first_clash(plan, meetings, conds, &by_pin)? else {
        return Ok(None);
    };
    let spot = Spot::line(PlanPart::Wires, first)?;
    Ok(Some(Spot { b: second, ..spot }))
}
