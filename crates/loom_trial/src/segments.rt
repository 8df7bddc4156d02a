ghost use Rattle.std.specs.Prelude.{◌≡◌, ◌≤◌, ◌++◌, map, IfOk, OnOk};
ghost use Rattle.loom_topology.specs.declared.kind.Kind.TheVariants as kinds;
ghost use Rattle.loom_trial.specs.Trial.{body_run as body_run_of, hinge as hinge_of, door_run as door_run_of, door_segments, doors, trial_segments};

use crate::names::numbered_name;
use loom_base::{List, NoMemory, Pins, Price};
use loom_project::SegmentDraft;
use loom_topology::Kind;
use std::alloc::Global;

/// A run of that length.
fn run(length: u64) -> Kind
    requires { (1 ≤ length) × (length ≤ 1000000) }
    ensures { result ≡ kinds.Run length }
{
    match Price::new(length) {
        Some(length) => Kind::Run { length },
        None => unreachable!(),
    }
}

/// What a coupler at a hinge is.
fn coupler() -> Kind
    ensures { result ≡ kinds.Coupler 30 24 }
{
    match (Price::new(30), Pins::new(24)) {
        (Some(price), Some(pins)) => Kind::Coupler { price, pins },
        _ => unreachable!(),
    }
}

/// The i-th run of the body.
#[tactic(auto, unfolding(crate::specs::Trial::body_run))]
fn body_run(alloc: Global, i: u32) -> Result<SegmentDraft, NoMemory>
    requires { (1 ≤ i) × (i ≤ 200) }
    ensures { IfOk result (λ segment. segment ≡ body_run_of i) }
{
    Ok(SegmentDraft {
        name: numbered_name(alloc, "R", i)?,
        from: numbered_name(alloc, "B", i - 1)?,
        to: numbered_name(alloc, "B", i)?,
        kind: run(100 + u64::from(37 * i % 50)),
        bars: List::new(alloc),
        reserved: List::new(alloc),
    })
}

/// The coupler at a door's hinge.
#[tactic(auto, unfolding(crate::specs::Trial::hinge))]
fn hinge(alloc: Global, i: u32) -> Result<SegmentDraft, NoMemory>
    requires { i ≤ 200 }
    ensures { IfOk result (λ segment. segment ≡ hinge_of i) }
{
    Ok(SegmentDraft {
        name: numbered_name(alloc, "X", i)?,
        from: numbered_name(alloc, "B", i)?,
        to: numbered_name(alloc, "D", i)?,
        kind: coupler(),
        bars: List::new(alloc),
        reserved: List::new(alloc),
    })
}

/// The run of a door.
#[tactic(auto, unfolding(crate::specs::Trial::door_run))]
fn door_run(alloc: Global, i: u32) -> Result<SegmentDraft, NoMemory>
    requires { i ≤ 200 }
    ensures { IfOk result (λ segment. segment ≡ door_run_of i) }
{
    Ok(SegmentDraft {
        name: numbered_name(alloc, "Q", i)?,
        from: numbered_name(alloc, "D", i)?,
        to: numbered_name(alloc, "E", i)?,
        kind: run(200),
        bars: List::new(alloc),
        reserved: List::new(alloc),
    })
}

/// The runs of the body.
fn body_runs(alloc: Global, n: u32) -> Result<List<SegmentDraft>, NoMemory>
    requires { n ≤ 200 }
    ensures { IfOk result (λ runs. runs ≡ map body_run_of (doors n)) }
{
    let mut runs = List::new(alloc);
    for i in 1..n + 1 {
        runs.push(body_run(alloc, i)?)?;
    }
    Ok(runs)
}

/// Appends the segments of a door.
fn push_door(alloc: Global, segments: &mut List<SegmentDraft>, i: u32) -> Result<(), NoMemory>
    requires { i ≤ 200 }
    ensures { OnOk result (segments.new ≡ segments.old ++ door_segments i) }
{
    segments.push(hinge(alloc, i)?)?;
    segments.push(door_run(alloc, i)?)
}

/// The segments of the body and of the doors.
#[tactic(auto, unfolding(crate::specs::Trial::trial_segments))]
pub fn all_segments(alloc: Global, n: u32) -> Result<List<SegmentDraft>, NoMemory>
    requires { n ≤ 200 }
    ensures { IfOk result (λ segments. segments ≡ trial_segments n) }
{
    let mut segments = body_runs(alloc, n)?;
    for i in 1..n + 1 {
        push_door(alloc, &mut segments, i)?;
    }
    Ok(segments)
}
