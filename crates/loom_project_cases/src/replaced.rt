ghost use Rattle.std.specs.Prelude.{◌<◌, length};

use crate::answers::{tell_fault, text};
use crate::joined::joined;
use crate::parts::{name, one, run, two};
use anyhow::{Context, Result};
use loom_base::{List, NetNo, SegmentNo};
use loom_project::{Draft, Project};
use std::alloc::Global;

/// A draft without anything.
fn empty(alloc: Global) -> Draft {
    Draft {
        options: List::new(alloc),
        rules: List::new(alloc),
        nodes: List::new(alloc),
        segments: List::new(alloc),
        cavities: List::new(alloc),
        nets: List::new(alloc),
    }
}

/// Puts a draft in the place of a project's, and prints what is answered and how many nets there
/// are then.
fn tell_replaced(
    rt: &impl Print,
    alloc: Global,
    case: &str,
    project: &mut Project,
    draft: Draft,
) -> Result<()> {
    match project.replace(draft) {
        Ok(()) => println!(rt; "{case}: sound")?,
        Err(fault) => tell_fault(rt, alloc, case, fault)?,
    }
    println!(rt; "nets after it: {}", project.net_count())?;
    Ok(())
}

/// The project of a draft that is sound.
fn project(alloc: Global, draft: Draft) -> Result<Project> {
    Project::check(alloc, draft).ok().context("not sound")
}

/// A draft that isn't sound.
fn unsound(alloc: Global) -> Result<Draft> {
    let mut draft = empty(alloc);
    let option = name("A")?;
    draft.options = two(alloc, option, option)?;
    Ok(draft)
}

/// What becomes of a project whose draft is replaced.
pub fn replaced(rt: &impl Print, alloc: Global) -> Result<()> {
    let mut project = project(alloc, joined(alloc)?)?;
    let unsound = unsound(alloc)?;
    tell_replaced(
        rt,
        alloc,
        "replaced by an option twice",
        &mut project,
        unsound,
    )?;
    tell_replaced(rt, alloc, "replaced by nothing", &mut project, empty(alloc))
}

/// A draft whose one net is barred from its one segment.
fn barred(alloc: Global) -> Result<Draft> {
    let mut draft = joined(alloc)?;
    let mut segment = run(alloc, name("S1")?, name("N1")?, name("N2")?)?;
    segment.bars = one(alloc, name("std")?)?;
    draft.segments = one(alloc, segment)?;
    Ok(draft)
}

/// What is looked up in a project.
pub fn looked_up(rt: &impl Print, alloc: Global) -> Result<()> {
    let project = project(alloc, barred(alloc)?)?;
    tell_lists(rt, &project)?;
    tell_nets(rt, &project)
}

/// Prints how many options, rules and nodes a project has.
fn tell_lists(rt: &impl Print, project: &Project) -> Result<()> {
    println!(rt; "options: {}", project.options().count())?;
    println!(rt; "rules: {}", project.rules().len())?;
    println!(rt; "nodes: {}", project.topology().node_count())?;
    Ok(())
}

/// Prints what is looked up of each net.
fn tell_nets(rt: &impl Print, project: &Project) -> Result<()> {
    for net in 0..project.net_count() {
        tell_net(rt, project, NetNo(net))?;
    }
    Ok(())
}

/// Prints what is looked up of a net: its class, its cavities, and whether the first segment is
/// open to it.
fn tell_net(rt: &impl Print, project: &Project, net: NetNo) -> Result<()>
    requires { net.0 < length project.now.nets }
{
    let class = project.class(net);
    println!(rt; "class: {}", text(&class)?)?;
    println!(rt; "cavities: {:?}", project.cavities(net))?;
    let topology = project.topology_of(net)?;
    if topology.segment_count() > 0 {
        println!(rt; "open: {}", topology.is_open(SegmentNo(0)))?;
    }
    Ok(())
}
