use crate::answers::tell;
use crate::parts::{cavity, name, net, node, numbered, one, run};
use anyhow::Result;
use loom_base::{List, Name};
use loom_project::{CavityDraft, Draft, NodeDraft, SegmentDraft};
use std::alloc::Global;

/// The names of a letter and the numbers from 1 on.
fn names(alloc: Global, letter: &str, count: u64) -> Result<List<Name>> {
    let mut names = List::new(alloc);
    for number in 0..count {
        names.push(numbered(alloc, letter, number + 1)?)?;
    }
    Ok(names)
}

/// The hub N and its leaves, all of one harness.
fn nodes(alloc: Global, leaves: &[Name]) -> Result<List<NodeDraft>> {
    let harness = name("H")?;
    let mut nodes = one(alloc, node(name("N")?, harness)?)?;
    for &leaf in leaves {
        nodes.push(node(leaf, harness)?)?;
    }
    Ok(nodes)
}

/// A run from the hub to each leaf, named as the leaf.
fn segments(alloc: Global, leaves: &[Name]) -> Result<List<SegmentDraft>> {
    let hub = name("N")?;
    let mut segments = List::new(alloc);
    for &leaf in leaves {
        segments.push(run(alloc, leaf, hub, leaf)?)?;
    }
    Ok(segments)
}

/// A cavity at each leaf, named as the leaf.
fn cavities(alloc: Global, leaves: &[Name]) -> Result<List<CavityDraft>> {
    let mut cavities = List::new(alloc);
    for &leaf in leaves {
        cavities.push(cavity(leaf, leaf)?)?;
    }
    Ok(cavities)
}

/// A draft of a hub with so many leaves, and one net of all of them.
fn hub(alloc: Global, count: u64) -> Result<Draft> {
    let names = names(alloc, "N", count)?;
    let leaves = names.as_slice();
    Ok(Draft {
        options: List::new(alloc),
        rules: List::new(alloc),
        nodes: nodes(alloc, leaves)?,
        segments: segments(alloc, leaves)?,
        cavities: cavities(alloc, leaves)?,
        nets: one(alloc, net(alloc, name("W")?, leaves)?)?,
    })
}

/// How many leaves of a hub one net may join.
pub fn leaves(rt: &impl Print, alloc: Global) -> Result<()> {
    tell(rt, alloc, "a net of a hub's 12 leaves", hub(alloc, 12))?;
    tell(rt, alloc, "a net of a hub's 13 leaves", hub(alloc, 13))
}
