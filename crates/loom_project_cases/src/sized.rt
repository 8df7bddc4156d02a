use crate::parts::{ands, cavity, name, net, node, numbered, run};
use anyhow::Result;
use loom_base::{List, Name};
use loom_formula::Formula;
use loom_project::{CavityDraft, Draft, NetDraft, NodeDraft, SegmentDraft};
use std::alloc::Global;

/// How many things of each kind a draft has.
#[derive(Clone, Copy)]
pub struct Sizes {
    pub options: u32,
    pub rules: u32,
    /// Members of each rule.
    pub members: u32,
    pub nodes: u32,
    pub segments: u32,
    /// Names that each segment bars.
    pub bars: u32,
    pub cavities: u32,
    pub nets: u32,
    /// Terminals of each net.
    pub terminals: u32,
}

/// Few things of each kind.
pub const FEW: Sizes = Sizes {
    options: 1,
    rules: 1,
    members: 1,
    nodes: 2,
    segments: 1,
    bars: 1,
    cavities: 13,
    nets: 1,
    terminals: 2,
};

/// As much of everything as a project may have: the rules have 40,960 nodes and the terminals
/// 24,576, together 65,536.
pub const MOST: Sizes = Sizes {
    options: 512,
    rules: 1_024,
    members: 39,
    nodes: 1_024,
    segments: 4_096,
    bars: 64,
    cavities: 8_192,
    nets: 2_048,
    terminals: 12,
};

/// A number brought round below a count; 0 where the count is 0.
fn round(number: u64, count: u32) -> u64 {
    number.checked_rem(u64::from(count)).unwrap_or(0)
}

/// The names of a letter and the numbers from 0 on.
fn names(alloc: Global, letter: &str, count: u32) -> Result<List<Name>> {
    let mut names = List::new(alloc);
    for number in 0..count {
        names.push(numbered(alloc, letter, u64::from(number))?)?;
    }
    Ok(names)
}

fn rules(alloc: Global, sizes: Sizes) -> Result<List<Formula>> {
    let mut rules = List::new(alloc);
    for number in 0..sizes.rules {
        let option = numbered(alloc, "O", round(u64::from(number), sizes.options))?;
        rules.push(ands(alloc, option, sizes.members)?)?;
    }
    Ok(rules)
}

/// Nodes of one harness.
fn nodes(alloc: Global, sizes: Sizes) -> Result<List<NodeDraft>> {
    let harness = name("H")?;
    let mut nodes = List::new(alloc);
    for number in 0..sizes.nodes {
        nodes.push(node(numbered(alloc, "N", u64::from(number))?, harness)?)?;
    }
    Ok(nodes)
}

/// Runs round the nodes.
fn segments(alloc: Global, sizes: Sizes) -> Result<List<SegmentDraft>> {
    let mut segments = List::new(alloc);
    for number in 0..sizes.segments {
        let number = u64::from(number);
        let from = numbered(alloc, "N", round(number, sizes.nodes))?;
        let to = numbered(alloc, "N", round(number + 1, sizes.nodes))?;
        let mut segment = run(alloc, numbered(alloc, "S", number)?, from, to)?;
        segment.bars = names(alloc, "class", sizes.bars)?;
        segments.push(segment)?;
    }
    Ok(segments)
}

fn cavities(alloc: Global, sizes: Sizes) -> Result<List<CavityDraft>> {
    let mut cavities = List::new(alloc);
    for number in 0..sizes.cavities {
        let number = u64::from(number);
        let node = numbered(alloc, "N", round(number, sizes.nodes))?;
        cavities.push(cavity(numbered(alloc, "C", number)?, node)?)?;
    }
    Ok(cavities)
}

/// The cavities of a net: so many as it has terminals, from a first one on.
fn joined_cavities(alloc: Global, sizes: Sizes, net: u32) -> Result<List<Name>> {
    let first = u64::from(net) * 12;
    let mut joined = List::new(alloc);
    for terminal in 0..sizes.terminals {
        let place = round(first + u64::from(terminal), sizes.cavities);
        joined.push(numbered(alloc, "C", place)?)?;
    }
    Ok(joined)
}

fn nets(alloc: Global, sizes: Sizes) -> Result<List<NetDraft>> {
    let mut nets = List::new(alloc);
    for number in 0..sizes.nets {
        let cavities = joined_cavities(alloc, sizes, number)?;
        let name = numbered(alloc, "W", u64::from(number))?;
        nets.push(net(alloc, name, cavities.as_slice())?)?;
    }
    Ok(nets)
}

/// A draft of these sizes. Each rule is the conjunction of one option, and each terminal has the
/// formula `true`.
pub fn draft(alloc: Global, sizes: Sizes) -> Result<Draft> {
    Ok(Draft {
        options: names(alloc, "O", sizes.options)?,
        rules: rules(alloc, sizes)?,
        nodes: nodes(alloc, sizes)?,
        segments: segments(alloc, sizes)?,
        cavities: cavities(alloc, sizes)?,
        nets: nets(alloc, sizes)?,
    })
}
