use crate::answers::tell;
use crate::joined::joined;
use crate::parts::{cavity, name, net, node, nots, one, run, two};
use anyhow::Result;
use loom_project::Draft;
use std::alloc::Global;

fn with_an_option_twice(alloc: Global) -> Result<Draft> {
    let mut draft = joined(alloc)?;
    let option = name("A")?;
    draft.options = two(alloc, option, option)?;
    Ok(draft)
}

fn with_a_node_twice(alloc: Global) -> Result<Draft> {
    let mut draft = joined(alloc)?;
    let again = node(name("N1")?, name("H2")?)?;
    draft.nodes.push(again)?;
    Ok(draft)
}

fn with_a_segment_twice(alloc: Global) -> Result<Draft> {
    let mut draft = joined(alloc)?;
    let again = run(alloc, name("S1")?, name("N2")?, name("N1")?)?;
    draft.segments.push(again)?;
    Ok(draft)
}

fn with_a_cavity_twice(alloc: Global) -> Result<Draft> {
    let mut draft = joined(alloc)?;
    let again = cavity(name("C1")?, name("N2")?)?;
    draft.cavities.push(again)?;
    Ok(draft)
}

fn with_a_net_twice(alloc: Global) -> Result<Draft> {
    let mut draft = joined(alloc)?;
    let again = net(alloc, name("W1")?, &[name("C2")?, name("C1")?])?;
    draft.nets.push(again)?;
    Ok(draft)
}

/// Names that stand twice in a list.
pub fn repeated(rt: &impl Print, alloc: Global) -> Result<()> {
    tell(rt, alloc, "an option twice", with_an_option_twice(alloc))?;
    tell(rt, alloc, "a node twice", with_a_node_twice(alloc))?;
    tell(rt, alloc, "a segment twice", with_a_segment_twice(alloc))?;
    tell(rt, alloc, "a cavity twice", with_a_cavity_twice(alloc))?;
    tell(rt, alloc, "a net twice", with_a_net_twice(alloc))
}

/// A draft with a rule of an option.
fn with_rule_of(alloc: Global, option: &str) -> Result<Draft> {
    let mut draft = joined(alloc)?;
    draft.rules = one(alloc, nots(alloc, name(option)?, 1)?)?;
    Ok(draft)
}

/// A draft with one segment between these nodes.
fn with_segment_between(alloc: Global, from: &str, to: &str) -> Result<Draft> {
    let mut draft = joined(alloc)?;
    let segment = run(alloc, name("S1")?, name(from)?, name(to)?)?;
    draft.segments = one(alloc, segment)?;
    Ok(draft)
}

/// A draft with a third cavity at a node.
fn with_cavity_at(alloc: Global, node: &str) -> Result<Draft> {
    let mut draft = joined(alloc)?;
    draft.cavities.push(cavity(name("C3")?, name(node)?)?)?;
    Ok(draft)
}

/// Names that nothing has.
pub fn unknown(rt: &impl Print, alloc: Global) -> Result<()> {
    let rule = with_rule_of(alloc, "B");
    tell(rt, alloc, "a rule of an option that isn't there", rule)?;
    let from = with_segment_between(alloc, "N8", "N9");
    tell(rt, alloc, "a segment from a node that isn't there", from)?;
    let to = with_segment_between(alloc, "N1", "N9");
    tell(rt, alloc, "a segment to a node that isn't there", to)?;
    let at = with_cavity_at(alloc, "N9");
    tell(rt, alloc, "a cavity at a node that isn't there", at)
}
