use crate::answers::tell;
use crate::parts::{cavity, coupler, name, net, node, nots, one, run, two};
use anyhow::Result;
use loom_base::{List, Name};
use loom_project::{Draft, SegmentDraft};
use std::alloc::Global;

/// A draft with the option A: the run S1 from N1 to N2 of one harness, a cavity at each, and the
/// net W1 of both.
pub fn joined(alloc: Global) -> Result<Draft> {
    let (n1, n2, harness) = (name("N1")?, name("N2")?, name("H")?);
    let (c1, c2) = (name("C1")?, name("C2")?);
    Ok(Draft {
        options: one(alloc, name("A")?)?,
        rules: List::new(alloc),
        nodes: two(alloc, node(n1, harness)?, node(n2, harness)?)?,
        segments: one(alloc, run(alloc, name("S1")?, n1, n2)?)?,
        cavities: two(alloc, cavity(c1, n1)?, cavity(c2, n2)?)?,
        nets: one(alloc, net(alloc, name("W1")?, &[c1, c2])?)?,
    })
}

/// The draft with another segment S1.
fn with_segment(alloc: Global, segment: SegmentDraft) -> Result<Draft> {
    let mut draft = joined(alloc)?;
    draft.segments = one(alloc, segment)?;
    Ok(draft)
}

/// The draft with its second node in another harness and another segment S1.
fn over_border(alloc: Global, segment: SegmentDraft) -> Result<Draft> {
    let mut draft = with_segment(alloc, segment)?;
    let first = node(name("N1")?, name("H")?)?;
    let second = node(name("N2")?, name("H2")?)?;
    draft.nodes = two(alloc, first, second)?;
    Ok(draft)
}

/// The run S1 between these nodes.
fn between(alloc: Global, from: &str, to: &str) -> Result<SegmentDraft> {
    run(alloc, name("S1")?, name(from)?, name(to)?)
}

/// The coupler S1 of two pins from N1 to N2 with these pins reserved.
fn reserving(alloc: Global, pins: &[u16]) -> Result<SegmentDraft> {
    let mut segment = between(alloc, "N1", "N2")?;
    segment.kind = coupler()?;
    segment.reserved = List::from_slice(alloc, pins)?;
    Ok(segment)
}

/// The draft with the net W1 of these cavities.
fn with_terminals(alloc: Global, cavities: &[Name]) -> Result<Draft> {
    let mut draft = joined(alloc)?;
    draft.nets = one(alloc, net(alloc, name("W1")?, cavities)?)?;
    Ok(draft)
}

/// What a segment may join.
pub fn segments(rt: &impl Print, alloc: Global) -> Result<()> {
    let straight = between(alloc, "N1", "N2")?;
    tell(
        rt,
        alloc,
        "a run between two nodes",
        with_segment(alloc, straight),
    )?;
    let looped = between(alloc, "N1", "N1")?;
    tell(
        rt,
        alloc,
        "a run from a node to itself",
        with_segment(alloc, looped),
    )?;
    let crossing = between(alloc, "N1", "N2")?;
    tell(
        rt,
        alloc,
        "a run to another harness",
        over_border(alloc, crossing),
    )
}

/// What a coupler may join.
pub fn couplers(rt: &impl Print, alloc: Global) -> Result<()> {
    let crossing = reserving(alloc, &[])?;
    tell(
        rt,
        alloc,
        "a coupler to another harness",
        over_border(alloc, crossing),
    )?;
    let inside = reserving(alloc, &[])?;
    tell(
        rt,
        alloc,
        "a coupler inside one harness",
        with_segment(alloc, inside),
    )
}

/// The run S1 with its first pin reserved.
fn reserving_run(alloc: Global) -> Result<SegmentDraft> {
    let mut segment = between(alloc, "N1", "N2")?;
    segment.reserved = one(alloc, 1)?;
    Ok(segment)
}

/// Which pins may be reserved.
pub fn pins(rt: &impl Print, alloc: Global) -> Result<()> {
    let both = reserving(alloc, &[2, 1, 2])?;
    tell(rt, alloc, "both pins reserved", over_border(alloc, both))?;
    let none = reserving(alloc, &[1, 0])?;
    tell(rt, alloc, "pin 0 reserved", over_border(alloc, none))?;
    let past = reserving(alloc, &[3, 0])?;
    tell(rt, alloc, "pin 3 of two reserved", over_border(alloc, past))?;
    let of_run = reserving_run(alloc)?;
    tell(
        rt,
        alloc,
        "a pin of a run reserved",
        with_segment(alloc, of_run),
    )
}

/// Which cavities a net may join.
pub fn terminals(rt: &impl Print, alloc: Global) -> Result<()> {
    let (c1, c9) = (name("C1")?, name("C9")?);
    let lone = with_terminals(alloc, &[c1]);
    tell(rt, alloc, "a net of one terminal", lone)?;
    let twice = with_terminals(alloc, &[c1, c1]);
    tell(rt, alloc, "a net with a cavity twice", twice)?;
    let unknown = with_terminals(alloc, &[c1, c9]);
    tell(rt, alloc, "a net with a cavity that isn't there", unknown)
}

/// The draft with the rule of so many `not` round the option A.
fn with_nots(alloc: Global, times: u32) -> Result<Draft> {
    let mut draft = joined(alloc)?;
    draft.rules = one(alloc, nots(alloc, name("A")?, times)?)?;
    Ok(draft)
}

/// How deep a formula may be.
pub fn depths(rt: &impl Print, alloc: Global) -> Result<()> {
    tell(rt, alloc, "a rule of 63 nots", with_nots(alloc, 63))?;
    tell(rt, alloc, "a rule of 64 nots", with_nots(alloc, 64))
}
