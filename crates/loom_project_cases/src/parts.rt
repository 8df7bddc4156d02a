use anyhow::{Context, Result};
use loom_base::{Branch, List, Name, NoMemory, Pins, Price};
use loom_formula::{Formula, Members};
use loom_project::{CavityDraft, NetDraft, NodeDraft, SegmentDraft, TerminalDraft};
use loom_topology::Kind;
use sqlite_items::Boxed;
use std::alloc::Global;

pub fn name(text: &str) -> Result<Name> {
    Name::parse(text.as_bytes()).context("not a name")
}

/// The name that a letter and a number spell.
pub fn numbered(alloc: Global, letter: &str, number: u64) -> Result<Name> {
    let text = format!(in alloc; "{letter}{number}")?;
    name(text.as_str())
}

/// The list of one thing.
pub fn one<T: Drop>(alloc: Global, thing: T) -> Result<List<T>, NoMemory> {
    let mut list = List::new(alloc);
    list.push(thing)?;
    Ok(list)
}

/// The list of two things.
pub fn two<T: Drop>(alloc: Global, first: T, second: T) -> Result<List<T>, NoMemory> {
    let mut list = one(alloc, first)?;
    list.push(second)?;
    Ok(list)
}

/// A node with a branch cost of 1.
pub fn node(name: Name, harness: Name) -> Result<NodeDraft> {
    let branch = Branch::new(1).context("no branch cost")?;
    Ok(NodeDraft {
        name,
        harness,
        branch,
    })
}

/// A run of 10 that no net is barred from.
pub fn run(alloc: Global, name: Name, from: Name, to: Name) -> Result<SegmentDraft> {
    let length = Price::new(10).context("no length")?;
    Ok(SegmentDraft {
        name,
        from,
        to,
        kind: Kind::Run { length },
        bars: List::new(alloc),
        reserved: List::new(alloc),
    })
}

/// A coupler of two pins.
pub fn coupler() -> Result<Kind> {
    let price = Price::new(100).context("no price")?;
    let pins = Pins::new(2).context("no pins")?;
    Ok(Kind::Coupler { price, pins })
}

/// A cavity of the device D.
pub fn cavity(cavity: Name, node: Name) -> Result<CavityDraft> {
    Ok(CavityDraft {
        name: cavity,
        device: name("D")?,
        node,
    })
}

/// A net of the class `std` that always needs these cavities.
pub fn net(alloc: Global, net: Name, cavities: &[Name]) -> Result<NetDraft> {
    let mut terminals = List::new(alloc);
    for &cavity in cavities {
        let when = Formula::Always;
        terminals.push(TerminalDraft { cavity, when })?;
    }
    Ok(NetDraft {
        name: net,
        class: name("std")?,
        terminals,
    })
}

/// `not` so many times round an option.
pub fn nots(alloc: Global, option: Name, times: u32) -> Result<Formula> {
    let mut formula = Formula::Is(option);
    for _ in 0..times {
        formula = Formula::Not(Boxed::new(alloc, formula)?);
    }
    Ok(formula)
}

/// `and` of so many times one option.
pub fn ands(alloc: Global, option: Name, times: u32) -> Result<Formula> {
    let mut members = Members::new(alloc);
    for _ in 0..times {
        members.push(Formula::Is(option))?;
    }
    Ok(Formula::And(members))
}
