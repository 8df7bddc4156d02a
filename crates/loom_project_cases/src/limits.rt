use crate::answers::tell;
use crate::sized::{FEW, MOST, Sizes, draft};
use anyhow::Result;
use std::alloc::Global;

/// Prints what the check answers at a limit and past it.
fn tell_both(rt: &impl Print, alloc: Global, of: &str, within: Sizes, past: Sizes) -> Result<()> {
    let most = format!(in alloc; "{of}, as many as may be")?;
    tell(rt, alloc, most.as_str(), draft(alloc, within))?;
    let more = format!(in alloc; "{of}, one more")?;
    tell(rt, alloc, more.as_str(), draft(alloc, past))
}

/// How many options and rules there may be.
pub fn options(rt: &impl Print, alloc: Global) -> Result<()> {
    let options = |options| Sizes { options, ..FEW };
    tell_both(rt, alloc, "options", options(512), options(513))?;
    let rules = |rules| Sizes { rules, ..FEW };
    tell_both(rt, alloc, "rules", rules(1_024), rules(1_025))
}

/// How many nodes, segments, names that a segment bars and cavities there may be.
pub fn topology(rt: &impl Print, alloc: Global) -> Result<()> {
    let nodes = |nodes| Sizes { nodes, ..FEW };
    tell_both(rt, alloc, "nodes", nodes(1_024), nodes(1_025))?;
    let segments = |segments| Sizes { segments, ..FEW };
    tell_both(rt, alloc, "segments", segments(4_096), segments(4_097))?;
    let bars = |bars| Sizes { bars, ..FEW };
    tell_both(rt, alloc, "bars of a segment", bars(64), bars(65))?;
    let cavities = |cavities| Sizes { cavities, ..FEW };
    tell_both(rt, alloc, "cavities", cavities(8_192), cavities(8_193))
}

/// How many nets, terminals of a net and nodes of all formulas there may be. A rule has one node
/// more than members, and each of the two terminals has one.
pub fn nets(rt: &impl Print, alloc: Global) -> Result<()> {
    let nets = |nets| Sizes { nets, ..FEW };
    tell_both(rt, alloc, "nets", nets(2_048), nets(2_049))?;
    let terminals = |terminals| Sizes { terminals, ..FEW };
    tell_both(
        rt,
        alloc,
        "terminals of a net",
        terminals(12),
        terminals(13),
    )?;
    let members = |members| Sizes { members, ..FEW };
    tell_both(
        rt,
        alloc,
        "nodes of formulas",
        members(65_533),
        members(65_534),
    )
}

/// Every limit at once.
pub fn all(rt: &impl Print, alloc: Global) -> Result<()> {
    tell(
        rt,
        alloc,
        "everything, as much as may be",
        draft(alloc, MOST),
    )
}
