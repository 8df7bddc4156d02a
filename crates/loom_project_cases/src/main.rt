//! Worked cases of the check of a project: each is printed with what the check answers.
#![tactic(auto)]

mod answers;
mod hub;
mod joined;
mod limits;
mod named;
mod parts;
mod replaced;
mod sized;

use anyhow::Result;
use std::alloc::Global;

fn main(rt: HostRuntime) -> Result<()> {
    let alloc = rt.alloc();
    segments(&rt, alloc)?;
    names(&rt, alloc)?;
    sizes(&rt, alloc)?;
    replaced::replaced(&rt, alloc)?;
    replaced::looked_up(&rt, alloc)
}

/// Segments, nets and rules of a small draft.
fn segments(rt: &impl Print, alloc: Global) -> Result<()> {
    joined::segments(rt, alloc)?;
    joined::couplers(rt, alloc)?;
    joined::pins(rt, alloc)?;
    joined::terminals(rt, alloc)?;
    joined::depths(rt, alloc)
}

/// Names that are repeated or unknown.
fn names(rt: &impl Print, alloc: Global) -> Result<()> {
    named::repeated(rt, alloc)?;
    named::unknown(rt, alloc)
}

/// Drafts that are as large as they may be, or larger.
fn sizes(rt: &impl Print, alloc: Global) -> Result<()> {
    hub::leaves(rt, alloc)?;
    limits::options(rt, alloc)?;
    limits::topology(rt, alloc)?;
    limits::nets(rt, alloc)?;
    limits::all(rt, alloc)
}
