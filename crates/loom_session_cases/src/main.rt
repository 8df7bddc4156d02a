//! Sessions and what they keep: how many tables are worked out from edit to edit, and that kept
//! tables serve where no filler does.
#![tactic(auto)]

mod kept;
mod sessions;

use anyhow::{Result, bail};
use loom_reader::{Document, Want, read};
use std::alloc::Global;
use std::fs;

/// The document of the cases.
fn document(rt: &HostRuntime) -> Result<Document> {
    let bytes = fs::read(rt, "four_edits.json")?;
    match read(rt.alloc(), bytes.as_slice(), Want::Plan) {
        Ok(document) => Ok(document),
        Err(_) => bail!("not read"),
    }
}

fn main(rt: HostRuntime) -> Result<()> {
    let alloc = rt.alloc();
    kept::serves_without_filler(&rt, alloc, &document(&rt)?.project)?;
    sessions::works_out_what_it_lacks(&rt, alloc, document(&rt)?)
}
