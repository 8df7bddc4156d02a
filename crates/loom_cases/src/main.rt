//! Runs the cases that lie in the folder where it runs, prints for each whether it went as wanted,
//! and fails where one didn't.
//!
//! A case is the file `NAME.case`: lines `word W` with the words after the program's name and a line
//! `status N` with the number of the status; then, below a line `--- document`, the bytes of the
//! source, and below a line `--- line` all that is to be written. Further lines above give the run
//! another source or sink, or design rules.
#![tactic(auto)]

mod case;
mod form;
mod judge;
mod verdict;

use crate::verdict::Verdict;
use anyhow::{Result, bail};
use std::fs;

/// The names of the cases, in their order.
fn case_names(rt: &HostRuntime) -> Result<Vec<String>> {
    let mut names = Vec::new(rt.alloc());
    for entry in fs::read_dir(rt, ".")? {
        let entry = entry?;
        if let Some(name) = entry.file_name().strip_suffix(".case") {
            names.push(String::from_str(rt.alloc(), name)?)?;
        }
    }
    names.sort()?;
    Ok(names)
}

/// Runs the cases, prints how each went, and says whether all went as wanted.
fn run_all(rt: &HostRuntime, names: &[String]) -> Result<bool> {
    let mut all_as_wanted = true;
    for name in names {
        let path = format!(in rt.alloc(); "{name}.case")?;
        let case = case::read(rt, path.as_str())?;
        let verdict = judge::judge(rt.alloc(), case)?;
        println!(rt; "{name}: {verdict}")?;
        if verdict != Verdict::AsWanted {
            all_as_wanted = false;
        }
    }
    Ok(all_as_wanted)
}

fn main(rt: HostRuntime) -> Result<()> {
    let names = case_names(&rt)?;
    if !run_all(&rt, names.as_slice())? {
        bail!("a case went otherwise");
    }
    Ok(())
}
