use anyhow::Result;
use loom_base::Name;
use loom_project::{Draft, Project, ProjectFault};
use std::alloc::Global;
use std::str;

/// Prints a case and what the check answers to its draft.
pub fn tell(rt: &impl Print, alloc: Global, case: &str, draft: Result<Draft>) -> Result<()> {
    match Project::check(alloc, draft?).err() {
        None => println!(rt; "{case}: sound")?,
        Some(fault) => tell_fault(rt, alloc, case, fault)?,
    }
    Ok(())
}

/// Prints a case and the failure that is answered.
pub fn tell_fault(rt: &impl Print, alloc: Global, case: &str, fault: ProjectFault) -> Result<()> {
    let told = told(alloc, fault)?;
    println!(rt; "{case}: {told}")?;
    Ok(())
}

/// A failure in words.
fn told(alloc: Global, fault: ProjectFault) -> Result<String> {
    Ok(match fault {
        ProjectFault::UnknownName { of, name } => {
            format!(in alloc; "UnknownName {of:?} {}", text(&name)?)?
        }
        ProjectFault::RepeatedName { of, name } => {
            format!(in alloc; "RepeatedName {of:?} {}", text(&name)?)?
        }
        ProjectFault::TerminalRepeated { net, cavity } => {
            format!(in alloc; "TerminalRepeated {} {}", text(&net)?, text(&cavity)?)?
        }
        ProjectFault::TooFewTerminals { net, count } => {
            format!(in alloc; "TooFewTerminals {} {count}", text(&net)?)?
        }
        ProjectFault::EndsEqual { segment } => format!(in alloc; "EndsEqual {}", text(&segment)?)?,
        ProjectFault::BorderCrossed { segment } => {
            format!(in alloc; "BorderCrossed {}", text(&segment)?)?
        }
        ProjectFault::NoBorder { segment } => format!(in alloc; "NoBorder {}", text(&segment)?)?,
        ProjectFault::ReservedPin { segment, pin } => {
            format!(in alloc; "ReservedPin {} {pin}", text(&segment)?)?
        }
        ProjectFault::Limit { which, count } => format!(in alloc; "Limit {which:?} {count}")?,
        ProjectFault::NoMemory => format!(in alloc; "NoMemory")?,
    })
}

pub fn text(name: &Name) -> Result<&str> {
    Ok(str::from_utf8(name.bytes())?)
}
