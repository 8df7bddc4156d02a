ghost use Rattle.loom_laid.specs.Kept.{AreTrueOf};

use crate::sessions::printed;
use anyhow::{Result, bail};
use loom_base::{CavityNo, List, NoMemory};
use loom_laid::Kept;
use loom_plan::plan_kept;
use loom_project::Project;
use loom_steiner::{DirectFiller, Filler};
use loom_topology::{Table, Topology};
use loom_types::PlanStop;
use std::alloc::Global;

/// Gives no table.
#[derive(Drop)]
struct NoFiller;

impl Filler for NoFiller {
    ghost count = { λ _. 0 };

    fn table(
        &mut self,
        _alloc: Global,
        _topology: &Topology,
        _terminals: &[CavityNo],
    ) -> Result<Table, NoMemory> {
        Err(NoMemory)
    }

    fn built(&self) -> u64 {
        0
    }
}

/// What is printed of a project's plan with what is kept; None where a table is missing that the
/// filler doesn't give.
fn printed_with<F: Filler>(
    alloc: Global,
    project: &Project,
    kept: &mut Kept,
    filler: &mut F,
) -> Result<Option<List<u8>>>
    requires { AreTrueOf project.now kept.old }
    ensures { AreTrueOf project.now kept.new }
{
    match plan_kept(alloc, project, kept, filler) {
        Ok(plan) => Ok(Some(printed(alloc, project, &plan)?)),
        Err(PlanStop::NoMemory) => Ok(None),
        Err(_) => bail!("not planned"),
    }
}

/// Prints what a filler comes to.
fn tell(rt: &impl Print, case: &str, line: Option<&List<u8>>, wanted: &List<u8>) -> Result<()> {
    match line {
        None => println!(rt; "{case}: no plan")?,
        Some(line) => {
            if line.as_slice() == wanted.as_slice() {
                println!(rt; "{case}: the plan")?;
            } else {
                println!(rt; "{case}: another plan")?;
            }
        }
    }
    Ok(())
}

/// Prints that a filler without tables serves where all tables are kept, and only there.
pub fn serves_without_filler(rt: &impl Print, alloc: Global, project: &Project) -> Result<()> {
    let mut kept = Kept::new(alloc);
    let unfilled = printed_with(alloc, project, &mut kept, &mut NoFiller)?;
    let Some(filled) = printed_with(alloc, project, &mut kept, &mut DirectFiller::new())? else {
        bail!("not planned");
    };
    let again = printed_with(alloc, project, &mut kept, &mut NoFiller)?;
    tell(rt, "nothing kept, no filler", unfilled.as_ref(), &filled)?;
    tell(rt, "all kept, no filler", again.as_ref(), &filled)
}
