use anyhow::{Result, bail};
use loom_answer::answer;
use loom_base::{List, NoMemory};
use loom_json::line;
use loom_plan::plan;
use loom_project::Project;
use loom_reader::{Document, Entry};
use loom_session::Session;
use loom_types::Plan;
use std::alloc::Global;

/// What is printed of a plan of a project.
pub fn printed(alloc: Global, project: &Project, plan: &Plan) -> Result<List<u8>, NoMemory> {
    line(alloc, &answer(alloc, 1, &[], plan, project, &[])?)
}

/// Plans a session's project with what is kept, and tells how many tables were worked out so far;
/// None where the plan isn't the one that is made of the project alone.
fn built_for_plan(alloc: Global, session: &mut Session) -> Result<Option<u64>> {
    let (Ok(kept), Ok(alone)) = (session.plan(), plan(alloc, session.project())) else {
        bail!("not planned");
    };
    let kept = printed(alloc, session.project(), &kept)?;
    let alone = printed(alloc, session.project(), &alone)?;
    if kept.as_slice() == alone.as_slice() {
        Ok(Some(session.built()))
    } else {
        Ok(None)
    }
}

/// Prints how many tables were worked out so far, once the session's project is planned.
fn tell(rt: &impl Print, alloc: Global, case: &str, session: &mut Session) -> Result<()> {
    match built_for_plan(alloc, session)? {
        Some(built) => println!(rt; "{case}: {built} tables")?,
        None => println!(rt; "{case}: not the plan of the project alone")?,
    }
    Ok(())
}

/// Changes a session's project by the entry at a position.
fn change(session: &mut Session, entries: &[Entry], at: usize) -> Result<()> {
    match entries.get(at) {
        Some(Entry::Change(edit)) => match session.edit(edit) {
            Ok(()) => Ok(()),
            Err(_) => bail!("not changed"),
        },
        _ => bail!("no change"),
    }
}

/// Makes the changes from one position to another, and prints how many tables the session has worked
/// out once its project is planned.
fn step(
    rt: &impl Print,
    alloc: Global,
    session: &mut Session,
    entries: &[Entry],
    from: usize,
    to: usize,
    case: &str,
) -> Result<()> {
    for at in from..to {
        change(session, entries, at)?;
    }
    tell(rt, alloc, case, session)
}

/// Prints how many tables a session works out from edit to edit.
fn steps(rt: &impl Print, alloc: Global, session: &mut Session, entries: &[Entry]) -> Result<()> {
    step(rt, alloc, session, entries, 0, 0, "as it is read")?;
    step(rt, alloc, session, entries, 0, 1, "another condition")?;
    step(rt, alloc, session, entries, 1, 3, "a terminal more")?;
    step(rt, alloc, session, entries, 3, 4, "a longer run")
}

/// Prints how many tables a session over a document's project works out from edit to edit.
pub fn works_out_what_it_lacks(rt: &impl Print, alloc: Global, document: Document) -> Result<()> {
    let Document {
        project,
        entries,
        ..
    } = document;
    let mut session = Session::new(alloc, project);
    steps(rt, alloc, &mut session, entries.as_slice())
}
