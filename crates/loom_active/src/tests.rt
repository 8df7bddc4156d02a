use crate::{ActiveStop, ValidRows, valid_printed};
use loom_base::{List, Name, NoMemory};
use loom_formula::{Formula, Members};
use loom_project::{Draft, Project};
use std::alloc::Global;
use std::test::Fail;

fn option(name: u8) -> Formula {
    match Name::parse(&[name]) {
        Some(name) => Formula::Is(name),
        None => Formula::Never,
    }
}

/// Exactly one of the options A and B.
fn one_of_both(alloc: Global) -> Result<Formula, NoMemory> {
    let mut members = Members::new(alloc);
    members.push(option(b'A'))?;
    members.push(option(b'B'))?;
    Ok(Formula::One(members))
}

/// The rows for these rules over the options A and B; None where the project isn't sound.
fn rows_of(alloc: Global, rules: List<Formula>) -> Result<Option<ValidRows>, ActiveStop> {
    let mut options = List::new(alloc);
    for byte in [b'A', b'B'] {
        if let Some(name) = Name::parse(&[byte]) {
            options.push(name)?;
        }
    }
    let draft = Draft {
        options,
        rules,
        nodes: List::new(alloc),
        segments: List::new(alloc),
        cavities: List::new(alloc),
        nets: List::new(alloc),
    };
    match Project::check(alloc, draft) {
        Ok(project) => Ok(Some(valid_printed(alloc, &project)?)),
        Err(_) => Ok(None),
    }
}

#[test]
fn a_rule_has_one_row(rt: HostRuntime) -> Result<(), Fail> {
    let alloc = rt.alloc();
    let mut rules = List::new(alloc);
    rules.push(option(b'A'))?;
    let valid = rows_of(alloc, rules)?.ok_or("sound")?;
    assert_eq!(rt; valid.row, 2);
    assert_eq!(rt; valid.rows.count(), 1);
    assert_eq!(rt; valid.rows.row(2), Some((0, 0, 1)));
    Ok(())
}

#[test]
fn rules_that_exclude_each_other_leave_no_choice(rt: HostRuntime) -> Result<(), Fail> {
    let alloc = rt.alloc();
    let mut rules = List::new(alloc);
    rules.push(option(b'A'))?;
    rules.push(one_of_both(alloc)?)?;
    rules.push(option(b'B'))?;
    let stop = rows_of(alloc, rules).err();
    assert!(rt; matches!(stop, Some(ActiveStop::NoChoice)));
    Ok(())
}

#[test]
fn without_rules_every_choice_is_valid(rt: HostRuntime) -> Result<(), Fail> {
    let alloc = rt.alloc();
    let valid = rows_of(alloc, List::new(alloc))?.ok_or("sound")?;
    assert_eq!(rt; valid.row, 1);
    assert_eq!(rt; valid.rows.count(), 0);
    Ok(())
}
