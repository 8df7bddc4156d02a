use crate::{Choice, ChoiceFault, Formula, Members, NameIndex, Options, RowFault, RowList, broken};
use loom_base::{List, Name, NoMemory, OptionNo};
use sqlite_items::Boxed;
use std::alloc::Global;
use std::test::Fail;

fn name(letter: u8) -> Result<Name, Fail> {
    Ok(Name::parse(&[letter]).ok_or("a name")?)
}

/// The options A and B.
fn options(alloc: Global) -> Result<Options, Fail> {
    let a = name(b'A')?;
    let b = name(b'B')?;
    let mut options = Options::new(alloc);
    let _ = options.add(a)?;
    let _ = options.add(b)?;
    Ok(options)
}

/// A member for each of the options A and B.
fn members(alloc: Global) -> Result<Members, Fail> {
    let a = name(b'A')?;
    let b = name(b'B')?;
    let mut members = Members::new(alloc);
    members.push(Formula::Is(a))?;
    members.push(Formula::Is(b))?;
    Ok(members)
}

/// `not` so many times round a formula.
fn nested(alloc: Global, formula: Formula, times: u64) -> Result<Formula, NoMemory> {
    let mut formula = formula;
    for _ in 0..times {
        formula = Formula::Not(Boxed::new(alloc, formula)?);
    }
    Ok(formula)
}

fn choice(alloc: Global, values: &[bool]) -> Result<Choice, NoMemory> {
    Ok(Choice {
        values: List::from_slice(alloc, values)?,
    })
}

/// Whether a formula holds under a choice of A and B.
fn holds(alloc: Global, formula: &Formula, values: &[bool]) -> Result<bool, Fail> {
    let options = options(alloc)?;
    let choice = choice(alloc, values)?;
    Ok(formula.holds(&options, &choice))
}

#[test]
fn members_are_read_in_order(rt: HostRuntime) -> Result<(), Fail> {
    let members = members(rt.alloc())?;
    assert_eq!(rt; members.count(), 2);
    assert_eq!(rt; members.as_slice().len(), 2);
    assert!(rt; matches!(members.get(1), Some(Formula::Is(_))));
    assert!(rt; members.get(2).is_none());
    Ok(())
}

#[test]
fn a_copy_has_the_same_nodes_and_values(rt: HostRuntime) -> Result<(), Fail> {
    let alloc = rt.alloc();
    let formula = nested(alloc, Formula::One(members(alloc)?), 1)?;
    let copy = formula.copy(alloc)?;
    assert_eq!(rt; copy.nodes(), 4);
    assert_eq!(rt; copy.depth(), 3);
    assert!(rt; holds(alloc, &copy, &[true, true])?);
    Ok(())
}

#[test]
fn depths_are_counted(rt: HostRuntime) -> Result<(), Fail> {
    let alloc = rt.alloc();
    let deep = nested(alloc, Formula::Always, 63)?;
    assert_eq!(rt; deep.depth(), 64);
    let deeper = nested(alloc, deep, 1)?;
    assert_eq!(rt; deeper.depth(), 65);
    let empty = Formula::And(Members::new(alloc));
    assert_eq!(rt; empty.depth(), 1);
    Ok(())
}

#[test]
fn one_wants_exactly_one_member(rt: HostRuntime) -> Result<(), Fail> {
    let alloc = rt.alloc();
    let one = Formula::One(members(alloc)?);
    assert!(rt; holds(alloc, &one, &[true])?);
    assert!(rt; !holds(alloc, &one, &[true, true])?);
    assert!(rt; !holds(alloc, &one, &[])?);
    Ok(())
}

#[test]
fn and_wants_all_and_or_wants_some(rt: HostRuntime) -> Result<(), Fail> {
    let alloc = rt.alloc();
    let and = Formula::And(members(alloc)?);
    assert!(rt; !holds(alloc, &and, &[true])?);
    let or = Formula::Or(members(alloc)?);
    assert!(rt; holds(alloc, &or, &[false, true])?);
    Ok(())
}

#[test]
fn the_first_false_rule_is_found(rt: HostRuntime) -> Result<(), Fail> {
    let alloc = rt.alloc();
    let options = options(alloc)?;
    let rules = [Formula::Always, Formula::Is(name(b'B')?)];
    let none = choice(alloc, &[])?;
    assert_eq!(rt; broken(&rules, &options, &none), Some(1));
    assert_eq!(rt; broken(&[], &options, &none), None);
    Ok(())
}

#[test]
fn options_stand_once_in_their_order(rt: HostRuntime) -> Result<(), Fail> {
    let options = options(rt.alloc())?;
    let b = name(b'B')?;
    assert_eq!(rt; options.count(), 2);
    assert_eq!(rt; options.name(OptionNo(1)), b);
    assert_eq!(rt; options.position(b), Some(OptionNo(1)));
    Ok(())
}

#[test]
fn a_name_index_finds_its_names(rt: HostRuntime) -> Result<(), Fail> {
    let a = name(b'A')?;
    let mut names = NameIndex::new(rt.alloc());
    assert!(rt; names.is_empty());
    assert!(rt; names.add(a)?);
    assert_eq!(rt; names.len(), 1);
    assert!(rt; !names.add(a)?);
    assert_eq!(rt; names.position(&a), Some(0));
    Ok(())
}

#[test]
fn names_make_a_choice(rt: HostRuntime) -> Result<(), Fail> {
    let alloc = rt.alloc();
    let options = options(alloc)?;
    let b = name(b'B')?;
    let chosen = Choice::of(alloc, &options, &[b]).ok().ok_or("a choice")?;
    assert!(rt; chosen.get(OptionNo(1)) && !chosen.get(OptionNo(0)));
    Ok(())
}

#[test]
fn the_first_fault_of_the_names_is_told(rt: HostRuntime) -> Result<(), Fail> {
    let alloc = rt.alloc();
    let options = options(alloc)?;
    let b = name(b'B')?;
    let c = name(b'C')?;
    assert!(rt;
        matches!(
            Choice::of(alloc, &options, &[b, c, b]),
            Err(ChoiceFault::Unknown(_))
        )
    );
    assert!(rt;
        matches!(
            Choice::of(alloc, &options, &[b, b, c]),
            Err(ChoiceFault::Repeated(_))
        )
    );
    Ok(())
}

#[test]
fn row_lists_are_walked(rt: HostRuntime) -> Result<(), Fail> {
    let alloc = rt.alloc();
    let first = choice(alloc, &[true])?;
    let mut rows = RowList::new(alloc);
    rows.push(1, 1, 0)?;
    rows.push(0, 0, 2)?;
    assert_eq!(rt; rows.push(0, 4, 0), Err(RowFault::NotBelow));
    assert_eq!(rt; rows.count(), 2);
    assert_eq!(rt; rows.row(3), Some((0, 0, 2)));
    assert!(rt; rows.value(3, &first));
    assert!(rt; !rows.value(2, &choice(alloc, &[false, true])?));
    Ok(())
}
