ghost use Rattle.std.specs.Prelude.{◌≡◌, ◌≤◌, ◌<◌, length};

use crate::{Meetings, Rows, RowsStop, first_unreduced};
use bumpalo::Bump;
use loom_base::{List, Name, NoMemory, OptionNo};
use loom_formula::{Choice, Formula, Members, Options, RowList};
use std::alloc::Global;
use std::test::Fail;

fn name(text: &str) -> Result<Name, Fail> {
    Ok(Name::parse(text.as_bytes()).ok_or("a name")?)
}

/// That the option of this name is true.
fn is(text: &str) -> Result<Formula, Fail> {
    Ok(Formula::Is(name(text)?))
}

/// Two members.
fn two(alloc: Global, first: Formula, second: Formula) -> Result<Members, NoMemory> {
    let mut members = Members::new(alloc);
    members.push(first)?;
    members.push(second)?;
    Ok(members)
}

/// The options A and B.
fn a_and_b(alloc: Global) -> Result<Options, Fail> {
    let a = name("A")?;
    let b = name("B")?;
    let mut options = Options::new(alloc);
    let _ = options.add(a)?;
    let _ = options.add(b)?;
    Ok(options)
}

/// How many rows an option, another, one of the two and neither have, and whether the last two are
/// the same.
fn one_or_neither(alloc: Global, arena: &Bump) -> Result<(u32, bool), RowsStop> {
    let mut rows = Rows::new(alloc, arena, 2, 262_144);
    let a = rows.is(OptionNo(0))?;
    let b = rows.is(OptionNo(1))?;
    let either = rows.or(a, b)?;
    let neither = rows.not(either)?;
    Ok((rows.row_count(), rows.same(either, neither)))
}

#[test]
fn rows_are_the_different_leftovers(rt: HostRuntime) -> Result<(), Fail> {
    let arena = Bump::new(rt.alloc());
    let (count, same) = one_or_neither(rt.alloc(), &arena)?;
    assert_eq!(rt; count, 5);
    assert!(rt; !same);
    Ok(())
}

/// Whether an option is the same as what is left out of what it leaves out.
fn twice_not(alloc: Global, arena: &Bump) -> Result<bool, RowsStop> {
    let mut rows = Rows::new(alloc, arena, 1, 2);
    let a = rows.is(OptionNo(0))?;
    let without = rows.not(a)?;
    let again = rows.not(without)?;
    Ok(rows.same(a, again))
}

#[test]
fn equal_conditions_are_the_same(rt: HostRuntime) -> Result<(), Fail> {
    let arena = Bump::new(rt.alloc());
    assert!(rt; twice_not(rt.alloc(), &arena)?);
    Ok(())
}

/// The least choice of three options in which the first two hold, and the value of the second under
/// it.
fn met(alloc: Global, arena: &Bump) -> Result<Option<(Choice, bool)>, RowsStop> {
    let mut rows = Rows::new(alloc, arena, 3, 262_144);
    let a = rows.is(OptionNo(0))?;
    let b = rows.is(OptionNo(1))?;
    let both = rows.and(a, b)?;
    match rows.meets(both, b)? {
        Some(choice) => {
            let holds = rows.value(b, &choice);
            Ok(Some((choice, holds)))
        }
        None => Ok(None),
    }
}

#[test]
fn conditions_meet_at_the_least_choice(rt: HostRuntime) -> Result<(), Fail> {
    let arena = Bump::new(rt.alloc());
    let (choice, holds) = met(rt.alloc(), &arena)?.ok_or("they meet")?;
    assert_eq!(rt; choice.values.as_slice(), [true, true, false].as_slice());
    assert!(rt; holds);
    Ok(())
}

/// The printed rows and numbers of "valid and A" and "valid and B", where the one rule says which
/// choices are valid.
fn printed(
    alloc: Global,
    arena: &Bump,
    options: &Options,
    rule: &Formula,
) -> Result<(RowList, List<u32>), RowsStop>
    requires { length options.now ≡ 2 }
{
    let mut rows = Rows::new(alloc, arena, 2, 262_144);
    let valid = rows.of_formula(options, rule)?;
    let a = rows.is(OptionNo(0))?;
    let b = rows.is(OptionNo(1))?;
    let first = rows.and(valid, a)?;
    let second = rows.and(valid, b)?;
    Ok(rows.list(&[first, second])?)
}

#[test]
fn printed_rows_are_walked_low_part_first(rt: HostRuntime) -> Result<(), Fail> {
    let alloc = rt.alloc();
    let arena = Bump::new(alloc);
    let options = a_and_b(alloc)?;
    assert!(rt; options.count() == 2);
    let rule = Formula::One(two(alloc, is("A")?, is("B")?)?);
    let (rows, numbers) = printed(alloc, &arena, &options, &rule)?;
    assert_eq!(rt; numbers.as_slice(), [3, 5].as_slice());
    assert_eq!(rt; rows.count(), 4);
    assert_eq!(rt; rows.row(2), Some((1, 1, 0)));
    assert_eq!(rt; rows.row(3), Some((0, 0, 2)));
    assert_eq!(rt; rows.row(4), Some((1, 0, 1)));
    assert_eq!(rt; rows.row(5), Some((0, 4, 0)));
    Ok(())
}

/// How many conditions the printed rows of "both" are in another table, and how many rows there are
/// then.
fn taken_in(alloc: Global, arena: &Bump) -> Result<(usize, u32), RowsStop> {
    let mut rows = Rows::new(alloc, arena, 2, 262_144);
    let a = rows.is(OptionNo(0))?;
    let b = rows.is(OptionNo(1))?;
    let both = rows.and(a, b)?;
    let (list, _) = rows.list(&[both])?;
    let mut others = Rows::new(alloc, arena, 2, 262_144);
    let conds = others.take_in(&list)?;
    Ok((conds.len(), others.row_count()))
}

#[test]
fn printed_rows_are_taken_in(rt: HostRuntime) -> Result<(), Fail> {
    let arena = Bump::new(rt.alloc());
    assert_eq!(rt; taken_in(rt.alloc(), &arena)?, (2, 2));
    Ok(())
}

fn numbered(alloc: Global, letter: &str, number: u32) -> Result<Name, Fail> {
    let text = format!(in alloc; "{letter}{number}")?;
    name(&text)
}

/// Puts the options of a letter behind the others, with numbers from 1 on.
fn add_numbered(
    alloc: Global,
    options: &mut Options,
    letter: &str,
    numbers: u16,
) -> Result<(), Fail> {
    for at in 0..numbers {
        let name = numbered(alloc, letter, at as u32 + 1)?;
        if options.count() < 512 {
            options.add(name)?;
        }
    }
    Ok(())
}

/// The options A1, A2 and so on, and then B1, B2 and so on.
fn options_of_pairs(alloc: Global, pairs: u16) -> Result<Options, Fail> {
    let mut options = Options::new(alloc);
    add_numbered(alloc, &mut options, "A", pairs)?;
    add_numbered(alloc, &mut options, "B", pairs)?;
    Ok(options)
}

/// The options A1, A2 and so on.
fn options_of_letter(alloc: Global, numbers: u16) -> Result<Options, Fail> {
    let mut options = Options::new(alloc);
    add_numbered(alloc, &mut options, "A", numbers)?;
    Ok(options)
}

/// That both options of one of the pairs A1 and B1, A2 and B2 and so on are true.
fn some_pair(alloc: Global, pairs: u16) -> Result<Formula, Fail> {
    let mut members = Members::new(alloc);
    for at in 0..pairs {
        let a = numbered(alloc, "A", at as u32 + 1)?;
        let b = numbered(alloc, "B", at as u32 + 1)?;
        members.push(Formula::And(two(alloc, Formula::Is(a), Formula::Is(b))?))?;
    }
    Ok(Formula::Or(members))
}

/// Whether a formula needs more rows than the limit, and how many rows there are then.
fn tried(
    alloc: Global,
    arena: &Bump,
    limit: u32,
    options: &Options,
    formula: &Formula,
) -> (bool, u32)
    requires { limit ≤ 262144 }
{
    let mut rows = Rows::new(alloc, arena, options.count(), limit);
    let too_many = matches!(
        rows.of_formula(options, formula),
        Err(RowsStop::TooManyRows)
    );
    (too_many, rows.row_count())
}

/// The rows are A1, B1, both, A2, B2, both, some pair, "B1, or A2 and B2", and "B1 or B2".
#[test]
fn two_pairs_have_nine_rows(rt: HostRuntime) -> Result<(), Fail> {
    let alloc = rt.alloc();
    let arena = Bump::new(alloc);
    let options = options_of_pairs(alloc, 2)?;
    let formula = some_pair(alloc, 2)?;
    assert_eq!(rt; tried(alloc, &arena, 9, &options, &formula), (false, 9));
    assert_eq!(rt; tried(alloc, &arena, 8, &options, &formula), (true, 8));
    Ok(())
}

/// Behind the first options, each set of the second ones is a row of its own.
#[test]
fn eighteen_pairs_have_too_many_rows(rt: HostRuntime) -> Result<(), Fail> {
    let alloc = rt.alloc();
    let arena = Bump::new(alloc);
    let options = options_of_pairs(alloc, 18)?;
    let formula = some_pair(alloc, 18)?;
    let (too_many, count) = tried(alloc, &arena, 262_144, &options, &formula);
    assert!(rt; too_many);
    assert_eq!(rt; count, 262_144);
    Ok(())
}

/// That an odd number of the options A1, A2 and so on is true.
fn odd(alloc: Global, numbers: u16) -> Result<Formula, Fail> {
    let mut odd = Formula::Never;
    for at in 0..numbers {
        let option = numbered(alloc, "A", at as u32 + 1)?;
        odd = Formula::One(two(alloc, Formula::Is(option), odd)?);
    }
    Ok(odd)
}

/// Whether a condition and its negation make a condition that is never, meet at no choice, and
/// don't meet.
fn excluded(
    alloc: Global,
    arena: &Bump,
    options: &Options,
    formula: &Formula,
) -> Result<(bool, bool, bool), RowsStop> {
    let mut rows = Rows::new(alloc, arena, options.count(), 262_144);
    let cond = rows.of_formula(options, formula)?;
    let without = rows.not(cond)?;
    let both = rows.and(cond, without)?;
    let choice = rows.meets(cond, without)?;
    let meet = Meetings::new(&rows).meet(cond, without)?;
    Ok((rows.is_never(both), choice.is_none(), !meet))
}

/// The parts of these conditions are alike in two ways at each option, so a walk that forgets where
/// it was takes 2^60 steps.
#[test]
fn odd_and_even_numbers_of_sixty_options_exclude_each_other(rt: HostRuntime) -> Result<(), Fail> {
    let alloc = rt.alloc();
    let arena = Bump::new(alloc);
    let options = options_of_letter(alloc, 60)?;
    let formula = odd(alloc, 60)?;
    assert_eq!(rt;
        excluded(alloc, &arena, &options, &formula)?,
        (true, true, true)
    );
    Ok(())
}

/// How many rows there are after an option, another, and that one of the two or neither holds;
/// whether the last is the same as one of the two, which meets the first option.
fn some_of_two(alloc: Global, arena: &Bump) -> Result<(u32, bool, bool), RowsStop> {
    let mut rows = Rows::new(alloc, arena, 2, 262_144);
    let a = rows.is(OptionNo(0))?;
    let b = rows.is(OptionNo(1))?;
    let any = rows.any_of(&[a, b])?;
    let either = rows.or(a, b)?;
    let meet = Meetings::new(&rows).meet(any, a)?;
    Ok((rows.row_count(), rows.same(any, either), meet))
}

#[test]
fn conditions_are_joined_in_order(rt: HostRuntime) -> Result<(), Fail> {
    let arena = Bump::new(rt.alloc());
    assert_eq!(rt; some_of_two(rt.alloc(), &arena)?, (3, true, true));
    Ok(())
}

/// A list of rows, as far as their parts are below them.
fn row_list(alloc: Global, rows: &[(u32, u32, u32)]) -> Result<RowList, Fail>
    requires { length rows.now < 9 }
{
    let mut list = RowList::new(alloc);
    for (option, low, high) in rows {
        if list.count() < 9 {
            list.push(*option, *low, *high)?;
        }
    }
    Ok(list)
}

#[test]
fn the_first_row_that_is_not_reduced_is_found(rt: HostRuntime) -> Result<(), Fail> {
    let alloc = rt.alloc();
    let repeated = row_list(alloc, &[(0, 1, 0), (0, 1, 0)])?;
    assert_eq!(rt; first_unreduced(alloc, 1, &repeated)?, Some(3));
    let falling = row_list(alloc, &[(0, 1, 0), (1, 0, 2)])?;
    assert_eq!(rt; first_unreduced(alloc, 2, &falling)?, Some(3));
    let reduced = row_list(alloc, &[(1, 1, 0), (0, 0, 2)])?;
    assert_eq!(rt; first_unreduced(alloc, 2, &reduced)?, None);
    assert_eq!(rt; first_unreduced(alloc, 1, &reduced)?, Some(2));
    Ok(())
}
