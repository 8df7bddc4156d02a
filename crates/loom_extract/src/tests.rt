use crate::{ExtractStop, Variant, extract};
use loom_base::{CavityNo, List, Name, NetNo, NoMemory, NodeNo, SegmentNo};
use loom_formula::{Choice, Formula, Options, RowList};
use loom_types::{End, Plan, Wire};
use sqlite_items::Boxed;
use std::alloc::Global;
use std::test::Fail;

fn wire(
    alloc: Global,
    from: End,
    to: End,
    route: &[SegmentNo],
    row: u32,
) -> Result<Wire, NoMemory> {
    Ok(Wire {
        net: NetNo(0),
        from,
        to,
        route: List::from_slice(alloc, route)?,
        length: 60,
        row,
    })
}

fn pin(side: u32) -> End {
    End::Pin {
        coupler: SegmentNo(0),
        pin: 1,
        side,
    }
}

fn splice() -> End {
    End::Splice {
        node: NodeNo(1),
        ordinal: 1,
    }
}

/// Five wires: condition 1 is always, 2 is without option 0, 3 is with it.
fn wires(alloc: Global) -> Result<List<Wire>, NoMemory> {
    let first = End::Cavity(CavityNo(0));
    let second = End::Cavity(CavityNo(1));
    let third = End::Cavity(CavityNo(2));
    let mut wires = List::new(alloc);
    wires.push(wire(alloc, first, pin(1), &[], 1)?)?;
    wires.push(wire(alloc, second, splice(), &[SegmentNo(1)], 3)?)?;
    wires.push(wire(alloc, second, pin(2), &[SegmentNo(1)], 2)?)?;
    wires.push(wire(alloc, third, splice(), &[SegmentNo(2)], 3)?)?;
    wires.push(wire(alloc, splice(), pin(2), &[], 3)?)?;
    Ok(wires)
}

fn plan(alloc: Global) -> Result<Plan, Fail> {
    let mut rows = RowList::new(alloc);
    rows.push(0, 1, 0)?;
    rows.push(0, 0, 1)?;
    Ok(Plan {
        rows,
        sets: List::new(alloc),
        tables: List::new(alloc),
        pins: List::new(alloc),
        wires: wires(alloc)?,
        modules: List::new(alloc),
    })
}

/// The formula that option `A` is false.
fn without_a(alloc: Global) -> Result<Formula, Fail> {
    let a = Name::parse(b"A").ok_or("a name")?;
    Ok(Formula::Not(Boxed::new(alloc, Formula::Is(a))?))
}

/// What a choice of the one option `A` takes of the plan.
fn outcome(
    alloc: Global,
    rules: &[Formula],
    values: &[bool],
) -> Result<Result<Variant, ExtractStop>, Fail> {
    let mut options = Options::new(alloc);
    let _ = options.add(Name::parse(b"A").ok_or("a name")?)?;
    let choice = Choice {
        values: List::from_slice(alloc, values)?,
    };
    Ok(extract(alloc, &plan(alloc)?, &options, rules, &choice))
}

#[test]
fn a_choice_makes_its_wires_live(rt: HostRuntime) -> Result<(), Fail> {
    let alloc = rt.alloc();
    let with = outcome(alloc, &[], &[true])??;
    assert_eq!(rt; with.numbers.as_slice(), [0, 1, 3, 4].as_slice());
    let without = outcome(alloc, &[], &[])??;
    assert_eq!(rt; without.numbers.as_slice(), [0, 2].as_slice());
    Ok(())
}

#[test]
fn the_first_false_rule_is_named(rt: HostRuntime) -> Result<(), Fail> {
    let alloc = rt.alloc();
    let rules = [without_a(alloc)?, Formula::Always, Formula::Never];
    let stop = outcome(alloc, &rules[..1], &[true])?.err();
    assert_eq!(rt; stop, Some(ExtractStop::BrokenRule { rule: 0 }));
    let stop = outcome(alloc, &rules, &[])?.err();
    assert_eq!(rt; stop, Some(ExtractStop::BrokenRule { rule: 2 }));
    Ok(())
}
