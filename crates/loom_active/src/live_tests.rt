use crate::{ActiveStop, live_sets};
use bumpalo::Bump;
use loom_base::{Branch, List, MAX_ROWS, Name, NoMemory, Which};
use loom_formula::{Formula, Members};
use loom_project::{CavityDraft, Draft, NetDraft, NodeDraft, Project, TerminalDraft};
use loom_rows::Rows;
use std::alloc::Global;
use std::test::Fail;

fn name(text: &str) -> Result<Name, Fail> {
    Ok(Name::parse(text.as_bytes()).ok_or("a name")?)
}

/// A letter with a number.
fn numbered(alloc: Global, letter: &str, number: usize) -> Result<Name, Fail> {
    let text = format!(in alloc; "{letter}{number}")?;
    name(&text)
}

/// A net of class std with these terminals.
fn net(label: Name, terminals: List<TerminalDraft>) -> Result<NetDraft, Fail> {
    Ok(NetDraft {
        name: label,
        class: name("std")?,
        terminals,
    })
}

fn terminal(cavity: &str, when: Formula) -> Result<TerminalDraft, Fail> {
    Ok(TerminalDraft {
        cavity: name(cavity)?,
        when,
    })
}

/// A draft of one node with the cavities C1, C2 and so on and the options O1, O2 and so on.
fn draft(alloc: Global, options: u16, cavities: u16, nets: List<NetDraft>) -> Result<Draft, Fail> {
    let mut draft = Draft {
        options: List::new(alloc),
        rules: List::new(alloc),
        nodes: List::new(alloc),
        segments: List::new(alloc),
        cavities: List::new(alloc),
        nets,
    };
    draft.nodes.push(NodeDraft {
        name: name("N1")?,
        harness: name("H")?,
        branch: Branch::new(0).ok_or("a branch cost")?,
    })?;
    for at in 0..options {
        draft.options.push(numbered(alloc, "O", at as usize + 1)?)?;
    }
    for at in 0..cavities {
        draft.cavities.push(CavityDraft {
            name: numbered(alloc, "C", at as usize + 1)?,
            device: name("D")?,
            node: name("N1")?,
        })?;
    }
    Ok(draft)
}

/// How many live sets a sound draft has, and the mask of the last.
fn sets_of(alloc: Global, draft: Draft) -> Result<(u32, u32), ActiveStop> {
    let Ok(project) = Project::check(alloc, draft) else {
        return Err(ActiveStop::NoMemory);
    };
    let arena = Bump::new(alloc);
    let options = project.options().count();
    let mut rows = Rows::new(alloc, &arena, options, MAX_ROWS as u32);
    let sets = live_sets(alloc, &project, &mut rows)?;
    let mut masks = 0;
    for set in sets.list.as_slice() {
        masks = set.mask;
    }
    Ok((sets.list.len() as u32, masks))
}

/// Nets with the cavities of their own, the k-th of which they need where option k is true.
fn nets_of_twelve(alloc: Global, nets: u16) -> Result<List<NetDraft>, Fail> {
    let mut list = List::new(alloc);
    for net_at in 0..nets {
        let mut terminals = List::new(alloc);
        for at in 0..12 {
            terminals.push(TerminalDraft {
                cavity: numbered(alloc, "C", net_at as usize * 12 + at + 1)?,
                when: Formula::Is(numbered(alloc, "O", at + 1)?),
            })?;
        }
        list.push(net(numbered(alloc, "W", net_at as usize + 1)?, terminals)?)?;
    }
    Ok(list)
}

/// Each net has as many live sets as twelve terminals have subsets of at least two.
#[test]
fn four_nets_of_twelve_options_have_16332_sets(rt: HostRuntime) -> Result<(), Fail> {
    let alloc = rt.alloc();
    let draft = draft(alloc, 12, 48, nets_of_twelve(alloc, 4)?)?;
    assert_eq!(rt; sets_of(alloc, draft).ok(), Some((16_332, 4095)));
    Ok(())
}

#[test]
fn five_nets_of_twelve_options_have_too_many_sets(rt: HostRuntime) -> Result<(), Fail> {
    let alloc = rt.alloc();
    let draft = draft(alloc, 12, 60, nets_of_twelve(alloc, 5)?)?;
    assert!(rt;
        matches!(
            sets_of(alloc, draft),
            Err(ActiveStop::Limit {
                which: Which::Sets,
                count: 16_385
            })
        )
    );
    Ok(())
}

/// Two members.
fn two(alloc: Global, first: Formula, second: Formula) -> Result<Members, NoMemory> {
    let mut members = Members::new(alloc);
    members.push(first)?;
    members.push(second)?;
    Ok(members)
}

/// That the option O1 is false: exactly one of it and of what always holds.
fn without_the_first(alloc: Global) -> Result<Formula, Fail> {
    let option = Formula::Is(name("O1")?);
    Ok(Formula::One(two(alloc, option, Formula::Always)?))
}

/// The first net needs C1 where O1 is true, and always C2; the other C1 where O1 or O2 is, and
/// always C3.
#[test]
fn a_cavity_that_is_active_in_two_nets_is_a_clash(rt: HostRuntime) -> Result<(), Fail> {
    let alloc = rt.alloc();
    let mut first = List::new(alloc);
    first.push(terminal("C1", Formula::Is(name("O1")?))?)?;
    first.push(terminal("C2", Formula::Always)?)?;
    let mut second = List::new(alloc);
    let either = two(alloc, Formula::Is(name("O1")?), Formula::Is(name("O2")?))?;
    second.push(terminal("C1", Formula::Or(either))?)?;
    second.push(terminal("C3", Formula::Always)?)?;
    let mut nets = List::new(alloc);
    nets.push(net(name("W1")?, first)?)?;
    nets.push(net(name("W2")?, second)?)?;
    let Err(
        ActiveStop::Clash {
            cavity,
            first,
            second,
            choice,
        },
    ) = sets_of(alloc, draft(alloc, 2, 3, nets)?)
    else {
        return Err("a clash".into());
    };
    assert_eq!(rt; (cavity.0, first.0, second.0), (0, 0, 1));
    assert_eq!(rt; choice.values.as_slice(), [true, false].as_slice());
    Ok(())
}

/// A net of three cavities, the third of which it needs where O1 is true; a rule excludes that.
#[test]
fn a_set_that_no_choice_needs_is_not_live(rt: HostRuntime) -> Result<(), Fail> {
    let alloc = rt.alloc();
    let mut terminals = List::new(alloc);
    terminals.push(terminal("C1", Formula::Always)?)?;
    terminals.push(terminal("C2", Formula::Always)?)?;
    terminals.push(terminal("C3", Formula::Is(name("O1")?))?)?;
    let mut nets = List::new(alloc);
    nets.push(net(name("W1")?, terminals)?)?;
    let mut draft = draft(alloc, 1, 3, nets)?;
    draft.rules.push(without_the_first(alloc)?)?;
    assert_eq!(rt; sets_of(alloc, draft).ok(), Some((1, 3)));
    Ok(())
}

/// A net that needs one cavity or the other has no live set.
#[test]
fn one_cavity_is_no_live_set(rt: HostRuntime) -> Result<(), Fail> {
    let alloc = rt.alloc();
    let mut terminals = List::new(alloc);
    terminals.push(terminal("C1", Formula::Is(name("O1")?))?)?;
    terminals.push(terminal("C2", without_the_first(alloc)?)?)?;
    let mut nets = List::new(alloc);
    nets.push(net(name("W1")?, terminals)?)?;
    assert_eq!(rt;
        sets_of(alloc, draft(alloc, 1, 2, nets)?).ok(),
        Some((0, 0))
    );
    Ok(())
}
