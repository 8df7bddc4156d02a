ghost use Rattle.std.specs.Prelude.{◌≡◌};
ghost use Rattle.loom_laid.specs.Kept.{AreTrueOf};

use crate::{Kept, LaidStop, lay_sets};
use bumpalo::Bump;
use loom_active::live_sets;
use loom_base::{Branch, CavityNo, List, MAX_ROWS, Name, NetNo, NoMemory, Price};
use loom_formula::Formula;
use loom_project::{CavityDraft, Draft, NetDraft, NodeDraft, Project, SegmentDraft, TerminalDraft};
use loom_rows::Rows;
use loom_steiner::{DirectFiller, Filler};
use loom_topology::{Kind, Table, Topology};
use std::alloc::Global;
use std::marker::Model;
use std::test::Fail;

/// A filler that has no memory.
#[derive(Drop)]
struct Refusing {
    built: u64,
}

impl Model for Refusing {
    ghost use Rattle.std.specs.Prelude.{ℕ};

    ghost Value = { ℕ };

    ghost view = { λ filler. filler.built };
}

impl Filler for Refusing {
    ghost count = { λ filler. filler };

    fn table(
        &mut self,
        _alloc: Global,
        _topology: &Topology,
        _terminals: &[CavityNo],
    ) -> Result<Table, NoMemory> {
        Err(NoMemory)
    }

    fn built(&self) -> u64 {
        self.built
    }
}

fn name(text: &str) -> Result<Name, Fail> {
    Ok(Name::parse(text.as_bytes()).ok_or("a name")?)
}

fn run(
    alloc: Global,
    label: &str,
    from: &str,
    to: &str,
    length: u64,
) -> Result<SegmentDraft, Fail> {
    let length = Price::new(length).ok_or("a length")?;
    Ok(SegmentDraft {
        name: name(label)?,
        from: name(from)?,
        to: name(to)?,
        kind: Kind::Run { length },
        bars: List::new(alloc),
        reserved: List::new(alloc),
    })
}

/// A net of class std that always needs both cavities.
fn net(alloc: Global, label: &str, cavities: &[&str]) -> Result<NetDraft, Fail> {
    let mut terminals = List::new(alloc);
    for cavity in cavities {
        terminals.push(TerminalDraft {
            cavity: name(cavity)?,
            when: Formula::Always,
        })?;
    }
    Ok(NetDraft {
        name: name(label)?,
        class: name("std")?,
        terminals,
    })
}

/// Nodes N1, N2 and N3 along two runs of 100 and 50, and N4 apart; the cavities C1 and C3 lie at
/// N1, C2 and C4 at N3, C5 at N4.
fn draft(alloc: Global, nets: List<NetDraft>) -> Result<Draft, Fail> {
    let mut draft = Draft {
        options: List::new(alloc),
        rules: List::new(alloc),
        nodes: List::new(alloc),
        segments: List::new(alloc),
        cavities: List::new(alloc),
        nets,
    };
    for node in ["N1", "N2", "N3", "N4"] {
        draft.nodes.push(NodeDraft {
            name: name(node)?,
            harness: name("H")?,
            branch: Branch::new(5).ok_or("a branch cost")?,
        })?;
    }
    draft.segments.push(run(alloc, "S1", "N1", "N2", 100)?)?;
    draft.segments.push(run(alloc, "S2", "N2", "N3", 50)?)?;
    for (cavity, node) in [
        ("C1", "N1"),
        ("C2", "N3"),
        ("C3", "N1"),
        ("C4", "N3"),
        ("C5", "N4"),
    ] {
        draft.cavities.push(CavityDraft {
            name: name(cavity)?,
            device: name("D")?,
            node: name(node)?,
        })?;
    }
    Ok(draft)
}

/// The project of two nets from N1 to N3.
fn two_nets(alloc: Global) -> Result<Project, Fail> {
    let mut nets = List::new(alloc);
    nets.push(net(alloc, "W1", &["C1", "C2"])?)?;
    nets.push(net(alloc, "W2", &["C3", "C4"])?)?;
    Ok(
        Project::check(alloc, draft(alloc, nets)?)
            .ok()
            .ok_or("sound")?,
    )
}

/// How many sets are laid and how many tables there are, and the cost and the steps of the last.
fn laid<F: Filler>(
    alloc: Global,
    project: &Project,
    kept: &mut Kept,
    filler: &mut F,
) -> Result<(usize, usize, u64, usize), LaidStop>
    requires { AreTrueOf project.now kept.old }
    ensures { AreTrueOf project.now kept.new }
{
    let arena = Bump::new(alloc);
    let options = project.options().count();
    let mut rows = Rows::new(alloc, &arena, options, MAX_ROWS as u32);
    let Ok(sets) = live_sets(alloc, project, &mut rows) else {
        return Err(LaidStop::NoMemory);
    };
    let laid = lay_sets(alloc, project, sets.list.as_slice(), kept, filler)?;
    let (mut cost, mut steps) = (0, 0);
    for set in laid.sets.as_slice() {
        cost = set.cost;
        steps = set.layout.steps.len();
    }
    Ok((laid.sets.len(), laid.tables.len(), cost, steps))
}

#[test]
fn nets_of_equal_class_and_nodes_share_a_table(rt: HostRuntime) -> Result<(), Fail> {
    let alloc = rt.alloc();
    let project = two_nets(alloc)?;
    let mut kept = Kept::new(alloc);
    let mut filler = DirectFiller::new();
    assert_eq!(rt;
        laid(alloc, &project, &mut kept, &mut filler)?,
        (2, 2, 150, 2)
    );
    assert_eq!(rt; filler.built(), 1);
    let mut refusing = Refusing { built: 0 };
    assert_eq!(rt;
        laid(alloc, &project, &mut kept, &mut refusing)?,
        (2, 2, 150, 2)
    );
    Ok(())
}

#[test]
fn a_table_that_is_not_kept_comes_from_the_filler(rt: HostRuntime) -> Result<(), Fail> {
    let alloc = rt.alloc();
    let project = two_nets(alloc)?;
    let mut kept = Kept::new(alloc);
    let mut refusing = Refusing { built: 0 };
    let outcome = laid(alloc, &project, &mut kept, &mut refusing);
    assert!(rt; matches!(outcome, Err(LaidStop::NoMemory)));
    Ok(())
}

#[test]
fn a_cavity_apart_is_unreachable(rt: HostRuntime) -> Result<(), Fail> {
    let alloc = rt.alloc();
    let mut nets = List::new(alloc);
    nets.push(net(alloc, "W1", &["C1", "C5"])?)?;
    let project = Project::check(alloc, draft(alloc, nets)?)
        .ok()
        .ok_or("sound")?;
    let mut kept = Kept::new(alloc);
    let mut filler = DirectFiller::new();
    let Err(
        LaidStop::Unreachable {
            net,
            cavity,
            reached,
        },
    ) = laid(alloc, &project, &mut kept, &mut filler)
    else {
        return Err(Fail::from("unreachable"));
    };
    assert_eq!(rt; (net, cavity), (NetNo(0), CavityNo(4)));
    assert_eq!(rt; reached.len(), 3);
    Ok(())
}
