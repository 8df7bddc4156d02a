use crate::{History, Inverse, UndoStop};
use loom_base::{Branch, List, Name, NoMemory, Price};
use loom_edits::{Edit, EditFault};
use loom_formula::Formula;
use loom_project::{
    CavityDraft, Draft, NetDraft, NodeDraft, Of, Project, SegmentDraft, TerminalDraft,
};
use loom_topology::Kind;
use std::alloc::Global;
use std::test::Fail;

fn name(text: &[u8]) -> Result<Name, Fail> {
    Ok(Name::parse(text).ok_or("a name")?)
}

/// A node of the harness H without a branch cost.
fn node(text: &[u8]) -> Result<NodeDraft, Fail> {
    Ok(NodeDraft {
        name: name(text)?,
        harness: name(b"H")?,
        branch: Branch::new(0).ok_or("a branch cost")?,
    })
}

fn cavity(text: &[u8], node: &[u8]) -> Result<CavityDraft, Fail> {
    Ok(CavityDraft {
        name: name(text)?,
        device: name(b"D")?,
        node: name(node)?,
    })
}

/// The run S1 of 700 from N1 to N2.
fn run(alloc: Global) -> Result<List<SegmentDraft>, Fail> {
    let mut segments = List::new(alloc);
    segments.push(SegmentDraft {
        name: name(b"S1")?,
        from: name(b"N1")?,
        to: name(b"N2")?,
        kind: Kind::Run {
            length: Price::new(700).ok_or("a length")?,
        },
        bars: List::new(alloc),
        reserved: List::new(alloc),
    })?;
    Ok(segments)
}

/// The net W1, which always needs C1 and C2.
fn net(alloc: Global) -> Result<List<NetDraft>, Fail> {
    let mut terminals = List::new(alloc);
    for text in [b"C1", b"C2"] {
        terminals.push(TerminalDraft {
            cavity: name(text)?,
            when: Formula::Always,
        })?;
    }
    let mut nets = List::new(alloc);
    nets.push(NetDraft {
        name: name(b"W1")?,
        class: name(b"std")?,
        terminals,
    })?;
    Ok(nets)
}

/// The history of a project of two nodes, the run between them, a cavity at each and these nets.
fn begun(alloc: Global, nets: List<NetDraft>) -> Result<History, Fail> {
    let draft = Draft {
        options: List::new(alloc),
        rules: List::new(alloc),
        nodes: List::from_slice(alloc, &[node(b"N1")?, node(b"N2")?])?,
        segments: run(alloc)?,
        cavities: List::from_slice(alloc, &[cavity(b"C1", b"N1")?, cavity(b"C2", b"N2")?])?,
        nets,
    };
    let project = Project::check(alloc, draft).ok().ok_or("sound")?;
    Ok(History::new(alloc, project))
}

/// The names of the cavities, one after another.
fn cavities(alloc: Global, history: &History) -> Result<List<u8>, NoMemory> {
    let mut spelled = List::new(alloc);
    for cavity in history.project().draft().cavities.as_slice() {
        spelled.extend_from_slice(cavity.name.bytes())?;
    }
    Ok(spelled)
}

/// How many nodes, segments and nets there are.
type Counts = (usize, usize, usize);

fn counts(history: &History) -> Counts {
    let draft = history.project().draft();
    (draft.nodes.len(), draft.segments.len(), draft.nets.len())
}

/// The length of the first segment, 0 where there is none or where it is a coupler.
fn length(history: &History) -> u64 {
    match history.project().draft().segments.get(0) {
        Some(segment) => match segment.kind {
            Kind::Run { length } => length.get(),
            Kind::Coupler { .. } => 0,
        },
        None => 0,
    }
}

/// Removes everything but N1 and C1, and tells whether all of it could be removed.
fn remove_most(history: &mut History) -> Result<bool, Fail> {
    let (net, cavity) = (name(b"W1")?, name(b"C2")?);
    let (segment, node) = (name(b"S1")?, name(b"N2")?);
    Ok(
        history.edit(&Edit::RemoveNet { name: net }).is_ok()
            && history.edit(&Edit::RemoveCavity { name: cavity }).is_ok()
            && history.edit(&Edit::RemoveSegment { name: segment }).is_ok()
            && history.edit(&Edit::RemoveNode { name: node }).is_ok(),
    )
}

/// Takes four edits back, and tells whether there were so many.
fn undo_four(history: &mut History) -> bool {
    history.undo().is_ok()
        && history.undo().is_ok()
        && history.undo().is_ok()
        && history.undo().is_ok()
}

/// Removes what is named by nothing else, a node first that is still named, and takes all of it back.
/// It tells whether each call answered as it should, and how much there was between and at the end.
fn remove_and_undo(history: &mut History) -> Result<(bool, Counts, Counts), Fail> {
    let name = name(b"N2")?;
    let fault = EditFault::InUse { of: Of::Node, name };
    let is_refused = history.edit(&Edit::RemoveNode { name }) == Err(fault);
    let are_removed = remove_most(history)?;
    let left = counts(history);
    let are_undone = undo_four(history);
    let is_all = history.undo() == Err(UndoStop::Nothing);
    let as_wanted = is_refused && are_removed && are_undone && is_all;
    Ok((as_wanted, left, counts(history)))
}

#[test]
fn what_was_removed_comes_back(rt: HostRuntime) -> Result<(), Fail> {
    let alloc = rt.alloc();
    let mut history = begun(alloc, net(alloc)?)?;
    let told = remove_and_undo(&mut history)?;
    assert_eq!(rt; told, (true, (1, 0, 0), (2, 1, 1)));
    Ok(())
}

/// Removes the first cavity and takes that back. It tells whether the inverse was kept as it should,
/// and the names of the cavities between and at the end.
fn remove_first_and_undo(
    alloc: Global,
    history: &mut History,
) -> Result<(bool, List<u8>, List<u8>), Fail> {
    let name = name(b"C1")?;
    let is_removed = history.edit(&Edit::RemoveCavity { name }).is_ok();
    let is_kept = matches!(history.last(), Some(Inverse::PutCavity { at: 0, .. }));
    let left = cavities(alloc, history)?;
    let is_undone = history.undo().is_ok();
    let back = cavities(alloc, history)?;
    Ok((is_removed && is_kept && is_undone, left, back))
}

#[test]
fn a_removed_cavity_comes_back_to_its_place(rt: HostRuntime) -> Result<(), Fail> {
    let alloc = rt.alloc();
    let mut history = begun(alloc, List::new(alloc))?;
    let (as_wanted, left, back) = remove_first_and_undo(alloc, &mut history)?;
    let names = (
        left.as_slice() == b"C2".as_slice(),
        back.as_slice() == b"C1C2".as_slice(),
    );
    assert_eq!(rt; (as_wanted, names), (true, (true, true)));
    Ok(())
}

/// Sets the length of the run, takes that back and makes it again, and tries to make it a third
/// time. It tells whether each call answered as it should, and the length between and at the end.
fn set_and_undo_and_redo(history: &mut History) -> Result<(bool, u64, u64), Fail> {
    let edit = Edit::SetLength {
        name: name(b"S1")?,
        length: Price::new(800).ok_or("a length")?,
    };
    let is_undone = history.edit(&edit).is_ok() && history.undo().is_ok();
    let before = length(history);
    let is_redone = history.redo().is_ok();
    let is_all = history.redo() == Err(UndoStop::Nothing);
    Ok((is_undone && is_redone && is_all, before, length(history)))
}

#[test]
fn a_length_is_set_back_and_again(rt: HostRuntime) -> Result<(), Fail> {
    let alloc = rt.alloc();
    let mut history = begun(alloc, net(alloc)?)?;
    let told = set_and_undo_and_redo(&mut history)?;
    assert_eq!(rt; told, (true, 700, 800));
    Ok(())
}
