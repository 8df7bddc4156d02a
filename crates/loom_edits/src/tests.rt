use crate::{Edit, EditFault, apply};
use loom_base::{Branch, List, Name, NoMemory, Price};
use loom_formula::Formula;
use loom_project::{
    CavityDraft, Draft, NetDraft, NodeDraft, Of, Project, SegmentDraft, TerminalDraft,
};
use loom_topology::Kind;
use std::alloc::Global;
use std::test::Fail;

fn name(text: &str) -> Result<Name, Fail> {
    Ok(Name::parse(text.as_bytes()).ok_or("a name")?)
}

fn price(value: u64) -> Result<Price, Fail> {
    Ok(Price::new(value).ok_or("a price")?)
}

/// The names of the things of the project: the nodes, the cavities, the segment and the net.
#[derive(Clone, Copy, Drop)]
struct Names {
    nodes: [Name; 2],
    cavities: [Name; 2],
    segment: Name,
    net: Name,
}

fn all_names() -> Result<Names, Fail> {
    Ok(Names {
        nodes: [name("N1")?, name("N2")?],
        cavities: [name("C1")?, name("C2")?],
        segment: name("S1")?,
        net: name("W1")?,
    })
}

fn nodes(alloc: Global, names: &Names, branch: Branch) -> Result<List<NodeDraft>, NoMemory> {
    let mut nodes = List::new(alloc);
    for &name in &names.nodes {
        let harness = names.net;
        nodes.push(NodeDraft {
            name,
            harness,
            branch,
        })?;
    }
    Ok(nodes)
}

/// The run from the one node to the other.
fn run(alloc: Global, names: &Names, length: Price) -> Result<List<SegmentDraft>, NoMemory> {
    let [from, to] = names.nodes;
    let mut segments = List::new(alloc);
    segments.push(SegmentDraft {
        name: names.segment,
        from,
        to,
        kind: Kind::Run { length },
        bars: List::new(alloc),
        reserved: List::new(alloc),
    })?;
    Ok(segments)
}

/// A cavity at each node.
fn cavities(alloc: Global, names: &Names) -> Result<List<CavityDraft>, NoMemory> {
    let mut cavities = List::new(alloc);
    for (&name, &node) in names.cavities.iter().zip(&names.nodes) {
        let device = names.net;
        cavities.push(CavityDraft { name, device, node })?;
    }
    Ok(cavities)
}

fn terminals(alloc: Global, names: &Names) -> Result<List<TerminalDraft>, NoMemory> {
    let mut terminals = List::new(alloc);
    for &cavity in &names.cavities {
        let when = Formula::Always;
        terminals.push(TerminalDraft { cavity, when })?;
    }
    Ok(terminals)
}

/// The net of both cavities.
fn net(alloc: Global, names: &Names) -> Result<List<NetDraft>, NoMemory> {
    let terminals = terminals(alloc, names)?;
    let mut nets = List::new(alloc);
    nets.push(NetDraft {
        name: names.net,
        class: names.net,
        terminals,
    })?;
    Ok(nets)
}

/// Two nodes with a run, a cavity at each, and a net of both.
fn draft(alloc: Global, names: &Names, length: Price) -> Result<Draft, NoMemory> {
    let branch = Branch::new(0).ok_or(NoMemory)?;
    Ok(Draft {
        options: List::new(alloc),
        rules: List::new(alloc),
        nodes: nodes(alloc, names, branch)?,
        segments: run(alloc, names, length)?,
        cavities: cavities(alloc, names)?,
        nets: net(alloc, names)?,
    })
}

fn project(alloc: Global, names: &Names, length: Price) -> Result<Project, Fail> {
    let draft = draft(alloc, names, length)?;
    Ok(Project::check(alloc, draft).ok().ok_or("sound")?)
}

/// Whether one node and one cavity of these names are all that there is.
fn has_alone(draft: &Draft, node: Name, cavity: Name) -> bool {
    draft.options.is_empty()
        && draft.rules.is_empty()
        && draft.segments.is_empty()
        && draft.nets.is_empty()
        && draft.nodes.len() == 1
        && draft.cavities.len() == 1
        && draft.nodes.as_slice()[0].name == node
        && draft.cavities.as_slice()[0].name == cavity
}

#[test]
fn what_is_in_use_stays(rt: HostRuntime) -> Result<(), Fail> {
    let names = all_names()?;
    let length = price(700)?;
    let name = names.nodes[1];
    let mut project = project(rt.alloc(), &names, length)?;
    let refused = apply(rt.alloc(), &mut project, &Edit::RemoveNode { name });
    let of = Of::Node;
    assert_eq!(rt; refused, Err(EditFault::InUse { of, name }));
    Ok(())
}

/// Whether the net, the second cavity, the segment and the second node can be removed in turn.
fn can_remove_most(alloc: Global, project: &mut Project, names: &Names) -> bool {
    let net = Edit::RemoveNet { name: names.net };
    let cavity = Edit::RemoveCavity {
        name: names.cavities[1],
    };
    let segment = Edit::RemoveSegment {
        name: names.segment,
    };
    let node = Edit::RemoveNode {
        name: names.nodes[1],
    };
    apply(alloc, project, &net).is_ok()
        && apply(alloc, project, &cavity).is_ok()
        && apply(alloc, project, &segment).is_ok()
        && apply(alloc, project, &node).is_ok()
}

#[test]
fn what_is_in_use_no_more_is_removed(rt: HostRuntime) -> Result<(), Fail> {
    let names = all_names()?;
    let length = price(700)?;
    let mut project = project(rt.alloc(), &names, length)?;
    assert!(rt; can_remove_most(rt.alloc(), &mut project, &names));
    assert!(rt; has_alone(project.draft(), names.nodes[0], names.cavities[0]));
    Ok(())
}

/// Whether the first segment is of that kind.
fn begins_with(draft: &Draft, kind: Kind) -> bool {
    match draft.segments.get(0) {
        Some(segment) => segment.kind == kind,
        None => false,
    }
}

#[test]
fn a_run_gets_a_length(rt: HostRuntime) -> Result<(), Fail> {
    let names = all_names()?;
    let (short, length) = (price(700)?, price(800)?);
    let name = names.segment;
    let mut project = project(rt.alloc(), &names, short)?;
    let longer = Edit::SetLength { name, length };
    assert_eq!(rt; apply(rt.alloc(), &mut project, &longer), Ok(()));
    assert!(rt; begins_with(project.draft(), Kind::Run { length }));
    Ok(())
}

#[test]
fn a_run_gets_no_price(rt: HostRuntime) -> Result<(), Fail> {
    let names = all_names()?;
    let (length, price) = (price(700)?, price(5)?);
    let segment = names.segment;
    let mut project = project(rt.alloc(), &names, length)?;
    let dearer = Edit::SetPrice {
        name: segment,
        price,
    };
    let refused = apply(rt.alloc(), &mut project, &dearer);
    assert_eq!(rt; refused, Err(EditFault::WrongKind { segment }));
    Ok(())
}
