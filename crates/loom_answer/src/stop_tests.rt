ghost use Rattle.std.specs.Prelude.{◌≡◌, length, IfOk};
ghost use Rattle.loom_answer.specs.Stops.{IsNameable};

use crate::{named, stop_value};
use loom_base::{
    Branch, CavityNo, List, Name, NetNo, NoMemory, NodeNo, Pins, Price, SegmentNo, Which,
};
use loom_formula::{Choice, Formula};
use loom_json::line;
use loom_project::{CavityDraft, Draft, NetDraft, NodeDraft, Project, SegmentDraft, TerminalDraft};
use loom_topology::Kind;
use loom_types::PlanStop;
use std::alloc::Global;
use std::test::Fail;

fn name(text: &str) -> Result<Name, Fail> {
    Ok(Name::parse(text.as_bytes()).ok_or("a name")?)
}

fn node(label: &str, harness: &str) -> Result<NodeDraft, Fail> {
    Ok(NodeDraft {
        name: name(label)?,
        harness: name(harness)?,
        branch: Branch::new(0).ok_or("a branch cost")?,
    })
}

fn cavity(label: &str, node: &str) -> Result<CavityDraft, Fail> {
    Ok(CavityDraft {
        name: name(label)?,
        device: name("D")?,
        node: name(node)?,
    })
}

fn coupler(alloc: Global) -> Result<SegmentDraft, Fail> {
    Ok(SegmentDraft {
        name: name("X1")?,
        from: name("N1")?,
        to: name("N2")?,
        kind: Kind::Coupler {
            price: Price::new(100).ok_or("a price")?,
            pins: Pins::new(1).ok_or("pins")?,
        },
        bars: List::new(alloc),
        reserved: List::new(alloc),
    })
}

fn terminal(cavity: &str) -> Result<TerminalDraft, Fail> {
    Ok(TerminalDraft {
        cavity: name(cavity)?,
        when: Formula::Always,
    })
}

/// A net of two cavities.
fn net(alloc: Global, label: &str, first: &str, second: &str) -> Result<NetDraft, Fail> {
    let mut terminals = List::new(alloc);
    terminals.push(terminal(first)?)?;
    terminals.push(terminal(second)?)?;
    Ok(NetDraft {
        name: name(label)?,
        class: name("std")?,
        terminals,
    })
}

fn nodes(alloc: Global) -> Result<List<NodeDraft>, Fail>
    ensures { IfOk result (λ nodes. length nodes ≡ 3) }
{
    let mut nodes = List::new(alloc);
    nodes.push(node("N1", "H1")?)?;
    nodes.push(node("N2", "H2")?)?;
    nodes.push(node("N3", "H1")?)?;
    Ok(nodes)
}

fn cavities(alloc: Global) -> Result<List<CavityDraft>, Fail>
    ensures { IfOk result (λ cavities. length cavities ≡ 3) }
{
    let mut cavities = List::new(alloc);
    cavities.push(cavity("C1", "N1")?)?;
    cavities.push(cavity("C2", "N2")?)?;
    cavities.push(cavity("C3", "N3")?)?;
    Ok(cavities)
}

fn segments(alloc: Global) -> Result<List<SegmentDraft>, Fail>
    ensures { IfOk result (λ segments. length segments ≡ 1) }
{
    let mut segments = List::new(alloc);
    segments.push(coupler(alloc)?)?;
    Ok(segments)
}

fn nets(alloc: Global) -> Result<List<NetDraft>, Fail>
    ensures { IfOk result (λ nets. length nets ≡ 2) }
{
    let mut nets = List::new(alloc);
    nets.push(net(alloc, "W1", "C1", "C2")?)?;
    nets.push(net(alloc, "W2", "C1", "C3")?)?;
    Ok(nets)
}

fn options(alloc: Global) -> Result<List<Name>, Fail>
    ensures { IfOk result (λ options. length options ≡ 2) }
{
    let mut options = List::new(alloc);
    options.push(name("A")?)?;
    options.push(name("B")?)?;
    Ok(options)
}

fn draft(alloc: Global) -> Result<Draft, Fail>
    ensures options { IfOk result (λ draft. length draft.options ≡ 2) }
    ensures nodes { IfOk result (λ draft. length draft.nodes ≡ 3) }
    ensures segments { IfOk result (λ draft. length draft.segments ≡ 1) }
    ensures cavities { IfOk result (λ draft. length draft.cavities ≡ 3) }
    ensures nets { IfOk result (λ draft. length draft.nets ≡ 2) }
{
    Ok(Draft {
        options: options(alloc)?,
        rules: List::new(alloc),
        nodes: nodes(alloc)?,
        segments: segments(alloc)?,
        cavities: cavities(alloc)?,
        nets: nets(alloc)?,
    })
}

/// The options A and B, the nodes N1 to N3, the coupler X1, a cavity at each node, and two nets.
fn project(alloc: Global) -> Result<Project, Fail>
    ensures options { IfOk result (λ project. length project.options ≡ 2) }
    ensures nodes { IfOk result (λ project. length project.nodes ≡ 3) }
    ensures segments { IfOk result (λ project. length project.segments ≡ 1) }
    ensures cavities { IfOk result (λ project. length project.cavities ≡ 3) }
    ensures nets { IfOk result (λ project. length project.nets ≡ 2) }
{
    match Project::check(alloc, draft(alloc)?) {
        Ok(project) => Ok(project),
        Err(_) => Err("a sound project".into()),
    }
}

/// The line of a stop's object.
fn told(alloc: Global, stop: &PlanStop, project: &Project) -> Result<List<u8>, NoMemory>
    requires { IsNameable project.now stop.now }
{
    let stop = named(alloc, stop, project)?;
    line(alloc, &stop_value(alloc, &stop)?)
}

#[test]
fn a_crossing_without_a_pin_is_told(rt: HostRuntime) -> Result<(), Fail> {
    let alloc = rt.alloc();
    let project = project(alloc)?;
    let stop = PlanStop::NoPin {
        net: NetNo(0),
        coupler: SegmentNo(0),
        ordinal: 2,
    };
    let wanted =
        b"{\"coupler\":\"X1\",\"kind\":\"NoPin\",\"net\":\"W1\",\"ordinal\":2}\n".as_slice();
    assert!(rt; told(alloc, &stop, &project)?.as_slice() == wanted);
    Ok(())
}

#[test]
fn a_clash_is_told_with_its_true_options(rt: HostRuntime) -> Result<(), Fail> {
    let alloc = rt.alloc();
    let project = project(alloc)?;
    let stop = PlanStop::Clash {
        cavity: CavityNo(0),
        first: NetNo(0),
        second: NetNo(1),
        choice: Choice {
            values: List::from_slice(alloc, &[true, false])?,
        },
    };
    let wanted =
        b"{\"cavity\":\"C1\",\"choice\":[\"A\"],\"first\":\"W1\",\"kind\":\"Clash\",\"second\":\"W2\"}\n".as_slice();
    assert!(rt; told(alloc, &stop, &project)?.as_slice() == wanted);
    Ok(())
}

#[test]
fn a_cavity_out_of_reach_is_told_with_the_nodes_in_reach(rt: HostRuntime) -> Result<(), Fail> {
    let alloc = rt.alloc();
    let project = project(alloc)?;
    let stop = PlanStop::Unreachable {
        net: NetNo(0),
        cavity: CavityNo(2),
        reached: List::from_slice(alloc, &[NodeNo(0), NodeNo(1)])?,
    };
    let wanted =
        b"{\"cavity\":\"C3\",\"kind\":\"Unreachable\",\"net\":\"W1\",\"reached\":[\"N1\",\"N2\"]}\n".as_slice();
    assert!(rt; told(alloc, &stop, &project)?.as_slice() == wanted);
    Ok(())
}

#[test]
fn a_stop_that_names_nothing_is_told(rt: HostRuntime) -> Result<(), Fail> {
    let alloc = rt.alloc();
    let project = project(alloc)?;
    let wanted = b"{\"kind\":\"NoChoice\"}\n".as_slice();
    assert!(rt; told(alloc, &PlanStop::NoChoice, &project)?.as_slice() == wanted);
    let limit = PlanStop::Limit {
        which: Which::Terminals,
        count: 13,
    };
    let wanted = b"{\"count\":13,\"kind\":\"Limit\",\"which\":\"terminals\"}\n".as_slice();
    assert!(rt; told(alloc, &limit, &project)?.as_slice() == wanted);
    Ok(())
}
