ghost use Rattle.std.specs.Prelude.{ℕ, ◌≡◌, ◌<◌, ◌+◌, ◌↔◌, IsTrue, length, sum_by, IfOk, IfSome, IfNone};
ghost use Rattle.loom_topology.specs.Topology.{price_at};
ghost use Rattle.loom_project.specs.Project.{net_topology};
ghost use Rattle.loom_types.specs.Routes.{IsRouted, IsEndInRange, IsChainOfRuns, RunLeads, node_of_end};
ghost use Rattle.loom_audit.specs.SetWires.{HasNets};
ghost use Rattle.loom_audit.specs.OpenCouplers.{IsOpenCoupler};
ghost use Rattle.loom_audit.specs.FirstFailure.{IsFirstWithout};
ghost use Rattle.loom_audit.specs.RouteRule.{AreRouted, RoutesFailAt};

use crate::{PlanPart, Spot};
use loom_base::{NetNo, NoMemory, NodeNo, SegmentNo};
use loom_project::Project;
use loom_topology::Kind;
use loom_types::{End, Plan, Wire};

/// Whether a segment is a coupler, open to a net.
fn is_open_coupler(project: &Project, net: NetNo, segment: SegmentNo) -> bool
    requires { net.0 < length project.now.nets }
    ensures { IsTrue result ↔ IsOpenCoupler (net_topology project.now net.0) segment.0 }
{
    let topology = project.topology();
    if segment.0 >= topology.segment_count() {
        return false;
    }
    match topology.kind(segment) {
        Kind::Run { .. } => false,
        Kind::Coupler { .. } => project.is_open_to(net, segment),
    }
}

/// Whether an end is in range over a net's topology.
fn is_in_range(project: &Project, net: NetNo, end: &End) -> bool
    requires { net.0 < length project.now.nets }
    ensures { IsTrue result ↔ IsEndInRange (net_topology project.now net.0) end.now }
{
    let topology = project.topology();
    match *end {
        End::Cavity(cavity) => cavity.0 < topology.cavity_count(),
        End::Splice { node, ordinal } => node.0 < topology.node_count() && ordinal >= 1,
        End::Pin { coupler, side, .. } => {
            (side == 1 || side == 2) && is_open_coupler(project, net, coupler)
        }
    }
}

/// The node at which an end lies that is in range.
fn node_of_end(project: &Project, net: NetNo, end: &End) -> NodeNo
    requires net { net.0 < length project.now.nets }
    requires in_range { IsEndInRange (net_topology project.now net.0) end.now }
    ensures { result.0 ≡ node_of_end (net_topology project.now net.0) end.now }
{
    let topology = project.topology();
    match *end {
        End::Cavity(cavity) => topology.cavity_node(cavity),
        End::Splice { node, .. } => node,
        End::Pin { coupler, side, .. } => {
            let (from, to) = topology.ends(coupler);
            if side == 1 { from } else { to }
        }
    }
}

/// The node to which a run leads from another, where it is open to the net.
fn run_end(project: &Project, net: NetNo, node: NodeNo, segment: SegmentNo) -> Option<NodeNo>
    requires { net.0 < length project.now.nets }
    ensures some { IfSome result (λ end.
        RunLeads (net_topology project.now net.0) segment.0 node.0 end.0) }
    ensures none { IfNone result ((end : ℕ)
        → RunLeads (net_topology project.now net.0) segment.0 node.0 end → ⊥) }
    ensures within { IfSome result (λ end. segment.0 < length project.now.segments) }
{
    let topology = project.topology();
    if segment.0 >= topology.segment_count() || !project.is_open_to(net, segment) {
        return None;
    }
    match topology.kind(segment) {
        Kind::Run { .. } => topology.other_end(segment, node),
        Kind::Coupler { .. } => None,
    }
}

/// The node to which a chain of runs that are open to a net leads from another, and how much of a
/// total length in millimetres is left behind them; None where there is no such chain, or it is
/// longer.
fn chain_end(
    project: &Project,
    net: NetNo,
    start: NodeNo,
    total: u64,
    route: &[SegmentNo],
) -> Option<(NodeNo, u64)>
    requires { net.0 < length project.now.nets }
    ensures some { IfSome result (λ end.
        IsChainOfRuns (net_topology project.now net.0) start.0 end.0.0 route.now
        × (total ≡ end.1
        + sum_by (λ s. price_at (net_topology project.now net.0) s.0) route.now)) }
    ensures none { IfNone result ((end : ℕ)
        → IsChainOfRuns (net_topology project.now net.0) start.0 end route.now
        → total ≡ sum_by (λ s. price_at (net_topology project.now net.0) s.0) route.now → ⊥) }
{
    let topology = project.topology();
    let mut node = start;
    let mut left = total;
    for segment in route {
        node = run_end(project, net, node, *segment)?;
        left = left.checked_sub(topology.price(*segment))?;
    }
    Some((node, left))
}

/// Whether a wire leads over a chain of runs that are open to its net, from end to end, and is as
/// long as they are.
fn is_routed(project: &Project, wire: &Wire) -> bool
    requires { wire.now.net.0 < length project.now.nets }
    ensures { IsTrue result ↔ IsRouted (net_topology project.now wire.now.net.0) wire.now }
{
    let net = wire.net;
    if !is_in_range(project, net, &wire.from) || !is_in_range(project, net, &wire.to) {
        return false;
    }
    let start = node_of_end(project, net, &wire.from);
    let end = node_of_end(project, net, &wire.to);
    match chain_end(project, net, start, wire.length, wire.route.as_slice()) {
        Some((node, left)) => node == end && left == 0,
        None => false,
    }
}

/// The position of the first wire of a plan that isn't routed.
fn first_unrouted(project: &Project, plan: &Plan) -> Option<usize>
    requires nets { HasNets project.now plan.now }
    ensures none { IfNone result (AreRouted project.now plan.now) }
    ensures first { IfSome result (IsFirstWithout (λ i w.
        IsRouted (net_topology project.now w.net.0) w) plan.now.wires) }
{
    for (at, wire) in plan.wires.as_slice().iter().enumerate() {
        if !is_routed(project, wire) {
            return Some(at);
        }
    }
    None
}

/// The first wire of a plan that doesn't lead over a chain of runs, open to its net, from end to
/// end, or isn't as long as they are; None exactly where there is none.
pub fn routes_failure(project: &Project, plan: &Plan) -> Result<Option<Spot>, NoMemory>
    requires nets { HasNets project.now plan.now }
    ensures holds { IfOk result (λ found. IfNone found (AreRouted project.now plan.now)) }
    ensures fails { IfOk result (λ found. IfSome found (RoutesFailAt project.now plan.now)) }
{
    match first_unrouted(project, plan) {
        Some(at) => Ok(Some(Spot::line(PlanPart::Wires, at)?)),
        None => Ok(None),
    }
}
