ghost use Rattle.std.specs.Prelude.{◌≡◌, map, true, OnOk, IfOk};
ghost use Rattle.std.specs.List.{All};
ghost use Rattle.loom_rows.specs.Table.{Has};
ghost use Rattle.loom_wires.specs.Built.{with_nodes, with_segments, with_cavities, kind_of, built, fork, laid_set, is_laid};

use crate::{CutWire, LaidSet, cut, modules};
use bumpalo::Bump;
use loom_base::{
    Branch, CavityNo, List, NetNo, NoMemory, NodeNo, OptionNo, Pins, Price, SegmentNo,
};
use loom_rows::{Cond, Rows};
use loom_topology::{Kind, Topology};
use loom_types::{End, Layout, Module, PinLine, Wire};
use std::alloc::Global;
use std::test::Fail;

/// Adds nodes: the harness and the branch cost of each.
fn add_nodes(topology: &mut Topology, nodes: &[(u32, u64)]) -> Result<(), Fail>
    ensures { OnOk result (topology.new ≡ with_nodes topology.old nodes.now) }
{
    for (harness, branch) in nodes {
        let branch = Branch::new(*branch).ok_or("a branch cost")?;
        if topology.node_count() >= 1024 {
            return Err("too many nodes".into());
        }
        topology.add_node(*harness, branch)?;
    }
    Ok(())
}

/// A run of this length, or a coupler of this price with so many pins.
fn kind(price: u64, pins: u64) -> Result<Kind, Fail>
    ensures { IfOk result (λ kind. kind ≡ kind_of price pins) }
{
    let price = Price::new(price).ok_or("a price")?;
    if pins == 0 {
        return Ok(Kind::Run { length: price });
    }
    let pins = Pins::new(pins).ok_or("a number of pins")?;
    Ok(Kind::Coupler { price, pins })
}

/// Adds segments: the ends, the price and the pins of each, a run having none.
fn add_segments(topology: &mut Topology, segments: &[(u32, u32, u64, u64)]) -> Result<(), Fail>
    ensures { OnOk result (topology.new ≡ with_segments topology.old segments.now) }
{
    for (from, to, price, pins) in segments {
        let kind = kind(*price, *pins)?;
        let count = topology.node_count();
        if *from >= count || *to >= count || topology.segment_count() >= 4096 {
            return Err("a segment that doesn't fit".into());
        }
        topology.add_segment(NodeNo(*from), NodeNo(*to), kind)?;
    }
    Ok(())
}

/// Adds a cavity at each of these nodes.
fn add_cavities(topology: &mut Topology, nodes: &[u32]) -> Result<(), Fail>
    ensures { OnOk result (topology.new ≡ with_cavities topology.old nodes.now) }
{
    for node in nodes {
        if *node >= topology.node_count() || topology.cavity_count() >= 8192 {
            return Err("a cavity that doesn't fit".into());
        }
        topology.add_cavity(NodeNo(*node))?;
    }
    Ok(())
}

/// A topology of these nodes, segments and cavities.
fn built(
    alloc: Global,
    nodes: &[(u32, u64)],
    segments: &[(u32, u32, u64, u64)],
    cavities: &[u32],
) -> Result<Topology, Fail>
    ensures { IfOk result (λ topology. topology ≡ built nodes.now segments.now cavities.now) }
{
    let mut topology = Topology::new(alloc);
    add_nodes(&mut topology, nodes)?;
    add_segments(&mut topology, segments)?;
    add_cavities(&mut topology, cavities)?;
    Ok(topology)
}

/// A set of net 0 with this layout.
fn laid_set<'a>(
    alloc: Global,
    cond: Cond<'a>,
    cavities: &[CavityNo],
    steps: &[(u32, SegmentNo)],
    hangs: &[u32],
) -> Result<LaidSet<'a>, NoMemory>
    ensures { IfOk result (λ set.
        set ≡ laid_set cond.entry cavities.now steps.now hangs.now) }
{
    Ok(LaidSet {
        net: NetNo(0),
        mask: 0,
        cond,
        cavities: List::from_slice(alloc, cavities)?,
        layout: Layout {
            steps: List::from_slice(alloc, steps)?,
            hangs: List::from_slice(alloc, hangs)?,
        },
    })
}

/// The pin of the crossing of coupler 0 by net 0 that has this ordinal.
fn pin(ordinal: u32, pin: u16) -> PinLine {
    PinLine {
        net: NetNo(0),
        coupler: SegmentNo(0),
        ordinal,
        pin,
    }
}

/// The first splice at a node.
fn splice(node: u32) -> End
    ensures { result ≡ End.Splice (record { 0 = node }) 1 }
{
    End::Splice {
        node: NodeNo(node),
        ordinal: 1,
    }
}

/// A cavity.
fn cavity(number: u32) -> End {
    End::Cavity(CavityNo(number))
}

/// A side of a pin of coupler 0.
fn side(pin: u16, side: u32) -> End {
    End::Pin {
        coupler: SegmentNo(0),
        pin,
        side,
    }
}

/// Whether a wire of net 0 has these ends, this route and this length.
fn is(wire: &CutWire<'_>, from: End, to: End, route: &[SegmentNo], length: u64) -> bool {
    wire.net == NetNo(0)
        && wire.from == from
        && wire.to == to
        && wire.route.as_slice() == route
        && wire.length == length
}

/// Whether each wire always is live.
fn are_always(wires: &[CutWire<'_>]) -> bool {
    wires.iter().all(|wire| matches!(wire.cond, Cond::Always))
}

/// Three cavities at one node meet at a splice.
#[test]
fn cavities_at_one_node(rt: HostRuntime) -> Result<(), Fail> {
    let alloc = rt.alloc();
    let topology = built(alloc, &[(0, 5)], &[], &[0, 0, 0])?;
    let cavities = [CavityNo(0), CavityNo(1), CavityNo(2)];
    let set = laid_set(alloc, Cond::Always, &cavities, &[], &[0, 0])?;
    let arena = Bump::new(alloc);
    let mut rows = Rows::new(alloc, &arena, 0, 0);
    let wires = cut(alloc, &topology, &mut rows, &[set], &[])?;
    let wires = wires.as_slice();
    assert_eq!(rt; wires.len(), 3);
    assert!(rt; is(&wires[0], cavity(0), splice(0), &[], 0));
    assert!(rt; is(&wires[1], cavity(1), splice(0), &[], 0));
    assert!(rt; is(&wires[2], cavity(2), splice(0), &[], 0));
    assert!(rt; are_always(wires));
    Ok(())
}

/// Two runs in a row, of which the first is passed twice; the splice lies at the first node.
#[test]
fn a_run_passed_twice(rt: HostRuntime) -> Result<(), Fail> {
    let alloc = rt.alloc();
    let nodes = [(0, 10), (0, 120), (0, 200)];
    let topology = built(alloc, &nodes, &[(0, 1, 100, 0), (1, 2, 50, 0)], &[0, 1, 2])?;
    let cavities = [CavityNo(0), CavityNo(1), CavityNo(2)];
    let steps = [(0, SegmentNo(0)), (0, SegmentNo(0)), (2, SegmentNo(1))];
    let set = laid_set(alloc, Cond::Always, &cavities, &steps, &[1, 3])?;
    let arena = Bump::new(alloc);
    let mut rows = Rows::new(alloc, &arena, 0, 0);
    let wires = cut(alloc, &topology, &mut rows, &[set], &[])?;
    let wires = wires.as_slice();
    let [one, two] = [SegmentNo(0), SegmentNo(1)];
    assert_eq!(rt; wires.len(), 3);
    assert!(rt; is(&wires[0], cavity(0), splice(0), &[], 0));
    assert!(rt; is(&wires[1], cavity(1), splice(0), &[one], 100));
    assert!(rt; is(&wires[2], cavity(2), splice(0), &[two, one], 150));
    assert!(rt; are_always(wires));
    Ok(())
}

/// The first run is a coupler, which takes two pins.
#[test]
fn a_coupler_passed_twice(rt: HostRuntime) -> Result<(), Fail> {
    let alloc = rt.alloc();
    let nodes = [(0, 10), (1, 120), (1, 200)];
    let topology = built(alloc, &nodes, &[(0, 1, 100, 2), (1, 2, 50, 0)], &[0, 1, 2])?;
    let cavities = [CavityNo(0), CavityNo(1), CavityNo(2)];
    let steps = [(0, SegmentNo(0)), (0, SegmentNo(0)), (2, SegmentNo(1))];
    let set = laid_set(alloc, Cond::Always, &cavities, &steps, &[1, 3])?;
    let arena = Bump::new(alloc);
    let mut rows = Rows::new(alloc, &arena, 0, 0);
    let wires = cut(alloc, &topology, &mut rows, &[set], &[pin(1, 1), pin(2, 2)])?;
    let wires = wires.as_slice();
    assert_eq!(rt; wires.len(), 5);
    assert!(rt; is(&wires[0], cavity(0), splice(0), &[], 0));
    assert!(rt; is(&wires[1], cavity(1), side(1, 2), &[], 0));
    assert!(rt; is(&wires[2], cavity(2), side(2, 2), &[SegmentNo(1)], 50));
    assert!(rt; is(&wires[3], splice(0), side(1, 1), &[], 0));
    assert!(rt; is(&wires[4], splice(0), side(2, 1), &[], 0));
    assert!(rt; are_always(wires));
    Ok(())
}

/// A coupler from the first node, and two runs behind it; a cavity at each end.
fn fork(alloc: Global) -> Result<Topology, Fail>
    ensures { IfOk result (λ topology. topology ≡ fork) }
{
    let nodes = [(0, 50), (1, 5), (1, 5), (1, 5)];
    let segments = [(0, 1, 10, 2), (1, 2, 100, 0), (1, 3, 60, 0)];
    built(alloc, &nodes, &segments, &[0, 2, 3])
}

/// The set of the cavities before the coupler and behind the first run.
fn two_ends<'a>(alloc: Global, cond: Cond<'a>) -> Result<LaidSet<'a>, NoMemory>
    ensures laid { IfOk result (λ set. is_laid fork set ≡ true) }
    ensures cond { IfOk result (λ set. set.cond ≡ cond.entry) }
{
    let steps = [(0, SegmentNo(0)), (1, SegmentNo(1))];
    laid_set(alloc, cond, &[CavityNo(0), CavityNo(1)], &steps, &[2])
}

/// The set of all three cavities.
fn three_ends<'a>(alloc: Global, cond: Cond<'a>) -> Result<LaidSet<'a>, NoMemory>
    ensures laid { IfOk result (λ set. is_laid fork set ≡ true) }
    ensures cond { IfOk result (λ set. set.cond ≡ cond.entry) }
{
    let cavities = [CavityNo(0), CavityNo(1), CavityNo(2)];
    let steps = [(0, SegmentNo(0)), (1, SegmentNo(1)), (1, SegmentNo(2))];
    laid_set(alloc, cond, &cavities, &steps, &[2, 3])
}

/// Whether the wires have these conditions.
fn have_conds<'a>(rows: &Rows<'a>, wires: &[CutWire<'a>], conds: &[Cond<'a>]) -> bool
    requires wires { All (λ wire. Has rows.now wire.cond) wires.now }
    requires conds { All (Has rows.now) conds.now }
{
    for (at, wire) in wires.iter().enumerate() {
        if at >= conds.len() || !rows.same(wire.cond, conds[at]) {
            return false;
        }
    }
    true
}

/// Two sets, the greater where option A holds and the other where it doesn't, have one wire in
/// common.
#[test]
fn sets_with_a_common_wire(rt: HostRuntime) -> Result<(), Fail> {
    let alloc = rt.alloc();
    let topology = fork(alloc)?;
    let arena = Bump::new(alloc);
    let mut rows = Rows::new(alloc, &arena, 1, 2);
    let a = rows.is(OptionNo(0))?;
    let not_a = rows.not(a)?;
    let sets = [two_ends(alloc, not_a)?, three_ends(alloc, a)?];
    let wires = cut(alloc, &topology, &mut rows, &sets, &[pin(1, 1)])?;
    let wires = wires.as_slice();
    assert_eq!(rt; wires.len(), 5);
    assert!(rt; is(&wires[0], cavity(0), side(1, 1), &[], 0));
    assert!(rt; is(&wires[1], cavity(1), splice(1), &[SegmentNo(1)], 100));
    assert!(rt; is(&wires[2], cavity(1), side(1, 2), &[SegmentNo(1)], 100));
    assert!(rt; is(&wires[3], cavity(2), splice(1), &[SegmentNo(2)], 60));
    assert!(rt; is(&wires[4], splice(1), side(1, 2), &[], 0));
    assert!(rt; have_conds(&rows, wires, &[Cond::Always, a, not_a, a, a]));
    Ok(())
}

/// Wires that begin at these ends and have these rows.
fn wires_from(alloc: Global, ends: &[(End, u32)]) -> Result<List<Wire>, NoMemory>
    ensures { IfOk result (λ wires.
        map (λ wire. wire.from) wires ≡ map (λ end. end.0) ends.now) }
{
    let mut wires = List::new(alloc);
    for (end, row) in ends {
        wires.push(Wire {
            net: NetNo(0),
            from: *end,
            to: *end,
            route: List::new(alloc),
            length: 0,
            row: *row,
        })?;
    }
    Ok(wires)
}

/// Whether a module has this harness, this row and these wires.
fn is_module(module: &Module, harness: u32, row: u32, wires: &[u32]) -> bool {
    module.harness == harness && module.row == row && module.wires.as_slice() == wires
}

/// Wires of one row lie in two harnesses.
#[test]
fn modules_keep_to_harnesses(rt: HostRuntime) -> Result<(), Fail> {
    let alloc = rt.alloc();
    let nodes = [(0, 10), (1, 120), (1, 200)];
    let topology = built(alloc, &nodes, &[(0, 1, 100, 2), (1, 2, 50, 0)], &[0, 1, 2])?;
    let first = End::Cavity(CavityNo(0));
    let second = End::Cavity(CavityNo(1));
    let third = End::Cavity(CavityNo(2));
    let ends = [
        (first, 1),
        (second, 1),
        (third, 1),
        (splice(0), 1),
        (splice(0), 1),
    ];
    let wires = wires_from(alloc, &ends)?;
    let modules = modules(alloc, &topology, wires.as_slice())?;
    let modules = modules.as_slice();
    assert_eq!(rt; modules.len(), 2);
    assert!(rt; is_module(&modules[0], 0, 1, &[0, 3, 4]));
    assert!(rt; is_module(&modules[1], 1, 1, &[1, 2]));
    Ok(())
}

/// The modules of a harness are ordered by their first wires, not by rows.
#[test]
fn modules_are_ordered_by_first_wires(rt: HostRuntime) -> Result<(), Fail> {
    let alloc = rt.alloc();
    let topology = fork(alloc)?;
    let first = End::Cavity(CavityNo(0));
    let second = End::Cavity(CavityNo(1));
    let third = End::Cavity(CavityNo(2));
    let ends = [
        (first, 1),
        (second, 3),
        (second, 2),
        (third, 3),
        (splice(1), 3),
    ];
    let wires = wires_from(alloc, &ends)?;
    let modules = modules(alloc, &topology, wires.as_slice())?;
    let modules = modules.as_slice();
    assert_eq!(rt; modules.len(), 3);
    assert!(rt; is_module(&modules[0], 0, 1, &[0]));
    assert!(rt; is_module(&modules[1], 1, 3, &[1, 3, 4]));
    assert!(rt; is_module(&modules[2], 1, 2, &[2]));
    Ok(())
}
