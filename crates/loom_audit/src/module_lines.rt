ghost use Rattle.std.specs.Prelude.{◌≡◌, ◌<◌, ◌↔◌, IfOk, IfSome, IfNone, IsTrue, OnOk, length};
ghost use Rattle.std.specs.List.{All};
ghost use Rattle.loom_types.specs.Routes.{IsEndInRange, node_of_end};
ghost use Rattle.loom_types.specs.Modules.{modules_of};
ghost use Rattle.loom_project.specs.Project.{topology_of};
ghost use Rattle.loom_audit.specs.FirstFailure.{Agree, DifferFirst};
ghost use Rattle.loom_audit.specs.LayoutRule.{IsSameModule, HasModules};
ghost use Rattle.loom_audit.specs.RouteRule.{AreRouted};
ghost use Rattle.loom_audit.specs.Grouping.{FindsModules, AreGrouped, with_wire};

use loom_base::{List, NoMemory, NodeNo};
use loom_project::Project;
use loom_topology::Topology;
use loom_types::{End, Module, Plan, Wire};
use std::alloc::Global;
use std::collections::HashMap;

/// The node at which an end lies.
fn end_node(topology: &Topology, end: End) -> NodeNo
    requires { IsEndInRange topology.now end }
    ensures node { result.0 ≡ node_of_end topology.now end }
    ensures in_range { result.0 < length topology.now.nodes }
{
    match end {
        End::Cavity(cavity) => topology.cavity_node(cavity),
        End::Splice { node, .. } => node,
        End::Pin { coupler, side, .. } => {
            let (from, to) = topology.ends(coupler);
            if side == 1 { from } else { to }
        }
    }
}

/// Appends a wire's position to the module of its harness and row. Where there is none yet it
/// becomes the last one.
fn add_wire(
    modules: &mut Vec<Module>,
    places: &mut HashMap<(u32, u32), usize>,
    harness: u32,
    row: u32,
    position: u32,
) -> Result<(), NoMemory>
    requires { FindsModules modules.old.items places.old }
    ensures added { OnOk result
        (modules.new.items ≡ with_wire modules.old.items harness row position) }
    ensures finds { OnOk result (FindsModules modules.new.items places.new) }
{
    if let Some(place) = places.get(&(harness, row)) {
        modules[*place].wires.push(position)?;
        return Ok(());
    }
    let mut wires = List::new(*modules.allocator());
    wires.push(position)?;
    places.insert((harness, row), modules.len())?;
    modules.push(Module {
        harness,
        row,
        wires,
    })?;
    Ok(())
}

/// The modules of wires, in the order of their first wires.
fn grouped(alloc: Global, topology: &Topology, wires: &[Wire]) -> Result<Vec<Module>, NoMemory>
    requires { All (λ w. IsEndInRange topology.now w.from) wires.now }
    ensures { IfOk result (λ modules. AreGrouped topology.now wires.now modules.items) }
{
    let mut modules = Vec::new(alloc);
    let mut places = HashMap::new(alloc);
    for (at, wire) in wires.iter().enumerate() {
        let Ok(position) = u32::try_from(at) else {
            return Err(NoMemory);
        };
        let harness = topology.harness(end_node(topology, wire.from));
        add_wire(&mut modules, &mut places, harness, wire.row, position)?;
    }
    Ok(modules)
}

/// The modules of wires: harness by harness, the wires of equal row make one module, in the order
/// of their first wires. A wire lies in the harness of its ends, which are in range. More wires than
/// there are positions are answered as want of memory.
fn modules(alloc: Global, topology: &Topology, wires: &[Wire]) -> Result<List<Module>, NoMemory>
    requires { All (λ w. IsEndInRange topology.now w.from) wires.now }
    ensures { IfOk result (λ modules. modules ≡ modules_of topology.now wires.now) }
{
    let mut modules = grouped(alloc, topology, wires)?;
    modules.sort_by_key(|module| module.harness)?;
    Ok(List::from_vec(modules))
}

/// Whether two modules are the same.
fn is_same_module(one: &Module, other: &Module) -> bool
    ensures { IsTrue result ↔ (one.now ≡ other.now) }
{
    one.harness == other.harness
        && one.row == other.row
        && one.wires.as_slice() == other.wires.as_slice()
}

/// The first position at which two lists of modules differ.
fn first_difference(stated: &[Module], printed: &[Module]) -> Option<usize>
    ensures holds { IfNone result (Agree IsSameModule stated.now printed.now) }
    ensures fails { IfSome result (DifferFirst IsSameModule stated.now printed.now) }
{
    let both = stated.len().min(printed.len());
    for at in 0..both {
        if !is_same_module(&stated[at], &printed[at]) {
            return Some(at);
        }
    }
    if stated.len() == printed.len() {
        None
    } else {
        Some(both)
    }
}

/// The first position at which a plan's modules aren't those of its wires.
pub(crate) fn first_other_module(
    alloc: Global,
    project: &Project,
    plan: &Plan,
) -> Result<Option<usize>, NoMemory>
    requires { AreRouted project.now plan.now }
    ensures holds { IfOk result (λ found. IfNone found (HasModules project.now plan.now)) }
    ensures fails { IfOk result (λ found. IfSome found (DifferFirst IsSameModule
        (modules_of (topology_of project.now) plan.now.wires) plan.now.modules)) }
{
    let stated = modules(alloc, project.topology(), plan.wires.as_slice())?;
    Ok(first_difference(stated.as_slice(), plan.modules.as_slice()))
}
