ghost use Rattle.std.specs.Prelude.{◌≡◌, ◌<◌, IfOk, OnOk, length};
ghost use Rattle.std.specs.List.{All};
ghost use Rattle.loom_types.specs.Routes.{IsEndInRange, node_of_end};
ghost use Rattle.loom_types.specs.Modules.{modules_of};
ghost use Rattle.loom_wires.specs.Grouping.{FindsModules, AreGrouped, with_wire};

use loom_base::{List, NoMemory, NodeNo};
use loom_topology::Topology;
use loom_types::{End, Module, Wire};
use std::alloc::Global;
use std::collections::HashMap;

/// The node at which an end lies.
fn end_node(topology: &Topology, end: End) -> NodeNo
    requires { IsEndInRange topology.now end }
    ensures node { result.0 ≡ node_of_end topology.now end }
    ensures in_range { result.0 < length topology.now.nodes }
{
    match end {
        End::Cavity(cavity) => topology.cavity_node(cavity),
        End::Splice { node, .. } => node,
        End::Pin { coupler, side, .. } => {
            let (from, to) = topology.ends(coupler);
            if side == 1 { from } else { to }
        }
    }
}

/// Appends a wire's position to the module of its harness and row. Where there is none yet it
/// becomes the last one.
fn add_wire(
    modules: &mut Vec<Module>,
    places: &mut HashMap<(u32, u32), usize>,
    harness: u32,
    row: u32,
    position: u32,
) -> Result<(), NoMemory>
    requires { FindsModules modules.old.items places.old }
    ensures added { OnOk result
        (modules.new.items ≡ with_wire modules.old.items harness row position) }
    ensures finds { OnOk result (FindsModules modules.new.items places.new) }
{
    if let Some(place) = places.get(&(harness, row)) {
        modules[*place].wires.push(position)?;
        return Ok(());
    }
    let mut wires = List::new(*modules.allocator());
    wires.push(position)?;
    places.insert((harness, row), modules.len())?;
    modules.push(Module {
        harness,
        row,
        wires,
    })?;
    Ok(())
}

/// The modules of wires, in the order of their first wires.
fn grouped(alloc: Global, topology: &Topology, wires: &[Wire]) -> Result<Vec<Module>, NoMemory>
    requires { All (λ w. IsEndInRange topology.now w.from) wires.now }
    ensures { IfOk result (λ modules. AreGrouped topology.now wires.now modules.items) }
{
    let mut modules = Vec::new(alloc);
    let mut places = HashMap::new(alloc);
    for (at, wire) in wires.iter().enumerate() {
        let Ok(position) = u32::try_from(at) else {
            return Err(NoMemory);
        };
        let harness = topology.harness(end_node(topology, wire.from));
        add_wire(&mut modules, &mut places, harness, wire.row, position)?;
    }
    Ok(modules)
}

/// The modules of wires: harness by harness, the wires of equal row make one module, in the order
/// of their first wires. A wire lies in the harness of its ends, which are in range. More wires than
/// there are positions are answered as want of memory.
pub fn modules(alloc: Global, topology: &Topology, wires: &[Wire]) -> Result<List<Module>, NoMemory>
    requires { All (λ w. IsEndInRange topology.now w.from) wires.now }
    ensures { IfOk result (λ modules. modules ≡ modules_of topology.now wires.now) }
{
    let mut modules = grouped(alloc, topology, wires)?;
    modules.sort_by_key(|module| module.harness)?;
    Ok(List::from_vec(modules))
}
