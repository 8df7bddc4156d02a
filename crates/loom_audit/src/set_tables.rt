//! Whether the printed costs of sets are cells of their nets' tables.
ghost use Rattle.std.specs.Prelude.{◌≡◌, ◌<◌, ◌≤◌, ◌^◌, ◌↔◌, Some, length, IfOk, IsTrue};
ghost use Rattle.loom_project.specs.Project.{net_topology, cavities_of};
ghost use Rattle.loom_topology.specs.Table.{cell_at};
ghost use Rattle.loom_types.specs.SetMask.{IsSet, stem_node};
ghost use Rattle.loom_audit.specs.CostRule.{IsCellOf};
ghost use Rattle.loom_audit.specs.TablePlaces.{FindsTables};
ghost use Rattle.loom_audit.specs.TableRule.{HasTables};

use loom_base::{NoMemory, NodeNo};
use loom_project::Project;
use loom_topology::Table;
use loom_types::{Plan, SetLine, TableLine, rest, stem};
use std::alloc::Global;
use std::collections::HashMap;

/// The place of each net's first table.
pub(crate) fn table_places(
    alloc: Global,
    tables: &[TableLine],
) -> Result<HashMap<u32, usize>, NoMemory>
    ensures { IfOk result (FindsTables tables.now) }
{
    let mut places = HashMap::new(alloc);
    for place in (0..tables.len()).rev() {
        places.insert(tables[place].net.0, place)?;
    }
    Ok(places)
}

/// The node of a set's first cavity.
fn home(project: &Project, set: &SetLine) -> NodeNo
    requires net { set.now.net.0 < length project.now.nets }
    requires set { IsSet (cavities_of project.now set.now.net.0) set.now.mask }
    ensures node { result.0 ≡ stem_node (net_topology project.now set.now.net.0)
        (cavities_of project.now set.now.net.0) set.now.mask }
    ensures in_range { result.0 < length project.now.nodes }
{
    let first = project.cavities(set.net)[stem(set.mask) as usize];
    project.topology().cavity_node(first)
}

/// Whether the cell of a mask at a node has a cost.
fn is_cell_at(table: &Table, mask: u32, node: NodeNo, cost: u64) -> bool
    requires mask_from { 1 ≤ mask }
    requires mask_to { mask ≤ table.now.masks }
    requires node { node.0 < table.now.nodes }
    ensures is { IsTrue result ↔ (cell_at table.now mask node.0 ≡ Some cost) }
    ensures small { cost < 2 ^ 64 }
{
    match table.cell(mask, node) {
        Some(value) => value == cost,
        None => false,
    }
}

/// Whether a set's printed cost is the cell of its net's table for its cavities but the first, at
/// the first one's node. `places` has where each net's table stands.
pub(crate) fn is_cell(
    project: &Project,
    plan: &Plan,
    places: &HashMap<u32, usize>,
    set: &SetLine,
) -> bool
    requires net { set.now.net.0 < length project.now.nets }
    requires set { IsSet (cavities_of project.now set.now.net.0) set.now.mask }
    requires tables { HasTables project.now plan.now }
    requires places { FindsTables plan.now.tables places.now }
    ensures is { IsTrue result ↔ IsCellOf project.now plan.now set.now set.now.cost }
    ensures small { IsTrue result → set.now.cost < 2 ^ 64 }
{
    let _cavities = project.cavities(set.net);
    let home = home(project, set);
    let Some(place) = places.get(&set.net.0) else {
        return false;
    };
    let line = &plan.tables.as_slice()[*place];
    is_cell_at(&line.table, rest(set.mask), home, set.cost)
}
