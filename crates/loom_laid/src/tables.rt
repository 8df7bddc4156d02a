ghost use Rattle.std.specs.Prelude.{ℕ, ◌≡◌, ◌<◌, ◌≤◌, ◌*◌, ◌^◌, length, map, All, Contains, IfOk, OnOk};
ghost use Rattle.loom_project.specs.Project.{net_topology, cavities_of};
ghost use Rattle.loom_steiner.specs.LeastTable.{IsLeastTable};
ghost use Rattle.loom_topology.specs.Table.{IsWhole};
ghost use Rattle.loom_base.specs.declared.positions.NetNo.{NetNo as Net};
ghost use Rattle.loom_active.specs.LiveSets.{IsLiveSet};
ghost use Rattle.loom_laid.specs.Growth.{Grew};
ghost use Rattle.loom_laid.specs.Kept.{AreTrueOf, keys_of, key_of};
ghost use Rattle.loom_laid.specs.LaidSets.{IsNetTable, cells_of_net, cells_of};

use crate::Kept;
use crate::key::TableKey;
use loom_base::{List, NetNo, NoMemory};
use loom_project::Project;
use loom_steiner::Filler;
use loom_topology::Table;
use loom_types::TableLine;
use std::alloc::Global;

/// The cells of a net's table.
fn cells_of_net(project: &Project, net: NetNo) -> u64
    requires { net.0 < length project.now.nets }
    ensures cells { result ≡ cells_of_net project.now net.0 }
    ensures few { result ≤ 2096128 }
{
    let terminals = project.cavities(net).len();
    let nodes = project.topology().node_count() as u64;
    ((1 << (terminals - 1)) - 1) * nodes
}

/// The cells of these nets' tables together.
pub(crate) fn cells_of(project: &Project, nets: &[NetNo]) -> u64
    requires in_range { All (λ net. net.0 < length project.now.nets) nets.now }
    requires few { length nets.now ≤ 16384 }
    ensures { result ≡ cells_of project.now (map (λ net. net.0) nets.now) }
{
    let mut cells = 0;
    for net in nets {
        cells += cells_of_net(project, *net);
    }
    cells
}

/// Sees to it that the table of a net is kept.
fn keep_table<F: Filler>(
    alloc: Global,
    project: &Project,
    net: NetNo,
    kept: &mut Kept,
    filler: &mut F,
) -> Result<(), NoMemory>
    requires in_range { net.0 < length project.now.nets }
    requires live { (mask : ℕ) × IsLiveSet project.now net.0 mask }
    requires kept { AreTrueOf project.now kept.old }
    requires counted { F.count filler.old < 2 ^ 64 }
    ensures kept { AreTrueOf project.now kept.new }
    ensures grew { Grew project.now kept.old kept.new (F.count filler.old) (F.count filler.new) }
    ensures has { OnOk result (Contains (keys_of kept.new) (key_of project.now net.0)) }
{
    let key = TableKey::of(alloc, project, net)?;
    if kept.has(&key) {
        return Ok(());
    }
    let topology = project.topology_of(net)?;
    kept.fill(alloc, key, &topology, project.cavities(net), filler)
}

/// The table of a net, a copy of the one that is kept.
fn net_table<F: Filler>(
    alloc: Global,
    project: &Project,
    net: NetNo,
    kept: &mut Kept,
    filler: &mut F,
) -> Result<Table, NoMemory>
    requires in_range { net.0 < length project.now.nets }
    requires live { (mask : ℕ) × IsLiveSet project.now net.0 mask }
    requires kept { AreTrueOf project.now kept.old }
    requires counted { F.count filler.old < 2 ^ 64 }
    ensures least { IfOk result (IsLeastTable (net_topology project.now net.0)
        (cavities_of project.now net.0)) }
    ensures whole { IfOk result IsWhole }
    ensures kept { AreTrueOf project.now kept.new }
    ensures grew { Grew project.now kept.old kept.new (F.count filler.old) (F.count filler.new) }
    ensures has { OnOk result (Contains (keys_of kept.new) (key_of project.now net.0)) }
{
    project.has_sound_topologies();
    keep_table(alloc, project, net, kept, filler)?;
    let key = TableKey::of(alloc, project, net)?;
    let table = kept.copy_of(&key)?;
    let _masks = table.masks();
    Ok(table)
}

/// The tables of nets that have a live set, which are kept from then on.
pub(crate) fn net_tables<F: Filler>(
    alloc: Global,
    project: &Project,
    nets: &[NetNo],
    kept: &mut Kept,
    filler: &mut F,
) -> Result<List<TableLine>, NoMemory>
    requires in_range { All (λ net. net.0 < length project.now.nets) nets.now }
    requires live { All (λ net. (mask : ℕ) × IsLiveSet project.now net.0 mask) nets.now }
    requires kept { AreTrueOf project.now kept.old }
    requires counted { F.count filler.old < 2 ^ 64 }
    ensures nets { IfOk result (λ tables. map (λ line. line.net) tables ≡ nets.now) }
    ensures each { IfOk result (All (IsNetTable project.now)) }
    ensures kept { AreTrueOf project.now kept.new }
    ensures grew { Grew project.now kept.old kept.new (F.count filler.old) (F.count filler.new) }
    ensures has { OnOk result ((net : Net) → Contains nets.now net
        → Contains (keys_of kept.new) (key_of project.now net.0)) }
{
    let mut tables = List::new(alloc);
    for net in nets {
        let table = net_table(alloc, project, *net, kept, filler)?;
        tables.push(TableLine { net: *net, table })?;
    }
    Ok(tables)
}
