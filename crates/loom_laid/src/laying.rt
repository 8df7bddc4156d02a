ghost use Rattle.std.specs.Prelude.{ℕ, ◌≡◌, ◌<◌, ◌≤◌, ◌↔◌, ◌-◌, ◌^◌, length, map, All, Contains, Some, IsTrue, IfSome, IfOk, IfErr, OnOk};
ghost use Rattle.std.specs.Option.{ForSome};
ghost use Rattle.std.specs.List.Sorted.{IsStrictlyIncreasing};
ghost use Rattle.loom_topology.specs.Table.{cell_at};
ghost use Rattle.loom_topology.specs.Legal.{chosen};
ghost use Rattle.loom_topology.specs.Reach.{AreReached};
ghost use Rattle.loom_project.specs.Project.{net_topology, cavities_of};
ghost use Rattle.loom_steiner.specs.LeastTable.{IsLeastTable};
ghost use Rattle.loom_types.specs.SetMask.{IsSet, rest_of, stem_node};
ghost use Rattle.loom_layout.specs.Layout.{IsLayoutOf};
ghost use Rattle.loom_active.specs.LiveSets.{IsLiveSet};
ghost use Rattle.loom_laid.specs.Kept.{AreTrueOf, keys_of, key_of, KeepsAll, HasLiveKeys, RisesByNewKeys};
ghost use Rattle.loom_laid.specs.LaidSets.{AreTheLiveSets, AreTables, AreLaid, AreLiveNets, IsLaid, IsNetTable, live_of, steps_of};
ghost use Rattle.loom_laid.specs.LaidStops.{FitCells, AreAllReached, IsReached, IsLaidStop};
ghost use Rattle.loom_laid.specs.SetStops.{IsOfClass, IsSetStop, IsReachStop};

use crate::class_topology::ClassTopology;
use crate::key::TableKey;
use crate::tables::{cells_of, net_tables};
use crate::{Kept, Laid, LaidSet, LaidStop};
use loom_active::LiveSet;
use loom_base::{CavityNo, List, MAX_CELLS, MAX_STEPS, NetNo, NoMemory};
use loom_layout::{LayoutStop, layout};
use loom_project::Project;
use loom_steiner::Filler;
use loom_topology::{Table, Topology};
use loom_types::{TableLine, rest, stem};
use std::alloc::Global;

/// The nets that have a live set, in order.
fn live_nets(
    alloc: Global,
    project: &Project,
    sets: &[LiveSet<'_>],
) -> Result<List<NetNo>, NoMemory>
    requires { AreTheLiveSets project.now sets.now }
    ensures nets { IfOk result (λ nets. AreLiveNets project.now (map (λ net. net.0) nets)) }
    ensures in_range { IfOk result (All (λ net. net.0 < length project.now.nets)) }
    ensures live { IfOk result (All (λ net. (mask : ℕ) × IsLiveSet project.now net.0 mask)) }
    ensures few { IfOk result (λ nets. length nets ≤ length sets.now) }
{
    // The count is read, so that it is known to be small.
    let _few = project.net_count();
    let mut nets = List::new(alloc);
    let mut past = 0;
    for set in sets {
        if past <= set.net.0 {
            nets.push(set.net)?;
            past = set.net.0 + 1;
        }
    }
    Ok(nets)
}

/// What a wiring tree for a set costs at least.
fn set_cost(topology: &Topology, terminals: &[CavityNo], table: &Table, mask: u32) -> Option<u64>
    requires at_least { 2 ≤ length terminals.now }
    requires at_most { length terminals.now ≤ 12 }
    requires in_range { All (λ cavity. cavity.0 < length topology.now.cavities) terminals.now }
    requires masks { table.now.masks
        ≡ 2 ^ (length (map (λ cavity. cavity.0) terminals.now) - 1) - 1 }
    requires nodes { table.now.nodes ≡ length topology.now.nodes }
    requires set { IsSet (map (λ cavity. cavity.0) terminals.now) mask }
    ensures { result ≡ cell_at table.now (rest_of mask)
        (stem_node topology.now (map (λ cavity. cavity.0) terminals.now) mask) }
{
    let node = topology.cavity_node(terminals[stem(mask) as usize]);
    table.cell(rest(mask), node)
}

/// A set with the layout that the table fixes.
fn laid_over<'a>(
    alloc: Global,
    topology: &Topology,
    terminals: &[CavityNo],
    table: &Table,
    set: LiveSet<'a>,
) -> Result<LaidSet<'a>, LaidStop>
    requires at_least { 2 ≤ length terminals.now }
    requires at_most { length terminals.now ≤ 12 }
    requires in_range { All (λ cavity. cavity.0 < length topology.now.cavities) terminals.now }
    requires table { IsLeastTable topology.now (map (λ cavity. cavity.0) terminals.now) table.now }
    requires set { IsSet (map (λ cavity. cavity.0) terminals.now) set.mask }
    ensures same { IfOk result (λ laid. live_of laid ≡ set.entry) }
    ensures layout { IfOk result (λ laid. IsLayoutOf topology.now
        (map (λ cavity. cavity.0) terminals.now) (cell_at table.now) laid.mask laid.layout) }
    ensures cost { IfOk result (λ laid. cell_at table.now (rest_of laid.mask)
        (stem_node topology.now (map (λ cavity. cavity.0) terminals.now) laid.mask)
        ≡ Some laid.cost) }
    ensures reached { OnOk result (AreReached topology.now
        (chosen (map (λ cavity. cavity.0) terminals.now) set.entry.mask)
        (stem_node topology.now (map (λ cavity. cavity.0) terminals.now) set.entry.mask)) }
    ensures stop { IfErr result (IsSetStop topology.now
        (map (λ cavity. cavity.0) terminals.now) set.entry.net set.entry.mask) }
{
    match layout(alloc, topology, terminals, table, set.mask) {
        Ok(layout) => Ok(LaidSet {
            net: set.net,
            mask: set.mask,
            cond: set.cond,
            cost: set_cost(topology, terminals, table, set.mask).unwrap(),
            layout,
        }),
        Err(LayoutStop::Unreachable { cavity, reached }) => Err(LaidStop::Unreachable {
            net: set.net,
            cavity,
            reached,
        }),
        Err(LayoutStop::NoMemory) => Err(LaidStop::NoMemory),
    }
}

/// The line of a net among tables in order of nets.
fn line_of(tables: &[TableLine], net: NetNo) -> &TableLine
    requires rising { IsStrictlyIncreasing (map (λ line. line.net.0) tables.now) }
    requires line { Contains (map (λ line. line.net) tables.now) net }
    ensures there { Contains tables.now result.now }
    ensures net { result.now.net ≡ net }
{
    match tables.binary_search_by_key(&net.0, |line| line.net.0) {
        Ok(at) => &tables[at],
        Err(_) => unreachable!(),
    }
}

/// A set with the layout that is kept for it; None where none is kept, or where some cavity isn't
/// reached.
fn kept_set<'a>(
    alloc: Global,
    project: &Project,
    tables: &[TableLine],
    line: &TableLine,
    kept: &Kept,
    set: LiveSet<'a>,
) -> Result<Option<LaidSet<'a>>, NoMemory>
    requires live { IsLiveSet project.now set.net.0 set.mask }
    requires in_range { set.net.0 < length project.now.nets }
    requires there { Contains tables.now line.now }
    requires net { line.now.net ≡ set.net }
    requires table { IsNetTable project.now line.now }
    requires kept { AreTrueOf project.now kept.now }
    ensures same { IfOk result (λ found. IfSome found (λ laid. live_of laid ≡ set.entry)) }
    ensures laid { IfOk result (λ found. IfSome found (IsLaid project.now tables.now)) }
    ensures reached { IfOk result (λ found. IfSome found (λ laid.
        IsReached project.now set.entry.net.0 set.entry.mask)) }
{
    project.has_sound_topologies();
    let cavities = project.cavities(set.net);
    let Some(cost) = set_cost(project.topology(), cavities, &line.table, set.mask) else {
        return Ok(None);
    };
    let key = TableKey::of(alloc, project, set.net)?;
    let Some(layout) = kept.layout(&key, set.mask) else {
        return Ok(None);
    };
    let layout = layout.copy(alloc)?;
    Ok(Some(LaidSet {
        net: set.net,
        mask: set.mask,
        cond: set.cond,
        cost,
        layout,
    }))
}

/// A set laid anew over the topology of its net's class; its layout is kept from then on.
fn new_set<'a>(
    alloc: Global,
    project: &Project,
    tables: &[TableLine],
    line: &TableLine,
    kept: &mut Kept,
    made: &mut Option<ClassTopology>,
    set: LiveSet<'a>,
) -> Result<LaidSet<'a>, LaidStop>
    requires live { IsLiveSet project.now set.net.0 set.mask }
    requires in_range { set.net.0 < length project.now.nets }
    requires there { Contains tables.now line.now }
    requires net { line.now.net ≡ set.net }
    requires table { IsNetTable project.now line.now }
    requires kept { AreTrueOf project.now kept.old }
    requires has { Contains (keys_of kept.old) (key_of project.now set.net.0) }
    requires made { ForSome made.old (IsOfClass project.now) }
    ensures same { IfOk result (λ laid. live_of laid ≡ set.entry) }
    ensures laid { IfOk result (IsLaid project.now tables.now) }
    ensures reached { OnOk result (IsReached project.now set.entry.net.0 set.entry.mask) }
    ensures stop { IfErr result (IsSetStop (net_topology project.now set.entry.net.0)
        (cavities_of project.now set.entry.net.0) set.entry.net set.entry.mask) }
    ensures kept { AreTrueOf project.now kept.new }
    ensures keys { keys_of kept.new ≡ keys_of kept.old }
    ensures made { ForSome made.new (IsOfClass project.now) }
{
    project.has_sound_topologies();
    let present = ClassTopology::of(project, set.net, made.take())?;
    let cavities = project.cavities(set.net);
    let laid = laid_over(alloc, &present.topology, cavities, &line.table, set)?;
    *made = Some(present);
    let key = TableKey::of(alloc, project, set.net)?;
    kept.keep_layout(&key, laid.mask, laid.layout.copy(alloc)?)?;
    Ok(laid)
}

/// A live set with the layout that is kept for it, or with a new one that is kept from then on.
fn laid_set<'a>(
    alloc: Global,
    project: &Project,
    tables: &[TableLine],
    kept: &mut Kept,
    made: &mut Option<ClassTopology>,
    set: LiveSet<'a>,
) -> Result<LaidSet<'a>, LaidStop>
    requires live { IsLiveSet project.now set.net.0 set.mask }
    requires in_range { set.net.0 < length project.now.nets }
    requires rising { IsStrictlyIncreasing (map (λ line. line.net.0) tables.now) }
    requires line { Contains (map (λ line. line.net) tables.now) set.net }
    requires tables { All (IsNetTable project.now) tables.now }
    requires kept { AreTrueOf project.now kept.old }
    requires has { Contains (keys_of kept.old) (key_of project.now set.net.0) }
    requires made { ForSome made.old (IsOfClass project.now) }
    ensures same { IfOk result (λ laid. live_of laid ≡ set.entry) }
    ensures laid { IfOk result (IsLaid project.now tables.now) }
    ensures reached { OnOk result (IsReached project.now set.entry.net.0 set.entry.mask) }
    ensures stop { IfErr result (IsSetStop (net_topology project.now set.entry.net.0)
        (cavities_of project.now set.entry.net.0) set.entry.net set.entry.mask) }
    ensures kept { AreTrueOf project.now kept.new }
    ensures keys { keys_of kept.new ≡ keys_of kept.old }
    ensures made { ForSome made.new (IsOfClass project.now) }
{
    let line = line_of(tables, set.net);
    if let Some(laid) = kept_set(alloc, project, tables, line, kept, set)? {
        return Ok(laid);
    }
    new_set(alloc, project, tables, line, kept, made, set)
}

/// The live sets with their layouts, or the first that isn't reached.
fn laid_sets<'a>(
    alloc: Global,
    project: &Project,
    sets: &[LiveSet<'a>],
    tables: &[TableLine],
    kept: &mut Kept,
) -> Result<List<LaidSet<'a>>, LaidStop>
    requires sets { AreTheLiveSets project.now sets.now }
    requires tables { AreTables project.now tables.now }
    requires kept { AreTrueOf project.now kept.old }
    requires has { HasLiveKeys project.now kept.old }
    ensures laid { IfOk result (AreLaid project.now tables.now sets.now) }
    ensures reached { OnOk result (AreAllReached project.now) }
    ensures stop { IfErr result (IsReachStop project.now) }
    ensures kept { AreTrueOf project.now kept.new }
    ensures keys { keys_of kept.new ≡ keys_of kept.old }
{
    let mut made = None;
    let mut laid = List::new(alloc);
    for set in sets {
        laid.push(laid_set(alloc, project, tables, kept, &mut made, *set)?)?;
    }
    Ok(laid)
}

/// Whether the layouts together have as few steps as a plan may have.
fn have_few_steps(laid: &[LaidSet<'_>]) -> bool
    ensures { IsTrue result ↔ (steps_of laid.now ≤ 1000000) }
{
    let mut steps = 0u64;
    for set in laid {
        steps = steps.saturating_add(set.layout.steps.len() as u64);
    }
    steps <= MAX_STEPS
}

/// The live sets in order with their layouts, and the tables of their nets. A net's table is taken
/// from what is kept under its class and the nodes of its terminals, or the filler is asked for it
/// and it is kept from then on, whatever comes after.
///
/// It stops at the first of these: `TooManyCells` where the tables pass their limit,
/// `Unreachable` at the first set with a cavity that isn't reached, `TooManySteps` where the
/// layouts together pass theirs. Memory may run out at any time.
pub fn lay_sets<'a, F: Filler>(
    alloc: Global,
    project: &Project,
    sets: &[LiveSet<'a>],
    kept: &mut Kept,
    filler: &mut F,
) -> Result<Laid<'a>, LaidStop>
    requires sets { AreTheLiveSets project.now sets.now }
    requires few { length sets.now ≤ 16384 }
    requires kept { AreTrueOf project.now kept.old }
    ensures tables { IfOk result (λ laid. AreTables project.now laid.tables) }
    ensures laid { IfOk result (λ laid. AreLaid project.now laid.tables sets.now laid.sets) }
    ensures few_cells { OnOk result (FitCells project.now) }
    ensures reached { OnOk result (AreAllReached project.now) }
    ensures few_steps { IfOk result (λ laid. steps_of laid.sets ≤ 1000000) }
    ensures stop { IfErr result (IsLaidStop project.now sets.now) }
    ensures kept { AreTrueOf project.now kept.new }
    ensures keeps { KeepsAll project.now kept.old kept.new }
    ensures has_live { OnOk result (HasLiveKeys project.now kept.new) }
    ensures built { RisesByNewKeys kept.old kept.new (F.count filler.old) (F.count filler.new) }
{
    // The count is read, so that it is known to be below its last value.
    let _built = filler.built();
    let nets = live_nets(alloc, project, sets)?;
    if cells_of(project, nets.as_slice()) > MAX_CELLS {
        return Err(LaidStop::TooManyCells);
    }
    let tables = net_tables(alloc, project, nets.as_slice(), kept, filler)?;
    let laid = laid_sets(alloc, project, sets, tables.as_slice(), kept)?;
    if !have_few_steps(laid.as_slice()) {
        return Err(LaidStop::TooManySteps);
    }
    Ok(Laid { sets: laid, tables })
}
