//! Whether there is one legal table for each net with a printed set.
ghost use Rattle.std.specs.Prelude.{◌≡◌, ◌<◌, ◌↔◌, Ok, Some, length, map, slice_get, IfOk, IfSome, IfNone, IsTrue};
ghost use Rattle.std.specs.List.{All};
ghost use Rattle.loom_types.specs.Modules.{distinct_in_order};
ghost use Rattle.loom_audit.specs.FirstFailure.{Agree, DifferFirst};
ghost use Rattle.loom_audit.specs.SetWires.{HasSets};
ghost use Rattle.loom_audit.specs.TableRule.{IsTableFor, HasTables, AreTablesLegal, TablesFailAt, break_of};
ghost use Rattle.loom_check.specs.IllegalTables.{IsFirstIllegal};

use loom_audit::{PlanPart, Spot};
use loom_base::{NetNo, NoMemory};
use loom_potential::{FirstBreak, legal};
use loom_project::Project;
use loom_types::{Plan, SetLine, TableLine};
use std::alloc::Global;
use std::collections::HashSet;

/// The nets of sets, each once, in the order in which they first come.
fn nets_with_sets(alloc: Global, sets: &[SetLine]) -> Result<Vec<u32>, NoMemory>
    ensures { IfOk result (λ nets.
        nets.items ≡ distinct_in_order (map (λ set. set.net.0) sets.now)) }
{
    let mut nets = Vec::new(alloc);
    let mut seen = HashSet::new(alloc);
    for set in sets {
        if seen.insert(set.net.0)? {
            nets.push(set.net.0)?;
        }
    }
    Ok(nets)
}

/// Whether a table is one of a net's: it has the net's masks and the project's nodes.
fn is_table_for(project: &Project, net: u32, line: &TableLine) -> bool
    requires { net < length project.now.nets }
    ensures { IsTrue result ↔ IsTableFor project.now net line.now }
{
    let rest = project.cavities(NetNo(net)).len() - 1;
    line.net.0 == net
        && line.table.masks() == (1 << rest) - 1
        && line.table.nodes() == project.topology().node_count()
}

/// The first position at which tables aren't those of these nets, in order.
fn first_other_table(project: &Project, nets: &[u32], tables: &[TableLine]) -> Option<usize>
    requires { All (λ net. net < length project.now.nets) nets.now }
    ensures holds { IfNone result (Agree (IsTableFor project.now) nets.now tables.now) }
    ensures fails { IfSome result (DifferFirst (IsTableFor project.now) nets.now tables.now) }
{
    let both = nets.len().min(tables.len());
    for at in 0..both {
        if !is_table_for(project, nets[at], &tables[at]) {
            return Some(at);
        }
    }
    if nets.len() == tables.len() {
        None
    } else {
        Some(both)
    }
}

/// The first inequality that a net's table breaks over the segments that are open to the net.
fn first_break(project: &Project, line: &TableLine) -> Result<Result<(), FirstBreak>, NoMemory>
    requires net { line.now.net.0 < length project.now.nets }
    requires table { IsTableFor project.now line.now.net.0 line.now }
    ensures { IfOk result (λ found. found ≡ break_of project.now line.now) }
{
    let topology = project.topology_of(line.net)?;
    let cavities = project.cavities(line.net);
    Ok(legal(&topology, cavities, &line.table))
}

/// The first table that isn't legal, by position, and the first inequality that it breaks.
fn first_illegal(project: &Project, plan: &Plan) -> Result<Option<(usize, FirstBreak)>, NoMemory>
    requires sets { HasSets project.now plan.now }
    requires tables { HasTables project.now plan.now }
    ensures holds { IfOk result (λ found. IfNone found
        ((at : _) (line : _) → slice_get plan.now.tables at ≡ Some line
        → break_of project.now line ≡ Ok tt)) }
    ensures fails { IfOk result (λ found. IfSome found (λ illegal.
        IsFirstIllegal project.now plan.now illegal.0 illegal.1)) }
{
    for (at, line) in plan.tables.as_slice().iter().enumerate() {
        if let Err(broken) = first_break(project, line)? {
            return Ok(Some((at, broken)));
        }
    }
    Ok(None)
}

/// The first line of a plan's tables that isn't the table of the next net with a printed set; or
/// else, in the first table that isn't legal, the cell of the first inequality that it breaks; None
/// exactly where there is neither.
pub(crate) fn tables_failure(
    alloc: Global,
    project: &Project,
    plan: &Plan,
) -> Result<Option<Spot>, NoMemory>
    requires sets { HasSets project.now plan.now }
    ensures holds { IfOk result (λ found. IfNone found (AreTablesLegal project.now plan.now)) }
    ensures fails { IfOk result (λ found. IfSome found (TablesFailAt project.now plan.now)) }
{
    let nets = nets_with_sets(alloc, plan.sets.as_slice())?;
    if let Some(at) = first_other_table(project, &nets, plan.tables.as_slice()) {
        return Ok(Some(Spot::line(PlanPart::Tables, at)?));
    }
    let Some((at, broken)) = first_illegal(project, plan)? else {
        return Ok(None);
    };
    let table = Spot::line(PlanPart::Tables, at)?;
    Ok(Some(Spot {
        b: broken.mask,
        c: broken.node.0,
        ..table
    }))
}
