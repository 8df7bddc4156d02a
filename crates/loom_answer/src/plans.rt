//! How plans are printed.
ghost use Rattle.std.specs.Prelude.{◌≡◌, ◌<◌, ◌≤◌, ◌+◌, ◌++◌, ◌∷◌, [], map, take, IfOk};
ghost use Rattle.serde_json.specs.View.{view, members_view};
ghost use Rattle.loom_answer.specs.Values.{whole as whole_number};
ghost use Rattle.loom_answer.specs.Plans.{row_shown, step_shown, with_layout_shown, set_shown, cell_shown, mask_shown, cells_shown, table_shown, pin_shown, module_shown, plan_shown};

use crate::values::{WholeShown, numbers, whole};
use crate::wires::WireShown;
use loom_base::{NoMemory, NodeNo, SegmentNo};
use loom_formula::Row;
use loom_json::shown::{Shown, array, with};
use loom_topology::Table;
use loom_types::{Layout, Module, PinLine, Plan, SetLine, TableLine};
use serde_json::{Map, Value};
use std::alloc::Global;

/// Shows a row: its option, its low and its high.
struct RowShown;

impl Shown for RowShown {
    type Of = Row;

    ghost shows = { row_shown };

    fn value(alloc: Global, row: &Row) -> Result<Value, NoMemory> {
        numbers(
            alloc,
            &[
                u64::from(row.option),
                u64::from(row.low),
                u64::from(row.high),
            ],
        )
    }
}

/// Shows a step of a layout: its parent's point and its segment.
struct StepShown;

impl Shown for StepShown {
    type Of = (u32, SegmentNo);

    ghost shows = { step_shown };

    fn value(alloc: Global, step: &(u32, SegmentNo)) -> Result<Value, NoMemory> {
        numbers(alloc, &[u64::from(step.0), u64::from(step.1.0)])
    }
}

/// The members of a live set that show its layout, behind those that are there.
fn with_layout(
    alloc: Global,
    members: Map<String, Value>,
    layout: &Layout,
) -> Result<Map<String, Value>, NoMemory>
    ensures { IfOk result (λ made. members_view made.entries
        ≡ with_layout_shown layout.now (members_view members.entries)) }
{
    let hangs = array::<WholeShown>(alloc, layout.hangs.as_slice())?;
    let steps = array::<StepShown>(alloc, layout.steps.as_slice())?;
    let members = with(alloc, members, "hangs", hangs)?;
    with(alloc, members, "steps", steps)
}

/// Shows a live set.
struct SetShown;

impl Shown for SetShown {
    type Of = SetLine;

    ghost shows = { set_shown };

    fn value(alloc: Global, line: &SetLine) -> Result<Value, NoMemory> {
        let members = with(alloc, Map::new(alloc), "cost", whole(line.cost))?;
        let members = with(alloc, members, "mask", whole(u64::from(line.mask)))?;
        let members = with(alloc, members, "net", whole(u64::from(line.net.0)))?;
        let members = with(alloc, members, "row", whole(u64::from(line.row)))?;
        Ok(Value::Object(with_layout(alloc, members, &line.layout)?))
    }
}

/// The value of a cell: its number, or null.
fn cell_value(cell: Option<u64>) -> Value
    ensures { view result ≡ cell_shown cell }
{
    match cell {
        Some(cost) => whole(cost),
        None => Value::Null,
    }
}

/// The cells of a mask, node by node.
fn mask_value(alloc: Global, table: &Table, mask: u32) -> Result<Value, NoMemory>
    requires from_one { 1 ≤ mask }
    requires in_range { mask ≤ table.now.masks }
    ensures { IfOk result (λ value. view value ≡ mask_shown table.now mask) }
{
    let mut cells = Vec::with_capacity(alloc, table.nodes() as usize)?;
    for node in 0..table.nodes() {
        cells.push(cell_value(table.cell(mask, NodeNo(node))))?;
    }
    Ok(Value::Array(cells))
}

/// The cells of a table, mask by mask.
fn cells_value(alloc: Global, table: &Table) -> Result<Value, NoMemory>
    ensures { IfOk result (λ value. view value ≡ cells_shown table.now) }
{
    let mut rows = Vec::with_capacity(alloc, table.masks() as usize)?;
    for place in 0..table.masks() {
        rows.push(mask_value(alloc, table, place + 1)?)?;
    }
    Ok(Value::Array(rows))
}

/// Shows a table: for each mask from 1, for each node.
struct TableShown;

impl Shown for TableShown {
    type Of = TableLine;

    ghost shows = { table_shown };

    fn value(alloc: Global, line: &TableLine) -> Result<Value, NoMemory> {
        let cells = cells_value(alloc, &line.table)?;
        let members = with(alloc, Map::new(alloc), "cells", cells)?;
        let members = with(alloc, members, "net", whole(u64::from(line.net.0)))?;
        Ok(Value::Object(members))
    }
}

/// Shows the pin of a crossing.
struct PinShown;

impl Shown for PinShown {
    type Of = PinLine;

    ghost shows = { pin_shown };

    fn value(alloc: Global, line: &PinLine) -> Result<Value, NoMemory> {
        let members = with(
            alloc,
            Map::new(alloc),
            "coupler",
            whole(u64::from(line.coupler.0)),
        )?;
        let members = with(alloc, members, "net", whole(u64::from(line.net.0)))?;
        let members = with(alloc, members, "ordinal", whole(u64::from(line.ordinal)))?;
        let members = with(alloc, members, "pin", whole(u64::from(line.pin)))?;
        Ok(Value::Object(members))
    }
}

/// Shows a module.
struct ModuleShown;

impl Shown for ModuleShown {
    type Of = Module;

    ghost shows = { module_shown };

    fn value(alloc: Global, part: &Module) -> Result<Value, NoMemory> {
        let wires = array::<WholeShown>(alloc, part.wires.as_slice())?;
        let members = with(
            alloc,
            Map::new(alloc),
            "harness",
            whole(u64::from(part.harness)),
        )?;
        let members = with(alloc, members, "row", whole(u64::from(part.row)))?;
        let members = with(alloc, members, "wires", wires)?;
        Ok(Value::Object(members))
    }
}

/// Shows a plan.
pub(crate) struct PlanShown;

impl Shown for PlanShown {
    type Of = Plan;

    ghost shows = { plan_shown };

    fn value(alloc: Global, plan: &Plan) -> Result<Value, NoMemory> {
        let modules = array::<ModuleShown>(alloc, plan.modules.as_slice())?;
        let pins = array::<PinShown>(alloc, plan.pins.as_slice())?;
        let rows = array::<RowShown>(alloc, plan.rows.as_slice())?;
        let sets = array::<SetShown>(alloc, plan.sets.as_slice())?;
        let tables = array::<TableShown>(alloc, plan.tables.as_slice())?;
        let wires = array::<WireShown>(alloc, plan.wires.as_slice())?;
        let members = with(alloc, Map::new(alloc), "modules", modules)?;
        let members = with(alloc, members, "pins", pins)?;
        let members = with(alloc, members, "rows", rows)?;
        let members = with(alloc, members, "sets", sets)?;
        let members = with(alloc, members, "tables", tables)?;
        let members = with(alloc, members, "wires", wires)?;
        Ok(Value::Object(members))
    }
}
