//! Tables that are read back: each cell is written where it belongs at once.
ghost use Rattle.std.specs.Prelude.{◌≡◌, ◌<◌, ◌≤◌, ◌-◌, ◌*◌, ◌^◌, None, Some, map, take, drop, length, slice_get, IfOk};
ghost use Rattle.std.specs.Option.{ForSome};
ghost use Rattle.std.specs.Result.{result_map_both};
ghost use Rattle.serde_json.specs.Data.{Data};
ghost use Rattle.serde_json.specs.View.{view};
ghost use Rattle.loom_base.specs.declared.limits.TheConstants.{MAX_ELEMENTS as MOST_ELEMENTS};
ghost use Rattle.loom_json.specs.Forms.{Gives, each};
ghost use Rattle.loom_answer.specs.ReadingSteps.{behind, AreOneSize, Reaches};
ghost use Rattle.loom_answer.specs.NumberForms.{items_of_length as items_in_length};
ghost use Rattle.loom_answer.specs.TableForms.{cell_form, mask_form, width_of, cells_from, masks_of, cells_form, table_form};

use crate::number_forms::{NetNoForm, few_items, items_of_length};
use loom_base::NodeNo;
use loom_json::forms::{self, Form};
use loom_json::{ShapeStop, number};
use loom_topology::Table;
use loom_types::TableLine;
use serde_json::Value;
use std::alloc::Global;

/// The greatest number of a cell.
const MAX_CELL: u64 = 1_099_511_627_776;

/// The cell that a value is.
fn cell(alloc: Global, value: &Value) -> Result<Option<u64>, ShapeStop>
    ensures gives { Gives result (cell_form (view value.now)) }
    ensures small { IfOk result (λ cell. ForSome cell (λ cost. cost ≤ 2 ^ 40)) }
{
    match value {
        Value::Null => Ok(None),
        Value::Number(_) => match number(value, 0, MAX_CELL) {
            Some(cost) => Ok(Some(cost)),
            None => Err(ShapeStop::here(alloc)),
        },
        _ => Err(ShapeStop::here(alloc)),
    }
}

/// Writes the cells of a mask, which stand behind those of the masks before it.
fn write_cells(
    alloc: Global,
    table: &mut Table,
    mask: u32,
    cells: &[Value],
) -> Result<(), ShapeStop>
    requires mask_from { 1 ≤ mask }
    requires mask_to { mask ≤ table.old.masks }
    requires width { length cells.now ≡ table.old.nodes }
    ensures size { AreOneSize table.old table.new }
    ensures gives { Gives
        (result_map_both (λ _. take (mask * table.old.nodes) table.new.cells)
        (λ stop. stop) result)
        (behind (take ((mask - 1) * table.old.nodes) table.old.cells)
        (each cell_form 0 (map view cells.now))) }
{
    for node in 0..table.nodes() {
        let found = cell(alloc, &cells[node as usize]);
        let found = forms::below_position(alloc, node as usize, found)?;
        table.set(mask, NodeNo(node), found);
    }
    Ok(())
}

/// Writes a mask, which is an array of as many cells as the table has nodes.
fn write_mask(alloc: Global, table: &mut Table, mask: u32, value: &Value) -> Result<(), ShapeStop>
    requires mask_from { 1 ≤ mask }
    requires mask_to { mask ≤ table.old.masks }
    ensures size { AreOneSize table.old table.new }
    ensures gives { Gives
        (result_map_both (λ _. take (mask * table.old.nodes) table.new.cells)
        (λ stop. stop) result)
        (behind (take ((mask - 1) * table.old.nodes) table.old.cells)
        (mask_form table.old.nodes (view value.now))) }
{
    match items_of_length(value, table.nodes() as usize) {
        Some(cells) => write_cells(alloc, table, mask, cells),
        None => Err(ShapeStop::here(alloc)),
    }
}

/// Writes as many masks as the table has.
fn write_masks(alloc: Global, table: &mut Table, masks: &[Value]) -> Result<(), ShapeStop>
    requires { table.old.masks ≤ length masks.now }
    ensures size { AreOneSize table.old table.new }
    ensures reaches { Reaches result
        (behind table.new.cells
        (cells_from table.old.nodes table.old.masks
        (drop table.old.masks (map view masks.now))))
        (cells_from table.old.nodes 0 (map view masks.now)) }
{
    for place in 0..table.masks() {
        let written = write_mask(alloc, table, place + 1, &masks[place as usize]);
        forms::below_position(alloc, place as usize, written)?;
    }
    Ok(())
}

/// How many cells the first mask has.
fn width_of(masks: &[Value]) -> usize
    ensures value { result ≡ width_of (map view masks.now) }
    ensures few { result ≤ MOST_ELEMENTS }
{
    match masks.first() {
        Some(first) => match few_items(first) {
            Some(cells) => cells.len(),
            None => 0,
        },
        None => 0,
    }
}

/// How many masks stand before the first that isn't an array of so many cells.
fn even_masks(masks: &[Value], width: usize) -> usize
    ensures within { result ≤ length masks.now }
    ensures end { (d : Data) → slice_get (map view masks.now) result ≡ Some d
        → items_in_length width d ≡ None }
{
    for (place, mask) in masks.iter().enumerate() {
        if items_of_length(mask, width).is_none() {
            return place;
        }
    }
    masks.len()
}

/// The table of these masks. It has room for the masks up to the first that isn't of the width of
/// the first one, so it takes no more memory than they do.
#[tactic(auto, unfolding(crate::specs::TableForms::masks_of))]
fn masks_of(alloc: Global, masks: &[Value]) -> Result<Table, ShapeStop>
    requires { length masks.now ≤ MOST_ELEMENTS }
    ensures { Gives result (masks_of (map view masks.now)) }
{
    let width = width_of(masks);
    let even = even_masks(masks, width);
    let mut table = Table::new(alloc, even as u32, width as u32)?;
    write_masks(alloc, &mut table, masks)?;
    if even < masks.len() {
        return forms::below_position(alloc, even, Err(ShapeStop::here(alloc)));
    }
    Ok(table)
}

/// The cells of a table, mask by mask.
struct CellsForm;

impl Form for CellsForm {
    type Out = Table;

    ghost reads = { cells_form };

    fn read(alloc: Global, value: &Value) -> Result<Table, ShapeStop> {
        match few_items(value) {
            Some(masks) => masks_of(alloc, masks),
            None => Err(ShapeStop::here(alloc)),
        }
    }
}

/// A net with its table.
pub(crate) struct TableForm;

impl Form for TableForm {
    type Out = TableLine;

    ghost reads = { table_form };

    #[tactic(auto, unfolding(crate::specs::TableForms::table_form))]
    fn read(alloc: Global, value: &Value) -> Result<TableLine, ShapeStop> {
        forms::keyed(alloc, value, &["net", "cells"])?;
        Ok(TableLine {
            net: forms::at_key::<NetNoForm>(alloc, value, "net")?,
            table: forms::at_key::<CellsForm>(alloc, value, "cells")?,
        })
    }
}
