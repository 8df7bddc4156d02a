//! Rows that are read back.
ghost use Rattle.std.specs.Prelude.{◌≡◌, ◌<◌, ◌≤◌, ◌+◌, map, drop, length};
ghost use Rattle.std.specs.Result.{result_map_both};
ghost use Rattle.serde_json.specs.View.{view};
ghost use Rattle.loom_json.specs.Forms.{Gives};
ghost use Rattle.loom_answer.specs.ReadingSteps.{with_row};
ghost use Rattle.loom_answer.specs.RowForms.{row_of, row_form, rows_from, rows_form};

use crate::number_forms::{SmallForm, few_items, items_of_length};
use loom_formula::{Row, RowFault, RowList};
use loom_json::ShapeStop;
use loom_json::forms::{self, Form};
use serde_json::Value;
use std::alloc::Global;

/// The option, the low and the high of a row.
#[tactic(auto, unfolding(crate::specs::RowForms::row_of))]
fn row_of(alloc: Global, elements: &[Value]) -> Result<Row, ShapeStop>
    ensures { Gives result (row_of (map view elements.now)) }
{
    let option = forms::at_index::<SmallForm>(alloc, elements, 0)?;
    let low = forms::at_index::<SmallForm>(alloc, elements, 1)?;
    let high = forms::at_index::<SmallForm>(alloc, elements, 2)?;
    Ok(Row { option, low, high })
}

/// The row of an array of three, appended where its low and high are less than its number.
#[tactic(auto, unfolding(crate::specs::RowForms::row_form))]
fn push_row(alloc: Global, rows: &mut RowList, value: &Value) -> Result<(), ShapeStop>
    requires { length rows.old < 4294967293 }
    ensures { Gives (result_map_both (λ _. rows.new) (λ stop. stop) result)
        (with_row rows.old (row_form (length rows.old + 2) (view value.now))) }
{
    let Some(elements) = items_of_length(value, 3) else {
        return Err(ShapeStop::here(alloc));
    };
    let row = row_of(alloc, elements)?;
    match rows.push(row.option, row.low, row.high) {
        Ok(()) => Ok(()),
        Err(RowFault::NotBelow) => Err(ShapeStop::here(alloc)),
        Err(RowFault::NoMemory) => Err(ShapeStop::NoMemory),
    }
}

/// The rows of an array's elements.
fn rows_of(alloc: Global, elements: &[Value]) -> Result<RowList, ShapeStop>
    requires { length elements.now ≤ 4294967293 }
    ensures { Gives result (rows_from 0 (map view elements.now)) }
{
    let mut rows = RowList::new(alloc);
    for (position, element) in elements.iter().enumerate() {
        let pushed = push_row(alloc, &mut rows, element);
        forms::below_position(alloc, position, pushed)?;
    }
    Ok(rows)
}

/// The rows of a plan.
pub(crate) struct RowListForm;

impl Form for RowListForm {
    type Out = RowList;

    ghost reads = { rows_form };

    fn read(alloc: Global, value: &Value) -> Result<RowList, ShapeStop> {
        match few_items(value) {
            Some(elements) => rows_of(alloc, elements),
            None => Err(ShapeStop::here(alloc)),
        }
    }
}
