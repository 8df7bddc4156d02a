//! Plans that are read back.
ghost use Rattle.std.specs.Prelude.{map};
ghost use Rattle.serde_json.specs.View.{view};
ghost use Rattle.loom_json.specs.Forms.{Gives};
ghost use Rattle.loom_answer.specs.PlanForms.{step_of, step_form, set_form, pin_form, module_form, plan_form};

use crate::number_forms::{
    NetNoForm, PinNumberForm, SegmentNoForm, SmallForm, WholeForm, items_of_length,
};
use crate::row_forms::RowListForm;
use crate::table_forms::TableForm;
use crate::wire_forms::WireForm;
use loom_base::SegmentNo;
use loom_json::ShapeStop;
use loom_json::forms::{self, Form, ListForm};
use loom_types::{Layout, Module, PinLine, Plan, SetLine};
use serde_json::Value;
use std::alloc::Global;

/// The parent's point and the segment of a step.
#[tactic(auto, unfolding(crate::specs::PlanForms::step_of))]
fn step_of(alloc: Global, elements: &[Value]) -> Result<(u32, SegmentNo), ShapeStop>
    ensures { Gives result (step_of (map view elements.now)) }
{
    let parent = forms::at_index::<SmallForm>(alloc, elements, 0)?;
    let segment = forms::at_index::<SegmentNoForm>(alloc, elements, 1)?;
    Ok((parent, segment))
}

/// A step of a layout.
struct StepForm;

impl Form for StepForm {
    type Out = (u32, SegmentNo);

    ghost reads = { step_form };

    #[tactic(auto, unfolding(crate::specs::PlanForms::step_form))]
    fn read(alloc: Global, value: &Value) -> Result<(u32, SegmentNo), ShapeStop> {
        match items_of_length(value, 2) {
            Some(elements) => step_of(alloc, elements),
            None => Err(ShapeStop::here(alloc)),
        }
    }
}

/// A set with its layout.
struct SetForm;

impl Form for SetForm {
    type Out = SetLine;

    ghost reads = { set_form };

    #[tactic(auto, unfolding(crate::specs::PlanForms::set_form))]
    fn read(alloc: Global, value: &Value) -> Result<SetLine, ShapeStop> {
        forms::keyed(
            alloc,
            value,
            &["net", "mask", "cost", "row", "steps", "hangs"],
        )?;
        let net = forms::at_key::<NetNoForm>(alloc, value, "net")?;
        let mask = forms::at_key::<SmallForm>(alloc, value, "mask")?;
        let cost = forms::at_key::<WholeForm>(alloc, value, "cost")?;
        let row = forms::at_key::<SmallForm>(alloc, value, "row")?;
        let steps = forms::at_key::<ListForm<StepForm>>(alloc, value, "steps")?;
        let hangs = forms::at_key::<ListForm<SmallForm>>(alloc, value, "hangs")?;
        Ok(SetLine {
            net,
            mask,
            cost,
            row,
            layout: Layout { steps, hangs },
        })
    }
}

/// The pin of a crossing.
struct PinForm;

impl Form for PinForm {
    type Out = PinLine;

    ghost reads = { pin_form };

    #[tactic(auto, unfolding(crate::specs::PlanForms::pin_form))]
    fn read(alloc: Global, value: &Value) -> Result<PinLine, ShapeStop> {
        forms::keyed(alloc, value, &["net", "coupler", "ordinal", "pin"])?;
        Ok(PinLine {
            net: forms::at_key::<NetNoForm>(alloc, value, "net")?,
            coupler: forms::at_key::<SegmentNoForm>(alloc, value, "coupler")?,
            ordinal: forms::at_key::<SmallForm>(alloc, value, "ordinal")?,
            pin: forms::at_key::<PinNumberForm>(alloc, value, "pin")?,
        })
    }
}

/// A module with its wires.
struct ModuleForm;

impl Form for ModuleForm {
    type Out = Module;

    ghost reads = { module_form };

    #[tactic(auto, unfolding(crate::specs::PlanForms::module_form))]
    fn read(alloc: Global, value: &Value) -> Result<Module, ShapeStop> {
        forms::keyed(alloc, value, &["harness", "row", "wires"])?;
        Ok(Module {
            harness: forms::at_key::<SmallForm>(alloc, value, "harness")?,
            row: forms::at_key::<SmallForm>(alloc, value, "row")?,
            wires: forms::at_key::<ListForm<SmallForm>>(alloc, value, "wires")?,
        })
    }
}

/// A plan.
pub struct PlanForm;

impl Form for PlanForm {
    type Out = Plan;

    ghost reads = { plan_form };

    #[tactic(auto, unfolding(crate::specs::PlanForms::plan_form))]
    fn read(alloc: Global, value: &Value) -> Result<Plan, ShapeStop> {
        forms::keyed(
            alloc,
            value,
            &["rows", "sets", "tables", "pins", "wires", "modules"],
        )?;
        Ok(Plan {
            rows: forms::at_key::<RowListForm>(alloc, value, "rows")?,
            sets: forms::at_key::<ListForm<SetForm>>(alloc, value, "sets")?,
            tables: forms::at_key::<ListForm<TableForm>>(alloc, value, "tables")?,
            pins: forms::at_key::<ListForm<PinForm>>(alloc, value, "pins")?,
            wires: forms::at_key::<ListForm<WireForm>>(alloc, value, "wires")?,
            modules: forms::at_key::<ListForm<ModuleForm>>(alloc, value, "modules")?,
        })
    }
}

/// The plan that a value is (`plan_form`). `WrongShape` has the path of the first place, in reading
/// order, that isn't of the form of a plan; it starts at this value.
pub fn parse_plan(alloc: Global, value: &Value) -> Result<Plan, ShapeStop>
    ensures { Gives result (plan_form (view value.now)) }
{
    PlanForm::read(alloc, value)
}
