//! Wires that are read back.
ghost use Rattle.std.specs.Prelude.{map};
ghost use Rattle.serde_json.specs.View.{view};
ghost use Rattle.loom_json.specs.Forms.{Gives};
ghost use Rattle.loom_answer.specs.WireForms.{cavity_end, splice_end, pin_end, end_of, end_form, wire_form};

use crate::number_forms::{
    CavityNoForm, NetNoForm, NodeNoForm, PinNumberForm, SegmentNoForm, SmallForm, WholeForm,
};
use loom_json::ShapeStop;
use loom_json::forms::{self, Form, ListForm};
use loom_types::{End, Wire};
use serde_json::Value;
use std::alloc::Global;

/// The cavity behind its word.
#[tactic(auto, unfolding(crate::specs::WireForms::cavity_end))]
fn cavity_end(alloc: Global, elements: &[Value]) -> Result<End, ShapeStop>
    ensures { Gives result (cavity_end (map view elements.now)) }
{
    let cavity = forms::at_index::<CavityNoForm>(alloc, elements, 1)?;
    Ok(End::Cavity(cavity))
}

/// The node and the ordinal of a splice, behind its word.
#[tactic(auto, unfolding(crate::specs::WireForms::splice_end))]
fn splice_end(alloc: Global, elements: &[Value]) -> Result<End, ShapeStop>
    ensures { Gives result (splice_end (map view elements.now)) }
{
    let node = forms::at_index::<NodeNoForm>(alloc, elements, 1)?;
    let ordinal = forms::at_index::<SmallForm>(alloc, elements, 2)?;
    Ok(End::Splice { node, ordinal })
}

/// The coupler, the pin and the side, behind their word.
#[tactic(auto, unfolding(crate::specs::WireForms::pin_end))]
fn pin_end(alloc: Global, elements: &[Value]) -> Result<End, ShapeStop>
    ensures { Gives result (pin_end (map view elements.now)) }
{
    let coupler = forms::at_index::<SegmentNoForm>(alloc, elements, 1)?;
    let pin = forms::at_index::<PinNumberForm>(alloc, elements, 2)?;
    let side = forms::at_index::<SmallForm>(alloc, elements, 3)?;
    Ok(End::Pin { coupler, pin, side })
}

/// The end that an array is.
#[tactic(auto, unfolding(crate::specs::WireForms::end_of))]
fn end_of(alloc: Global, elements: &[Value]) -> Result<End, ShapeStop>
    ensures { Gives result (end_of (map view elements.now)) }
{
    if forms::is_tagged(elements, "cavity", 2) {
        cavity_end(alloc, elements)
    } else if forms::is_tagged(elements, "splice", 3) {
        splice_end(alloc, elements)
    } else if forms::is_tagged(elements, "pin", 4) {
        pin_end(alloc, elements)
    } else {
        Err(ShapeStop::here(alloc))
    }
}

/// An end of a wire.
struct EndForm;

impl Form for EndForm {
    type Out = End;

    ghost reads = { end_form };

    #[tactic(auto, unfolding(crate::specs::WireForms::end_form))]
    fn read(alloc: Global, value: &Value) -> Result<End, ShapeStop> {
        match forms::items(value) {
            Some(elements) => end_of(alloc, elements),
            None => Err(ShapeStop::here(alloc)),
        }
    }
}

/// A wire.
pub(crate) struct WireForm;

impl Form for WireForm {
    type Out = Wire;

    ghost reads = { wire_form };

    #[tactic(auto, unfolding(crate::specs::WireForms::wire_form))]
    fn read(alloc: Global, value: &Value) -> Result<Wire, ShapeStop> {
        forms::keyed(
            alloc,
            value,
            &["net", "from", "to", "route", "length", "row"],
        )?;
        Ok(Wire {
            net: forms::at_key::<NetNoForm>(alloc, value, "net")?,
            from: forms::at_key::<EndForm>(alloc, value, "from")?,
            to: forms::at_key::<EndForm>(alloc, value, "to")?,
            route: forms::at_key::<ListForm<SegmentNoForm>>(alloc, value, "route")?,
            length: forms::at_key::<WholeForm>(alloc, value, "length")?,
            row: forms::at_key::<SmallForm>(alloc, value, "row")?,
        })
    }
}
