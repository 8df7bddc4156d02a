//! Numbers and short arrays that are read back.
ghost use Rattle.std.specs.Prelude.{◌≡◌, ◌≤◌, map, length, option_map, IfSome};
ghost use Rattle.serde_json.specs.View.{view};
ghost use Rattle.loom_base.specs.declared.limits.TheConstants.{MAX_ELEMENTS as MOST_ELEMENTS};
ghost use Rattle.loom_json.specs.Fields.{number_in};
ghost use Rattle.loom_json.specs.Forms.{items_in};
ghost use Rattle.loom_answer.specs.NumberForms.{small_form, pin_number_form, net_no_form, node_no_form, segment_no_form, cavity_no_form, items_of_length};

use loom_base::{CavityNo, MAX_ELEMENTS, NetNo, NodeNo, SegmentNo};
use loom_json::forms::{self, Form, NumberForm};
use loom_json::{ShapeStop, elements};
use serde_json::Value;
use std::alloc::Global;

/// Any whole number.
pub(crate) type WholeForm = NumberForm<0, 18_446_744_073_709_551_615>;

/// The value's whole number of 32 bits; None where it is no such number.
fn small(value: &Value) -> Option<u32>
    ensures { result ≡ number_in 0 4294967295 (view value.now) }
{
    u32::try_from(value.as_u64()?).ok()
}

/// The value's whole number of 16 bits; None where it is no such number.
fn pin_number(value: &Value) -> Option<u16>
    ensures { result ≡ number_in 0 65535 (view value.now) }
{
    u16::try_from(value.as_u64()?).ok()
}

/// A whole number of 32 bits.
pub(crate) struct SmallForm;

impl Form for SmallForm {
    type Out = u32;

    ghost reads = { small_form };

    fn read(alloc: Global, value: &Value) -> Result<u32, ShapeStop> {
        forms::required(alloc, small(value))
    }
}

/// The number of a pin.
pub(crate) struct PinNumberForm;

impl Form for PinNumberForm {
    type Out = u16;

    ghost reads = { pin_number_form };

    fn read(alloc: Global, value: &Value) -> Result<u16, ShapeStop> {
        forms::required(alloc, pin_number(value))
    }
}

/// The position of a net.
pub(crate) struct NetNoForm;

impl Form for NetNoForm {
    type Out = NetNo;

    ghost reads = { net_no_form };

    fn read(alloc: Global, value: &Value) -> Result<NetNo, ShapeStop> {
        Ok(NetNo(SmallForm::read(alloc, value)?))
    }
}

/// The position of a node.
pub(crate) struct NodeNoForm;

impl Form for NodeNoForm {
    type Out = NodeNo;

    ghost reads = { node_no_form };

    fn read(alloc: Global, value: &Value) -> Result<NodeNo, ShapeStop> {
        Ok(NodeNo(SmallForm::read(alloc, value)?))
    }
}

/// The position of a segment.
pub(crate) struct SegmentNoForm;

impl Form for SegmentNoForm {
    type Out = SegmentNo;

    ghost reads = { segment_no_form };

    fn read(alloc: Global, value: &Value) -> Result<SegmentNo, ShapeStop> {
        Ok(SegmentNo(SmallForm::read(alloc, value)?))
    }
}

/// The position of a cavity.
pub(crate) struct CavityNoForm;

impl Form for CavityNoForm {
    type Out = CavityNo;

    ghost reads = { cavity_no_form };

    fn read(alloc: Global, value: &Value) -> Result<CavityNo, ShapeStop> {
        Ok(CavityNo(SmallForm::read(alloc, value)?))
    }
}

/// The elements of an array that a list may hold; None where the value is none.
pub(crate) fn few_items(value: &Value) -> Option<&[Value]>
    ensures value { option_map (λ found. map view found.now) result ≡ items_in (view value.now) }
    ensures few { IfSome result (λ found. length found.now ≤ MOST_ELEMENTS) }
{
    let found = elements(value)?;
    if found.len() as u64 <= MAX_ELEMENTS {
        Some(found)
    } else {
        None
    }
}

/// The elements of an array that has exactly `count`; None where the value is none.
pub(crate) fn items_of_length(value: &Value, count: usize) -> Option<&[Value]>
    ensures value { option_map (λ found. map view found.now) result
        ≡ items_of_length count (view value.now) }
    ensures count { IfSome result (λ found. length found.now ≡ count) }
{
    let found = few_items(value)?;
    if found.len() == count {
        Some(found)
    } else {
        None
    }
}
