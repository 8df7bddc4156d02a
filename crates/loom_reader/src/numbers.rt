ghost use Rattle.std.specs.Prelude.{◌≡◌};
ghost use Rattle.serde_json.specs.View.{view};
ghost use Rattle.loom_json.specs.Fields.{number_in};
ghost use Rattle.loom_reader.specs.Parts.{price_form, branch_form, pins_form, pin_form};
ghost use Rattle.loom_reader.specs.Document.{version_form};

use loom_base::{Branch, Pins, Price};
use loom_json::ShapeStop;
use loom_json::forms::{self, Form, NumberForm};
use serde_json::Value;
use std::alloc::Global;

/// The value's price; None where it is no whole number or is out of range.
fn price(value: &Value) -> Option<Price>
    ensures { result ≡ number_in 1 1000000 (view value.now) }
{
    Price::new(value.as_u64()?)
}

/// The value's branch cost; None where it is no whole number or is out of range.
fn branch(value: &Value) -> Option<Branch>
    ensures { result ≡ number_in 0 1000000 (view value.now) }
{
    Branch::new(value.as_u64()?)
}

/// The value's number of pins; None where it is no whole number or is out of range.
fn pins(value: &Value) -> Option<Pins>
    ensures { result ≡ number_in 1 512 (view value.now) }
{
    Pins::new(value.as_u64()?)
}

/// The value's pin; None where it is no whole number or is out of range.
fn pin(value: &Value) -> Option<u16>
    ensures { result ≡ number_in 1 512 (view value.now) }
{
    match value.as_u64()? {
        number @ 1..=512 => Some(number as u16),
        _ => None,
    }
}

/// The value's version of the document; None where it is none.
fn version(value: &Value) -> Option<u8>
    ensures { result ≡ number_in 1 2 (view value.now) }
{
    match value.as_u64()? {
        1 => Some(1),
        2 => Some(2),
        _ => None,
    }
}

/// Any whole number.
pub type WholeForm = NumberForm<0, 18_446_744_073_709_551_615>;

/// A run's length or a coupler's price.
pub struct PriceForm;

impl Form for PriceForm {
    type Out = Price;

    ghost reads = { price_form };

    fn read(alloc: Global, value: &Value) -> Result<Price, ShapeStop> {
        forms::required(alloc, price(value))
    }
}

/// A node's branch cost.
pub struct BranchForm;

impl Form for BranchForm {
    type Out = Branch;

    ghost reads = { branch_form };

    fn read(alloc: Global, value: &Value) -> Result<Branch, ShapeStop> {
        forms::required(alloc, branch(value))
    }
}

/// How many pins a coupler has.
pub struct PinsForm;

impl Form for PinsForm {
    type Out = Pins;

    ghost reads = { pins_form };

    fn read(alloc: Global, value: &Value) -> Result<Pins, ShapeStop> {
        forms::required(alloc, pins(value))
    }
}

/// A pin of a coupler.
pub struct PinForm;

impl Form for PinForm {
    type Out = u16;

    ghost reads = { pin_form };

    fn read(alloc: Global, value: &Value) -> Result<u16, ShapeStop> {
        forms::required(alloc, pin(value))
    }
}

/// The version of a document.
pub struct VersionForm;

impl Form for VersionForm {
    type Out = u8;

    ghost reads = { version_form };

    fn read(alloc: Global, value: &Value) -> Result<u8, ShapeStop> {
        forms::required(alloc, version(value))
    }
}
