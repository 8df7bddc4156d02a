//! The objects that say why a project isn't sound, or which limit is passed.
ghost use Rattle.std.specs.Prelude.{◌≡◌, false, IfOk};
ghost use Rattle.serde_json.specs.View.{view, members_view};
ghost use Rattle.serde_json.specs.Written.{has_float};
ghost use Rattle.loom_answer.specs.Faults.{of_name, limit_name, of_kind, name_fault_shown, segment_fault_shown, terminal_repeated_shown, too_few_terminals_shown, reserved_pin_shown, limit_shown, fault_shown};

use crate::values::whole;
use loom_base::{Name, NoMemory, Which};
use loom_json::shown::{self, text, with};
use loom_project::{Of, ProjectFault};
use serde_json::{Map, Value};
use std::alloc::Global;

/// The word for the kind of thing that a name stands for.
fn of_name(of: Of) -> &'static str
    ensures { result.now ≡ of_name of }
{
    match of {
        Of::OptionName => "option",
        Of::Node => "node",
        Of::Segment => "segment",
        Of::Cavity => "cavity",
        Of::Net => "net",
        Of::Terminal => "terminal",
    }
}

/// The name of a limited quantity.
fn limit_name(which: Which) -> &'static str
    ensures { result.now ≡ limit_name which }
{
    match which {
        Which::Options => "options",
        Which::Rules => "rules",
        Which::FormulaNodes => "formula_nodes",
        Which::FormulaDepth => "formula_depth",
        Which::Nodes => "nodes",
        Which::Segments => "segments",
        Which::Bars => "bars",
        Which::Cavities => "cavities",
        Which::Nets => "nets",
        Which::Terminals => "terminals",
        Which::Edits => "edits",
        Which::Sets => "sets",
        Which::Cells => "cells",
        Which::Steps => "steps",
        Which::Wires => "wires",
        Which::Rows => "rows",
    }
}

/// The members of an object that has its kind alone.
pub(crate) fn of_kind(alloc: Global, kind: &str) -> Result<Map<String, Value>, NoMemory>
    ensures { IfOk result (λ made. members_view made.entries ≡ of_kind kind.now) }
{
    let kind = text(alloc, kind)?;
    with(alloc, Map::new(alloc), "kind", kind)
}

/// The object of a fault that tells a name, and what the name should or may not stand for.
pub(crate) fn name_fault(alloc: Global, kind: &str, of: Of, name: &Name) -> Result<Value, NoMemory>
    ensures { IfOk result (λ value. view value ≡ name_fault_shown kind.now of name.now) }
{
    let name = shown::name(alloc, name)?;
    let of = text(alloc, of_name(of))?;
    let members = of_kind(alloc, kind)?;
    let members = with(alloc, members, "name", name)?;
    let members = with(alloc, members, "of", of)?;
    Ok(Value::Object(members))
}

/// The object of a fault that tells a segment.
pub(crate) fn segment_fault(alloc: Global, kind: &str, segment: &Name) -> Result<Value, NoMemory>
    ensures { IfOk result (λ value. view value ≡ segment_fault_shown kind.now segment.now) }
{
    let segment = shown::name(alloc, segment)?;
    let members = of_kind(alloc, kind)?;
    let members = with(alloc, members, "segment", segment)?;
    Ok(Value::Object(members))
}

/// The object of a net that names a cavity twice.
fn terminal_repeated(alloc: Global, net: &Name, cavity: &Name) -> Result<Value, NoMemory>
    ensures { IfOk result (λ value. view value ≡ terminal_repeated_shown net.now cavity.now) }
{
    let cavity = shown::name(alloc, cavity)?;
    let net = shown::name(alloc, net)?;
    let members = of_kind(alloc, "TerminalRepeated")?;
    let members = with(alloc, members, "cavity", cavity)?;
    let members = with(alloc, members, "net", net)?;
    Ok(Value::Object(members))
}

/// The object of a net that has too few terminals.
fn too_few_terminals(alloc: Global, net: &Name, count: u64) -> Result<Value, NoMemory>
    ensures { IfOk result (λ value. view value ≡ too_few_terminals_shown net.now count) }
{
    let net = shown::name(alloc, net)?;
    let members = of_kind(alloc, "TooFewTerminals")?;
    let members = with(alloc, members, "count", whole(count))?;
    let members = with(alloc, members, "net", net)?;
    Ok(Value::Object(members))
}

/// The object of a segment that reserves a pin which it doesn't have.
fn reserved_pin(alloc: Global, segment: &Name, pin: u16) -> Result<Value, NoMemory>
    ensures { IfOk result (λ value. view value ≡ reserved_pin_shown segment.now pin) }
{
    let segment = shown::name(alloc, segment)?;
    let members = of_kind(alloc, "ReservedPin")?;
    let members = with(alloc, members, "pin", whole(u64::from(pin)))?;
    let members = with(alloc, members, "segment", segment)?;
    Ok(Value::Object(members))
}

/// The object of a limit that is passed: its kind, the name of what is limited, and the count.
pub(crate) fn limit_value(alloc: Global, which: Which, count: u64) -> Result<Value, NoMemory>
    ensures { IfOk result (λ value. view value ≡ limit_shown which count) }
{
    let name = text(alloc, limit_name(which))?;
    let members = of_kind(alloc, "Limit")?;
    let members = with(alloc, members, "count", whole(count))?;
    let members = with(alloc, members, "which", name)?;
    Ok(Value::Object(members))
}

/// The object of a project's fault.
pub(crate) fn fault_value(alloc: Global, fault: &ProjectFault) -> Result<Value, NoMemory>
    ensures { IfOk result (λ value. view value ≡ fault_shown fault.now) }
{
    match fault {
        ProjectFault::UnknownName { of, name } => name_fault(alloc, "UnknownName", *of, name),
        ProjectFault::RepeatedName { of, name } => name_fault(alloc, "RepeatedName", *of, name),
        ProjectFault::TerminalRepeated { net, cavity } => terminal_repeated(alloc, net, cavity),
        ProjectFault::TooFewTerminals { net, count } => too_few_terminals(alloc, net, *count),
        ProjectFault::EndsEqual { segment } => segment_fault(alloc, "EndsEqual", segment),
        ProjectFault::BorderCrossed { segment } => segment_fault(alloc, "BorderCrossed", segment),
        ProjectFault::NoBorder { segment } => segment_fault(alloc, "NoBorder", segment),
        ProjectFault::ReservedPin { segment, pin } => reserved_pin(alloc, segment, *pin),
        ProjectFault::Limit { which, count } => limit_value(alloc, *which, *count),
        ProjectFault::NoMemory => Ok(Value::Null),
    }
}

/// The object that tells that a limit is passed: the `kind` Limit, by its name `which` quantity is
/// limited, and the `count`, so many at least as there are of it. No number is a float. The one
/// error is want of memory.
#[tactic(auto, using(crate::proofs::FaultsWithoutFloats::plain_limit))]
pub fn limit(alloc: Global, which: Which, count: u64) -> Result<Value, NoMemory>
    ensures value { IfOk result (λ value. view value ≡ limit_shown which count) }
    ensures plain { IfOk result (λ value. has_float (view value) ≡ false) }
{
    limit_value(alloc, which, count)
}

/// The object that tells why a project isn't sound: the fault's `kind` and what the fault says,
/// each thing by its name. A fault that is want of memory has no object, and is null. No number is
/// a float. The one error is want of memory.
#[tactic(auto, using(crate::proofs::FaultsWithoutFloats::plain_fault))]
pub fn project_fault(alloc: Global, fault: &ProjectFault) -> Result<Value, NoMemory>
    ensures value { IfOk result (λ value. view value ≡ fault_shown fault.now) }
    ensures plain { IfOk result (λ value. has_float (view value) ≡ false) }
{
    fault_value(alloc, fault)
}
