//! The objects that say why a project has no plan.
ghost use Rattle.std.specs.Prelude.{◌≡◌, false, IfOk, codes};
ghost use Rattle.serde_json.specs.Data.{object};
ghost use Rattle.serde_json.specs.View.{view};
ghost use Rattle.serde_json.specs.Written.{has_float};
ghost use Rattle.loom_answer.specs.Faults.{of_kind};
ghost use Rattle.loom_answer.specs.Stops.{clash_shown, unreachable_shown, no_pin_shown, stop_shown};

use crate::NamedStop;
use crate::fault_answer::{limit_value, of_kind};
use crate::values::{NameShown, whole};
use loom_base::{Name, NoMemory};
use loom_json::shown::{self, array, with};
use serde_json::Value;
use std::alloc::Global;

/// The object of a project that no choice fits.
fn no_choice(alloc: Global) -> Result<Value, NoMemory>
    ensures { IfOk result (λ value. view value ≡ object (of_kind (codes "NoChoice"))) }
{
    let members = of_kind(alloc, "NoChoice")?;
    Ok(Value::Object(members))
}

/// The object of a cavity that is active in two nets.
fn clash(
    alloc: Global,
    cavity: &Name,
    first: &Name,
    second: &Name,
    choice: &[Name],
) -> Result<Value, NoMemory>
    ensures { IfOk result (λ value. view value
        ≡ clash_shown cavity.now first.now second.now choice.now) }
{
    let cavity = shown::name(alloc, cavity)?;
    let choice = array::<NameShown>(alloc, choice)?;
    let first = shown::name(alloc, first)?;
    let second = shown::name(alloc, second)?;
    let members = of_kind(alloc, "Clash")?;
    let members = with(alloc, members, "cavity", cavity)?;
    let members = with(alloc, members, "choice", choice)?;
    let members = with(alloc, members, "first", first)?;
    let members = with(alloc, members, "second", second)?;
    Ok(Value::Object(members))
}

/// The object of a cavity that isn't reached.
fn not_reached(
    alloc: Global,
    net: &Name,
    cavity: &Name,
    reached: &[Name],
) -> Result<Value, NoMemory>
    ensures { IfOk result (λ value. view value
        ≡ unreachable_shown net.now cavity.now reached.now) }
{
    let cavity = shown::name(alloc, cavity)?;
    let net = shown::name(alloc, net)?;
    let reached = array::<NameShown>(alloc, reached)?;
    let members = of_kind(alloc, "Unreachable")?;
    let members = with(alloc, members, "cavity", cavity)?;
    let members = with(alloc, members, "net", net)?;
    let members = with(alloc, members, "reached", reached)?;
    Ok(Value::Object(members))
}

/// The object of a crossing that has no pin.
fn no_pin(alloc: Global, net: &Name, coupler: &Name, ordinal: u32) -> Result<Value, NoMemory>
    ensures { IfOk result (λ value. view value ≡ no_pin_shown net.now coupler.now ordinal) }
{
    let coupler = shown::name(alloc, coupler)?;
    let net = shown::name(alloc, net)?;
    let members = of_kind(alloc, "NoPin")?;
    let members = with(alloc, members, "coupler", coupler)?;
    let members = with(alloc, members, "net", net)?;
    let members = with(alloc, members, "ordinal", whole(u64::from(ordinal)))?;
    Ok(Value::Object(members))
}

/// The object of a stop.
fn stop_object(alloc: Global, stop: &NamedStop) -> Result<Value, NoMemory>
    ensures { IfOk result (λ value. view value ≡ stop_shown stop.now) }
{
    match stop {
        NamedStop::NoChoice => no_choice(alloc),
        NamedStop::Clash {
            cavity,
            first,
            second,
            choice,
        } => clash(alloc, cavity, first, second, choice.as_slice()),
        NamedStop::Unreachable {
            net,
            cavity,
            reached,
        } => not_reached(alloc, net, cavity, reached.as_slice()),
        NamedStop::NoPin {
            net,
            coupler,
            ordinal,
        } => no_pin(alloc, net, coupler, *ordinal),
        NamedStop::Limit { which, count } => limit_value(alloc, *which, *count),
    }
}

/// The object that tells why a project has no plan: the stop's `kind` and what the stop says, each
/// thing by its name. No number is a float. The one error is want of memory.
pub fn stop_value(alloc: Global, stop: &NamedStop) -> Result<Value, NoMemory>
    ensures value { IfOk result (λ value. view value ≡ stop_shown stop.now) }
    ensures plain { IfOk result (λ value. has_float (view value) ≡ false) }
{
    stop_object(alloc, stop)
}
