ghost use Rattle.std.specs.Prelude.{◌≡◌, false, IfOk};
ghost use Rattle.serde_json.specs.Data.{object, put, string};
ghost use Rattle.serde_json.specs.View.{view};
ghost use Rattle.serde_json.specs.Written.{has_float};
ghost use Rattle.loom_answer.specs.Faults.{of_kind};
ghost use Rattle.std.specs.Prelude.{codes};
ghost use Rattle.loom_answer.specs.Values.{whole};
ghost use Rattle.loom_top.specs.Refusals.{IsCause, choice_fault_shown, refusal_object, refusal_shown};

use loom_answer::{NamedStop, limit, project_fault, stop_value};
use loom_base::{NoMemory, Which};
use loom_formula::ChoiceFault;
use loom_json::Path;
use loom_json::shown::{text, with};
use loom_project::{Of, ProjectFault};
use serde_json::{Map, Value};
use std::alloc::Global;

/// Why an input is refused. The causes are tried in this order; under each job some don't come.
#[derive(Debug, Drop)]
pub enum Refusal {
    /// The input has more than 67,108,864 bytes.
    TooLong,
    /// The bytes are no JSON text.
    NotJson,
    /// The first place, in reading order, that isn't of its form.
    WrongShape { path: Path },
    /// The first reason why the project isn't sound, which is never want of memory.
    Project(ProjectFault),
    /// There is more than a limit allows; the count is the limit plus one.
    Limit { which: Which, count: u64 },
    /// The first stop of planning the project.
    Plan(NamedStop),
    /// The first name of the choice that is no option or came before.
    Choice(ChoiceFault),
    /// The first rule, by its position, that the choice breaks.
    BrokenRule { rule: u32 },
}

/// The object of a refusal that has nothing but its kind.
fn kind_alone(alloc: Global, kind: &str) -> Result<Value, NoMemory>
    ensures { IfOk result (λ value. view value ≡ object (of_kind kind.now)) }
{
    let kind = text(alloc, kind)?;
    Ok(Value::Object(with(alloc, Map::new(alloc), "kind", kind)?))
}

/// The object of a place that isn't of its form.
fn wrong_shape(alloc: Global, path: &Path) -> Result<Value, NoMemory>
    ensures { IfOk result (λ value. view value
        ≡ object (put (codes "path") (string path.now) (of_kind (codes "WrongShape")))) }
{
    let kind = text(alloc, "WrongShape")?;
    let path = text(alloc, path.as_str())?;
    let members = with(alloc, Map::new(alloc), "kind", kind)?;
    Ok(Value::Object(with(alloc, members, "path", path)?))
}

/// The object of a name that makes no choice.
fn choice_fault(alloc: Global, fault: ChoiceFault) -> Result<Value, NoMemory>
    ensures value { IfOk result (λ value. view value ≡ choice_fault_shown fault) }
    ensures plain { IfOk result (λ value. has_float (view value) ≡ false) }
{
    let of = Of::OptionName;
    match fault {
        ChoiceFault::Unknown(name) => {
            project_fault(alloc, &ProjectFault::UnknownName { of, name })
        }
        ChoiceFault::Repeated(name) => {
            project_fault(alloc, &ProjectFault::RepeatedName { of, name })
        }
        ChoiceFault::NoMemory => Ok(Value::Null),
    }
}

/// The object of a rule that a choice breaks.
fn broken_rule(alloc: Global, rule: u32) -> Result<Value, NoMemory>
    ensures { IfOk result (λ value. view value
        ≡ object (put (codes "rule") (whole rule) (of_kind (codes "BrokenRule")))) }
{
    let kind = text(alloc, "BrokenRule")?;
    let members = with(alloc, Map::new(alloc), "kind", kind)?;
    let members = with(alloc, members, "rule", Value::from(rule))?;
    Ok(Value::Object(members))
}

impl Refusal {
    /// What is printed of the refusal.
    pub fn shown(&self, alloc: Global) -> Result<Value, NoMemory>
        requires { IsCause self.now }
        ensures shown { IfOk result (λ value. view value ≡ refusal_shown self.now) }
        ensures plain { IfOk result (λ value. has_float (view value) ≡ false) }
    {
        let object = self.object(alloc)?;
        let members = with(alloc, Map::new(alloc), "refused", object)?;
        let members = with(alloc, members, "version", Value::from(1u64))?;
        Ok(Value::Object(members))
    }

    /// The object of the refusal.
    fn object(&self, alloc: Global) -> Result<Value, NoMemory>
        requires { IsCause self.now }
        ensures object { IfOk result (λ value. view value ≡ refusal_object self.now) }
        ensures plain { IfOk result (λ value. has_float (view value) ≡ false) }
    {
        match self {
            Refusal::TooLong => kind_alone(alloc, "TooLong"),
            Refusal::NotJson => kind_alone(alloc, "NotJson"),
            Refusal::WrongShape { path } => wrong_shape(alloc, path),
            Refusal::Project(fault) => project_fault(alloc, fault),
            Refusal::Limit { which, count } => limit(alloc, *which, *count),
            Refusal::Plan(stop) => stop_value(alloc, stop),
            Refusal::Choice(fault) => choice_fault(alloc, *fault),
            Refusal::BrokenRule { rule } => broken_rule(alloc, *rule),
        }
    }
}
