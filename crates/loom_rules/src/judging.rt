ghost use Rattle.std.specs.Prelude.{[], ◌∷◌, ◌++◌, ◌≡◌, ◌<◌, ◌≤◌, length, map, IfOk, OnOk, OnErr};
ghost use Rattle.std.specs.List.{All, AllZip};
ghost use Rattle.std.specs.Option.{unwrap_or};
ghost use Rattle.loom_rules.specs.Judged.{IsFrontOf, IsReportOf, asked};

use crate::{DesignRule, Report};
use loom_base::{List, NoMemory};
use loom_types::Wire;
use std::alloc::Global;

/// Shows every wire to every rule and answers each rule's report, in order.
///
/// Before that, each rule gets the limit at its place. A rule past the last limit keeps its own, and
/// a limit past the last rule is unused. After every answer the list has the rules that it had.
pub fn judge(
    alloc: Global,
    rules: &mut Vec<Box<dyn DesignRule>>,
    limits: &[u64],
    wires: &[Wire],
) -> Result<List<Report>, NoMemory>
    requires unseen { All (λ rule. seen_by rule ≡ []) rules.old.items }
    requires few { length wires.now ≤ 65536 }
    ensures kinds { map kind_of rules.new.items ≡ map kind_of rules.old.items }
    ensures front { All (λ rule. IsFrontOf wires.now (seen_by rule)) rules.new.items }
    ensures seen { OnOk result (All (λ rule. seen_by rule ≡ wires.now) rules.new.items) }
    ensures limits { OnOk result (
        map (λ rule. record { kind = kind_of rule; limit = limit_of rule }) rules.new.items
        ≡ asked limits.now
        (map (λ rule. record { kind = kind_of rule; limit = limit_of rule }) rules.old.items)) }
    ensures reports { IfOk result (AllZip (IsReportOf wires.now) (asked limits.now
        (map (λ rule. record { kind = kind_of rule; limit = limit_of rule }) rules.old.items))) }
{
    let mut reports = List::new(alloc);
    for i in 0..rules.len() {
        let report = judged(&mut rules[i], limits.get(i).copied(), wires)?;
        reports.push(report)?;
    }
    Ok(reports)
}

/// Puts a rule that has seen no wire behind the others. After want of memory the list is unchanged.
pub fn add_rule(
    rules: &mut Vec<Box<dyn DesignRule>>,
    rule: Box<dyn DesignRule>,
) -> Result<(), NoMemory>
    requires old { All (λ rule. seen_by rule ≡ []) rules.old.items }
    requires new { seen_by rule ≡ [] }
    ensures ok { OnOk result (rules.new.items ≡ rules.old.items ++ rule ∷ []) }
    ensures err { OnErr result (rules.new.items ≡ rules.old.items) }
    ensures unseen { All (λ rule. seen_by rule ≡ []) rules.new.items }
{
    rules.push(rule)?;
    Ok(())
}

/// A rule's report over the wires, under the limit where there is one.
fn judged(
    rule: &mut Box<dyn DesignRule>,
    limit: Option<u64>,
    wires: &[Wire],
) -> Result<Report, NoMemory>
    requires unseen { seen_by rule.old ≡ [] }
    requires few { length wires.now ≤ 65536 }
    ensures kind { kind_of rule.new ≡ kind_of rule.old }
    ensures front { IsFrontOf wires.now (seen_by rule.new) }
    ensures seen { OnOk result (seen_by rule.new ≡ wires.now) }
    ensures limit { OnOk result (limit_of rule.new ≡ unwrap_or limit (limit_of rule.old)) }
    ensures report { IfOk result (IsReportOf wires.now (record {
      kind = kind_of rule.old;
      limit = unwrap_or limit (limit_of rule.old);
    })) }
{
    if let Some(limit) = limit {
        rule.set_limit(limit);
    }
    show(rule, wires)?;
    report_of(rule)
}

/// Shows a rule the wires, in order.
fn show(rule: &mut Box<dyn DesignRule>, wires: &[Wire]) -> Result<(), NoMemory>
    requires unseen { seen_by rule.old ≡ [] }
    requires few { length wires.now ≤ 65536 }
    ensures kind { kind_of rule.new ≡ kind_of rule.old }
    ensures limit { limit_of rule.new ≡ limit_of rule.old }
    ensures front { IsFrontOf wires.now (seen_by rule.new) }
    ensures seen { OnOk result (seen_by rule.new ≡ wires.now) }
{
    for wire in wires {
        show_one(rule, wire)?;
    }
    Ok(())
}

/// Shows a rule one more wire. After want of memory the rule is unchanged.
fn show_one(rule: &mut Box<dyn DesignRule>, wire: &Wire) -> Result<(), NoMemory>
    requires { length (seen_by rule.old) < 65536 }
    ensures ok { OnOk result (seen_by rule.new ≡ seen_by rule.old ++ wire.now ∷ []) }
    ensures err { OnErr result (seen_by rule.new ≡ seen_by rule.old) }
    ensures kind { kind_of rule.new ≡ kind_of rule.old }
    ensures limit { limit_of rule.new ≡ limit_of rule.old }
{
    rule.see(wire)
}

/// The rule's report over the wires that it has seen.
fn report_of(rule: &mut Box<dyn DesignRule>) -> Result<Report, NoMemory>
    ensures kind { kind_of rule.new ≡ kind_of rule.old }
    ensures limit { limit_of rule.new ≡ limit_of rule.old }
    ensures seen { seen_by rule.new ≡ seen_by rule.old }
    ensures report { IfOk result (IsReportOf (seen_by rule.old) (record {
      kind = kind_of rule.old;
      limit = limit_of rule.old;
    })) }
{
    let findings = rule.finish()?;
    Ok(Report {
        kind: rule.kind(),
        limit: rule.limit(),
        findings,
    })
}
