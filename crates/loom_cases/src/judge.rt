ghost use Rattle.std.specs.Prelude.{[], ◌≡◌};
ghost use Rattle.std.specs.List.{All};

use crate::case::{Case, Wanted};
use crate::form::{Form, SinkForm};
use crate::verdict::Verdict;
use anyhow::{Result, bail};
use loom_base::{MemorySink, MemorySource, Source, SteadySink, SteadySource};
use loom_rules::{DesignRule, LongWire, add_rule};
use loom_top::run;
use std::alloc::Global;

/// Runs over a sink that fails only where it is full.
fn run_steady<S: Source>(
    alloc: Global,
    words: &[String],
    source: &mut S,
    room: u64,
    rules: Vec<Box<dyn DesignRule>>,
    wanted: &Wanted,
) -> Result<Verdict>
    requires { All (λ rule. seen_by rule ≡ []) rules.items }
{
    let mut sink = SteadySink::new(alloc, room)?;
    let status = run(alloc, words, source, &mut sink, rules);
    Ok(Verdict::of(status, sink.held(), wanted))
}

/// Runs over a sink of a form.
fn run_over<S: Source>(
    alloc: Global,
    words: &[String],
    source: &mut S,
    form: SinkForm,
    rules: Vec<Box<dyn DesignRule>>,
    wanted: &Wanted,
) -> Result<Verdict>
    requires { All (λ rule. seen_by rule ≡ []) rules.items }
{
    let SinkForm {
        room,
        per_call,
        failing,
    } = form;
    if per_call.is_none() && failing.is_empty() {
        return run_steady(alloc, words, source, room, rules, wanted);
    }
    let per_call = per_call.unwrap_or(u64::MAX);
    if per_call == 0 {
        bail!("a sink takes at least one byte");
    }
    let mut sink = MemorySink::new(alloc, room, per_call, failing)?;
    let status = run(alloc, words, source, &mut sink, rules);
    Ok(Verdict::of(status, sink.held(), wanted))
}

/// Runs a case with design rules.
fn judge_with(alloc: Global, case: Case, rules: Vec<Box<dyn DesignRule>>) -> Result<Verdict>
    requires { All (λ rule. seen_by rule ≡ []) rules.items }
{
    let Case {
        words,
        document,
        form,
        wanted,
    } = case;
    let Form {
        status: _,
        blanks: _,
        failing_reads,
        sink,
        two_long_wires: _,
    } = form;
    if failing_reads.is_empty() {
        let mut source = SteadySource::new(document);
        run_over(alloc, words.as_slice(), &mut source, sink, rules, &wanted)
    } else {
        let mut source = MemorySource::new(document, failing_reads);
        run_over(alloc, words.as_slice(), &mut source, sink, rules, &wanted)
    }
}

/// Runs a case.
pub fn judge(alloc: Global, case: Case) -> Result<Verdict> {
    let mut rules: Vec<Box<dyn DesignRule>> = Vec::new(alloc);
    if let Some(limit) = case.form.two_long_wires {
        add_rule(&mut rules, Box::new(alloc, LongWire::new(alloc, limit))?)?;
        add_rule(&mut rules, Box::new(alloc, LongWire::new(alloc, limit))?)?;
    }
    judge_with(alloc, case, rules)
}
