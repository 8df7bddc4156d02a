ghost use Rattle.std.specs.Prelude.{◌≡◌, ◌≤◌, ◌+◌, IfOk, OnOk};
ghost use Rattle.std.specs.List.{flat_map};
ghost use Rattle.loom_formula.specs.Formula.{members_of, nodes_of, depth_of};
ghost use Rattle.loom_project.specs.declared.fault.Of.TheVariants as of;
ghost use Rattle.loom_base.specs.declared.limits.Which.TheVariants as limits;
ghost use Rattle.loom_base.specs.First.{every};
ghost use Rattle.loom_project.specs.Draft.{option_names, rule_nodes};
ghost use Rattle.loom_project.specs.Sound.{within_limit, known, formula_check, rules_check, Answers};

use crate::require::{require, within_limit};
use crate::{Of, ProjectFault};
use loom_base::{MAX_FORMULA_DEPTH, MAX_FORMULA_NODES, MAX_RULES, Name, Which};
use loom_formula::{Formula, Members, Options};

/// How many nodes the formulas so far have, at most 65,536.
#[derive(Clone, Copy, Debug)]
pub struct FormulaCount {
    pub nodes: u64,
}

impl FormulaCount {
    /// Counts the nodes of one more formula, or answers its first failure.
    #[tactic(auto, unfolding(crate::specs::Sound::formula_check))]
    pub fn add(&mut self, options: &Options, formula: &Formula) -> Result<(), ProjectFault>
        requires { self.old.nodes ≤ 65536 }
        ensures check { result ≡ formula_check options.now self.old.nodes formula.now }
        ensures counted { OnOk result (self.new.nodes ≡ self.old.nodes + nodes_of formula.now) }
        ensures few { OnOk result (self.new.nodes ≤ 65536) }
    {
        check_depth(formula)?;
        check_options(formula, options)?;
        self.nodes = counted(self.nodes, formula)?;
        Ok(())
    }
}

/// The nodes counted with those of one more formula, where they are not too many.
fn counted(nodes: u64, formula: &Formula) -> Result<u64, ProjectFault>
    requires { nodes ≤ 65536 }
    ensures answers { Answers result
        (within_limit limits.FormulaNodes 65536 (nodes + nodes_of formula.now)) }
    ensures counted { IfOk result (λ all. all ≡ nodes + nodes_of formula.now) }
    ensures few { IfOk result (λ all. all ≤ 65536) }
{
    let nodes = nodes.saturating_add(formula.nodes());
    within_limit(Which::FormulaNodes, MAX_FORMULA_NODES, nodes)?;
    Ok(nodes)
}

/// A formula is not too deep.
fn check_depth(formula: &Formula) -> Result<(), ProjectFault>
    ensures { result ≡ within_limit limits.FormulaDepth 64 (depth_of formula.now) }
{
    within_limit(Which::FormulaDepth, MAX_FORMULA_DEPTH, formula.depth())
}

/// The name is that of an option.
fn check_option(name: Name, options: &Options) -> Result<(), ProjectFault>
    ensures { result ≡ known of.OptionName options.now name }
{
    let of = Of::OptionName;
    let is_option = options.position(name).is_some();
    require(is_option, ProjectFault::UnknownName { of, name })
}

/// Each name in a formula is that of an option.
#[cycle(options)]
fn check_options(formula: &Formula, options: &Options) -> Result<(), ProjectFault>
    ensures { result ≡ every (known of.OptionName options.now) (option_names formula.now) }
{
    match formula {
        Formula::Always | Formula::Never => Ok(()),
        Formula::Is(name) => check_option(*name, options),
        Formula::Not(inner) => check_options(inner.get(), options),
        Formula::And(members) => check_members(members, options),
        Formula::Or(members) => check_members(members, options),
        Formula::One(members) => check_members(members, options),
    }
}

/// Each name in the members of a formula is that of an option.
#[cycle(options)]
fn check_members(members: &Members, options: &Options) -> Result<(), ProjectFault>
    ensures { result ≡ every (known of.OptionName options.now)
        (flat_map option_names (members_of members.now)) }
{
    for member in members.as_slice() {
        check_options(member, options)?;
    }
    Ok(())
}

/// The nodes of the rules, or the first failure among them.
#[tactic(auto, unfolding(crate::specs::Sound::rules_check))]
pub fn checked_rules(options: &Options, rules: &[Formula]) -> Result<FormulaCount, ProjectFault>
    ensures answers { Answers result (rules_check options.now rules.now) }
    ensures counted { IfOk result (λ count. count.nodes ≡ rule_nodes rules.now) }
    ensures few { IfOk result (λ count. count.nodes ≤ 65536) }
{
    within_limit(Which::Rules, MAX_RULES, rules.len() as u64)?;
    let mut count = FormulaCount { nodes: 0 };
    for rule in rules {
        count.add(options, rule)?;
    }
    Ok(count)
}
