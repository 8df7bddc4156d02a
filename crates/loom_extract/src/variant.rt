ghost use Rattle.std.specs.Prelude.{◌≡◌, IfOk};
ghost use Rattle.loom_formula.specs.Choice.{choice_at, is_valid};
ghost use Rattle.loom_formula.specs.RowList.{value_of};
ghost use Rattle.loom_extract.specs.Variant.{live_positions, variant_of, GivesVariant, TellsValidity, TakesLiveWires};

use crate::ExtractStop;
use loom_base::{List, NoMemory};
use loom_formula::{Choice, Formula, Options, broken};
use loom_types::{Plan, Wire};
use std::alloc::Global;

/// The wires of a plan that one choice makes live.
#[derive(Debug, Drop)]
pub struct Variant {
    /// The wires' positions in the plan, rising.
    pub numbers: List<u32>,
}

/// The number of a place in a list; that of a place past all numbers is answered as want of memory.
fn number_of(place: usize) -> Result<u32, NoMemory>
    ensures { IfOk result (λ number. number ≡ place) }
{
    u32::try_from(place).map_err(|_| NoMemory)
}

/// Whether a wire of the plan is live under a choice.
fn is_live(plan: &Plan, wire: &Wire, choice: &Choice) -> bool
    ensures { result ≡ value_of plan.now.rows (choice_at choice.now.values) wire.now.row }
{
    plan.rows.value(wire.row, choice)
}

/// The positions of the wires that are live under a choice, rising. More wires than there are
/// positions are answered as want of memory.
fn live_numbers(alloc: Global, plan: &Plan, choice: &Choice) -> Result<List<u32>, NoMemory>
    ensures { IfOk result (λ numbers.
        numbers ≡ live_positions plan.now (choice_at choice.now.values)) }
{
    let mut numbers = List::new(alloc);
    for (at, wire) in plan.wires.as_slice().iter().enumerate() {
        let number = number_of(at)?;
        if is_live(plan, wire, choice) {
            numbers.push(number)?;
        }
    }
    Ok(numbers)
}

/// The variant of a plan for a choice of the options: the positions of exactly the wires whose
/// condition holds under the choice, rising. It is `BrokenRule` exactly where some rule is false,
/// and names the first such rule. More wires or rules than there are positions are answered as want
/// of memory.
#[tactic(auto, using(crate::proofs::Picking::positions_take))]
pub fn extract(
    alloc: Global,
    plan: &Plan,
    options: &Options,
    rules: &[Formula],
    choice: &Choice,
) -> Result<Variant, ExtractStop>
    ensures variant { GivesVariant result
        (variant_of plan.now options.now rules.now (choice_at choice.now.values)) }
    ensures valid { TellsValidity result
        (is_valid rules.now options.now (choice_at choice.now.values)) }
    ensures live { IfOk result (λ variant.
        TakesLiveWires plan.now (choice_at choice.now.values) variant.numbers) }
{
    // Each rule has a number by which it can be named.
    number_of(rules.len())?;
    if let Some(rule) = broken(rules, options, choice) {
        return Err(ExtractStop::BrokenRule { rule });
    }
    let numbers = live_numbers(alloc, plan, choice)?;
    Ok(Variant { numbers })
}
