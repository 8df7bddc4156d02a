//! The law on plans that are read back. The function does nothing: its contract is the law, and a
//! caller whose proof needs the law calls it.

ghost use Rattle.loom_answer.specs.Readable.{IsReadBack};

use loom_types::Plan;

/// What is printed of a plan is read as that plan, whoever made it, where each number is within the
/// range of its form, each list is short enough for an array and each table has a mask.
#[tactic(auto, using(crate::proofs::PlanAgain::plan_again))]
pub fn plans_are_read_back(plan: &Plan)
    ensures { IsReadBack plan.now }
{}
