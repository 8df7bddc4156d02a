ghost use Rattle.std.specs.Prelude.{◌≡◌, ◌≤◌, IfOk};
ghost use Rattle.loom_trial.specs.Trial.{trial_draft};

use crate::cavities::all_cavities;
use crate::nets::all_nets;
use crate::nodes::all_nodes;
use crate::options::{all_options, all_rules};
use crate::segments::all_segments;
use loom_base::NoMemory;
use loom_project::Draft;
use std::alloc::Global;

/// The draft of a body with `n` door branches, from 1 to 200.
#[tactic(auto, unfolding(crate::specs::Trial::trial_draft))]
pub fn trial_project(alloc: Global, n: u32) -> Result<Draft, NoMemory>
    requires { (1 ≤ n) × (n ≤ 200) }
    ensures { IfOk result (λ draft. draft ≡ trial_draft n) }
{
    Ok(Draft {
        options: all_options(alloc)?,
        rules: all_rules(alloc)?,
        nodes: all_nodes(alloc, n)?,
        segments: all_segments(alloc, n)?,
        cavities: all_cavities(alloc, n)?,
        nets: all_nets(alloc, n)?,
    })
}
