ghost use Rattle.std.specs.Prelude.{◌≡◌, IfOk};
ghost use Rattle.loom_project.specs.Sound.{options_check, Gives};

use crate::require::{require, within_limit};
use crate::{Of, ProjectFault};
use loom_base::{MAX_OPTIONS, Name, Which};
use loom_formula::Options;
use std::alloc::Global;

/// The options by their names, or the first failure among them.
#[tactic(auto, using(loom_base::proofs::EachLemmas::each_steps), unfolding(crate::specs::Sound::options_check))]
pub fn checked_options(alloc: Global, names: &[Name]) -> Result<Options, ProjectFault>
    ensures gives { Gives result (options_check names.now) }
    ensures options { IfOk result (λ options. options ≡ names.now) }
{
    within_limit(Which::Options, MAX_OPTIONS, names.len() as u64)?;
    let mut options = Options::new(alloc);
    for &name in names {
        let is_new = options.add(name)?;
        let of = Of::OptionName;
        require(is_new, ProjectFault::RepeatedName { of, name })?;
    }
    Ok(options)
}
