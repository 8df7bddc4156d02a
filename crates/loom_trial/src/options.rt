ghost use Rattle.std.specs.Prelude.{◌≡◌, ◌≤◌, [], ◌∷◌, codes, map, IfOk};
ghost use Rattle.std.specs.List.{range_with_len};
ghost use Rattle.loom_trial.specs.Trial.{numbered, option, one_of_two, one_of_three, members as members_of};

use crate::names::numbered_name;
use loom_base::{List, Name, NoMemory};
use loom_formula::{Formula, Members};
use std::alloc::Global;

/// The names of the four options.
pub fn all_options(alloc: Global) -> Result<List<Name>, NoMemory>
    ensures { IfOk result (λ options. options ≡ map (numbered (codes "O")) (range_with_len 1 4)) }
{
    let first = numbered_name(alloc, "O", 1)?;
    let second = numbered_name(alloc, "O", 2)?;
    let third = numbered_name(alloc, "O", 3)?;
    let fourth = numbered_name(alloc, "O", 4)?;
    Ok(List::from_slice(alloc, &[first, second, third, fourth])?)
}

/// That an option holds.
pub fn holds(alloc: Global, k: u32) -> Result<Formula, NoMemory>
    requires { k ≤ 200 }
    ensures { IfOk result (λ formula. formula ≡ option k) }
{
    Ok(Formula::Is(numbered_name(alloc, "O", k)?))
}

/// The first two options.
fn first_two(alloc: Global) -> Result<Members, NoMemory>
    ensures { IfOk result (λ two. two ≡ members_of (option 1 ∷ option 2 ∷ [])) }
{
    let mut members = Members::new(alloc);
    members.push(holds(alloc, 1)?)?;
    members.push(holds(alloc, 2)?)?;
    Ok(members)
}

/// The first three options.
fn first_three(alloc: Global) -> Result<Members, NoMemory>
    ensures { IfOk result (λ three. three ≡ members_of (option 1 ∷ option 2 ∷ option 3 ∷ [])) }
{
    let mut members = first_two(alloc)?;
    members.push(holds(alloc, 3)?)?;
    Ok(members)
}

/// One of the first two options holds.
#[tactic(auto, unfolding(crate::specs::Trial::one_of_two))]
pub fn either(alloc: Global) -> Result<Formula, NoMemory>
    ensures { IfOk result (λ formula. formula ≡ one_of_two) }
{
    Ok(Formula::Or(first_two(alloc)?))
}

/// The one rule: exactly one of the first three options holds.
#[tactic(auto, unfolding(crate::specs::Trial::one_of_three))]
pub fn all_rules(alloc: Global) -> Result<List<Formula>, NoMemory>
    ensures { IfOk result (λ rules. rules ≡ one_of_three ∷ []) }
{
    let mut rules = List::new(alloc);
    rules.push(Formula::One(first_three(alloc)?))?;
    Ok(rules)
}
