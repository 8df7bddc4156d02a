ghost use Rattle.std.specs.Prelude.{◌≡◌};
ghost use Rattle.loom_edits.specs.declared.edit.Edit.TheVariants as edits;
ghost use Rattle.loom_edits.specs.declared.part.Part.TheVariants as parts;
ghost use Rattle.loom_edits.specs.Edits.{changed, Gives};
ghost use Rattle.loom_edits.specs.Parts.{part_of};

use crate::places::option_at;
use crate::uses::{is_option_used, unused};
use crate::{Edit, EditFault};
use loom_base::Name;
use loom_formula::Formula;
use loom_project::{Draft, Of};
use std::alloc::Global;

/// The draft with an option more.
#[tactic(auto, unfolding(crate::specs::Edits::changed))]
fn add_option(alloc: Global, draft: &Draft, name: Name) -> Result<Draft, EditFault>
    ensures { Gives result (changed draft.now (edits.AddOption name)) }
{
    let mut draft = draft.copy(alloc)?;
    draft.options.push(name)?;
    Ok(draft)
}

/// The draft without an option, which no formula may name.
#[tactic(auto, unfolding(crate::specs::Edits::changed))]
fn remove_option(alloc: Global, draft: &Draft, name: Name) -> Result<Draft, EditFault>
    ensures { Gives result (changed draft.now (edits.RemoveOption name)) }
{
    let at = option_at(draft, name)?;
    unused(Of::OptionName, name, is_option_used(draft, name))?;
    let mut draft = draft.copy(alloc)?;
    let _ = draft.options.remove(at);
    Ok(draft)
}

/// The draft with a rule more.
#[tactic(auto, unfolding(crate::specs::Edits::changed))]
fn add_rule(alloc: Global, draft: &Draft, when: &Formula) -> Result<Draft, EditFault>
    ensures { Gives result (changed draft.now (edits.AddRule when.now)) }
{
    let mut draft = draft.copy(alloc)?;
    draft.rules.push(when.copy(alloc)?)?;
    Ok(draft)
}

/// The draft without the rule at a position.
#[tactic(auto, unfolding(crate::specs::Edits::changed))]
fn remove_rule(alloc: Global, draft: &Draft, number: u64) -> Result<Draft, EditFault>
    ensures { Gives result (changed draft.now (edits.RemoveRule number)) }
{
    if number >= draft.rules.len() as u64 {
        return Err(EditFault::UnknownRule { number });
    }
    let mut draft = draft.copy(alloc)?;
    let _ = draft.rules.remove(number as usize);
    Ok(draft)
}

/// The draft as an edit changes its options or its rules.
pub fn change_options(alloc: Global, draft: &Draft, edit: &Edit) -> Result<Draft, EditFault>
    requires { part_of edit.now ≡ parts.Options }
    ensures { Gives result (changed draft.now edit.now) }
{
    match edit {
        Edit::AddOption { name } => add_option(alloc, draft, *name),
        Edit::RemoveOption { name } => remove_option(alloc, draft, *name),
        Edit::AddRule { when } => add_rule(alloc, draft, when),
        Edit::RemoveRule { number } => remove_rule(alloc, draft, *number),
        _ => unreachable!(),
    }
}
