ghost use Rattle.std.specs.Prelude.{◌≡◌, ◌∷◌, ℕ, Bool, [], length, IfOk, IfErr, OnOk};
ghost use Rattle.loom_formula.specs.RowList.{value_of};
ghost use Rattle.loom_rows.specs.RowLists.{AreOptionsBelow};
ghost use Rattle.loom_rows.specs.Printed.{IsPrinted};
ghost use Rattle.loom_active.specs.Needs.{is_valid_for};
ghost use Rattle.loom_active.specs.Valid.{rules_worked, SomeIsValid, NeedTooManyRows, IsStopOf};

use crate::ActiveStop;
use crate::rules::valid;
use bumpalo::Bump;
use loom_base::MAX_ROWS;
use loom_formula::RowList;
use loom_project::Project;
use loom_rows::Rows;
use std::alloc::Global;

/// Decision rows, and the number among them of the condition that holds exactly under the valid
/// choices.
#[derive(Debug, Drop)]
pub struct ValidRows {
    pub rows: RowList,
    pub row: u32,
}

/// The printed rows of the condition that holds exactly under the valid choices, and its number. The
/// rows are made in an arena of this call.
///
/// The stops are those of `valid`.
pub fn valid_printed(alloc: Global, project: &Project) -> Result<ValidRows, ActiveStop>
    ensures value { IfOk result (λ valid. (choice : ℕ → Bool)
        → value_of valid.rows choice valid.row ≡ is_valid_for project.now choice) }
    ensures printed { IfOk result (λ valid.
        IsPrinted (is_valid_for project.now ∷ []) valid.rows (valid.row ∷ [])) }
    ensures options { IfOk result (λ valid.
        AreOptionsBelow (length project.now.options) valid.rows) }
    ensures some_choice { OnOk result (SomeIsValid project.now) }
    ensures few_rows { OnOk result (NeedTooManyRows (rules_worked project.now) → ⊥) }
    ensures stop { IfErr result (IsStopOf project.now) }
{
    let arena = Bump::new(alloc);
    let options = project.options().count();
    let mut rows = Rows::new(alloc, &arena, options, MAX_ROWS as u32);
    let condition = valid(project, &mut rows)?;
    let (printed, numbers) = rows.list(&[condition])?;
    Ok(ValidRows {
        rows: printed,
        row: numbers.as_slice()[0],
    })
}
