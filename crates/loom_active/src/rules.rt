ghost use Rattle.std.specs.Prelude.{◌≡◌, [], length, IfOk, IfErr, OnOk, Err};
ghost use Rattle.loom_rows.specs.Condition.{value};
ghost use Rattle.loom_rows.specs.Table.{Has, IsSound};
ghost use Rattle.loom_rows.specs.Leftovers.{AreSame, IsLeftoverOf, Gains, StandsFor, Works};
ghost use Rattle.loom_rows.specs.Formulas.{all_hold};
ghost use Rattle.loom_active.specs.Needs.{is_valid_for};
ghost use Rattle.loom_active.specs.Valid.{conjunction_worked, rules_worked, SomeIsValid, NeedTooManyRows, IsStopOf};

use crate::ActiveStop;
use loom_formula::{Formula, Options};
use loom_project::Project;
use loom_rows::{Cond, Rows, RowsStop};

/// The condition that holds exactly under the valid choices: the conjunction of all rules. For each
/// rule in order the conditions of its formula are worked out, then the conjunction of the rules so
/// far. The table has no row yet, as many options as the project, and the limit of a job; after Ok,
/// and where no choice is valid, it stands for these worked conditions.
///
/// `NoChoice` exactly where no choice is valid; `Limit` exactly where the rows of the worked
/// conditions pass the limit, and it comes first.
pub fn valid<'a>(project: &Project, rows: &mut Rows<'a>) -> Result<Cond<'a>, ActiveStop>
    requires options { rows.old.options ≡ length project.now.options }
    requires limit { rows.old.limit ≡ 262144 }
    requires empty { rows.old.rows ≡ [] }
    ensures value { IfOk result (λ valid.
        Has rows.new valid × AreSame (value valid) (is_valid_for project.now)) }
    ensures some_choice { OnOk result (SomeIsValid project.now) }
    ensures few_rows { OnOk result (NeedTooManyRows (rules_worked project.now) → ⊥) }
    ensures stop { IfErr result (IsStopOf project.now) }
    ensures stands { OnOk result (StandsFor rows.new (rules_worked project.now)) }
    ensures stands_without_choice { result ≡ Err ActiveStop.NoChoice
        → StandsFor rows.new (rules_worked project.now) }
    ensures gains { Gains (IsLeftoverOf (rules_worked project.now)) rows.old rows.new }
    ensures sound { IsSound rows.new }
{
    let valid = conjunction(project.options(), project.rules(), rows)?;
    if rows.same(valid, Cond::Never) {
        return Err(ActiveStop::NoChoice);
    }
    Ok(valid)
}

/// The condition that all the formulas hold. For each in order its conditions are worked out, then
/// the conjunction of those so far.
fn conjunction<'a>(
    options: &Options,
    formulas: &[Formula],
    rows: &mut Rows<'a>,
) -> Result<Cond<'a>, RowsStop>
    requires options { length options.now ≡ rows.old.options }
    requires sound { IsSound rows.old }
    ensures value { IfOk result (λ x.
        Has rows.new x × AreSame (value x) (all_hold options.now formulas.now)) }
    ensures works { Works (conjunction_worked options.now formulas.now) rows.old rows.new result }
{
    let mut all = Cond::Always;
    for formula in formulas {
        let cond = rows.of_formula(options, formula)?;
        all = rows.and(all, cond)?;
    }
    Ok(all)
}
