//! Laws on worked conditions and the tables that stand for them. Each function does nothing: its
//! contract is the law, and a caller whose proof needs the law calls it.

ghost use Rattle.loom_rows.specs.Laws.{NoRowsStandForNone, WorkIsAppended, CallsAreRefusedWhereTooMany, FormulasAreWorkedOut};

/// A table stands for the worked conditions of all calls since it had no row, in their order; so a
/// call is refused exactly where their rows and its own are more than the limit.
pub fn work_is_appended()
    ensures none { NoRowsStandForNone }
    ensures appended { WorkIsAppended }
    ensures refused { CallsAreRefusedWhereTooMany }
{}

/// The work of a formula ends with the condition that the formula holds.
pub fn formulas_are_worked_out()
    ensures { FormulasAreWorkedOut }
{}
