ghost use Rattle.std.specs.Prelude.{IfOk, map};
ghost use Rattle.loom_rows.specs.Condition.{value};
ghost use Rattle.loom_rows.specs.Table.{Has};
ghost use Rattle.loom_rows.specs.Leftovers.{AreSame, Works};
ghost use Rattle.loom_rows.specs.Disjunction.{some_hold, any_worked};
ghost use Rattle.loom_rows.specs.Printing.{AreHad};

use crate::cond::Cond;
use crate::rows::Rows;
use crate::stop::RowsStop;

impl<'a> Rows<'a> {
    /// The condition that holds where one of these does, joined one by one in order; it refuses as
    /// `is` does.
    pub fn any_of(&mut self, conds: &[Cond<'a>]) -> Result<Cond<'a>, RowsStop>
        requires { AreHad self.old conds.now }
        ensures value { IfOk result (λ x.
            Has self.new x × AreSame (value x) (some_hold (map value conds.now))) }
        ensures works { Works (any_worked (map value conds.now)) self.old self.new result }
    {
        // A part is read, so that what holds of every table is known.
        let _ = &self.index;
        let mut any = Cond::Never;
        for cond in conds {
            any = self.or(any, *cond)?;
        }
        Ok(any)
    }
}
