ghost use Rattle.std.specs.Prelude.{◌≡◌, ◌<◌, ◌+◌, IfOk, length};
ghost use Rattle.loom_rows.specs.Table.{Has};
ghost use Rattle.loom_rows.specs.Leftovers.{Works};
ghost use Rattle.loom_rows.specs.RowLists.{IsReduced, AreOptionsBelow, AreConditionsOf, meanings_of};
ghost use Rattle.loom_rows.specs.Taken.{cond_at};

use crate::cond::Cond;
use crate::rows::Rows;
use crate::stop::RowsStop;
use loom_base::List;
use loom_formula::RowList;

impl<'a> Rows<'a> {
    /// The condition of each row of a reduced list, in order. The rows are worked out in order, and
    /// it refuses as `is` does.
    pub fn take_in(&mut self, list: &RowList) -> Result<List<Cond<'a>>, RowsStop>
        requires reduced { IsReduced list.now }
        requires options { AreOptionsBelow self.old.options list.now }
        ensures conds { IfOk result (λ conds. AreConditionsOf list.now self.new conds) }
        ensures counted { IfOk result (λ conds. length conds ≡ length list.now) }
        ensures works { Works (meanings_of list.now) self.old self.new result }
    {
        let mut conds = List::new(self.alloc);
        for at in 0..list.count() {
            let Some((option, low, high)) = list.row(at + 2) else {
                unreachable!()
            };
            let low = taken(&conds, low);
            let high = taken(&conds, high);
            let cond = self.make(option, low, high)?;
            conds.push(cond)?;
        }
        Ok(conds)
    }
}

/// The condition of a number among those that were taken in.
fn taken<'a>(conds: &List<Cond<'a>>, number: u32) -> Cond<'a>
    requires { number < length conds.now + 2 }
    ensures { result ≡ cond_at conds.now number }
{
    match number {
        0 => Cond::Never,
        1 => Cond::Always,
        _ => conds.as_slice()[number as usize - 2],
    }
}
