ghost use Rattle.std.specs.Prelude.{◌≤◌, ◌⊎◌, min, OnOk};
ghost use Rattle.loom_rows.specs.Condition.{value, number_of, first_option};
ghost use Rattle.loom_rows.specs.Table.{Has, IsSound};
ghost use Rattle.loom_rows.specs.Outcome.{Outcome, IsMemo, ArePartsOf, joined};

use crate::cond::Cond;
use crate::op::{Op, Parts};
use crate::rows::Rows;
use crate::stop::RowsStop;
use indexmap::IndexMap;

impl<'a> Rows<'a> {
    /// The parts of two conditions at the first option on which one of them depends.
    pub(crate) fn parts(&self, op: Op, a: Cond<'a>, b: Cond<'a>) -> Parts<'a>
        requires has_a { Has self.now a }
        requires has_b { Has self.now b }
        requires row { (2 ≤ number_of a) ⊎ (2 ≤ number_of b) }
        ensures { ArePartsOf op self.now a.entry b.entry
            result.at result.a_low result.b_low result.a_high result.b_high }
    {
        let at = a
            .first_option(self.options)
            .min(b.first_option(self.options));
        Parts {
            at,
            a_low: a.low_at(at),
            b_low: b.low_at(at),
            a_high: a.high_at(at),
            b_high: b.high_at(at),
        }
    }

    /// The two conditions joined, option by option; the memo keeps what was joined already, in
    /// either order.
    fn apply(
        &mut self,
        op: Op,
        a: Cond<'a>,
        b: Cond<'a>,
        memo: &mut IndexMap<(u32, u32), Cond<'a>>,
    ) -> Result<Cond<'a>, RowsStop>
        requires has_a { Has self.old a }
        requires has_b { Has self.old b }
        requires sound { IsSound self.old }
        requires memo { IsMemo op self.old memo.old }
        ensures outcome { Outcome (joined op (value a.entry) (value b.entry))
            (min (first_option self.old.options a.entry) (first_option self.old.options b.entry))
            self.old self.new result }
        ensures memo { OnOk result (IsMemo op self.new memo.new) }
    {
        if let Some(end) = op.at_end(a, b) {
            return Ok(end);
        }
        let key = a.pair_with(b);
        if let Some(cond) = memo.get(&key) {
            return Ok(*cond);
        }
        let parts = self.parts(op, a, b);
        let low = self.apply(op, parts.a_low, parts.b_low, memo)?;
        let high = self.apply(op, parts.a_high, parts.b_high, memo)?;
        let cond = self.make(parts.at, low, high)?;
        memo.insert(key, cond)?;
        Ok(cond)
    }

    /// The two conditions joined.
    pub(crate) fn join(&mut self, op: Op, a: Cond<'a>, b: Cond<'a>) -> Result<Cond<'a>, RowsStop>
        requires has_a { Has self.old a }
        requires has_b { Has self.old b }
        ensures { Outcome (joined op (value a.entry) (value b.entry))
            (min (first_option self.old.options a.entry) (first_option self.old.options b.entry))
            self.old self.new result }
    {
        let mut memo = IndexMap::new(self.alloc);
        self.apply(op, a, b, &mut memo)
    }
}
