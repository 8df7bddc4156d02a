ghost use Rattle.std.specs.Prelude.{◌≢◌, ◌<◌, length, IfOk, IfSome, IfNone};
ghost use Rattle.loom_rows.specs.Condition.{value, number_of, first_option};
ghost use Rattle.loom_rows.specs.Table.{Has};
ghost use Rattle.loom_rows.specs.Outcome.{Outcome, IsRowWith, IsFound, IsMissing, branch};

use crate::cond::{Cond, Row};
use crate::rows::Rows;
use crate::stop::RowsStop;
use bumpalo::Bump;
use loom_base::OptionNo;
use std::alloc::AllocError;

impl<'a> Rows<'a> {
    /// The row with this option and parts of these numbers.
    fn found(&self, key: (u32, u32, u32)) -> Option<Cond<'a>>
        ensures some { IfSome result (λ x. IsFound self.now key x) }
        ensures none { IfNone result (IsMissing self.now key) }
    {
        self.index.get(&key).copied()
    }

    /// A further row.
    fn add(&mut self, at: u32, low: Cond<'a>, high: Cond<'a>) -> Result<Cond<'a>, RowsStop>
        requires room { length self.old.rows < self.old.limit }
        requires has_low { Has self.old low }
        requires has_high { Has self.old high }
        requires low_rises { at < first_option self.old.options low }
        requires high_rises { at < first_option self.old.options high }
        requires apart { number_of low ≢ number_of high }
        requires missing { IsMissing self.old (at, number_of low, number_of high) }
        ensures { Outcome (branch at (value low.entry)
            (value high.entry)) at self.old self.new result }
    {
        let number = self.index.len() as u32 + 2;
        let key = (at, low.number(), high.number());
        let cond = placed(self.arena, number, at, low, high)?;
        self.index.insert(key, cond)?;
        Ok(cond)
    }

    /// The condition with these parts at an option, found again or made.
    pub(crate) fn make(
        &mut self,
        at: u32,
        low: Cond<'a>,
        high: Cond<'a>,
    ) -> Result<Cond<'a>, RowsStop>
        requires has_low { Has self.old low }
        requires has_high { Has self.old high }
        requires low_rises { at < first_option self.old.options low }
        requires high_rises { at < first_option self.old.options high }
        ensures { Outcome (branch at (value low.entry)
            (value high.entry)) at self.old self.new result }
    {
        let rows = self.index.len();
        if low.number() == high.number() {
            return Ok(low);
        }
        if let Some(cond) = self.found((at, low.number(), high.number())) {
            return Ok(cond);
        }
        if rows >= self.limit as usize {
            return Err(RowsStop::TooManyRows);
        }
        self.add(at, low, high)
    }
}

/// A row in the arena.
fn placed<'a>(
    arena: &'a Bump,
    number: u32,
    at: u32,
    low: Cond<'a>,
    high: Cond<'a>,
) -> Result<Cond<'a>, AllocError>
    ensures { IfOk result (IsRowWith number at low.entry high.entry) }
{
    let row = arena.try_alloc(Row {
        number,
        option: OptionNo(at),
        low,
        high,
    })?;
    Ok(Cond::Row(row))
}
