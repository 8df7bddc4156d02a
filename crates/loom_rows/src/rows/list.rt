ghost use Rattle.std.specs.Prelude.{◌≡◌, ◌<◌, ◌+◌, ◌++◌, ◌∷◌, [], IfOk, OnOk, length, map};
ghost use Rattle.loom_rows.specs.Condition.{value};
ghost use Rattle.loom_rows.specs.Table.{Has, IsSound};
ghost use Rattle.loom_rows.specs.RowLists.{AreOptionsBelow};
ghost use Rattle.loom_rows.specs.Printed.{IsPrinted};
ghost use Rattle.loom_rows.specs.Printing.{IsPrinting, IsPrintStep, AreHad, known_by};

use crate::cond::Cond;
use crate::rows::Rows;
use loom_base::{List, NoMemory};
use loom_formula::{RowFault, RowList};
use std::collections::HashMap;

impl<'a> Rows<'a> {
    /// The printed rows of the conditions, and the number of each condition. Each condition in
    /// order is walked: its low part, its high part, then the row itself, and what has a number is
    /// left out.
    pub fn list(&self, conds: &[Cond<'a>]) -> Result<(RowList, List<u32>), NoMemory>
        requires { AreHad self.now conds.now }
        ensures printed { IfOk result (λ printed.
            IsPrinted (map value conds.now) printed.0 printed.1) }
        ensures options { IfOk result (λ printed. AreOptionsBelow self.now.options printed.0) }
    {
        let mut rows = RowList::new(self.alloc);
        let mut known = HashMap::new(self.alloc);
        let mut numbers = List::new(self.alloc);
        for cond in conds {
            let number = self.print(*cond, &mut rows, &mut known)?;
            numbers.push(number)?;
        }
        Ok((rows, numbers))
    }

    /// The number of a condition, whose rows are appended where they have none.
    fn print(
        &self,
        cond: Cond<'a>,
        rows: &mut RowList,
        known: &mut HashMap<u32, u32>,
    ) -> Result<u32, NoMemory>
        requires has { Has self.now cond }
        requires sound { IsSound self.now }
        requires printing { IsPrinting self.now rows.old (known_by known.old) }
        ensures { IfOk result
            (IsPrintStep self.now rows.old rows.new (known_by known.old)
            (known_by known.new) cond.entry) }
    {
        let row = match cond {
            Cond::Never => return Ok(0),
            Cond::Always => return Ok(1),
            Cond::Row(row) => row,
        };
        if let Some(number) = known.get(&row.number) {
            return Ok(*number);
        }
        let low = self.print(row.low, rows, known)?;
        let high = self.print(row.high, rows, known)?;
        append(rows, row.option.0, low, high)?;
        let number = rows.count() + 1;
        known.insert(row.number, number)?;
        Ok(number)
    }
}

/// Appends a row whose parts have numbers.
fn append(rows: &mut RowList, option: u32, low: u32, high: u32) -> Result<(), NoMemory>
    requires room { length rows.old < 4294967294 }
    requires low { low < length rows.old + 2 }
    requires high { high < length rows.old + 2 }
    ensures { OnOk result (rows.new
        ≡ rows.old ++ record { option = option; low = low; high = high } ∷ []) }
{
    match rows.push(option, low, high) {
        Ok(()) => Ok(()),
        Err(RowFault::NoMemory) => Err(NoMemory),
        Err(RowFault::NotBelow) => unreachable!(),
    }
}
