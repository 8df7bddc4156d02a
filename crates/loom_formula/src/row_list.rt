ghost use Rattle.std.specs.Prelude.{◌≡◌, ◌<◌, ◌≤◌, ◌+◌, ◌++◌, ◌∷◌, ◌↔◌, ◌⊎◌, ◌==◌, [], length, option_map, IfSome, IfNone, IsErrOf, OnOk, OnErr};

use crate::Choice;
use loom_base::{List, NoMemory, OptionNo};
use std::alloc::Global;
use std::marker::Model;
use thiserror::Error;

/// A decision row: the condition of the number `low` where the option is false, and of the number
/// `high` where it is true.
#[derive(Clone, Copy, Debug, PartialEq, Eq)]
pub struct Row {
    /// The option's position.
    pub option: u32,
    pub low: u32,
    pub high: u32,
}

/// Why a row was not appended.
#[derive(Clone, Copy, Debug, PartialEq, Eq, Error)]
pub enum RowFault {
    #[error("low or high is not below the row's number")]
    NotBelow,
    #[error("out of memory")]
    NoMemory,
}

impl From<NoMemory> for RowFault {
    ghost use Rattle.std.specs.Prelude.{◌≡◌};
    ghost use Rattle.loom_formula.specs.declared.row_list.RowFault.TheVariants.{NoMemory as OutOfMemory};

    ghost from_gives = { λ _ fault. fault ≡ OutOfMemory };

    fn from(_error: NoMemory) -> RowFault {
        RowFault::NoMemory
    }
}

/// A list of decision rows. Number 0 is never, 1 is always, and the rows are numbered from 2 on;
/// low and high of each row are below its own number. Contracts see the list of the rows.
#[derive(Debug, Drop)]
pub struct RowList {
    rows: List<Row>,
}

impl Model for RowList {
    ghost use Rattle.std.specs.Prelude.{List as Rows, ◌<◌, length};
    ghost use Rattle.loom_formula.specs.declared.row_list.Row.{Row};
    ghost use Rattle.loom_formula.specs.RowList.{AreBelow};

    ghost Value = { Rows Row };

    ghost view = { λ list. list.rows };

    ghost invariant = { λ list. AreBelow list.rows × (length list.rows < 4294967295) };
}

impl RowList {
    ghost use Rattle.loom_formula.specs.RowList.{AreBelow, row_at, value_of};
    ghost use Rattle.loom_formula.specs.Choice.{choice_at};

    /// No rows.
    pub fn new(alloc: Global) -> RowList
        ensures { result ≡ [] }
    {
        RowList {
            rows: List::new(alloc),
        }
    }

    /// Appends a row, whose number is 2 more than the count before. It is `NotBelow` exactly where
    /// low or high isn't less than that number. After a refusal the rows are as before.
    pub fn push(&mut self, option: u32, low: u32, high: u32) -> Result<(), RowFault>
        requires { length self.old < 4294967294 }
        ensures ok { OnOk result (self.new
            ≡ self.old ++ record { option = option; low = low; high = high } ∷ []) }
        ensures not_below { IsErrOf result RowFault.NotBelow
            ↔ ((length self.old + 2 ≤ low) ⊎ (length self.old + 2 ≤ high)) }
        ensures refused { OnErr result (self.new ≡ self.old) }
    {
        let number = self.rows.len() + 2;
        if low as usize >= number || high as usize >= number {
            return Err(RowFault::NotBelow);
        }
        self.rows.push(Row { option, low, high })?;
        Ok(())
    }

    /// The value of a number under a choice of the options, by walking from row to row: 0 is false,
    /// 1 is true, and a number past the list is false.
    pub fn value(&self, number: u32, choice: &Choice) -> bool
        ensures { result ≡ value_of self.now (choice_at choice.now.values) number }
    {
        let mut reached = number;
        while let Some(next) = self.next(reached, choice) {
            reached = next;
        }
        reached == 1
    }

    /// The number that the row of a number leads to under a choice.
    fn next(&self, number: u32, choice: &Choice) -> Option<u32>
        ensures lower { IfSome result (λ next. next < number) }
        ensures same { IfSome result (λ next.
            value_of self.now (choice_at choice.now.values) next
            ≡ value_of self.now (choice_at choice.now.values) number) }
        ensures end { IfNone result (value_of self.now (choice_at choice.now.values) number
            ≡ (number == 1)) }
    {
        let row = self.at(number)?;
        Some(if choice.get(OptionNo(row.option)) {
            row.high
        } else {
            row.low
        })
    }

    /// The option, low and high of the row of a number; None exactly where the number is 0, 1 or
    /// past the list.
    pub fn row(&self, number: u32) -> Option<(u32, u32, u32)>
        ensures row { result ≡ option_map (λ row.
            (row.option, row.low, row.high)) (row_at self.now number) }
        ensures below { IfSome result (λ row. (row.1 < number) × (row.2 < number)) }
    {
        let row = self.at(number)?;
        Some((row.option, row.low, row.high))
    }

    /// The row of a number.
    fn at(&self, number: u32) -> Option<Row>
        ensures row { result ≡ row_at self.now number }
        ensures below { AreBelow self.now }
    {
        let rows = &self.rows;
        let at = number.checked_sub(2)?;
        rows.get(at as usize).copied()
    }

    /// The rows in order; the i-th, counted from 0, has number i + 2.
    pub fn as_slice(&self) -> &[Row]
        ensures { result.now ≡ self.now }
    {
        self.rows.as_slice()
    }

    /// How many rows there are; each has a number.
    pub fn count(&self) -> u32
        ensures count { result ≡ length self.now }
        ensures few { result < 4294967295 }
        ensures below { AreBelow self.now }
    {
        self.rows.len() as u32
    }
}
