ghost use Rattle.std.specs.Prelude.{◌≡◌};
ghost use Rattle.loom_rows.specs.Condition.{value, number_of, rising, first_option, low_at, high_at};
ghost use Rattle.loom_formula.specs.Choice.{choice_at};

use loom_base::OptionNo;
use loom_formula::Choice;

/// A condition over the options, in the arena of the table that made it. Contracts see the tree of
/// its rows.
#[derive(Clone, Copy)]
#[cycle(cond)]
pub enum Cond<'a> {
    Never,
    Always,
    Row(&'a Row<'a>),
}

/// A decision row: the condition `low` where the option is false, and `high` where it is true. Rows
/// are numbered from 2 on, in the order in which they were made.
#[derive(Clone, Copy)]
#[cycle(cond)]
pub struct Row<'a> {
    pub number: u32,
    pub option: OptionNo,
    pub low: Cond<'a>,
    pub high: Cond<'a>,
}

impl<'a> Cond<'a> {
    /// 0, 1, or the row's number.
    pub fn number(self) -> u32
        ensures { result ≡ number_of self.entry }
    {
        match self {
            Cond::Never => 0,
            Cond::Always => 1,
            Cond::Row(row) => row.number,
        }
    }

    /// The numbers of two conditions, the lesser first: a key for what the two are together.
    pub(crate) fn pair_with(self, other: Cond<'a>) -> (u32, u32)
        ensures { result ≡ rising (number_of self.entry) (number_of other.entry) }
    {
        let first = self.number();
        let second = other.number();
        (first.min(second), first.max(second))
    }

    /// The first option on which it depends, or the number of options.
    pub(crate) fn first_option(self, options: u32) -> u32
        ensures { result ≡ first_option options self.entry }
    {
        match self {
            Cond::Row(row) => row.option.0,
            _ => options,
        }
    }

    /// What is left of a condition that doesn't depend on options before this one, once this one
    /// is false.
    pub(crate) fn low_at(self, at: u32) -> Cond<'a>
        ensures { result ≡ low_at at self.entry }
    {
        match self {
            Cond::Row(row) if row.option.0 == at => row.low,
            _ => self,
        }
    }

    /// The same, once this option is true.
    pub(crate) fn high_at(self, at: u32) -> Cond<'a>
        ensures { result ≡ high_at at self.entry }
    {
        match self {
            Cond::Row(row) if row.option.0 == at => row.high,
            _ => self,
        }
    }

    /// Its value under a choice.
    pub(crate) fn value(self, choice: &Choice) -> bool
        ensures { result ≡ value self.entry (choice_at choice.now.values) }
    {
        match self {
            Cond::Never => false,
            Cond::Always => true,
            Cond::Row(row) => {
                if choice.get(row.option) {
                    row.high.value(choice)
                } else {
                    row.low.value(choice)
                }
            }
        }
    }
}
