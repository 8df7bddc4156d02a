ghost use Rattle.std.specs.Prelude.{◌≡◌, ◌≤◌, ◌<◌, ◌↔◌, List, ◌∷◌, [], false, IsTrue, IfOk, length};
ghost use Rattle.loom_formula.specs.Choice.{choice_at};
ghost use Rattle.loom_rows.specs.Condition.{Meaning, value, number_of, option_holds, both, either, negation};
ghost use Rattle.loom_rows.specs.Table.{Has, IsSound};
ghost use Rattle.loom_rows.specs.Meet.{IsNever, IsPossible};
ghost use Rattle.loom_rows.specs.Leftovers.{AreSame, AreExactly, IsRowOf, StandsFor, Works};

mod any;
mod formula;
mod join;
mod list;
mod make;
mod meet;
mod meets;
mod take_in;

use crate::cond::Cond;
use crate::op::Op;
use crate::stop::RowsStop;
use bumpalo::Bump;
use indexmap::IndexMap;
use loom_base::OptionNo;
use loom_formula::Choice;
use std::alloc::{AllocError, Global};
use std::marker::Model;

/// The shared rows of one job, in the caller's arena. Contracts see a table: the number of options,
/// the limit on rows, and each row's option with the numbers of its two parts. A condition that is
/// handed to a call is one of this table's.
#[derive(Drop)]
pub struct Rows<'a> {
    alloc: Global,
    arena: &'a Bump,
    index: IndexMap<(u32, u32, u32), Cond<'a>>,
    options: u32,
    limit: u32,
}

impl<'a> Model for Rows<'a> {
    ghost use Rattle.loom_rows.specs.Table.{Table};

    ghost Value = { Table };

    ghost use Rattle.loom_rows.specs.Inside.{table_of, IsKept};

    ghost view = { table_of };

    ghost invariant = { IsKept };
}

impl<'a> Rows<'a> {
    /// A table without rows, of conditions over so many options; the limit is at most 262,144 rows.
    pub fn new(alloc: Global, arena: &'a Bump, options: u32, limit: u32) -> Rows<'a>
        requires { limit ≤ 262144 }
        ensures table { result ≡ record { options = options; limit = limit; rows = [] } }
        ensures sound { IsSound result }
    {
        Rows {
            alloc,
            arena,
            index: IndexMap::new(alloc),
            options,
            limit,
        }
    }

    /// The number of rows: that of the different leftovers of the conditions worked out so far that
    /// are neither always true nor always false.
    pub fn row_count(&self) -> u32
        ensures length { result ≡ length self.now.rows }
        ensures sound { IsSound self.now }
        ensures counted { (fs : List Meaning) → StandsFor self.now fs
            → AreExactly result (IsRowOf fs) }
    {
        self.index.len() as u32
    }

    /// The value of a condition under a choice.
    pub fn value(&self, cond: Cond<'a>, choice: &Choice) -> bool
        requires { Has self.now cond }
        ensures { result ≡ value cond.entry (choice_at choice.now.values) }
    {
        cond.value(choice)
    }

    /// Whether no choice tells the two conditions apart.
    pub fn same(&self, a: Cond<'a>, b: Cond<'a>) -> bool
        requires has_a { Has self.now a }
        requires has_b { Has self.now b }
        ensures same { IsTrue result ↔ AreSame (value a.entry) (value b.entry) }
        ensures number { IsTrue result ↔ (number_of a.entry ≡ number_of b.entry) }
    {
        // A part is read, so that what holds of every table is known.
        let _ = &self.index;
        a.number() == b.number()
    }

    /// Whether no choice makes the condition hold.
    pub fn is_never(&self, cond: Cond<'a>) -> bool
        requires { Has self.now cond }
        ensures never { IsTrue result → IsNever (value cond.entry) }
        ensures some { result ≡ false → IsPossible (value cond.entry) }
    {
        cond.number() == 0
    }

    /// The condition that holds exactly where the option is true.
    ///
    /// `TooManyRows` where the rows that it needs, with those that are there, are more than the
    /// limit.
    pub fn is(&mut self, option: OptionNo) -> Result<Cond<'a>, RowsStop>
        requires { option.0 < self.old.options }
        ensures value { IfOk result (λ x.
            Has self.new x × AreSame (value x) (option_holds option.0)) }
        ensures works { Works (option_holds option.0 ∷ []) self.old self.new result }
    {
        self.make(option.0, Cond::Never, Cond::Always)
    }

    /// The condition that holds where both do; it refuses as `is` does.
    pub fn and(&mut self, a: Cond<'a>, b: Cond<'a>) -> Result<Cond<'a>, RowsStop>
        requires has_a { Has self.old a }
        requires has_b { Has self.old b }
        ensures value { IfOk result (λ x.
            Has self.new x × AreSame (value x) (both (value a.entry) (value b.entry))) }
        ensures works { Works (both (value a.entry) (value b.entry) ∷ []) self.old self.new result }
    {
        self.join(Op::And, a, b)
    }

    /// The condition that holds where one of the two does; it refuses as `is` does.
    pub fn or(&mut self, a: Cond<'a>, b: Cond<'a>) -> Result<Cond<'a>, RowsStop>
        requires has_a { Has self.old a }
        requires has_b { Has self.old b }
        ensures value { IfOk result (λ x.
            Has self.new x × AreSame (value x) (either (value a.entry) (value b.entry))) }
        ensures works { Works
            (either (value a.entry) (value b.entry) ∷ []) self.old self.new result }
    {
        self.join(Op::Or, a, b)
    }

    /// The condition that holds where this one doesn't; it refuses as `is` does.
    pub fn not(&mut self, a: Cond<'a>) -> Result<Cond<'a>, RowsStop>
        requires { Has self.old a }
        ensures value { IfOk result (λ x.
            Has self.new x × AreSame (value x) (negation (value a.entry))) }
        ensures works { Works (negation (value a.entry) ∷ []) self.old self.new result }
    {
        self.join(Op::Differ, Cond::Always, a)
    }
}
