ghost use Rattle.std.specs.Prelude.{◌≡◌, ◌∷◌, [], IfOk, length, map};
ghost use Rattle.loom_formula.specs.Formula.{is_chosen, members_of};
ghost use Rattle.loom_rows.specs.Condition.{value};
ghost use Rattle.loom_rows.specs.Table.{Has};
ghost use Rattle.loom_rows.specs.Leftovers.{AreSame, Works};
ghost use Rattle.loom_rows.specs.Formulas.{never, always, work_of, worked_of, meaning_of, all_work, any_work, one_work, all_hold, any_holds, one_holds, one_worked, one_next, none_next};

use crate::cond::Cond;
use crate::rows::Rows;
use crate::stop::RowsStop;
use loom_base::Name;
use loom_formula::{Formula, Members, Options};

/// Whether exactly one of the members so far holds, and whether none does.
#[derive(Clone, Copy)]
struct Counted<'a> {
    one: Cond<'a>,
    none: Cond<'a>,
}

impl<'a> Rows<'a> {
    /// The condition of a formula, which has the formula's value under every choice. It works out
    /// the conditions of the formula's parts in order, and refuses as `is` does.
    pub fn of_formula(&mut self, options: &Options, formula: &Formula) -> Result<Cond<'a>, RowsStop>
        requires { length options.now ≡ self.old.options }
        ensures value { IfOk result (λ x.
            Has self.new x × AreSame (value x) (meaning_of options.now formula.now)) }
        ensures works { Works (worked_of options.now formula.now) self.old self.new result }
    {
        self.worked(options, formula)
    }

    /// The condition of a formula.
    #[cycle(worked)]
    fn worked(&mut self, options: &Options, formula: &Formula) -> Result<Cond<'a>, RowsStop>
        requires { length options.now ≡ self.old.options }
        ensures has { IfOk result (λ x. Has self.new x) }
        ensures value { IfOk result (λ x. AreSame (value x) (meaning_of options.now formula.now)) }
        ensures meaning { IfOk result (λ x.
            AreSame (value x) (work_of options.now formula.now).meaning) }
        ensures works { Works (work_of options.now formula.now).worked self.old self.new result }
    {
        match formula {
            Formula::Always => {
                // A part is read, so that what holds of every table is known.
                let _ = &self.index;
                Ok(Cond::Always)
            }
            Formula::Never => {
                // A part is read, so that what holds of every table is known.
                let _ = &self.index;
                Ok(Cond::Never)
            }
            Formula::Is(name) => self.named(options, *name),
            Formula::Not(inner) => {
                let inner = self.worked(options, inner.get())?;
                self.not(inner)
            }
            Formula::And(members) => self.all_members(options, members),
            Formula::Or(members) => self.some_member(options, members),
            Formula::One(members) => self.one_member(options, members),
        }
    }

    /// The condition that all members hold.
    #[cycle(worked)]
    fn all_members(&mut self, options: &Options, members: &Members) -> Result<Cond<'a>, RowsStop>
        requires { length options.now ≡ self.old.options }
        ensures has { IfOk result (λ x. Has self.new x) }
        ensures value { IfOk result (λ x.
            AreSame (value x) (all_hold options.now (members_of members.now))) }
        ensures meaning { IfOk result (λ x. AreSame (value x)
            (all_work always (map (work_of options.now) (members_of members.now))).meaning) }
        ensures works { Works
            (all_work always (map (work_of options.now) (members_of members.now))).worked
            self.old self.new result }
    {
        // A part is read, so that what holds of every table is known.
        let _ = &self.index;
        let mut all = Cond::Always;
        for member in members.as_slice() {
            let cond = self.worked(options, member)?;
            all = self.and(all, cond)?;
        }
        Ok(all)
    }

    /// The condition that some member holds.
    #[cycle(worked)]
    fn some_member(&mut self, options: &Options, members: &Members) -> Result<Cond<'a>, RowsStop>
        requires { length options.now ≡ self.old.options }
        ensures has { IfOk result (λ x. Has self.new x) }
        ensures value { IfOk result (λ x.
            AreSame (value x) (any_holds options.now (members_of members.now))) }
        ensures meaning { IfOk result (λ x. AreSame (value x)
            (any_work never (map (work_of options.now) (members_of members.now))).meaning) }
        ensures works { Works
            (any_work never (map (work_of options.now) (members_of members.now))).worked
            self.old self.new result }
    {
        // A part is read, so that what holds of every table is known.
        let _ = &self.index;
        let mut any = Cond::Never;
        for member in members.as_slice() {
            let cond = self.worked(options, member)?;
            any = self.or(any, cond)?;
        }
        Ok(any)
    }

    /// The condition that exactly one member holds.
    #[cycle(worked)]
    fn one_member(&mut self, options: &Options, members: &Members) -> Result<Cond<'a>, RowsStop>
        requires { length options.now ≡ self.old.options }
        ensures has { IfOk result (λ x. Has self.new x) }
        ensures value { IfOk result (λ x.
            AreSame (value x) (one_holds options.now (members_of members.now))) }
        ensures meaning { IfOk result (λ x. AreSame (value x)
            (one_work never always (map (work_of options.now) (members_of members.now))).meaning) }
        ensures works { Works
            (one_work never always (map (work_of options.now) (members_of members.now))).worked
            self.old self.new result }
    {
        // A part is read, so that what holds of every table is known.
        let _ = &self.index;
        let mut one = Cond::Never;
        let mut none = Cond::Always;
        for member in members.as_slice() {
            let cond = self.worked(options, member)?;
            let counted = self.count_one(one, none, cond)?;
            one = counted.one;
            none = counted.none;
        }
        Ok(one)
    }

    /// One more member counted.
    fn count_one(
        &mut self,
        one: Cond<'a>,
        none: Cond<'a>,
        member: Cond<'a>,
    ) -> Result<Counted<'a>, RowsStop>
        requires has_one { Has self.old one }
        requires has_none { Has self.old none }
        requires has_member { Has self.old member }
        ensures has { IfOk result (λ counted.
            Has self.new counted.one × Has self.new counted.none) }
        ensures one { IfOk result (λ counted. AreSame (value counted.one)
            (one_next (value one.entry) (value none.entry) (value member.entry))) }
        ensures none { IfOk result (λ counted. AreSame (value counted.none)
            (none_next (value none.entry) (value member.entry))) }
        ensures works { Works (one_worked (value one.entry) (value none.entry) (value member.entry))
            self.old self.new result }
    {
        let without = self.not(member)?;
        let still_one = self.and(one, without)?;
        let new_one = self.and(none, member)?;
        let one = self.or(still_one, new_one)?;
        let none = self.and(none, without)?;
        Ok(Counted { one, none })
    }

    /// The condition that the option of this name is true.
    fn named(&mut self, options: &Options, name: Name) -> Result<Cond<'a>, RowsStop>
        requires { length options.now ≡ self.old.options }
        ensures has { IfOk result (λ x. Has self.new x) }
        ensures value { IfOk result (λ x. AreSame (value x) (λ c. is_chosen options.now c name)) }
        ensures works { Works ((λ c. is_chosen options.now c name) ∷ []) self.old self.new result }
    {
        // A part is read, so that what holds of every table is known.
        let _ = &self.index;
        match options.position(name) {
            Some(option) => self.is(option),
            None => Ok(Cond::Never),
        }
    }
}
