ghost use Rattle.std.specs.Prelude.{◌≡◌, ◌≢◌, ◌<◌, ◌≤◌, ◌⊎◌, ◌-◌, Ok, true, false, length, min, IfOk, OnOk, IfSome, IfNone};
ghost use Rattle.loom_formula.specs.Choice.{choice_at, IsLeastChoice};
ghost use Rattle.loom_rows.specs.Condition.{value, number_of, first_option, both};
ghost use Rattle.loom_rows.specs.Table.{Has};
ghost use Rattle.loom_rows.specs.Meet.{IsNever};
ghost use Rattle.loom_rows.specs.Search.{AreFailed, IsClear, IsFoundFrom};

use crate::cond::Cond;
use crate::op::Op;
use crate::rows::Rows;
use loom_base::{List, NoMemory};
use loom_formula::Choice;
use std::collections::HashSet;

impl<'a> Rows<'a> {
    /// The least choice on which both conditions hold, with one value for each option; None exactly
    /// where there is none. It makes no rows.
    pub fn meets(&self, a: Cond<'a>, b: Cond<'a>) -> Result<Option<Choice>, NoMemory>
        requires has_a { Has self.now a }
        requires has_b { Has self.now b }
        ensures none { IfOk result (λ met.
            IfNone met (IsNever (both (value a.entry) (value b.entry)))) }
        ensures least { IfOk result (λ met. IfSome met (λ choice.
            IsLeastChoice (both (value a.entry) (value b.entry)) (choice_at choice.values))) }
        ensures whole { IfOk result (λ met.
            IfSome met (λ choice. length choice.values ≡ self.now.options)) }
    {
        let mut values = List::from_vec(vec![in self.alloc; false; self.options as usize]?);
        let mut failed = HashSet::new(self.alloc);
        if self.search(a, b, &mut values, &mut failed)? {
            Ok(Some(Choice { values }))
        } else {
            Ok(None)
        }
    }

    /// Whether the two conditions hold together under some choice; then the least such choice is
    /// set in the values. The pairs that failed and from which two ways led on are kept.
    fn search(
        &self,
        a: Cond<'a>,
        b: Cond<'a>,
        values: &mut List<bool>,
        failed: &mut HashSet<(u32, u32)>,
    ) -> Result<bool, NoMemory>
        requires has_a { Has self.now a }
        requires has_b { Has self.now b }
        requires clear { IsClear (choice_at values.old) }
        requires whole { length values.old ≡ self.now.options }
        requires failed { AreFailed self.now failed.old }
        ensures found { result ≡ Ok true → IsFoundFrom (both (value a.entry) (value b.entry))
            (min (first_option self.now.options a.entry) (first_option self.now.options b.entry))
            (choice_at values.new) }
        ensures none { result ≡ Ok false → IsNever (both (value a.entry) (value b.entry)) }
        ensures unchanged { result ≡ Ok false → values.new ≡ values.old }
        ensures whole { OnOk result (length values.new ≡ length values.old) }
        ensures failed { OnOk result (AreFailed self.now failed.new) }
    {
        if a.number() == 0 || b.number() == 0 {
            return Ok(false);
        }
        if a.number() == 1 && b.number() == 1 {
            return Ok(true);
        }
        let parts = self.parts(Op::And, a, b);
        let two_ways = parts.lead_two_ways();
        let key = a.pair_with(b);
        if two_ways && failed.contains(&key) {
            return Ok(false);
        }
        if self.search(parts.a_low, parts.b_low, values, failed)? {
            return Ok(true);
        }
        if self.search(parts.a_high, parts.b_high, values, failed)? {
            values.set(parts.at as usize, true);
            return Ok(true);
        }
        if two_ways {
            failed.insert(key)?;
        }
        Ok(false)
    }
}
