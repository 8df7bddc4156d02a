ghost use Rattle.std.specs.Prelude.{◌≡◌, Ok, true, false};
ghost use Rattle.loom_rows.specs.Condition.{value, both};
ghost use Rattle.loom_rows.specs.Table.{Has};
ghost use Rattle.loom_rows.specs.Meet.{Meet, IsNever};
ghost use Rattle.loom_rows.specs.Search.{AreFailed};

use crate::cond::Cond;
use crate::op::Op;
use crate::rows::Rows;
use loom_base::NoMemory;
use std::collections::HashSet;

impl<'a> Rows<'a> {
    /// No pairs that failed.
    pub(crate) fn no_pairs(&self) -> HashSet<(u32, u32)>
        ensures { AreFailed self.now result }
    {
        HashSet::new(self.alloc)
    }

    /// Whether the two conditions hold together under some choice. The pairs that failed and from
    /// which two ways led on are kept.
    pub(crate) fn meet(
        &self,
        a: Cond<'a>,
        b: Cond<'a>,
        failed: &mut HashSet<(u32, u32)>,
    ) -> Result<bool, NoMemory>
        requires has_a { Has self.now a }
        requires has_b { Has self.now b }
        requires failed { AreFailed self.now failed.old }
        ensures some { result ≡ Ok true → Meet (value a.entry) (value b.entry) }
        ensures none { result ≡ Ok false → IsNever (both (value a.entry) (value b.entry)) }
        ensures failed { AreFailed self.now failed.new }
    {
        if a.number() == 0 || b.number() == 0 {
            return Ok(false);
        }
        if a.number() == 1 && b.number() == 1 {
            return Ok(true);
        }
        let parts = self.parts(Op::And, a, b);
        let two_ways = parts.lead_two_ways();
        let key = a.pair_with(b);
        if two_ways && failed.contains(&key) {
            return Ok(false);
        }
        if self.meet(parts.a_low, parts.b_low, failed)? {
            return Ok(true);
        }
        if self.meet(parts.a_high, parts.b_high, failed)? {
            return Ok(true);
        }
        if two_ways {
            failed.insert(key)?;
        }
        Ok(false)
    }
}
