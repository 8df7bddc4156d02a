ghost use Rattle.std.specs.Prelude.{◌≡◌, Ok, true, false};
ghost use Rattle.loom_rows.specs.Condition.{value, both};
ghost use Rattle.loom_rows.specs.Table.{Has};
ghost use Rattle.loom_rows.specs.Meet.{Meet, IsNever};

use crate::cond::Cond;
use crate::rows::Rows;
use loom_base::NoMemory;
use std::collections::HashSet;
use std::marker::Model;

/// Whether conditions of a table hold together, asked again and again: pairs that never do are kept
/// from call to call, where two ways led on from them. Contracts see the table.
#[derive(Drop)]
pub struct Meetings<'r, 'a> {
    rows: &'r Rows<'a>,
    failed: HashSet<(u32, u32)>,
}

impl<'r, 'a> Model for Meetings<'r, 'a> {
    ghost use Rattle.loom_rows.specs.Table.{Table};

    ghost Value = { Table };

    ghost use Rattle.loom_rows.specs.Search.{AreFailed};

    ghost view = { λ meetings. meetings.rows.now };

    ghost invariant = { λ meetings. AreFailed meetings.rows.now meetings.failed };
}

impl<'r, 'a> Meetings<'r, 'a> {
    /// No pair is kept.
    pub fn new(rows: &'r Rows<'a>) -> Meetings<'r, 'a>
        ensures { result ≡ rows.now }
    {
        Meetings {
            rows,
            failed: rows.no_pairs(),
        }
    }

    /// Whether some choice makes both conditions hold. It makes neither a row nor a choice.
    pub fn meet(&mut self, a: Cond<'a>, b: Cond<'a>) -> Result<bool, NoMemory>
        requires has_a { Has self.old a }
        requires has_b { Has self.old b }
        ensures some { result ≡ Ok true → Meet (value a.entry) (value b.entry) }
        ensures none { result ≡ Ok false → IsNever (both (value a.entry) (value b.entry)) }
        ensures unchanged { self.new ≡ self.old }
    {
        self.rows.meet(a, b, &mut self.failed)
    }
}
