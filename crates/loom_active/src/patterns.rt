ghost use Rattle.std.specs.Prelude.{◌≡◌, ◌≤◌, IfOk, length};
ghost use Rattle.loom_rows.specs.Condition.{value};
ghost use Rattle.loom_rows.specs.Table.{Has, IsSound};
ghost use Rattle.loom_rows.specs.Leftovers.{Works};
ghost use Rattle.loom_rows.specs.Meet.{IsPossible};
ghost use Rattle.loom_active.specs.LiveWork.{signs_worked};
ghost use Rattle.loom_active.specs.Terminals.{whens_of, HasWhens};
ghost use Rattle.loom_active.specs.Patterns.{AreRising, ArePatterns, AreJoinedWith, HasEach, LeaveRoom, joined_worked};

use crate::terminals::Terminal;
use loom_base::List;
use loom_rows::{Cond, Rows, RowsStop};
use std::alloc::Global;

/// A pattern of signs of the formulas of a net's first terminals that some valid choice has.
#[derive(Clone, Copy)]
pub(crate) struct Pattern<'a> {
    /// Bit i is set where the i-th formula holds.
    pub(crate) mask: u32,
    /// Valid, and the formulas have these signs.
    pub(crate) cond: Cond<'a>,
}

/// The patterns with a further condition and a further bit; those that no choice has are left out.
fn joined_with<'a>(
    alloc: Global,
    rows: &mut Rows<'a>,
    patterns: &[Pattern<'a>],
    cond: Cond<'a>,
    bit: u32,
) -> Result<List<Pattern<'a>>, RowsStop>
    requires sound { IsSound rows.old }
    requires has { Has rows.old cond }
    requires each { HasEach rows.old patterns.now }
    requires order { AreRising patterns.now }
    requires room { LeaveRoom bit patterns.now }
    ensures joined { IfOk result (AreJoinedWith rows.new (value cond.entry) bit patterns.now) }
    ensures works { Works (joined_worked (value cond.entry) patterns.now) rows.old rows.new result }
{
    let mut joined = List::new(alloc);
    for pattern in patterns {
        let both = rows.and(pattern.cond, cond)?;
        if !rows.is_never(both) {
            joined.push(Pattern {
                mask: pattern.mask + bit,
                cond: both,
            })?;
        }
    }
    Ok(joined)
}

/// The patterns of signs of the terminals' formulas. For each terminal in order the negation of its
/// formula is worked out, then the patterns so far without it, then those with it.
pub(crate) fn patterns_of<'a>(
    alloc: Global,
    rows: &mut Rows<'a>,
    valid: Cond<'a>,
    terminals: &[Terminal<'a>],
) -> Result<List<Pattern<'a>>, RowsStop>
    requires sound { IsSound rows.old }
    requires has { Has rows.old valid }
    requires some { IsPossible (value valid) }
    requires whens { HasWhens rows.old terminals.now }
    requires few { length terminals.now ≤ 12 }
    ensures patterns { IfOk result
        (ArePatterns rows.new (value valid.entry) (whens_of terminals.now)) }
    ensures works { Works (signs_worked (value valid.entry) (whens_of terminals.now))
        rows.old rows.new result }
{
    let mut patterns = List::new(alloc);
    patterns.push(Pattern {
        mask: 0,
        cond: valid,
    })?;
    let mut bit = 1;
    for terminal in terminals {
        let without = rows.not(terminal.when)?;
        let mut next = joined_with(alloc, rows, patterns.as_slice(), without, 0)?;
        let held = joined_with(alloc, rows, patterns.as_slice(), terminal.when, bit)?;
        next.extend_from_slice(held.as_slice())?;
        patterns = next;
        bit *= 2;
    }
    Ok(patterns)
}
