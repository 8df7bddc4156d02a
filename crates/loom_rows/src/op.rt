ghost use Rattle.std.specs.Prelude.{◌≡◌, ◌≤◌, ◌⊎◌, min, IfSome, IfNone};
ghost use Rattle.loom_rows.specs.Condition.{value, number_of, first_option};
ghost use Rattle.loom_rows.specs.Table.{Table, Has};
ghost use Rattle.loom_rows.specs.Outcome.{IsAnswer, joined};

use crate::cond::Cond;

/// How two conditions are joined.
#[derive(Clone, Copy)]
pub(crate) enum Op {
    And,
    Or,
    Differ,
}

/// What is left of two conditions once the first option on which one of them depends is set.
#[derive(Clone, Copy)]
pub(crate) struct Parts<'a> {
    pub(crate) at: u32,
    pub(crate) a_low: Cond<'a>,
    pub(crate) b_low: Cond<'a>,
    pub(crate) a_high: Cond<'a>,
    pub(crate) b_high: Cond<'a>,
}

impl Parts<'_> {
    /// Whether each way leads on to two conditions that may hold.
    pub(crate) fn lead_two_ways(self) -> bool {
        self.a_low.number() != 0
            && self.b_low.number() != 0
            && self.a_high.number() != 0
            && self.b_high.number() != 0
    }
}

impl Op {
    /// The joined condition where the two numbers alone show it.
    pub(crate) fn at_end<'a>(self, a: Cond<'a>, b: Cond<'a>) -> Option<Cond<'a>>
        ensures some { IfSome result (λ x. (t : Table) → Has t a.entry → Has t b.entry
            → IsAnswer (joined self (value a.entry) (value b.entry))
            (min (first_option t.options a.entry) (first_option t.options b.entry)) t x) }
        ensures none { IfNone result ((2 ≤ number_of a.entry) ⊎ (2 ≤ number_of b.entry)) }
    {
        match self {
            Op::And => and_at_end(a, b),
            Op::Or => or_at_end(a, b),
            Op::Differ => differ_at_end(a, b),
        }
    }
}

fn and_at_end<'a>(a: Cond<'a>, b: Cond<'a>) -> Option<Cond<'a>>
    ensures some { IfSome result (λ x. (t : Table) → Has t a.entry → Has t b.entry
        → IsAnswer (joined Op.And (value a.entry) (value b.entry))
        (min (first_option t.options a.entry) (first_option t.options b.entry)) t x) }
    ensures none { IfNone result ((2 ≤ number_of a.entry) ⊎ (2 ≤ number_of b.entry)) }
{
    let first = a.number();
    let second = b.number();
    if first == second || first == 0 || second == 1 {
        Some(a)
    } else if first == 1 || second == 0 {
        Some(b)
    } else {
        None
    }
}

fn or_at_end<'a>(a: Cond<'a>, b: Cond<'a>) -> Option<Cond<'a>>
    ensures some { IfSome result (λ x. (t : Table) → Has t a.entry → Has t b.entry
        → IsAnswer (joined Op.Or (value a.entry) (value b.entry))
        (min (first_option t.options a.entry) (first_option t.options b.entry)) t x) }
    ensures none { IfNone result ((2 ≤ number_of a.entry) ⊎ (2 ≤ number_of b.entry)) }
{
    let first = a.number();
    let second = b.number();
    if first == second || first == 1 || second == 0 {
        Some(a)
    } else if first == 0 || second == 1 {
        Some(b)
    } else {
        None
    }
}

fn differ_at_end<'a>(a: Cond<'a>, b: Cond<'a>) -> Option<Cond<'a>>
    ensures some { IfSome result (λ x. (t : Table) → Has t a.entry → Has t b.entry
        → IsAnswer (joined Op.Differ (value a.entry) (value b.entry))
        (min (first_option t.options a.entry) (first_option t.options b.entry)) t x) }
    ensures none { IfNone result ((2 ≤ number_of a.entry) ⊎ (2 ≤ number_of b.entry)) }
{
    let first = a.number();
    let second = b.number();
    if first == second {
        Some(Cond::Never)
    } else if first == 0 {
        Some(b)
    } else if second == 0 {
        Some(a)
    } else {
        None
    }
}
