ghost use Rattle.std.specs.Prelude.{◌≡◌, ◌<◌, ◌+◌, length};
ghost use Rattle.loom_rows.specs.Taken.{cond_at};

use loom_rows::Cond;

/// The condition of a number, among the conditions of the printed rows.
pub(crate) fn condition<'a>(conds: &[Cond<'a>], number: u32) -> Cond<'a>
    requires { number < length conds.now + 2 }
    ensures { result ≡ cond_at conds.now number }
{
    match number {
        0 => Cond::Never,
        1 => Cond::Always,
        _ => conds[number as usize - 2],
    }
}
