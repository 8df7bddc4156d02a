ghost use Rattle.std.specs.Prelude.{◌≡◌, [], if◌then◌else◌};
ghost use Rattle.loom_session.specs.Forgets.{forgets as forgets_all};

use loom_edits::Edit;
use loom_laid::Kept;

/// Whether an edit changes what least costs rest on.
pub fn forgets(edit: &Edit) -> bool
    ensures { result ≡ forgets_all edit.now }
{
    match edit {
        Edit::AddNode { .. }
        | Edit::RemoveNode { .. }
        | Edit::AddRun { .. }
        | Edit::AddCoupler { .. }
        | Edit::RemoveSegment { .. }
        | Edit::SetLength { .. }
        | Edit::SetPrice { .. }
        | Edit::SetBranch { .. }
        | Edit::SetBars { .. } => true,
        _ => false,
    }
}

/// Drops what is kept, where an edit changes what it rests on.
pub fn forget_where(kept: &mut Kept, forgets: bool)
    ensures { kept.new ≡ (if forgets then [] else kept.old) }
{
    if forgets {
        kept.forget();
    }
}
