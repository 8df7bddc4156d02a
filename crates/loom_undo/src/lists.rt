ghost use Rattle.std.specs.Prelude.{◌≡◌, OnOk};
ghost use Rattle.std.specs.List.{insert};
ghost use Rattle.loom_undo.specs.Inverse.{without_last};

use loom_base::{List, NoMemory};

/// Drops the last element, if there is one.
pub fn drop_last<T: Drop>(list: &mut List<T>)
    ensures { list.new ≡ without_last list.old }
{
    let count = list.len();
    list.truncate(count.saturating_sub(1));
}

/// Puts an element at a place, or behind the last where the place lies past it.
pub fn put<T: Drop>(list: &mut List<T>, at: u32, item: T) -> Result<(), NoMemory>
    ensures { OnOk result (list.new ≡ insert list.old at item) }
{
    let count = list.len();
    list.insert(count.min(at as usize), item)
}
