ghost use Rattle.std.specs.Prelude.{◌≡◌, length, IfOk, IfSome, IfNone};
ghost use Rattle.loom_rows.specs.RowLists.{IsReduced, AreOptionsBelow};
ghost use Rattle.loom_rows.specs.Reduced.{is_later, leads_on, AreReducedBefore, IsFirstUnreduced};

use loom_base::NoMemory;
use loom_formula::RowList;
use std::alloc::Global;
use std::collections::HashSet;

/// The number of the first row of a list that isn't reduced: its option is none of so many, its
/// parts are equal or lead to no later option, or an earlier row is equal. None exactly where each
/// row is reduced, so that the list may be taken in.
pub fn first_unreduced(alloc: Global, options: u32, list: &RowList) -> Result<Option<u32>, NoMemory>
    ensures first { IfOk result (λ found. IfSome found (IsFirstUnreduced options list.now)) }
    ensures none { IfOk result (λ found.
        IfNone found (AreReducedBefore options list.now (length list.now))) }
    ensures reduced { IfOk result (λ found.
        IfNone found (IsReduced list.now × AreOptionsBelow options list.now)) }
{
    let mut seen = HashSet::new(alloc);
    for at in 0..list.count() {
        let Some(row) = list.row(at + 2) else {
            unreachable!()
        };
        if !leads_on(options, list, row) {
            return Ok(Some(at + 2));
        }
        if !seen.insert(row)? {
            return Ok(Some(at + 2));
        }
    }
    Ok(None)
}

/// Whether a row's option is one of so many, and its parts differ and lead to later options.
fn leads_on(options: u32, list: &RowList, row: (u32, u32, u32)) -> bool
    ensures { result ≡ leads_on options list.now
        (record { option = row.0; low = row.1; high = row.2 }) }
{
    let (option, low, high) = row;
    option < options && low != high && is_later(list, option, low) && is_later(list, option, high)
}

/// Whether a number is never, always, or a row of a later option.
fn is_later(list: &RowList, option: u32, number: u32) -> bool
    ensures { result ≡ is_later list.now option number }
{
    match list.row(number) {
        Some((later, _, _)) => option < later,
        None => number < 2,
    }
}
