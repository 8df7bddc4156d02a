ghost use Rattle.std.specs.Prelude.{◌≡◌, ◌<◌, IfOk, length};
ghost use Rattle.std.specs.List.{All, AllZip, flat_map};
ghost use Rattle.loom_rows.specs.Table.{Has};
ghost use Rattle.loom_rows.specs.Leftovers.{Works};
ghost use Rattle.loom_types.specs.LayoutWires.{bare};
ghost use Rattle.loom_wires.specs.Wires.{bare_of};
ghost use Rattle.loom_wires.specs.FoundWires.{conds_at, worked_for, IsJoined};

use crate::cut_wire::CutWire;
use crate::laid_set::LaidSet;
use crate::wire_key::WireKey;
use loom_base::{List, NoMemory};
use loom_rows::{Cond, Rows, RowsStop};
use loom_types::Wire;
use std::alloc::Global;
use std::collections::BTreeMap;

/// The conditions of the sets at these positions.
fn conds_at<'a>(
    alloc: Global,
    sets: &[LaidSet<'a>],
    positions: &[u32],
) -> Result<List<Cond<'a>>, NoMemory>
    requires { All (λ at. at < length sets.now) positions.now }
    ensures { IfOk result (λ conds. conds ≡ conds_at sets.now positions.now) }
{
    let mut conds = List::new(alloc);
    for at in positions {
        conds.push(sets[*at as usize].cond)?;
    }
    Ok(conds)
}

/// The wire with its condition.
fn with_cond(key: WireKey, cond: Cond<'_>) -> CutWire<'_>
    ensures wire { bare_of result ≡ bare key.wire }
    ensures cond { result.cond ≡ cond.entry }
{
    let Wire {
        net,
        from,
        to,
        route,
        length,
        row: _,
    } = key.wire;
    CutWire {
        net,
        from,
        to,
        route,
        length,
        cond,
    }
}

/// The wires in order, each with the disjunction of the conditions of its sets.
pub(crate) fn joined<'a>(
    alloc: Global,
    rows: &mut Rows<'a>,
    sets: &[LaidSet<'a>],
    found: BTreeMap<WireKey, List<u32>>,
) -> Result<List<CutWire<'a>>, RowsStop>
    requires has { All (λ set. Has rows.old set.cond) sets.now }
    requires in_range { All (λ e. All (λ at. at < length sets.now) e.1) found.entries }
    ensures joined { IfOk result (AllZip (IsJoined rows.new sets.now) found.entries) }
    ensures works { Works (flat_map (worked_for sets.now) found.entries) rows.old rows.new result }
{
    // The count is read, so that what holds of every table is known.
    let _ = rows.row_count();
    let mut cut = List::new(alloc);
    for (key, positions) in found {
        let conds = conds_at(alloc, sets, positions.as_slice())?;
        let cond = rows.any_of(conds.as_slice())?;
        cut.push(with_cond(key, cond))?;
    }
    Ok(cut)
}
