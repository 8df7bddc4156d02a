//! The slots of the layouts, and their pins by first fit.
ghost use Rattle.std.specs.Prelude.{◌≡◌, ◌<◌, ◌≤◌, length, map, IfOk, IfErr, OnOk, List as Items};
ghost use Rattle.std.specs.List.{All};
ghost use Rattle.loom_project.specs.Draft.{pins_of};
ghost use Rattle.loom_rows.specs.Table.{Has};
ghost use Rattle.loom_laid.specs.declared.laid_set.LaidSet.{LaidSet as LiveLaid};
ghost use Rattle.loom_active.specs.LiveWork.{live_worked};
ghost use Rattle.loom_plan.specs.FirstStop.{FirstStop};
ghost use Rattle.loom_plan.specs.Work.{couplers_of, pin_lines, slot_at};
ghost use Rattle.loom_plan.specs.Stages.{IsJob, HasLaid, HasUsed, ArePinLines};

use crate::slots::slots;
use crate::stops::{TOO_MANY_ROWS, or_stop};
use loom_base::{List, NoMemory};
use loom_laid::Laid;
use loom_pins::{CouplerPins, PinStop, Slot, first_fit};
use loom_project::Project;
use loom_rows::{Rows, RowsStop};
use loom_topology::Kind;
use loom_types::{PinLine, PlanStop};
use std::alloc::Global;

/// The slots of the layouts with the conditions under which they are used.
pub(crate) fn used_slots<'a>(
    alloc: Global,
    project: &Project,
    rows: &mut Rows<'a>,
    laid: &Laid<'a>,
) -> Result<List<Slot<'a>>, PlanStop>
    requires job { IsJob project.now rows.old (live_worked project.now) }
    requires laid { HasLaid project.now rows.old laid.now }
    ensures used { IfOk result (HasUsed project.now rows.new laid.now.sets) }
    ensures laid { OnOk result (HasLaid project.now rows.new laid.now) }
    ensures stop { IfErr result (FirstStop project.now) }
{
    project.has_sound_topologies();
    match slots(alloc, project, rows, laid.sets.as_slice()) {
        Ok(used) => Ok(used),
        Err(RowsStop::TooManyRows) => Err(TOO_MANY_ROWS),
        Err(RowsStop::NoMemory) => Err(PlanStop::NoMemory),
    }
}

/// How many pins a segment has; a run has none.
fn pins_of(kind: Kind) -> u16
    ensures { result ≡ pins_of kind }
{
    match kind {
        Kind::Run { .. } => 0,
        Kind::Coupler { pins, .. } => pins.get() as u16,
    }
}

/// The pins of each segment, and which are reserved.
fn coupler_pins(alloc: Global, project: &Project) -> Result<List<CouplerPins>, NoMemory>
    ensures couplers { IfOk result (λ couplers. couplers ≡ couplers_of project.now) }
    ensures few { IfOk result (λ couplers. length couplers ≤ 4096) }
    ensures count { IfOk result (λ couplers. length couplers ≡ length project.now.segments) }
{
    let mut couplers = List::new(alloc);
    for segment in project.draft().segments.as_slice() {
        let pins = pins_of(segment.kind);
        let reserved = segment.reserved.copy(alloc)?;
        couplers.push(CouplerPins { pins, reserved })?;
    }
    Ok(couplers)
}

/// The printed lines of slots with their pins.
fn lines_of(alloc: Global, used: &[Slot<'_>], pins: &[u16]) -> Result<List<PinLine>, NoMemory>
    requires { length pins.now ≡ length used.now }
    ensures { IfOk result (λ lines. lines ≡ pin_lines (map slot_at used.now) pins.now) }
{
    let mut lines = List::new(alloc);
    for (at, slot) in used.iter().enumerate() {
        lines.push(PinLine {
            net: slot.net,
            coupler: slot.coupler,
            ordinal: slot.ordinal,
            pin: pins[at],
        })?;
    }
    Ok(lines)
}

/// The printed lines of slots with the pins of first fit.
pub(crate) fn pinned<'a>(
    alloc: Global,
    project: &Project,
    rows: &Rows<'a>,
    used: &[Slot<'a>],
) -> Result<List<PinLine>, PlanStop>
    requires { (laid : Items LiveLaid) × HasUsed project.now rows.now laid used.now }
    ensures lines { IfOk result (ArePinLines project.now used.now) }
    ensures stop { IfErr result (FirstStop project.now) }
{
    let couplers = or_stop(coupler_pins(alloc, project))?;
    match first_fit(alloc, rows, used, couplers.as_slice()) {
        Ok(pins) => or_stop(lines_of(alloc, used, pins.as_slice())),
        Err(PinStop::NoPin { slot }) => {
            let lacking = used[slot as usize];
            Err(PlanStop::NoPin {
                net: lacking.net,
                coupler: lacking.coupler,
                ordinal: lacking.ordinal,
            })
        }
        Err(PinStop::NoMemory) => Err(PlanStop::NoMemory),
    }
}
