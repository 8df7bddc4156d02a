ghost use Rattle.std.specs.Prelude.{◌≡◌, ◌++◌, ◌∷◌, [], Ok};
ghost use Rattle.loom_edits.specs.declared.edit.Edit.TheVariants as edits;
ghost use Rattle.loom_edits.specs.declared.part.Part.TheVariants as parts;
ghost use Rattle.loom_edits.specs.Edits.{changed, on_run as on_run_at, on_coupler as on_coupler_at, Gives};
ghost use Rattle.loom_edits.specs.Parts.{part_of};
ghost use Rattle.loom_edits.specs.Places.{is_coupler_at as coupler_at};

use crate::elements::{with_bars, with_length, with_pins, with_price, with_reserved};
use crate::places::segment_at;
use crate::{Edit, EditFault};
use loom_base::{List, Name, Pins, Price};
use loom_project::{Draft, SegmentDraft};
use loom_topology::Kind;
use std::alloc::Global;

/// The draft with a segment more.
fn add_segment(alloc: Global, draft: &Draft, segment: SegmentDraft) -> Result<Draft, EditFault>
    ensures { Gives result
        (Ok (record draft.now { segments = draft.now.segments ++ segment ∷ [] })) }
{
    let mut draft = draft.copy(alloc)?;
    draft.segments.push(segment)?;
    Ok(draft)
}

/// The draft with a run or a coupler more.
#[tactic(auto, unfolding(crate::specs::Edits::changed))]
pub fn change_new_segments(alloc: Global, draft: &Draft, edit: &Edit) -> Result<Draft, EditFault>
    requires { part_of edit.now ≡ parts.NewSegments }
    ensures { Gives result (changed draft.now edit.now) }
{
    let segment = match edit {
        Edit::AddRun {
            name,
            from,
            to,
            length,
            bars,
        } => SegmentDraft {
            name: *name,
            from: *from,
            to: *to,
            kind: Kind::Run { length: *length },
            bars: bars.copy(alloc)?,
            reserved: List::new(alloc),
        },
        Edit::AddCoupler {
            name,
            from,
            to,
            price,
            pins,
            bars,
            reserved,
        } => SegmentDraft {
            name: *name,
            from: *from,
            to: *to,
            kind: Kind::Coupler {
                price: *price,
                pins: *pins,
            },
            bars: bars.copy(alloc)?,
            reserved: reserved.copy(alloc)?,
        },
        _ => unreachable!(),
    };
    add_segment(alloc, draft, segment)
}

/// Whether a coupler stands at a place of the segments.
fn is_coupler_at(draft: &Draft, at: usize) -> bool
    ensures { result ≡ coupler_at draft.now at }
{
    match draft.segments.get(at) {
        Some(segment) => segment.kind.is_coupler(),
        None => false,
    }
}

/// Refuses a coupler.
pub fn on_run(draft: &Draft, segment: Name, at: usize) -> Result<(), EditFault>
    ensures { result ≡ on_run_at draft.now segment at }
{
    if is_coupler_at(draft, at) {
        Err(EditFault::WrongKind { segment })
    } else {
        Ok(())
    }
}

/// Refuses a run.
pub fn on_coupler(draft: &Draft, segment: Name, at: usize) -> Result<(), EditFault>
    ensures { result ≡ on_coupler_at draft.now segment at }
{
    if is_coupler_at(draft, at) {
        Ok(())
    } else {
        Err(EditFault::WrongKind { segment })
    }
}

/// The draft without a segment.
#[tactic(auto, unfolding(crate::specs::Edits::changed))]
fn remove_segment(alloc: Global, draft: &Draft, name: Name) -> Result<Draft, EditFault>
    ensures { Gives result (changed draft.now (edits.RemoveSegment name)) }
{
    let at = segment_at(draft, name)?;
    let mut draft = draft.copy(alloc)?;
    let _ = draft.segments.remove(at);
    Ok(draft)
}

/// The draft with another length of a run.
#[tactic(auto, unfolding(crate::specs::Edits::changed))]
fn set_length(alloc: Global, draft: &Draft, name: Name, length: Price) -> Result<Draft, EditFault>
    ensures { Gives result (changed draft.now (edits.SetLength name length)) }
{
    let at = segment_at(draft, name)?;
    on_run(draft, name, at)?;
    let mut draft = draft.copy(alloc)?;
    draft.segments = with_length(draft.segments, at, length);
    Ok(draft)
}

/// The draft with another price of a coupler.
#[tactic(auto, unfolding(crate::specs::Edits::changed))]
fn set_price(alloc: Global, draft: &Draft, name: Name, price: Price) -> Result<Draft, EditFault>
    ensures { Gives result (changed draft.now (edits.SetPrice name price)) }
{
    let at = segment_at(draft, name)?;
    on_coupler(draft, name, at)?;
    let mut draft = draft.copy(alloc)?;
    draft.segments = with_price(draft.segments, at, price);
    Ok(draft)
}

/// The draft with another number of pins of a coupler.
#[tactic(auto, unfolding(crate::specs::Edits::changed))]
fn set_pins(alloc: Global, draft: &Draft, name: Name, pins: Pins) -> Result<Draft, EditFault>
    ensures { Gives result (changed draft.now (edits.SetPins name pins)) }
{
    let at = segment_at(draft, name)?;
    on_coupler(draft, name, at)?;
    let mut draft = draft.copy(alloc)?;
    draft.segments = with_pins(draft.segments, at, pins);
    Ok(draft)
}

/// The draft with other bars of a segment.
#[tactic(auto, unfolding(crate::specs::Edits::changed))]
fn set_bars(alloc: Global, draft: &Draft, name: Name, bars: &List<Name>) -> Result<Draft, EditFault>
    ensures { Gives result (changed draft.now (edits.SetBars name bars.now)) }
{
    let at = segment_at(draft, name)?;
    let mut draft = draft.copy(alloc)?;
    draft.segments = with_bars(draft.segments, at, bars.copy(alloc)?);
    Ok(draft)
}

/// The draft with other reserved pins of a coupler.
#[tactic(auto, unfolding(crate::specs::Edits::changed))]
fn set_reserved(
    alloc: Global,
    draft: &Draft,
    name: Name,
    reserved: &List<u16>,
) -> Result<Draft, EditFault>
    ensures { Gives result (changed draft.now (edits.SetReserved name reserved.now)) }
{
    let at = segment_at(draft, name)?;
    on_coupler(draft, name, at)?;
    let mut draft = draft.copy(alloc)?;
    draft.segments = with_reserved(draft.segments, at, reserved.copy(alloc)?);
    Ok(draft)
}

/// The draft as an edit changes a segment that is there.
pub fn change_segments(alloc: Global, draft: &Draft, edit: &Edit) -> Result<Draft, EditFault>
    requires { part_of edit.now ≡ parts.Segments }
    ensures { Gives result (changed draft.now edit.now) }
{
    match edit {
        Edit::RemoveSegment { name } => remove_segment(alloc, draft, *name),
        Edit::SetLength { name, length } => set_length(alloc, draft, *name, *length),
        Edit::SetPrice { name, price } => set_price(alloc, draft, *name, *price),
        Edit::SetPins { name, pins } => set_pins(alloc, draft, *name, *pins),
        Edit::SetBars { name, bars } => set_bars(alloc, draft, *name, bars),
        Edit::SetReserved { name, reserved } => set_reserved(alloc, draft, *name, reserved),
        _ => unreachable!(),
    }
}
