//! How wires are printed.
ghost use Rattle.std.specs.Prelude.{◌≡◌, ◌++◌, ◌∷◌, [], map, take, false, IfOk};
ghost use Rattle.serde_json.specs.View.{view};
ghost use Rattle.serde_json.specs.Written.{has_float};
ghost use Rattle.loom_answer.specs.Wires.{end_shown, segment_shown, wire_shown};

use crate::values::{tagged, whole};
use loom_base::{NoMemory, SegmentNo};
use loom_json::shown::{Shown, array, with};
use loom_types::{End, Wire};
use serde_json::{Map, Value};
use std::alloc::Global;

/// Shows an end of a wire: a word and its numbers.
struct EndShown;

impl Shown for EndShown {
    type Of = End;

    ghost shows = { end_shown };

    fn value(alloc: Global, end: &End) -> Result<Value, NoMemory> {
        match *end {
            End::Cavity(cavity) => tagged(alloc, "cavity", &[u64::from(cavity.0)]),
            End::Splice { node, ordinal } => tagged(
                alloc,
                "splice",
                &[u64::from(node.0), u64::from(ordinal)],
            ),
            End::Pin { coupler, pin, side } => tagged(
                alloc,
                "pin",
                &[u64::from(coupler.0), u64::from(pin), u64::from(side)],
            ),
        }
    }
}

/// Shows a segment by its position.
struct SegmentShown;

impl Shown for SegmentShown {
    type Of = SegmentNo;

    ghost shows = { segment_shown };

    fn value(_alloc: Global, segment: &SegmentNo) -> Result<Value, NoMemory> {
        Ok(whole(u64::from(segment.0)))
    }
}

/// Shows a wire.
pub(crate) struct WireShown;

impl Shown for WireShown {
    type Of = Wire;

    ghost shows = { wire_shown };

    fn value(alloc: Global, wire: &Wire) -> Result<Value, NoMemory> {
        let from = EndShown::value(alloc, &wire.from)?;
        let to = EndShown::value(alloc, &wire.to)?;
        let route = array::<SegmentShown>(alloc, wire.route.as_slice())?;
        let members = with(alloc, Map::new(alloc), "from", from)?;
        let members = with(alloc, members, "length", whole(wire.length))?;
        let members = with(alloc, members, "net", whole(u64::from(wire.net.0)))?;
        let members = with(alloc, members, "route", route)?;
        let members = with(alloc, members, "row", whole(u64::from(wire.row)))?;
        let members = with(alloc, members, "to", to)?;
        Ok(Value::Object(members))
    }
}

/// The value of a wire, as it stands in the answer that has a plan. No number is a float. The one
/// error is want of memory.
#[tactic(auto, using(crate::proofs::WithoutFloats::plain_wire))]
pub fn wire_value(alloc: Global, wire: &Wire) -> Result<Value, NoMemory>
    ensures value { IfOk result (λ value. view value ≡ wire_shown wire.now) }
    ensures plain { IfOk result (λ value. has_float (view value) ≡ false) }
{
    WireShown::value(alloc, wire)
}
