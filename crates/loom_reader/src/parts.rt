ghost use Rattle.std.specs.Prelude.{◌≡◌, codes};
ghost use Rattle.serde_json.specs.View.{view};
ghost use Rattle.loom_json.specs.Forms.{Gives, keyed};
ghost use Rattle.loom_reader.specs.Parts.{has_classes, bars_form, reserved_form, class_form, node_form, run_keys, run_form, coupler_keys, coupler_form, has_coupler_keys, segment_form, cavity_form, terminal_form, net_keys, net_form};

use crate::formula::FormulaForm;
use crate::numbers::{BranchForm, PinForm, PinsForm, PriceForm};
use loom_base::{List, Name};
use loom_json::forms::{self, Form, ListForm, NameForm};
use loom_json::{ShapeStop, member};
use loom_project::{CavityDraft, NetDraft, NodeDraft, SegmentDraft, TerminalDraft};
use loom_topology::Kind;
use serde_json::Value;
use std::alloc::Global;

/// A node.
pub struct NodeForm;

impl Form for NodeForm {
    type Out = NodeDraft;

    ghost reads = { node_form };

    #[tactic(auto, unfolding(crate::specs::Parts::node_form))]
    fn read(alloc: Global, value: &Value) -> Result<NodeDraft, ShapeStop> {
        forms::keyed(alloc, value, &["name", "harness", "branch"])?;
        let name = forms::at_key::<NameForm>(alloc, value, "name")?;
        let harness = forms::at_key::<NameForm>(alloc, value, "harness")?;
        let branch = forms::at_key::<BranchForm>(alloc, value, "branch")?;
        Ok(NodeDraft {
            name,
            harness,
            branch,
        })
    }
}

/// Whether a segment is read as a coupler.
fn has_coupler_keys(value: &Value) -> bool
    ensures { result ≡ has_coupler_keys (view value.now) }
{
    member(value, "price").is_some() || member(value, "pins").is_some()
}

/// Whether documents of the version write down classes, and what segments bar and reserve.
pub fn has_classes(version: u8) -> bool
    ensures { result ≡ has_classes version }
{
    version == 2
}

/// The classes that a segment bars.
pub fn bars(alloc: Global, value: &Value, version: u8) -> Result<List<Name>, ShapeStop>
    ensures { Gives result (bars_form version (view value.now)) }
{
    if has_classes(version) {
        forms::at_key::<ListForm<NameForm>>(alloc, value, "bars")
    } else {
        Ok(List::new(alloc))
    }
}

/// The pins that a coupler reserves.
pub fn reserved(alloc: Global, value: &Value, version: u8) -> Result<List<u16>, ShapeStop>
    ensures { Gives result (reserved_form version (view value.now)) }
{
    if has_classes(version) {
        forms::at_key::<ListForm<PinForm>>(alloc, value, "reserved")
    } else {
        Ok(List::new(alloc))
    }
}

/// An object with no other keys than a run's.
fn run_keyed(alloc: Global, value: &Value, version: u8) -> Result<(), ShapeStop>
    ensures { Gives result (keyed (run_keys version) (view value.now)) }
{
    if has_classes(version) {
        forms::keyed(alloc, value, &["name", "from", "to", "length", "bars"])
    } else {
        forms::keyed(alloc, value, &["name", "from", "to", "length"])
    }
}

#[tactic(auto, unfolding(crate::specs::Parts::run_form))]
fn run(alloc: Global, value: &Value, version: u8) -> Result<SegmentDraft, ShapeStop>
    ensures { Gives result (run_form version (view value.now)) }
{
    run_keyed(alloc, value, version)?;
    let name = forms::at_key::<NameForm>(alloc, value, "name")?;
    let from = forms::at_key::<NameForm>(alloc, value, "from")?;
    let to = forms::at_key::<NameForm>(alloc, value, "to")?;
    let length = forms::at_key::<PriceForm>(alloc, value, "length")?;
    let bars = bars(alloc, value, version)?;
    Ok(SegmentDraft {
        name,
        from,
        to,
        kind: Kind::Run { length },
        bars,
        reserved: List::new(alloc),
    })
}

/// An object with no other keys than a coupler's.
fn coupler_keyed(alloc: Global, value: &Value, version: u8) -> Result<(), ShapeStop>
    ensures { Gives result (keyed (coupler_keys version) (view value.now)) }
{
    if has_classes(version) {
        let keys = ["name", "from", "to", "price", "pins", "bars", "reserved"];
        forms::keyed(alloc, value, &keys)
    } else {
        forms::keyed(alloc, value, &["name", "from", "to", "price", "pins"])
    }
}

#[tactic(auto, unfolding(crate::specs::Parts::coupler_form))]
fn coupler(alloc: Global, value: &Value, version: u8) -> Result<SegmentDraft, ShapeStop>
    ensures { Gives result (coupler_form version (view value.now)) }
{
    coupler_keyed(alloc, value, version)?;
    let name = forms::at_key::<NameForm>(alloc, value, "name")?;
    let from = forms::at_key::<NameForm>(alloc, value, "from")?;
    let to = forms::at_key::<NameForm>(alloc, value, "to")?;
    let price = forms::at_key::<PriceForm>(alloc, value, "price")?;
    let pins = forms::at_key::<PinsForm>(alloc, value, "pins")?;
    let bars = bars(alloc, value, version)?;
    let reserved = reserved(alloc, value, version)?;
    Ok(SegmentDraft {
        name,
        from,
        to,
        kind: Kind::Coupler { price, pins },
        bars,
        reserved,
    })
}

/// A run or a coupler, in the forms of a version.
pub struct SegmentForm<const VERSION: u8>;

impl<const VERSION: u8> Form for SegmentForm<VERSION> {
    type Out = SegmentDraft;

    ghost reads = { segment_form VERSION };

    #[tactic(auto, unfolding(crate::specs::Parts::segment_form))]
    fn read(alloc: Global, value: &Value) -> Result<SegmentDraft, ShapeStop> {
        if has_coupler_keys(value) {
            coupler(alloc, value, VERSION)
        } else {
            run(alloc, value, VERSION)
        }
    }
}

/// A cavity.
pub struct CavityForm;

impl Form for CavityForm {
    type Out = CavityDraft;

    ghost reads = { cavity_form };

    #[tactic(auto, unfolding(crate::specs::Parts::cavity_form))]
    fn read(alloc: Global, value: &Value) -> Result<CavityDraft, ShapeStop> {
        forms::keyed(alloc, value, &["name", "device", "node"])?;
        let name = forms::at_key::<NameForm>(alloc, value, "name")?;
        let device = forms::at_key::<NameForm>(alloc, value, "device")?;
        let node = forms::at_key::<NameForm>(alloc, value, "node")?;
        Ok(CavityDraft { name, device, node })
    }
}

/// A terminal of a net.
pub struct TerminalForm;

impl Form for TerminalForm {
    type Out = TerminalDraft;

    ghost reads = { terminal_form };

    #[tactic(auto, unfolding(crate::specs::Parts::terminal_form))]
    fn read(alloc: Global, value: &Value) -> Result<TerminalDraft, ShapeStop> {
        forms::keyed(alloc, value, &["cavity", "when"])?;
        let cavity = forms::at_key::<NameForm>(alloc, value, "cavity")?;
        let when = forms::at_key::<FormulaForm>(alloc, value, "when")?;
        Ok(TerminalDraft { cavity, when })
    }
}

/// The class of each net where classes aren't written down.
#[tactic(auto, unfolding(loom_base::specs::Names::is_name))]
fn standard_class() -> Name
    ensures { result ≡ codes "std" }
{
    match Name::parse(b"std") {
        Some(class) => class,
        None => unreachable!(),
    }
}

/// The class of a net.
pub fn class(alloc: Global, value: &Value, version: u8) -> Result<Name, ShapeStop>
    ensures { Gives result (class_form version (view value.now)) }
{
    if has_classes(version) {
        forms::at_key::<NameForm>(alloc, value, "class")
    } else {
        Ok(standard_class())
    }
}

/// An object with no other keys than a net's.
fn net_keyed(alloc: Global, value: &Value, version: u8) -> Result<(), ShapeStop>
    ensures { Gives result (keyed (net_keys version) (view value.now)) }
{
    if has_classes(version) {
        forms::keyed(alloc, value, &["name", "class", "terminals"])
    } else {
        forms::keyed(alloc, value, &["name", "terminals"])
    }
}

/// A net, in the forms of a version.
pub struct NetForm<const VERSION: u8>;

impl<const VERSION: u8> Form for NetForm<VERSION> {
    type Out = NetDraft;

    ghost reads = { net_form VERSION };

    #[tactic(auto, unfolding(crate::specs::Parts::net_form))]
    fn read(alloc: Global, value: &Value) -> Result<NetDraft, ShapeStop> {
        net_keyed(alloc, value, VERSION)?;
        let name = forms::at_key::<NameForm>(alloc, value, "name")?;
        let class = class(alloc, value, VERSION)?;
        let terminals = forms::at_key::<ListForm<TerminalForm>>(alloc, value, "terminals")?;
        Ok(NetDraft {
            name,
            class,
            terminals,
        })
    }
}
