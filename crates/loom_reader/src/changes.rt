ghost use Rattle.std.specs.Prelude.{◌≡◌, codes};
ghost use Rattle.serde_json.specs.View.{view};
ghost use Rattle.loom_json.specs.Forms.{Gives, keyed};
ghost use Rattle.loom_reader.specs.Changes.{edit_of, named_form, add_rule_form, remove_rule_form, rule_form, add_node_form, add_run_keys, add_run_form, add_coupler_keys, add_coupler_form, add_cavity_form, add_net_keys, add_net_form, addition_form, add_terminal_form, remove_terminal_form, set_when_form, terminal_op_form, setting_key, set_form, setting_form};

use crate::formula::FormulaForm;
use crate::numbers::{BranchForm, PinForm, PinsForm, PriceForm, WholeForm};
use crate::op::{Addition, NamedOp, RuleOp, Setting, TerminalOp};
use crate::parts::{TerminalForm, bars, class, has_classes, reserved};
use loom_base::Name;
use loom_edits::Edit;
use loom_json::ShapeStop;
use loom_json::forms::{self, ListForm, NameForm};
use serde_json::Value;
use std::alloc::Global;

/// The edit of a thing that is told by its name alone.
fn edit_of(op: NamedOp, name: Name) -> Edit
    ensures { result ≡ edit_of op name }
{
    match op {
        NamedOp::AddOption => Edit::AddOption { name },
        NamedOp::RemoveOption => Edit::RemoveOption { name },
        NamedOp::RemoveNode => Edit::RemoveNode { name },
        NamedOp::RemoveSegment => Edit::RemoveSegment { name },
        NamedOp::RemoveCavity => Edit::RemoveCavity { name },
        NamedOp::RemoveNet => Edit::RemoveNet { name },
    }
}

/// An edit with a name alone.
#[tactic(auto, unfolding(crate::specs::Changes::named_form))]
pub fn named(alloc: Global, value: &Value, op: NamedOp) -> Result<Edit, ShapeStop>
    ensures { Gives result (named_form op (view value.now)) }
{
    forms::keyed(alloc, value, &["op", "name"])?;
    let name = forms::at_key::<NameForm>(alloc, value, "name")?;
    Ok(edit_of(op, name))
}

#[tactic(auto, unfolding(crate::specs::Changes::add_rule_form))]
fn add_rule(alloc: Global, value: &Value) -> Result<Edit, ShapeStop>
    ensures { Gives result (add_rule_form (view value.now)) }
{
    forms::keyed(alloc, value, &["op", "when"])?;
    let when = forms::at_key::<FormulaForm>(alloc, value, "when")?;
    Ok(Edit::AddRule { when })
}

#[tactic(auto, unfolding(crate::specs::Changes::remove_rule_form))]
fn remove_rule(alloc: Global, value: &Value) -> Result<Edit, ShapeStop>
    ensures { Gives result (remove_rule_form (view value.now)) }
{
    forms::keyed(alloc, value, &["op", "number"])?;
    let number = forms::at_key::<WholeForm>(alloc, value, "number")?;
    Ok(Edit::RemoveRule { number })
}

/// An edit of the rules.
pub fn of_rule(alloc: Global, value: &Value, op: RuleOp) -> Result<Edit, ShapeStop>
    ensures { Gives result (rule_form op (view value.now)) }
{
    match op {
        RuleOp::Add => add_rule(alloc, value),
        RuleOp::Remove => remove_rule(alloc, value),
    }
}

#[tactic(auto, unfolding(crate::specs::Changes::add_node_form))]
fn add_node(alloc: Global, value: &Value) -> Result<Edit, ShapeStop>
    ensures { Gives result (add_node_form (view value.now)) }
{
    forms::keyed(alloc, value, &["op", "name", "harness", "branch"])?;
    let name = forms::at_key::<NameForm>(alloc, value, "name")?;
    let harness = forms::at_key::<NameForm>(alloc, value, "harness")?;
    let branch = forms::at_key::<BranchForm>(alloc, value, "branch")?;
    Ok(Edit::AddNode {
        name,
        harness,
        branch,
    })
}

/// An object with no other keys than those of a run that is added.
fn add_run_keyed(alloc: Global, value: &Value, version: u8) -> Result<(), ShapeStop>
    ensures { Gives result (keyed (add_run_keys version) (view value.now)) }
{
    if has_classes(version) {
        let keys = ["op", "name", "from", "to", "length", "bars"];
        forms::keyed(alloc, value, &keys)
    } else {
        forms::keyed(alloc, value, &["op", "name", "from", "to", "length"])
    }
}

#[tactic(auto, unfolding(crate::specs::Changes::add_run_form))]
fn add_run(alloc: Global, value: &Value, version: u8) -> Result<Edit, ShapeStop>
    ensures { Gives result (add_run_form version (view value.now)) }
{
    add_run_keyed(alloc, value, version)?;
    let name = forms::at_key::<NameForm>(alloc, value, "name")?;
    let from = forms::at_key::<NameForm>(alloc, value, "from")?;
    let to = forms::at_key::<NameForm>(alloc, value, "to")?;
    let length = forms::at_key::<PriceForm>(alloc, value, "length")?;
    let bars = bars(alloc, value, version)?;
    Ok(Edit::AddRun {
        name,
        from,
        to,
        length,
        bars,
    })
}

/// An object with no other keys than those of a coupler that is added.
fn add_coupler_keyed(alloc: Global, value: &Value, version: u8) -> Result<(), ShapeStop>
    ensures { Gives result (keyed (add_coupler_keys version) (view value.now)) }
{
    if has_classes(version) {
        let keys = [
            "op", "name", "from", "to", "price", "pins", "bars", "reserved",
        ];
        forms::keyed(alloc, value, &keys)
    } else {
        let keys = ["op", "name", "from", "to", "price", "pins"];
        forms::keyed(alloc, value, &keys)
    }
}

#[tactic(auto, unfolding(crate::specs::Changes::add_coupler_form))]
fn add_coupler(alloc: Global, value: &Value, version: u8) -> Result<Edit, ShapeStop>
    ensures { Gives result (add_coupler_form version (view value.now)) }
{
    add_coupler_keyed(alloc, value, version)?;
    let name = forms::at_key::<NameForm>(alloc, value, "name")?;
    let from = forms::at_key::<NameForm>(alloc, value, "from")?;
    let to = forms::at_key::<NameForm>(alloc, value, "to")?;
    let price = forms::at_key::<PriceForm>(alloc, value, "price")?;
    let pins = forms::at_key::<PinsForm>(alloc, value, "pins")?;
    let bars = bars(alloc, value, version)?;
    let reserved = reserved(alloc, value, version)?;
    Ok(Edit::AddCoupler {
        name,
        from,
        to,
        price,
        pins,
        bars,
        reserved,
    })
}

#[tactic(auto, unfolding(crate::specs::Changes::add_cavity_form))]
fn add_cavity(alloc: Global, value: &Value) -> Result<Edit, ShapeStop>
    ensures { Gives result (add_cavity_form (view value.now)) }
{
    forms::keyed(alloc, value, &["op", "name", "device", "node"])?;
    let name = forms::at_key::<NameForm>(alloc, value, "name")?;
    let device = forms::at_key::<NameForm>(alloc, value, "device")?;
    let node = forms::at_key::<NameForm>(alloc, value, "node")?;
    Ok(Edit::AddCavity { name, device, node })
}

/// An object with no other keys than those of a net that is added.
fn add_net_keyed(alloc: Global, value: &Value, version: u8) -> Result<(), ShapeStop>
    ensures { Gives result (keyed (add_net_keys version) (view value.now)) }
{
    if has_classes(version) {
        forms::keyed(alloc, value, &["op", "name", "class", "terminals"])
    } else {
        forms::keyed(alloc, value, &["op", "name", "terminals"])
    }
}

#[tactic(auto, unfolding(crate::specs::Changes::add_net_form))]
fn add_net(alloc: Global, value: &Value, version: u8) -> Result<Edit, ShapeStop>
    ensures { Gives result (add_net_form version (view value.now)) }
{
    add_net_keyed(alloc, value, version)?;
    let name = forms::at_key::<NameForm>(alloc, value, "name")?;
    let class = class(alloc, value, version)?;
    let terminals = forms::at_key::<ListForm<TerminalForm>>(alloc, value, "terminals")?;
    Ok(Edit::AddNet {
        name,
        class,
        terminals,
    })
}

/// A thing that is added and has more than a name.
pub fn addition(alloc: Global, value: &Value, version: u8, op: Addition) -> Result<Edit, ShapeStop>
    ensures { Gives result (addition_form version op (view value.now)) }
{
    match op {
        Addition::Node => add_node(alloc, value),
        Addition::Run => add_run(alloc, value, version),
        Addition::Coupler => add_coupler(alloc, value, version),
        Addition::Cavity => add_cavity(alloc, value),
        Addition::Net => add_net(alloc, value, version),
    }
}

#[tactic(auto, unfolding(crate::specs::Changes::add_terminal_form))]
fn add_terminal(alloc: Global, value: &Value) -> Result<Edit, ShapeStop>
    ensures { Gives result (add_terminal_form (view value.now)) }
{
    forms::keyed(alloc, value, &["op", "net", "cavity", "when"])?;
    let net = forms::at_key::<NameForm>(alloc, value, "net")?;
    let cavity = forms::at_key::<NameForm>(alloc, value, "cavity")?;
    let when = forms::at_key::<FormulaForm>(alloc, value, "when")?;
    Ok(Edit::AddTerminal { net, cavity, when })
}

#[tactic(auto, unfolding(crate::specs::Changes::remove_terminal_form))]
fn remove_terminal(alloc: Global, value: &Value) -> Result<Edit, ShapeStop>
    ensures { Gives result (remove_terminal_form (view value.now)) }
{
    forms::keyed(alloc, value, &["op", "net", "cavity"])?;
    let net = forms::at_key::<NameForm>(alloc, value, "net")?;
    let cavity = forms::at_key::<NameForm>(alloc, value, "cavity")?;
    Ok(Edit::RemoveTerminal { net, cavity })
}

#[tactic(auto, unfolding(crate::specs::Changes::set_when_form))]
fn set_when(alloc: Global, value: &Value) -> Result<Edit, ShapeStop>
    ensures { Gives result (set_when_form (view value.now)) }
{
    forms::keyed(alloc, value, &["op", "net", "cavity", "when"])?;
    let net = forms::at_key::<NameForm>(alloc, value, "net")?;
    let cavity = forms::at_key::<NameForm>(alloc, value, "cavity")?;
    let when = forms::at_key::<FormulaForm>(alloc, value, "when")?;
    Ok(Edit::SetWhen { net, cavity, when })
}

/// An edit of a net's terminals.
pub fn of_terminal(alloc: Global, value: &Value, op: TerminalOp) -> Result<Edit, ShapeStop>
    ensures { Gives result (terminal_op_form op (view value.now)) }
{
    match op {
        TerminalOp::Add => add_terminal(alloc, value),
        TerminalOp::Remove => remove_terminal(alloc, value),
        TerminalOp::SetWhen => set_when(alloc, value),
    }
}

impl Setting {
    /// The key of what the thing gets.
    fn key(self) -> &'static str
        ensures { result.now ≡ setting_key self }
    {
        match self {
            Setting::Length => "length",
            Setting::Price => "price",
            Setting::Pins => "pins",
            Setting::Branch => "branch",
            Setting::Class => "class",
            Setting::Bars => "bars",
            Setting::Reserved => "reserved",
        }
    }
}

/// What the thing of a name gets.
fn set(alloc: Global, value: &Value, op: Setting, name: Name) -> Result<Edit, ShapeStop>
    ensures { Gives result (set_form op name (view value.now)) }
{
    match op {
        Setting::Length => {
            let length = forms::at_key::<PriceForm>(alloc, value, "length")?;
            Ok(Edit::SetLength { name, length })
        }
        Setting::Price => {
            let price = forms::at_key::<PriceForm>(alloc, value, "price")?;
            Ok(Edit::SetPrice { name, price })
        }
        Setting::Pins => {
            let pins = forms::at_key::<PinsForm>(alloc, value, "pins")?;
            Ok(Edit::SetPins { name, pins })
        }
        Setting::Branch => {
            let branch = forms::at_key::<BranchForm>(alloc, value, "branch")?;
            Ok(Edit::SetBranch { name, branch })
        }
        Setting::Class => {
            let class = forms::at_key::<NameForm>(alloc, value, "class")?;
            Ok(Edit::SetClass { name, class })
        }
        Setting::Bars => {
            let bars = forms::at_key::<ListForm<NameForm>>(alloc, value, "bars")?;
            Ok(Edit::SetBars { name, bars })
        }
        Setting::Reserved => {
            let reserved = forms::at_key::<ListForm<PinForm>>(alloc, value, "reserved")?;
            Ok(Edit::SetReserved { name, reserved })
        }
    }
}

/// An edit that gives the thing of a name something else.
#[tactic(auto, unfolding(crate::specs::Changes::setting_form))]
pub fn setting(alloc: Global, value: &Value, op: Setting) -> Result<Edit, ShapeStop>
    ensures { Gives result (setting_form op (view value.now)) }
{
    forms::keyed(alloc, value, &["op", "name", op.key()])?;
    let name = forms::at_key::<NameForm>(alloc, value, "name")?;
    set(alloc, value, op, name)
}
