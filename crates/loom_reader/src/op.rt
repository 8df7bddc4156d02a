ghost use Rattle.std.specs.Prelude.{◌≡◌};
ghost use Rattle.serde_json.specs.View.{view};
ghost use Rattle.loom_reader.specs.Ops.{op_of, sets_classes, needs_classes, known_in, op_form};

use crate::parts::has_classes;
use loom_json::ShapeStop;
use loom_json::forms::{self, Form};
use serde_json::Value;
use std::alloc::Global;

/// What an entry of a document's edits does, as its word says.
#[derive(Clone, Copy, Debug)]
pub enum Op {
    Price,
    Undo,
    Redo,
    Named(NamedOp),
    OfRule(RuleOp),
    Add(Addition),
    OfTerminal(TerminalOp),
    Set(Setting),
}

/// An edit of a thing that is told by its name alone.
#[derive(Clone, Copy, Debug)]
pub enum NamedOp {
    AddOption,
    RemoveOption,
    RemoveNode,
    RemoveSegment,
    RemoveCavity,
    RemoveNet,
}

/// An edit of the rules.
#[derive(Clone, Copy, Debug)]
pub enum RuleOp {
    Add,
    Remove,
}

/// The kind of a thing that is added and has more than a name.
#[derive(Clone, Copy, Debug)]
pub enum Addition {
    Node,
    Run,
    Coupler,
    Cavity,
    Net,
}

/// An edit of a net's terminals.
#[derive(Clone, Copy, Debug)]
pub enum TerminalOp {
    Add,
    Remove,
    SetWhen,
}

/// What the thing of a name gets.
#[derive(Clone, Copy, Debug)]
pub enum Setting {
    Length,
    Price,
    Pins,
    Branch,
    Class,
    Bars,
    Reserved,
}

/// What a word does; None where it is no word for anything.
fn op_of(word: &str) -> Option<Op>
    ensures { result ≡ op_of word.now }
{
    match word {
        "add_option" => Some(Op::Named(NamedOp::AddOption)),
        "remove_option" => Some(Op::Named(NamedOp::RemoveOption)),
        "add_rule" => Some(Op::OfRule(RuleOp::Add)),
        "remove_rule" => Some(Op::OfRule(RuleOp::Remove)),
        "add_node" => Some(Op::Add(Addition::Node)),
        "remove_node" => Some(Op::Named(NamedOp::RemoveNode)),
        "add_run" => Some(Op::Add(Addition::Run)),
        "add_coupler" => Some(Op::Add(Addition::Coupler)),
        "remove_segment" => Some(Op::Named(NamedOp::RemoveSegment)),
        "add_cavity" => Some(Op::Add(Addition::Cavity)),
        "remove_cavity" => Some(Op::Named(NamedOp::RemoveCavity)),
        "add_net" => Some(Op::Add(Addition::Net)),
        "remove_net" => Some(Op::Named(NamedOp::RemoveNet)),
        "add_terminal" => Some(Op::OfTerminal(TerminalOp::Add)),
        "remove_terminal" => Some(Op::OfTerminal(TerminalOp::Remove)),
        "set_length" => Some(Op::Set(Setting::Length)),
        "set_price" => Some(Op::Set(Setting::Price)),
        "set_pins" => Some(Op::Set(Setting::Pins)),
        "set_branch" => Some(Op::Set(Setting::Branch)),
        "set_when" => Some(Op::OfTerminal(TerminalOp::SetWhen)),
        "set_class" => Some(Op::Set(Setting::Class)),
        "set_bars" => Some(Op::Set(Setting::Bars)),
        "set_reserved" => Some(Op::Set(Setting::Reserved)),
        "price" => Some(Op::Price),
        "undo" => Some(Op::Undo),
        "redo" => Some(Op::Redo),
        _ => None,
    }
}

impl Setting {
    /// Whether only the second version writes down what is set.
    fn sets_classes(self) -> bool
        ensures { result ≡ sets_classes self }
    {
        matches!(self, Setting::Class | Setting::Bars | Setting::Reserved)
    }
}

impl Op {
    /// Whether only the second version has the op.
    fn needs_classes(self) -> bool
        ensures { result ≡ needs_classes self }
    {
        match self {
            Op::Set(setting) => setting.sets_classes(),
            _ => false,
        }
    }

    /// The op, where the version has it.
    fn known_in(self, version: u8) -> Option<Op>
        ensures { result ≡ known_in version self }
    {
        if has_classes(version) || !self.needs_classes() {
            Some(self)
        } else {
            None
        }
    }
}

/// A word for an op of a version.
pub struct OpForm<const VERSION: u8>;

impl<const VERSION: u8> Form for OpForm<VERSION> {
    type Out = Op;

    ghost reads = { op_form VERSION };

    fn read(alloc: Global, value: &Value) -> Result<Op, ShapeStop> {
        match value.as_str().and_then(op_of) {
            Some(op) => forms::required(alloc, op.known_in(VERSION)),
            None => Err(ShapeStop::here(alloc)),
        }
    }
}
