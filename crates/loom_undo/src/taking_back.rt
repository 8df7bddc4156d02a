ghost use Rattle.std.specs.Prelude.{◌≡◌, IfOk};
ghost use Rattle.loom_undo.specs.Inverse.{without_last_of, taken_back};

use crate::lists::{drop_last, put};
use crate::nets::{with_terminal_at, without_last_terminal};
use crate::{Inverse, ListName};
use loom_base::{Branch, List, Name, NoMemory, Pins, Price};
use loom_edits::{
    with_bars, with_branch, with_class, with_length, with_pins, with_price, with_reserved,
    with_when,
};
use loom_formula::Formula;
use loom_project::{Draft, TerminalDraft};
use std::alloc::Global;

fn drop_last_of(list: ListName, draft: &mut Draft)
    ensures { draft.new ≡ without_last_of list draft.old }
{
    match list {
        ListName::Options => drop_last(&mut draft.options),
        ListName::Rules => drop_last(&mut draft.rules),
        ListName::Nodes => drop_last(&mut draft.nodes),
        ListName::Segments => drop_last(&mut draft.segments),
        ListName::Cavities => drop_last(&mut draft.cavities),
        ListName::Nets => drop_last(&mut draft.nets),
    }
}

#[tactic(auto, unfolding(crate::specs::Inverse::taken_back))]
fn branch_back(draft: Draft, at: u32, branch: Branch) -> Draft
    ensures { result ≡ taken_back (Inverse.SetBranch at branch) draft }
{
    let mut draft = draft;
    draft.nodes = with_branch(draft.nodes, at as usize, branch);
    draft
}

#[tactic(auto, unfolding(crate::specs::Inverse::taken_back))]
fn length_back(draft: Draft, at: u32, length: Price) -> Draft
    ensures { result ≡ taken_back (Inverse.SetLength at length) draft }
{
    let mut draft = draft;
    draft.segments = with_length(draft.segments, at as usize, length);
    draft
}

#[tactic(auto, unfolding(crate::specs::Inverse::taken_back))]
fn price_back(draft: Draft, at: u32, price: Price) -> Draft
    ensures { result ≡ taken_back (Inverse.SetPrice at price) draft }
{
    let mut draft = draft;
    draft.segments = with_price(draft.segments, at as usize, price);
    draft
}

#[tactic(auto, unfolding(crate::specs::Inverse::taken_back))]
fn pins_back(draft: Draft, at: u32, pins: Pins) -> Draft
    ensures { result ≡ taken_back (Inverse.SetPins at pins) draft }
{
    let mut draft = draft;
    draft.segments = with_pins(draft.segments, at as usize, pins);
    draft
}

#[tactic(auto, unfolding(crate::specs::Inverse::taken_back))]
fn bars_back(draft: Draft, at: u32, bars: List<Name>) -> Draft
    ensures { result ≡ taken_back (Inverse.SetBars at bars) draft }
{
    let mut draft = draft;
    draft.segments = with_bars(draft.segments, at as usize, bars);
    draft
}

#[tactic(auto, unfolding(crate::specs::Inverse::taken_back))]
fn reserved_back(draft: Draft, at: u32, reserved: List<u16>) -> Draft
    ensures { result ≡ taken_back (Inverse.SetReserved at reserved) draft }
{
    let mut draft = draft;
    draft.segments = with_reserved(draft.segments, at as usize, reserved);
    draft
}

#[tactic(auto, unfolding(crate::specs::Inverse::taken_back))]
fn class_back(draft: Draft, net: u32, class: Name) -> Draft
    ensures { result ≡ taken_back (Inverse.SetClass net class) draft }
{
    let mut draft = draft;
    draft.nets = with_class(draft.nets, net as usize, class);
    draft
}

#[tactic(auto, unfolding(crate::specs::Inverse::taken_back))]
fn when_back(draft: Draft, net: u32, at: u32, when: Formula) -> Draft
    ensures { result ≡ taken_back (Inverse.SetWhen net at when) draft }
{
    let mut draft = draft;
    draft.nets = with_when(draft.nets, net as usize, at as usize, when);
    draft
}

#[tactic(auto, unfolding(crate::specs::Inverse::taken_back))]
fn terminal_dropped(draft: Draft, net: u32) -> Draft
    ensures { result ≡ taken_back (Inverse.DropTerminal net) draft }
{
    let mut draft = draft;
    draft.nets = without_last_terminal(draft.nets, net as usize);
    draft
}

#[tactic(auto, unfolding(crate::specs::Inverse::taken_back))]
fn terminal_put(draft: Draft, net: u32, at: u32, terminal: TerminalDraft) -> Result<Draft, NoMemory>
    ensures { IfOk result (λ made. made ≡ taken_back (Inverse.PutTerminal net at terminal) draft) }
{
    let mut draft = draft;
    draft.nets = with_terminal_at(draft.nets, net as usize, at, terminal)?;
    Ok(draft)
}

/// What the inverse makes of the draft.
#[tactic(auto, unfolding(crate::specs::Inverse::taken_back))]
pub fn made_back(alloc: Global, inverse: &Inverse, draft: Draft) -> Result<Draft, NoMemory>
    ensures { IfOk result (λ made. made ≡ taken_back inverse.now draft) }
{
    let mut draft = draft;
    match inverse {
        Inverse::DropLast(list) => drop_last_of(*list, &mut draft),
        Inverse::DropTerminal { net } => draft = terminal_dropped(draft, *net),
        Inverse::PutOption { at, name } => put(&mut draft.options, *at, *name)?,
        Inverse::PutRule { at, when } => put(&mut draft.rules, *at, when.copy(alloc)?)?,
        Inverse::PutNode { at, node } => put(&mut draft.nodes, *at, *node)?,
        Inverse::PutSegment { at, segment } => {
            put(&mut draft.segments, *at, segment.copy(alloc)?)?
        }
        Inverse::PutCavity { at, cavity } => put(&mut draft.cavities, *at, *cavity)?,
        Inverse::PutNet { at, net } => put(&mut draft.nets, *at, net.copy(alloc)?)?,
        Inverse::PutTerminal { net, at, terminal } => {
            draft = terminal_put(draft, *net, *at, terminal.copy(alloc)?)?
        }
        Inverse::SetLength { at, length } => draft = length_back(draft, *at, *length),
        Inverse::SetPrice { at, price } => draft = price_back(draft, *at, *price),
        Inverse::SetPins { at, pins } => draft = pins_back(draft, *at, *pins),
        Inverse::SetBranch { at, branch } => draft = branch_back(draft, *at, *branch),
        Inverse::SetWhen { net, at, when } => {
            draft = when_back(draft, *net, *at, when.copy(alloc)?)
        }
        Inverse::SetClass { net, class } => draft = class_back(draft, *net, *class),
        Inverse::SetBars { at, bars } => draft = bars_back(draft, *at, bars.copy(alloc)?),
        Inverse::SetReserved { at, reserved } => {
            draft = reserved_back(draft, *at, reserved.copy(alloc)?)
        }
    }
    Ok(draft)
}
