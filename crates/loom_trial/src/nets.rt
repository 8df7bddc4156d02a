ghost use Rattle.std.specs.Prelude.{◌≡◌, ◌≤◌, ◌++◌, IfOk, OnOk, IsTrue};
ghost use Rattle.std.specs.List.{flat_map};
ghost use Rattle.loom_trial.specs.Trial.{are_letters, net as net_of, terminal as terminal_of, power_net as power_net_of, signal_net as signal_net_of, door_nets, doors};

use crate::names::{label, numbered_name};
use crate::options::{either, holds};
use loom_base::{List, NoMemory};
use loom_formula::Formula;
use loom_project::{NetDraft, TerminalDraft};
use std::alloc::Global;

/// A numbered cavity that a net needs where the formula holds.
#[tactic(auto, unfolding(crate::specs::Trial::terminal))]
fn terminal(alloc: Global, letters: &str, i: u32, when: Formula) -> Result<TerminalDraft, NoMemory>
    requires letters { IsTrue (are_letters letters.now) }
    requires few { i ≤ 200 }
    ensures { IfOk result (λ terminal. terminal ≡ terminal_of letters.now i when) }
{
    Ok(TerminalDraft {
        cavity: numbered_name(alloc, letters, i)?,
        when,
    })
}

/// A numbered net of the standard class.
#[tactic(auto, unfolding(loom_base::specs::Names::is_name))]
fn net(
    alloc: Global,
    letters: &str,
    i: u32,
    terminals: List<TerminalDraft>,
) -> Result<NetDraft, NoMemory>
    requires letters { IsTrue (are_letters letters.now) }
    requires few { i ≤ 200 }
    ensures { IfOk result (λ net. net ≡ net_of letters.now i terminals) }
{
    Ok(NetDraft {
        name: numbered_name(alloc, letters, i)?,
        class: label("std"),
        terminals,
    })
}

/// The net that always joins the body's first node with a door's lock.
#[tactic(auto, unfolding(crate::specs::Trial::power_net))]
fn power_net(alloc: Global, i: u32) -> Result<NetDraft, NoMemory>
    requires { i ≤ 200 }
    ensures { IfOk result (λ net. net ≡ power_net_of i) }
{
    let mut terminals = List::new(alloc);
    terminals.push(terminal(alloc, "PB", i, Formula::Always)?)?;
    terminals.push(terminal(alloc, "PD", i, Formula::Always)?)?;
    net(alloc, "P", i, terminals)
}

/// The net whose cavities depend on the options.
#[tactic(auto, unfolding(crate::specs::Trial::signal_net))]
fn signal_net(alloc: Global, i: u32) -> Result<NetDraft, NoMemory>
    requires { i ≤ 200 }
    ensures { IfOk result (λ net. net ≡ signal_net_of i) }
{
    let mut terminals = List::new(alloc);
    terminals.push(terminal(alloc, "SB", i, Formula::Always)?)?;
    terminals.push(terminal(alloc, "SD", i, either(alloc)?)?)?;
    terminals.push(terminal(alloc, "SE", i, holds(alloc, 3)?)?)?;
    terminals.push(terminal(alloc, "ST", i, holds(alloc, 4)?)?)?;
    net(alloc, "S", i, terminals)
}

/// Appends the nets of a door.
fn push_door(alloc: Global, nets: &mut List<NetDraft>, i: u32) -> Result<(), NoMemory>
    requires { i ≤ 200 }
    ensures { OnOk result (nets.new ≡ nets.old ++ door_nets i) }
{
    nets.push(power_net(alloc, i)?)?;
    nets.push(signal_net(alloc, i)?)
}

/// The nets of the doors.
pub fn all_nets(alloc: Global, n: u32) -> Result<List<NetDraft>, NoMemory>
    requires { n ≤ 200 }
    ensures { IfOk result (λ nets. nets ≡ flat_map door_nets (doors n)) }
{
    let mut nets = List::new(alloc);
    for i in 1..n + 1 {
        push_door(alloc, &mut nets, i)?;
    }
    Ok(nets)
}
