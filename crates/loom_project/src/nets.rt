ghost use Rattle.std.specs.Prelude.{◌≡◌, ◌<◌, ◌≤◌, ◌+◌, ◌++◌, ◌∷◌, [], length, map, IfOk, OnOk, bytes_eq};
ghost use Rattle.std.specs.List.{list_any};
ghost use Rattle.loom_formula.specs.Formula.{nodes_of};
ghost use Rattle.loom_project.specs.Draft.{index_of, terminal_nodes, net_nodes, net_names};
ghost use Rattle.loom_project.specs.Project.{terminal_places, net_places};
ghost use Rattle.loom_project.specs.Sound.{terminal_check, terminals_check, net_check, nets_check, Gives, Answers};

use crate::formulas::FormulaCount;
use crate::require::{add_name, known, require, within_limit};
use crate::{NetDraft, Of, ProjectFault, TerminalDraft};
use loom_base::{CavityNo, List, MAX_NETS, MAX_TERMINALS, Name, Which};
use loom_formula::{NameIndex, Options};
use std::alloc::Global;

/// The cavities of each net, or the first failure among the nets.
#[tactic(auto, unfolding(crate::specs::Sound::nets_check))]
pub fn checked_nets(
    alloc: Global,
    options: &Options,
    cavities: &NameIndex,
    rules: FormulaCount,
    nets: &[NetDraft],
) -> Result<List<List<CavityNo>>, ProjectFault>
    requires { rules.nodes ≤ 65536 }
    ensures gives { Gives result (nets_check options.now cavities.now rules.nodes nets.now) }
    ensures places { IfOk result (λ found. map (map (λ c. c.0)) found
        ≡ net_places cavities.now nets.now) }
{
    within_limit(Which::Nets, MAX_NETS, nets.len() as u64)?;
    let mut taken = NameIndex::new(alloc);
    let mut count = rules;
    let mut found = List::new(alloc);
    for net in nets {
        found.push(checked_net(alloc, options, cavities, &mut taken, &mut count, net)?)?;
    }
    Ok(found)
}

/// The cavities of a net, whose name is taken from then on, or its first failure.
#[tactic(auto, unfolding(crate::specs::Sound::net_check))]
fn checked_net(
    alloc: Global,
    options: &Options,
    cavities: &NameIndex,
    taken: &mut NameIndex,
    count: &mut FormulaCount,
    net: &NetDraft,
) -> Result<List<CavityNo>, ProjectFault>
    requires room { length taken.old < 2048 }
    requires counted { count.old.nodes ≤ 65536 }
    ensures gives { Gives result
        (net_check options.now cavities.now count.old.nodes taken.old net.now) }
    ensures taken { OnOk result (taken.new ≡ taken.old ++ net.now.name ∷ []) }
    ensures counted { OnOk result (count.new.nodes
        ≡ count.old.nodes + terminal_nodes net.now.terminals) }
    ensures few { OnOk result (count.new.nodes ≤ 65536) }
    ensures places { IfOk result (λ found. map (λ c. c.0) found
        ≡ terminal_places cavities.now net.now.terminals) }
{
    add_name(taken, Of::Net, net.name)?;
    checked_terminals(alloc, options, cavities, count, net)
}

/// The cavities of a net's terminals, or the first failure among them.
#[tactic(auto, unfolding(crate::specs::Sound::terminals_check))]
fn checked_terminals(
    alloc: Global,
    options: &Options,
    cavities: &NameIndex,
    count: &mut FormulaCount,
    net: &NetDraft,
) -> Result<List<CavityNo>, ProjectFault>
    requires { count.old.nodes ≤ 65536 }
    ensures gives { Gives result
        (terminals_check options.now cavities.now count.old.nodes net.now) }
    ensures counted { OnOk result (count.new.nodes
        ≡ count.old.nodes + terminal_nodes net.now.terminals) }
    ensures few { OnOk result (count.new.nodes ≤ 65536) }
    ensures places { IfOk result (λ found. map (λ c. c.0) found
        ≡ terminal_places cavities.now net.now.terminals) }
{
    let terminals = net.terminals.as_slice();
    let len = terminals.len() as u64;
    within_limit(Which::Terminals, MAX_TERMINALS, len)?;
    let too_few = ProjectFault::TooFewTerminals {
        net: net.name,
        count: len,
    };
    require(len >= 2, too_few)?;
    let mut found = List::new(alloc);
    for (i, terminal) in terminals.iter().enumerate() {
        let earlier = &terminals[..i];
        found.push(checked_terminal(options, cavities, count, net.name, earlier, terminal)?)?;
    }
    Ok(found)
}

/// The cavity of a terminal, or its first failure.
#[tactic(auto, unfolding(crate::specs::Sound::terminal_check))]
fn checked_terminal(
    options: &Options,
    cavities: &NameIndex,
    count: &mut FormulaCount,
    net: Name,
    earlier: &[TerminalDraft],
    terminal: &TerminalDraft,
) -> Result<CavityNo, ProjectFault>
    requires { count.old.nodes ≤ 65536 }
    ensures answers { Answers result
        (terminal_check options.now cavities.now count.old.nodes net earlier.now terminal.now) }
    ensures counted { OnOk result (count.new.nodes ≡ count.old.nodes + nodes_of terminal.now.when) }
    ensures few { OnOk result (count.new.nodes ≤ 65536) }
    ensures place { IfOk result (λ cavity. cavity.0 ≡ index_of cavities.now terminal.now.cavity) }
{
    let cavity = terminal.cavity;
    let place = known(Of::Cavity, cavities, cavity)?;
    let is_repeated = is_named(cavity, earlier);
    require(!is_repeated, ProjectFault::TerminalRepeated { net, cavity })?;
    count.add(options, &terminal.when)?;
    Ok(CavityNo(place))
}

/// Whether one of the terminals names the cavity.
fn is_named(cavity: Name, terminals: &[TerminalDraft]) -> bool
    ensures { result ≡ list_any (λ terminal. bytes_eq cavity terminal.cavity) terminals.now }
{
    terminals.iter().any(|terminal| cavity == terminal.cavity)
}
