ghost use Rattle.std.specs.Prelude.{◌≡◌, IfOk};
ghost use Rattle.std.specs.List.{insert};
ghost use Rattle.loom_edits.specs.Places.{changed_at};
ghost use Rattle.loom_undo.specs.Inverse.{without_last};

use crate::lists::{drop_last, put};
use loom_base::{List, NoMemory};
use loom_project::{NetDraft, TerminalDraft};

/// The nets, of which the one at a place loses its last terminal.
#[tactic(auto, using(loom_edits::proofs::ElementLemmas::changes))]
pub fn without_last_terminal(nets: List<NetDraft>, at: usize) -> List<NetDraft>
    ensures { result
        ≡ changed_at (λ old. record old { terminals = without_last old.terminals }) nets at }
{
    let mut nets = nets.into_vec();
    if at >= nets.len() {
        return List::from_vec(nets);
    }
    drop_last(&mut nets[at].terminals);
    List::from_vec(nets)
}

/// The nets, of which the one at a place has a terminal put among its own.
#[tactic(auto, using(loom_edits::proofs::ElementLemmas::changes))]
pub fn with_terminal_at(
    nets: List<NetDraft>,
    at: usize,
    place: u32,
    terminal: TerminalDraft,
) -> Result<List<NetDraft>, NoMemory>
    ensures { IfOk result (λ made. made
        ≡ changed_at (λ old. record old { terminals = insert old.terminals place terminal }) nets at) }
{
    let mut nets = nets.into_vec();
    if at >= nets.len() {
        return Ok(List::from_vec(nets));
    }
    put(&mut nets[at].terminals, place, terminal)?;
    Ok(List::from_vec(nets))
}
