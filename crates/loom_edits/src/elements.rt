ghost use Rattle.std.specs.Prelude.{◌≡◌, ◌++◌, ◌∷◌, [], IfOk};
ghost use Rattle.std.specs.List.{remove};
ghost use Rattle.loom_topology.specs.declared.kind.Kind.TheVariants.{Run};
ghost use Rattle.loom_edits.specs.Places.{changed_at};
ghost use Rattle.loom_edits.specs.Edits.{with_price as priced, with_pins as pinned};

use loom_base::{Branch, List, Name, NoMemory, Pins, Price};
use loom_formula::Formula;
use loom_project::{NetDraft, NodeDraft, SegmentDraft, TerminalDraft};
use loom_topology::Kind;

/// The nodes, of which the one at a place gets another branch cost.
#[tactic(auto, using(crate::proofs::ElementLemmas::changes))]
pub fn with_branch(nodes: List<NodeDraft>, at: usize, branch: Branch) -> List<NodeDraft>
    ensures { result ≡ changed_at (λ old. record old { branch = branch }) nodes at }
{
    let mut nodes = nodes.into_vec();
    if at >= nodes.len() {
        return List::from_vec(nodes);
    }
    nodes[at].branch = branch;
    List::from_vec(nodes)
}

/// A coupler's kind with another price; a run's is the same.
fn priced(kind: Kind, price: Price) -> Kind
    ensures { result ≡ priced price kind }
{
    match kind {
        Kind::Run { .. } => kind,
        Kind::Coupler { pins, .. } => Kind::Coupler { price, pins },
    }
}

/// A coupler's kind with another number of pins; a run's is the same.
fn pinned(kind: Kind, pins: Pins) -> Kind
    ensures { result ≡ pinned pins kind }
{
    match kind {
        Kind::Run { .. } => kind,
        Kind::Coupler { price, .. } => Kind::Coupler { price, pins },
    }
}

/// The segments, of which the one at a place is a run of that length.
#[tactic(auto, using(crate::proofs::ElementLemmas::changes))]
pub fn with_length(segments: List<SegmentDraft>, at: usize, length: Price) -> List<SegmentDraft>
    ensures { result ≡ changed_at (λ old. record old { kind = Run length }) segments at }
{
    let mut segments = segments.into_vec();
    if at >= segments.len() {
        return List::from_vec(segments);
    }
    segments[at].kind = Kind::Run { length };
    List::from_vec(segments)
}

/// The segments, of which the one at a place gets another price, where it is a coupler.
#[tactic(auto, using(crate::proofs::ElementLemmas::changes))]
pub fn with_price(segments: List<SegmentDraft>, at: usize, price: Price) -> List<SegmentDraft>
    ensures { result ≡ changed_at (λ old. record old { kind = priced price old.kind }) segments at }
{
    let mut segments = segments.into_vec();
    if at >= segments.len() {
        return List::from_vec(segments);
    }
    segments[at].kind = priced(segments[at].kind, price);
    List::from_vec(segments)
}

/// The segments, of which the one at a place gets another number of pins, where it is a coupler.
#[tactic(auto, using(crate::proofs::ElementLemmas::changes))]
pub fn with_pins(segments: List<SegmentDraft>, at: usize, pins: Pins) -> List<SegmentDraft>
    ensures { result ≡ changed_at (λ old. record old { kind = pinned pins old.kind }) segments at }
{
    let mut segments = segments.into_vec();
    if at >= segments.len() {
        return List::from_vec(segments);
    }
    segments[at].kind = pinned(segments[at].kind, pins);
    List::from_vec(segments)
}

/// The segments, of which the one at a place gets other bars.
#[tactic(auto, using(crate::proofs::ElementLemmas::changes))]
pub fn with_bars(segments: List<SegmentDraft>, at: usize, bars: List<Name>) -> List<SegmentDraft>
    ensures { result ≡ changed_at (λ old. record old { bars = bars }) segments at }
{
    let mut segments = segments.into_vec();
    if at >= segments.len() {
        return List::from_vec(segments);
    }
    segments[at].bars = bars;
    List::from_vec(segments)
}

/// The segments, of which the one at a place gets other reserved pins.
#[tactic(auto, using(crate::proofs::ElementLemmas::changes))]
pub fn with_reserved(
    segments: List<SegmentDraft>,
    at: usize,
    reserved: List<u16>,
) -> List<SegmentDraft>
    ensures { result ≡ changed_at (λ old. record old { reserved = reserved }) segments at }
{
    let mut segments = segments.into_vec();
    if at >= segments.len() {
        return List::from_vec(segments);
    }
    segments[at].reserved = reserved;
    List::from_vec(segments)
}

/// The nets, of which the one at a place gets another class.
#[tactic(auto, using(crate::proofs::ElementLemmas::changes))]
pub fn with_class(nets: List<NetDraft>, at: usize, class: Name) -> List<NetDraft>
    ensures { result ≡ changed_at (λ old. record old { class = class }) nets at }
{
    let mut nets = nets.into_vec();
    if at >= nets.len() {
        return List::from_vec(nets);
    }
    nets[at].class = class;
    List::from_vec(nets)
}

/// The nets, of which the one at a place gets a terminal more, behind its others.
#[tactic(auto, using(crate::proofs::ElementLemmas::changes))]
pub fn with_terminal(
    nets: List<NetDraft>,
    at: usize,
    terminal: TerminalDraft,
) -> Result<List<NetDraft>, NoMemory>
    ensures { IfOk result (λ made. made
        ≡ changed_at (λ old. record old { terminals = old.terminals ++ terminal ∷ [] }) nets at) }
{
    let mut nets = nets.into_vec();
    if at >= nets.len() {
        return Ok(List::from_vec(nets));
    }
    nets[at].terminals.push(terminal)?;
    Ok(List::from_vec(nets))
}

/// Takes the terminal at a place out; past the last there is none.
fn remove_terminal(terminals: &mut List<TerminalDraft>, at: usize)
    ensures { terminals.new ≡ remove terminals.old at }
{
    if at < terminals.len() {
        let _ = terminals.remove(at);
    }
}

/// The nets, of which the one at a place loses one of its terminals.
#[tactic(auto, using(crate::proofs::ElementLemmas::changes))]
pub fn without_terminal(nets: List<NetDraft>, at: usize, terminal: usize) -> List<NetDraft>
    ensures { result
        ≡ changed_at (λ old. record old { terminals = remove old.terminals terminal }) nets at }
{
    let mut nets = nets.into_vec();
    if at >= nets.len() {
        return List::from_vec(nets);
    }
    remove_terminal(&mut nets[at].terminals, terminal);
    List::from_vec(nets)
}

/// Gives the terminal at a place another formula; past the last there is none.
#[tactic(auto, using(crate::proofs::ElementLemmas::changes))]
fn set_when(terminals: &mut List<TerminalDraft>, at: usize, when: Formula)
    ensures { terminals.new ≡ changed_at (λ old. record old { when = when }) terminals.old at }
{
    if at < terminals.len() {
        let cavity = terminals.as_slice()[at].cavity;
        terminals.set(at, TerminalDraft { cavity, when });
    }
}

/// The nets, of which the one at a place has another formula at one of its terminals.
#[tactic(auto, using(crate::proofs::ElementLemmas::changes))]
pub fn with_when(nets: List<NetDraft>, at: usize, terminal: usize, when: Formula) -> List<NetDraft>
    ensures { result ≡ changed_at (λ old. record old {
      terminals = changed_at (λ before. record before { when = when }) old.terminals terminal;
    }) nets at }
{
    let mut nets = nets.into_vec();
    if at >= nets.len() {
        return List::from_vec(nets);
    }
    set_when(&mut nets[at].terminals, terminal, when);
    List::from_vec(nets)
}
