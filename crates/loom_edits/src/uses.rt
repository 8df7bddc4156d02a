ghost use Rattle.std.specs.Prelude.{◌≡◌, ◌||◌, bytes_eq};
ghost use Rattle.std.specs.List.{list_any};
ghost use Rattle.loom_formula.specs.Formula.{members_of};
ghost use Rattle.loom_edits.specs.Uses.{names_option as names_option_of, is_option_used as option_is_used, is_node_used as node_is_used, is_cavity_used as cavity_is_used};
ghost use Rattle.loom_edits.specs.Edits.{unused as unused_of};

use crate::EditFault;
use loom_base::Name;
use loom_formula::{Formula, Members};
use loom_project::{CavityDraft, Draft, NetDraft, Of, SegmentDraft, TerminalDraft};

/// Refuses to remove a thing that is named by another.
pub fn unused(of: Of, name: Name, is_used: bool) -> Result<(), EditFault>
    ensures { result ≡ unused_of of name is_used }
{
    if is_used {
        Err(EditFault::InUse { of, name })
    } else {
        Ok(())
    }
}

/// Whether a formula names an option.
#[cycle(names)]
#[tactic(auto, using(crate::proofs::UseLemmas::member_names))]
fn names_option(formula: &Formula, name: Name) -> bool
    ensures { result ≡ names_option_of name formula.now }
{
    match formula {
        Formula::Always | Formula::Never => false,
        Formula::Is(option) => name == *option,
        Formula::Not(inner) => names_option(inner.get(), name),
        Formula::And(members) => some_names_option(members, name),
        Formula::Or(members) => some_names_option(members, name),
        Formula::One(members) => some_names_option(members, name),
    }
}

/// Whether one of the members of a formula names an option.
#[cycle(names)]
fn some_names_option(members: &Members, name: Name) -> bool
    ensures { result ≡ list_any (names_option_of name) (members_of members.now) }
{
    for member in members.as_slice() {
        if names_option(member, name) {
            return true;
        }
    }
    false
}

fn rules_name_option(rules: &[Formula], name: Name) -> bool
    ensures { result ≡ list_any (names_option_of name) rules.now }
{
    rules.iter().any(|rule| names_option(rule, name))
}

fn terminals_name_option(terminals: &[TerminalDraft], name: Name) -> bool
    ensures { result
        ≡ list_any (λ terminal. names_option_of name terminal.when) terminals.now }
{
    terminals
        .iter()
        .any(|terminal| names_option(&terminal.when, name))
}

fn nets_name_option(nets: &[NetDraft], name: Name) -> bool
    ensures { result ≡ list_any (λ net.
        list_any (λ terminal. names_option_of name terminal.when) net.terminals) nets.now }
{
    nets.iter().any(|net| terminals_name_option(net.terminals.as_slice(), name))
}

/// Whether a rule or a terminal's formula names the option.
pub fn is_option_used(draft: &Draft, name: Name) -> bool
    ensures { result ≡ option_is_used draft.now name }
{
    rules_name_option(draft.rules.as_slice(), name) || nets_name_option(draft.nets.as_slice(), name)
}

fn segments_end_at(segments: &[SegmentDraft], node: Name) -> bool
    ensures { result ≡ list_any (λ segment.
        bytes_eq node segment.from || bytes_eq node segment.to) segments.now }
{
    segments
        .iter()
        .any(|segment| node == segment.from || node == segment.to)
}

fn cavities_lie_at(cavities: &[CavityDraft], node: Name) -> bool
    ensures { result ≡ list_any (λ cavity. bytes_eq node cavity.node) cavities.now }
{
    cavities.iter().any(|cavity| node == cavity.node)
}

/// Whether a segment begins or ends at the node, or a cavity lies there.
pub fn is_node_used(draft: &Draft, name: Name) -> bool
    ensures { result ≡ node_is_used draft.now name }
{
    segments_end_at(draft.segments.as_slice(), name)
        || cavities_lie_at(draft.cavities.as_slice(), name)
}

fn terminals_name(terminals: &[TerminalDraft], cavity: Name) -> bool
    ensures { result ≡ list_any (λ terminal. bytes_eq cavity terminal.cavity) terminals.now }
{
    terminals.iter().any(|terminal| cavity == terminal.cavity)
}

fn nets_name(nets: &[NetDraft], cavity: Name) -> bool
    ensures { result ≡ list_any (λ net.
        list_any (λ terminal. bytes_eq cavity terminal.cavity) net.terminals) nets.now }
{
    nets.iter()
        .any(|net| terminals_name(net.terminals.as_slice(), cavity))
}

/// Whether a terminal names the cavity.
pub fn is_cavity_used(draft: &Draft, name: Name) -> bool
    ensures { result ≡ cavity_is_used draft.now name }
{
    nets_name(draft.nets.as_slice(), name)
}
