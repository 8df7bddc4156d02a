ghost use Rattle.std.specs.Prelude.{◌≡◌, ◌<◌, bytes_eq, length, position, IfOk};
ghost use Rattle.loom_project.specs.declared.fault.Of.TheVariants as of;
ghost use Rattle.loom_edits.specs.Places.{option_place, node_place, segment_place, cavity_place, net_place, terminal_place};
ghost use Rattle.loom_edits.specs.Edits.{addressed as addressed_of};

use crate::EditFault;
use loom_base::Name;
use loom_project::{CavityDraft, Draft, NetDraft, NodeDraft, Of, SegmentDraft, TerminalDraft};

/// The place that was found, which has to be there.
fn addressed(of: Of, name: Name, place: Option<usize>) -> Result<usize, EditFault>
    ensures { result ≡ addressed_of of name place }
{
    match place {
        Some(at) => Ok(at),
        None => Err(EditFault::UnknownName { of, name }),
    }
}

fn option_place(options: &[Name], name: Name) -> Option<usize>
    ensures { result ≡ position (bytes_eq name) options.now }
{
    options.iter().position(|&option| name == option)
}

fn node_place(nodes: &[NodeDraft], name: Name) -> Option<usize>
    ensures { result ≡ position (λ node. bytes_eq name node.name) nodes.now }
{
    nodes.iter().position(|node| name == node.name)
}

fn segment_place(segments: &[SegmentDraft], name: Name) -> Option<usize>
    ensures { result ≡ position (λ segment. bytes_eq name segment.name) segments.now }
{
    segments.iter().position(|segment| name == segment.name)
}

fn cavity_place(cavities: &[CavityDraft], name: Name) -> Option<usize>
    ensures { result ≡ position (λ cavity. bytes_eq name cavity.name) cavities.now }
{
    cavities.iter().position(|cavity| name == cavity.name)
}

fn net_place(nets: &[NetDraft], name: Name) -> Option<usize>
    ensures { result ≡ position (λ net. bytes_eq name net.name) nets.now }
{
    nets.iter().position(|net| name == net.name)
}

fn terminal_place(terminals: &[TerminalDraft], cavity: Name) -> Option<usize>
    ensures { result ≡ position (λ terminal. bytes_eq cavity terminal.cavity) terminals.now }
{
    terminals
        .iter()
        .position(|terminal| cavity == terminal.cavity)
}

/// Where the option of that name stands.
pub fn option_at(draft: &Draft, name: Name) -> Result<usize, EditFault>
    ensures place { result ≡ addressed_of of.OptionName name (option_place draft.now name) }
    ensures within { IfOk result (λ at. at < length draft.now.options) }
{
    addressed(
        Of::OptionName,
        name,
        option_place(draft.options.as_slice(), name),
    )
}

/// Where the node of that name stands.
pub fn node_at(draft: &Draft, name: Name) -> Result<usize, EditFault>
    ensures place { result ≡ addressed_of of.Node name (node_place draft.now name) }
    ensures within { IfOk result (λ at. at < length draft.now.nodes) }
{
    addressed(Of::Node, name, node_place(draft.nodes.as_slice(), name))
}

/// Where the segment of that name stands.
pub fn segment_at(draft: &Draft, name: Name) -> Result<usize, EditFault>
    ensures place { result ≡ addressed_of of.Segment name (segment_place draft.now name) }
    ensures within { IfOk result (λ at. at < length draft.now.segments) }
{
    addressed(
        Of::Segment,
        name,
        segment_place(draft.segments.as_slice(), name),
    )
}

/// Where the cavity of that name stands.
pub fn cavity_at(draft: &Draft, name: Name) -> Result<usize, EditFault>
    ensures place { result ≡ addressed_of of.Cavity name (cavity_place draft.now name) }
    ensures within { IfOk result (λ at. at < length draft.now.cavities) }
{
    addressed(
        Of::Cavity,
        name,
        cavity_place(draft.cavities.as_slice(), name),
    )
}

/// Where the net of that name stands.
pub fn net_at(draft: &Draft, name: Name) -> Result<usize, EditFault>
    ensures place { result ≡ addressed_of of.Net name (net_place draft.now name) }
    ensures within { IfOk result (λ at. at < length draft.now.nets) }
{
    addressed(Of::Net, name, net_place(draft.nets.as_slice(), name))
}

/// Where the terminal with that cavity stands in a net.
pub fn terminal_at(net: &NetDraft, cavity: Name) -> Result<usize, EditFault>
    ensures place { result ≡ addressed_of of.Terminal cavity (terminal_place net.now cavity) }
    ensures within { IfOk result (λ at. at < length net.now.terminals) }
{
    addressed(
        Of::Terminal,
        cavity,
        terminal_place(net.terminals.as_slice(), cavity),
    )
}
