ghost use Rattle.std.specs.Prelude.{◌≡◌, ◌<◌, length, bytes_eq, position, IfSome};
ghost use Rattle.loom_edits.specs.Places.{option_place, node_place, segment_place, cavity_place, net_place};

use loom_base::Name;
use loom_project::{Draft, TerminalDraft};

pub fn option_place(draft: &Draft, name: Name) -> Option<usize>
    ensures place { result ≡ option_place draft.now name }
    ensures within { IfSome result (λ at. at < length draft.now.options) }
{
    let options = draft.options.as_slice();
    options.iter().position(|&option| name == option)
}

pub fn node_place(draft: &Draft, name: Name) -> Option<usize>
    ensures place { result ≡ node_place draft.now name }
    ensures within { IfSome result (λ at. at < length draft.now.nodes) }
{
    let nodes = draft.nodes.as_slice();
    nodes.iter().position(|node| name == node.name)
}

pub fn segment_place(draft: &Draft, name: Name) -> Option<usize>
    ensures place { result ≡ segment_place draft.now name }
    ensures within { IfSome result (λ at. at < length draft.now.segments) }
{
    let segments = draft.segments.as_slice();
    segments.iter().position(|segment| name == segment.name)
}

pub fn cavity_place(draft: &Draft, name: Name) -> Option<usize>
    ensures place { result ≡ cavity_place draft.now name }
    ensures within { IfSome result (λ at. at < length draft.now.cavities) }
{
    let cavities = draft.cavities.as_slice();
    cavities.iter().position(|cavity| name == cavity.name)
}

pub fn net_place(draft: &Draft, name: Name) -> Option<usize>
    ensures place { result ≡ net_place draft.now name }
    ensures within { IfSome result (λ at. at < length draft.now.nets) }
{
    let nets = draft.nets.as_slice();
    nets.iter().position(|net| name == net.name)
}

/// Where the terminal with that cavity stands among those of a net.
pub fn terminal_place(terminals: &[TerminalDraft], cavity: Name) -> Option<usize>
    ensures place { result ≡ position (λ terminal. bytes_eq cavity terminal.cavity) terminals.now }
    ensures within { IfSome result (λ at. at < length terminals.now) }
{
    terminals
        .iter()
        .position(|terminal| cavity == terminal.cavity)
}
