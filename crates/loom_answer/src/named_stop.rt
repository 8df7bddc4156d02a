//! The stops of planning in the names of a project.
ghost use Rattle.std.specs.Prelude.{◌≡◌, ◌<◌, ◌≤◌, ◌++◌, ◌∷◌, [], All, map, length, IfOk, OnOk, if◌then◌else◌};
ghost use Rattle.loom_answer.specs.Stops.{node_name, segment_name, cavity_name, net_name, true_options, IsNameable, named_of};

use loom_base::{CavityNo, List, Name, NetNo, NoMemory, NodeNo, OptionNo, SegmentNo, Which};
use loom_formula::Choice;
use loom_project::{Draft, Project};
use loom_types::PlanStop;
use std::alloc::Global;

/// Why a project has no plan, in the names of the project.
#[derive(Debug, Drop)]
pub enum NamedStop {
    /// No choice is valid.
    NoChoice,
    /// The valid choice makes the cavity active in both nets. It is told by the names of its true
    /// options, in their order.
    Clash {
        cavity: Name,
        first: Name,
        second: Name,
        choice: List<Name>,
    },
    /// The cavity isn't among the nodes that are reached from the set's first cavity.
    Unreachable {
        net: Name,
        cavity: Name,
        reached: List<Name>,
    },
    /// First fit has no pin for this crossing.
    NoPin {
        net: Name,
        coupler: Name,
        ordinal: u32,
    },
    /// The quantity passes its limit; the count is the limit plus one.
    Limit {
        which: Which,
        count: u64,
    },
}

/// The name of a node.
fn node_name(draft: &Draft, node: NodeNo) -> Name
    requires { node.0 < length draft.now.nodes }
    ensures { result ≡ node_name draft.now node.0 }
{
    draft.nodes.as_slice()[node.0 as usize].name
}

/// The name of a segment.
fn segment_name(draft: &Draft, segment: SegmentNo) -> Name
    requires { segment.0 < length draft.now.segments }
    ensures { result ≡ segment_name draft.now segment.0 }
{
    draft.segments.as_slice()[segment.0 as usize].name
}

/// The name of a cavity.
fn cavity_name(draft: &Draft, cavity: CavityNo) -> Name
    requires { cavity.0 < length draft.now.cavities }
    ensures { result ≡ cavity_name draft.now cavity.0 }
{
    draft.cavities.as_slice()[cavity.0 as usize].name
}

/// The name of a net.
fn net_name(draft: &Draft, net: NetNo) -> Name
    requires { net.0 < length draft.now.nets }
    ensures { result ≡ net_name draft.now net.0 }
{
    draft.nets.as_slice()[net.0 as usize].name
}

/// The names of nodes.
fn names_of_nodes(alloc: Global, draft: &Draft, nodes: &[NodeNo]) -> Result<List<Name>, NoMemory>
    requires { All (λ node. node.0 < length draft.now.nodes) nodes.now }
    ensures { IfOk result (λ names. names ≡ map (λ node. node_name draft.now node.0) nodes.now) }
{
    let mut names = List::new(alloc);
    for node in nodes {
        names.push(node_name(draft, *node))?;
    }
    Ok(names)
}

/// Appends the name of an option where it is true.
fn push_if(names: &mut List<Name>, is_true: bool, name: Name) -> Result<(), NoMemory>
    ensures { OnOk result (names.new ≡ names.old ++ (if is_true then name ∷ [] else [])) }
{
    if is_true {
        names.push(name)?;
    }
    Ok(())
}

/// The names of the options that a choice makes true, in the order of the options.
fn true_options(alloc: Global, options: &[Name], choice: &Choice) -> Result<List<Name>, NoMemory>
    requires { length options.now ≤ 512 }
    ensures { IfOk result (λ names. names ≡ true_options options.now choice.now.values) }
{
    let mut names = List::new(alloc);
    for (i, name) in options.iter().enumerate() {
        let is_true = choice.get(OptionNo(i as u32));
        push_if(&mut names, is_true, *name)?;
    }
    Ok(names)
}

/// The stop in the names of the project, which is the one that was planned. Want of memory has no
/// names. The one error is want of memory.
pub fn named(alloc: Global, stop: &PlanStop, project: &Project) -> Result<NamedStop, NoMemory>
    requires { IsNameable project.now stop.now }
    ensures { IfOk result (λ named. named ≡ named_of project.now stop.now) }
{
    let draft = project.draft();
    match stop {
        PlanStop::NoChoice => Ok(NamedStop::NoChoice),
        PlanStop::Clash {
            cavity,
            first,
            second,
            choice,
        } => Ok(NamedStop::Clash {
            cavity: cavity_name(draft, *cavity),
            first: net_name(draft, *first),
            second: net_name(draft, *second),
            choice: true_options(alloc, draft.options.as_slice(), choice)?,
        }),
        PlanStop::Unreachable {
            net,
            cavity,
            reached,
        } => Ok(NamedStop::Unreachable {
            net: net_name(draft, *net),
            cavity: cavity_name(draft, *cavity),
            reached: names_of_nodes(alloc, draft, reached.as_slice())?,
        }),
        PlanStop::NoPin {
            net,
            coupler,
            ordinal,
        } => Ok(NamedStop::NoPin {
            net: net_name(draft, *net),
            coupler: segment_name(draft, *coupler),
            ordinal: *ordinal,
        }),
        PlanStop::Limit { which, count } => Ok(NamedStop::Limit {
            which: *which,
            count: *count,
        }),
        PlanStop::NoMemory => unreachable!(),
    }
}
