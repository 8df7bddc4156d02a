//! How projects are printed.
ghost use Rattle.std.specs.Prelude.{◌≡◌, ◌++◌, ◌∷◌, [], map, take, IfOk, codes};
ghost use Rattle.serde_json.specs.Data.{string};
ghost use Rattle.serde_json.specs.View.{view, members_view};
ghost use Rattle.loom_formula.specs.Formula.{members_of};
ghost use Rattle.loom_json.specs.Fields.{array_of};
ghost use Rattle.loom_answer.specs.Projects.{formula_shown, node_shown, in_second, with_bars as bars_with, with_reserved as reserved_with, with_class as class_with, run_shown, coupler_shown, segment_draft_shown, cavity_shown, terminal_shown, net_shown, project_shown};

use crate::values::{NameShown, ShortShown, whole};
use loom_base::{NoMemory, Pins, Price};
use loom_formula::{Formula, Members};
use loom_json::shown::{self, Shown, array, with};
use loom_project::{CavityDraft, Draft, NetDraft, NodeDraft, SegmentDraft, TerminalDraft};
use loom_topology::Kind;
use serde_json::{Map, Value};
use std::alloc::Global;

/// The value of a formula.
#[cycle(showing)]
fn formula_value(alloc: Global, formula: &Formula) -> Result<Value, NoMemory>
    ensures { IfOk result (λ value. view value ≡ formula_shown formula.now) }
{
    match formula {
        Formula::Always => Ok(Value::Bool(true)),
        Formula::Never => Ok(Value::Bool(false)),
        Formula::Is(name) => shown::name(alloc, name),
        Formula::Not(inner) => not_value(alloc, inner.get()),
        Formula::And(members) => members_value(alloc, "and", members),
        Formula::Or(members) => members_value(alloc, "or", members),
        Formula::One(members) => members_value(alloc, "one", members),
    }
}

/// The value of the formula that holds where the inner one doesn't.
#[cycle(showing)]
fn not_value(alloc: Global, inner: &Formula) -> Result<Value, NoMemory>
    ensures { IfOk result (λ value. view value
        ≡ array_of (string (codes "not") ∷ formula_shown inner.now ∷ [])) }
{
    let word = shown::text(alloc, "not")?;
    let inner = formula_value(alloc, inner)?;
    Ok(Value::Array(vec![in alloc; word, inner]?))
}

/// The value of a formula of several members.
#[cycle(showing)]
fn members_value(alloc: Global, word: &str, members: &Members) -> Result<Value, NoMemory>
    ensures { IfOk result (λ value. view value
        ≡ array_of (string word.now ∷ map formula_shown (members_of members.now))) }
{
    let mut values = vec![in alloc; shown::text(alloc, word)?]?;
    for member in members.as_slice() {
        values.push(formula_value(alloc, member)?)?;
    }
    Ok(Value::Array(values))
}

/// Shows a formula.
struct FormulaShown;

impl Shown for FormulaShown {
    type Of = Formula;

    ghost shows = { formula_shown };

    fn value(alloc: Global, formula: &Formula) -> Result<Value, NoMemory> {
        formula_value(alloc, formula)
    }
}

/// Shows a node.
struct NodeShown;

impl Shown for NodeShown {
    type Of = NodeDraft;

    ghost shows = { node_shown };

    fn value(alloc: Global, node: &NodeDraft) -> Result<Value, NoMemory> {
        let harness = shown::name(alloc, &node.harness)?;
        let name = shown::name(alloc, &node.name)?;
        let members = with(alloc, Map::new(alloc), "branch", whole(node.branch.get()))?;
        let members = with(alloc, members, "harness", harness)?;
        let members = with(alloc, members, "name", name)?;
        Ok(Value::Object(members))
    }
}

/// The members of a segment with the classes that it bars, where the forms are the second
/// version's.
fn with_bars<const SECOND: bool>(
    alloc: Global,
    members: Map<String, Value>,
    segment: &SegmentDraft,
) -> Result<Map<String, Value>, NoMemory>
    ensures { IfOk result (λ made. members_view made.entries
        ≡ in_second SECOND (bars_with segment.now) (members_view members.entries)) }
{
    if SECOND {
        let bars = array::<NameShown>(alloc, segment.bars.as_slice())?;
        with(alloc, members, "bars", bars)
    } else {
        Ok(members)
    }
}

/// The members of a coupler with the pins that it reserves, where the forms are the second
/// version's.
fn with_reserved<const SECOND: bool>(
    alloc: Global,
    members: Map<String, Value>,
    segment: &SegmentDraft,
) -> Result<Map<String, Value>, NoMemory>
    ensures { IfOk result (λ made. members_view made.entries
        ≡ in_second SECOND (reserved_with segment.now) (members_view members.entries)) }
{
    if SECOND {
        let reserved = array::<ShortShown>(alloc, segment.reserved.as_slice())?;
        with(alloc, members, "reserved", reserved)
    } else {
        Ok(members)
    }
}

/// The members of a net with its class, where the forms are the second version's.
fn with_class<const SECOND: bool>(
    alloc: Global,
    members: Map<String, Value>,
    net: &NetDraft,
) -> Result<Map<String, Value>, NoMemory>
    ensures { IfOk result (λ made. members_view made.entries
        ≡ in_second SECOND (class_with net.now) (members_view members.entries)) }
{
    if SECOND {
        let class = shown::name(alloc, &net.class)?;
        with(alloc, members, "class", class)
    } else {
        Ok(members)
    }
}

/// The value of a run.
fn run_value<const SECOND: bool>(
    alloc: Global,
    segment: &SegmentDraft,
    length: Price,
) -> Result<Value, NoMemory>
    ensures { IfOk result (λ value. view value ≡ run_shown SECOND segment.now length) }
{
    let from = shown::name(alloc, &segment.from)?;
    let name = shown::name(alloc, &segment.name)?;
    let to = shown::name(alloc, &segment.to)?;
    let members = with(alloc, Map::new(alloc), "from", from)?;
    let members = with(alloc, members, "length", whole(length.get()))?;
    let members = with(alloc, members, "name", name)?;
    let members = with(alloc, members, "to", to)?;
    Ok(Value::Object(with_bars::<SECOND>(alloc, members, segment)?))
}

/// The value of a coupler.
fn coupler_value<const SECOND: bool>(
    alloc: Global,
    segment: &SegmentDraft,
    price: Price,
    pins: Pins,
) -> Result<Value, NoMemory>
    ensures { IfOk result (λ value. view value ≡ coupler_shown SECOND segment.now price pins) }
{
    let from = shown::name(alloc, &segment.from)?;
    let name = shown::name(alloc, &segment.name)?;
    let to = shown::name(alloc, &segment.to)?;
    let members = with(alloc, Map::new(alloc), "from", from)?;
    let members = with(alloc, members, "name", name)?;
    let members = with(alloc, members, "pins", whole(pins.get()))?;
    let members = with(alloc, members, "price", whole(price.get()))?;
    let members = with(alloc, members, "to", to)?;
    let members = with_bars::<SECOND>(alloc, members, segment)?;
    Ok(Value::Object(with_reserved::<SECOND>(alloc, members, segment)?))
}

/// Shows a run or a coupler, in the forms of the second version or in those of the first.
pub(crate) struct SegmentDraftShown<const SECOND: bool>;

impl<const SECOND: bool> Shown for SegmentDraftShown<SECOND> {
    type Of = SegmentDraft;

    ghost shows = { segment_draft_shown SECOND };

    fn value(alloc: Global, segment: &SegmentDraft) -> Result<Value, NoMemory> {
        match segment.kind {
            Kind::Run { length } => run_value::<SECOND>(alloc, segment, length),
            Kind::Coupler { price, pins } => {
                coupler_value::<SECOND>(alloc, segment, price, pins)
            }
        }
    }
}

/// Shows a cavity.
struct CavityShown;

impl Shown for CavityShown {
    type Of = CavityDraft;

    ghost shows = { cavity_shown };

    fn value(alloc: Global, cavity: &CavityDraft) -> Result<Value, NoMemory> {
        let device = shown::name(alloc, &cavity.device)?;
        let name = shown::name(alloc, &cavity.name)?;
        let node = shown::name(alloc, &cavity.node)?;
        let members = with(alloc, Map::new(alloc), "device", device)?;
        let members = with(alloc, members, "name", name)?;
        let members = with(alloc, members, "node", node)?;
        Ok(Value::Object(members))
    }
}

/// Shows a terminal.
struct TerminalShown;

impl Shown for TerminalShown {
    type Of = TerminalDraft;

    ghost shows = { terminal_shown };

    fn value(alloc: Global, terminal: &TerminalDraft) -> Result<Value, NoMemory> {
        let cavity = shown::name(alloc, &terminal.cavity)?;
        let when = formula_value(alloc, &terminal.when)?;
        let members = with(alloc, Map::new(alloc), "cavity", cavity)?;
        let members = with(alloc, members, "when", when)?;
        Ok(Value::Object(members))
    }
}

/// Shows a net, in the forms of the second version or in those of the first.
struct NetShown<const SECOND: bool>;

impl<const SECOND: bool> Shown for NetShown<SECOND> {
    type Of = NetDraft;

    ghost shows = { net_shown SECOND };

    fn value(alloc: Global, net: &NetDraft) -> Result<Value, NoMemory> {
        let name = shown::name(alloc, &net.name)?;
        let terminals = array::<TerminalShown>(alloc, net.terminals.as_slice())?;
        let members = with(alloc, Map::new(alloc), "name", name)?;
        let members = with(alloc, members, "terminals", terminals)?;
        Ok(Value::Object(with_class::<SECOND>(alloc, members, net)?))
    }
}

/// Shows a project, in the forms of the second version or in those of the first.
pub(crate) struct ProjectShown<const SECOND: bool>;

impl<const SECOND: bool> Shown for ProjectShown<SECOND> {
    type Of = Draft;

    ghost shows = { project_shown SECOND };

    fn value(alloc: Global, draft: &Draft) -> Result<Value, NoMemory> {
        let cavities = array::<CavityShown>(alloc, draft.cavities.as_slice())?;
        let nets = array::<NetShown<SECOND>>(alloc, draft.nets.as_slice())?;
        let nodes = array::<NodeShown>(alloc, draft.nodes.as_slice())?;
        let options = array::<NameShown>(alloc, draft.options.as_slice())?;
        let rules = array::<FormulaShown>(alloc, draft.rules.as_slice())?;
        let segments = array::<SegmentDraftShown<SECOND>>(alloc, draft.segments.as_slice())?;
        let members = with(alloc, Map::new(alloc), "cavities", cavities)?;
        let members = with(alloc, members, "nets", nets)?;
        let members = with(alloc, members, "nodes", nodes)?;
        let members = with(alloc, members, "options", options)?;
        let members = with(alloc, members, "rules", rules)?;
        let members = with(alloc, members, "segments", segments)?;
        Ok(Value::Object(members))
    }
}
