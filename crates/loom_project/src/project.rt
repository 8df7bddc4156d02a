ghost use Rattle.std.specs.Prelude.{◌≡◌, ◌≢◌, ◌<◌, ◌≤◌, All, AllPairs, length, map, nat_eq, not, Ok, IfOk, OnOk, OnErr};
ghost use Rattle.std.specs.List.{IsDistinct};
ghost use Rattle.loom_formula.specs.NameIndex.{has_name};
ghost use Rattle.loom_topology.specs.Topology.{segment_at};
ghost use Rattle.loom_project.specs.Classes.{net_classes};
ghost use Rattle.loom_project.specs.Draft.{cavity_names, index_of};
ghost use Rattle.loom_project.specs.Project.{topology_of, net_places, net_at, cavities_of, when_at, reserved_of, bars_of, net_topology, HasSoundTopologies, IsWithinLimits};
ghost use Rattle.loom_project.specs.Numbers.{with_price, with_branch, with_number, IsThere};
ghost use Rattle.loom_project.specs.Sound.{draft_check, Gives};

use crate::barred::{barred_segments, is_among};
use crate::cavities::add_cavities;
use crate::classes::Classes;
use crate::formulas::checked_rules;
use crate::nets::checked_nets;
use crate::nodes::{Nodes, checked_nodes};
use crate::numbers::{set_branch, set_price};
use crate::options::checked_options;
use crate::segments::add_segments;
use crate::{Draft, NumberChange, ProjectFault};
use loom_base::{Branch, CavityNo, List, Name, NetNo, NoMemory, NodeNo, Price, SegmentNo};
use loom_formula::{Formula, Options};
use loom_topology::Topology;
use std::alloc::Global;
use std::marker::Model;

/// A sound draft, with what planning looks up in it. Contracts see the draft.
#[derive(Drop)]
pub struct Project {
    alloc: Global,
    draft: Draft,
    options: Options,
    topology: Topology,
    cavities: List<List<CavityNo>>,
    classes: Classes,
}

impl Model for Project {
    ghost use Rattle.loom_project.specs.declared.draft.Draft.{Draft};

    ghost Value = { Draft };

    ghost use Rattle.std.specs.Coded.{codes};
    ghost use Rattle.loom_formula.specs.contracts.formula.Formula as formula;

    ghost coded = { Prim.hlevel (codes, formula.the_row.coded) };

    ghost use Rattle.loom_project.specs.ProjectInside.{IsKept};

    ghost view = { λ project. project.draft };

    ghost invariant = { IsKept };
}

/// What is looked up in a sound draft.
#[derive(Drop)]
struct Parts {
    options: Options,
    topology: Topology,
    cavities: List<List<CavityNo>>,
}

/// The parts of a draft, or its first failure.
#[tactic(auto, unfolding(crate::specs::Sound::draft_check, crate::specs::Project::topology_of))]
fn checked_parts(alloc: Global, draft: &Draft) -> Result<Parts, ProjectFault>
    ensures gives { Gives result (draft_check draft.now) }
    ensures options { IfOk result (λ parts. parts.options ≡ draft.now.options) }
    ensures topology { IfOk result (λ parts. parts.topology ≡ topology_of draft.now) }
    ensures cavities { IfOk result (λ parts. map (map (λ c. c.0)) parts.cavities
        ≡ net_places (cavity_names draft.now.cavities) draft.now.nets) }
{
    let nodes = draft.nodes.as_slice();
    let options = checked_options(alloc, draft.options.as_slice())?;
    let rules = checked_rules(&options, draft.rules.as_slice())?;
    let Nodes {
        names,
        mut topology,
    } = checked_nodes(alloc, nodes)?;
    add_segments(
        alloc,
        &mut topology,
        nodes,
        &names,
        draft.segments.as_slice(),
    )?;
    let places = add_cavities(alloc, &mut topology, &names, draft.cavities.as_slice())?;
    let cavities = checked_nets(alloc, &options, &places, rules, draft.nets.as_slice())?;
    Ok(Parts {
        options,
        topology,
        cavities,
    })
}

impl Project {
    /// The project of a draft, or the draft's first failure in the order of options, rules, nodes,
    /// segments, cavities and nets. A draft that isn't sound is dropped.
    pub fn check(alloc: Global, draft: Draft) -> Result<Project, ProjectFault>
        ensures gives { Gives result (draft_check draft) }
        ensures kept { IfOk result (λ project. project ≡ draft) }
    {
        let Parts {
            options,
            topology,
            cavities,
        } = checked_parts(alloc, &draft)?;
        let classes = Classes::new(alloc, draft.nets.as_slice(), draft.segments.as_slice())?;
        Ok(Project {
            alloc,
            draft,
            options,
            topology,
            cavities,
            classes,
        })
    }

    /// Makes this the project of another draft, as `check` does; after a refusal it is unchanged.
    pub fn replace(&mut self, draft: Draft) -> Result<(), ProjectFault>
        ensures gives { Gives result (draft_check draft) }
        ensures replaced { OnOk result (self.new ≡ draft) }
        ensures refused { OnErr result (self.new ≡ self.old) }
    {
        let project = Project::check(self.alloc, draft)?;
        *self = project;
        Ok(())
    }

    /// Sets a number. No rule of the check looks at it, so nothing is checked anew. It takes no
    /// memory.
    pub fn set_number(&mut self, change: NumberChange)
        requires { IsThere self.old change }
        ensures value { self.new ≡ with_number self.old change }
        ensures sound { draft_check self.new ≡ Ok tt }
    {
        match change {
            NumberChange::Price { segment, price } => self.set_price(segment, price),
            NumberChange::Branch { node, branch } => self.set_branch(node, branch),
        }
    }

    fn set_price(&mut self, segment: SegmentNo, price: Price)
        requires { segment.0 < length self.old.segments }
        ensures value { self.new ≡ with_price self.old segment.0 price }
        ensures sound { draft_check self.new ≡ Ok tt }
    {
        let at = segment.0 as usize;
        set_price(self.alloc, &mut self.draft.segments, at, price);
        self.topology.set_price(segment, price);
    }

    fn set_branch(&mut self, node: NodeNo, branch: Branch)
        requires { node.0 < length self.old.nodes }
        ensures value { self.new ≡ with_branch self.old node.0 branch }
        ensures sound { draft_check self.new ≡ Ok tt }
    {
        set_branch(&mut self.draft.nodes, node.0 as usize, branch);
        self.topology.set_branch(node, branch);
    }

    /// The draft, which is sound, and its lists within their limits.
    pub fn draft(&self) -> &Draft
        ensures value { result.now ≡ self.now }
        ensures sound { draft_check self.now ≡ Ok tt }
        ensures limits { IsWithinLimits self.now }
    {
        &self.draft
    }

    pub fn options(&self) -> &Options
        ensures { result.now ≡ self.now.options }
    {
        &self.options
    }

    pub fn rules(&self) -> &[Formula]
        ensures { result.now ≡ self.now.rules }
    {
        self.draft.rules.as_slice()
    }

    /// The topology with every segment open.
    pub fn topology(&self) -> &Topology
        ensures topology { result.now ≡ topology_of self.now }
        ensures nodes { length result.now.nodes ≡ length self.now.nodes }
        ensures segments { length result.now.segments ≡ length self.now.segments }
        ensures cavities { length result.now.cavities ≡ length self.now.cavities }
    {
        &self.topology
    }

    /// The topology of a net: exactly those segments are shut whose bars name the net's class.
    pub fn topology_of(&self, net: NetNo) -> Result<Topology, NoMemory>
        requires { net.0 < length self.now.nets }
        ensures topology { IfOk result (λ topology. topology ≡ net_topology self.now net.0) }
        ensures nodes { IfOk result (λ topology. length topology.nodes ≡ length self.now.nodes) }
        ensures segments { IfOk result (λ topology. length topology.segments
            ≡ length self.now.segments) }
        ensures cavities { IfOk result (λ topology. length topology.cavities
            ≡ length self.now.cavities) }
    {
        let bars = self.classes.barred.as_slice();
        let barred = barred_segments(self.alloc, bars, self.class_number(net))?;
        self.topology.shut(barred.as_slice())
    }

    /// Whether a net may pass a segment, as none of the segment's bars names its class.
    pub fn is_open_to(&self, net: NetNo, segment: SegmentNo) -> bool
        requires net { net.0 < length self.now.nets }
        requires segment { segment.0 < length self.now.segments }
        ensures bars { result ≡ not (has_name (bars_of self.now segment.0)
            (net_at self.now net.0).class) }
        ensures topology { result ≡ (segment_at (net_topology self.now net.0) segment.0).is_open }
    {
        let bars = &self.classes.barred.as_slice()[segment.0 as usize];
        !is_among(bars.as_slice(), self.class_number(net))
    }

    /// The number of a net's class.
    fn class_number(&self, net: NetNo) -> u32
        requires { net.0 < length self.now.nets }
        ensures { result ≡ index_of (net_classes self.now.nets) (net_at self.now net.0).class }
    {
        self.classes.of_nets.as_slice()[net.0 as usize]
    }

    /// The topologies are sound: cavities lie at nodes, segments join nodes, prices and branch
    /// costs are within their bounds. This does nothing; a caller whose proof needs it calls it.
    pub fn has_sound_topologies(&self)
        ensures { HasSoundTopologies self.now }
    {
        let _count = self.topology.node_count();
    }

    pub fn net_count(&self) -> u32
        ensures count { result ≡ length self.now.nets }
        ensures few { result ≤ 2048 }
    {
        self.cavities.len() as u32
    }

    /// The class of a net, by which segments bar it.
    pub fn class(&self, net: NetNo) -> Name
        requires { net.0 < length self.now.nets }
        ensures { result ≡ (net_at self.now net.0).class }
    {
        self.draft.nets.as_slice()[net.0 as usize].class
    }

    /// The cavities of a net in the order of its terminals.
    pub fn cavities(&self, net: NetNo) -> &[CavityNo]
        requires { net.0 < length self.now.nets }
        ensures places { map (λ c. c.0) result.now ≡ cavities_of self.now net.0 }
        ensures at_least { 2 ≤ length result.now }
        ensures at_most { length result.now ≤ 12 }
        ensures in_range { All (λ c. c.0 < length self.now.cavities) result.now }
        ensures different { AllPairs (λ a b. a ≢ b) (cavities_of self.now net.0) }
        ensures each_once { IsDistinct nat_eq (cavities_of self.now net.0) }
    {
        self.cavities.as_slice()[net.0 as usize].as_slice()
    }

    /// When a net needs the cavity of a terminal.
    pub fn when(&self, net: NetNo, terminal: u32) -> &Formula
        requires net { net.0 < length self.now.nets }
        requires terminal { terminal < length (net_at self.now net.0).terminals }
        ensures { result.now ≡ when_at self.now net.0 terminal }
    {
        let terminals = self.draft.nets.as_slice()[net.0 as usize]
            .terminals
            .as_slice();
        &terminals[terminal as usize].when
    }

    /// The pins of a segment that no net gets.
    pub fn reserved(&self, segment: SegmentNo) -> &[u16]
        requires { segment.0 < length self.now.segments }
        ensures { result.now ≡ reserved_of self.now segment.0 }
    {
        self.draft.segments.as_slice()[segment.0 as usize]
            .reserved
            .as_slice()
    }
}
