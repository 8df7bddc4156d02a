ghost use Rattle.std.specs.Prelude.{ℕ, ◌↔◌, ◌≡◌, ◌<◌, ◌≤◌, All, length, map, [], slice_get, slice_index, Ok, IfOk, IfErr, OnOk, OnErr, ◌≢◌};
ghost use Rattle.std.specs.List.{Contains};
ghost use Rattle.std.specs.List.Sorted.{IsStrictlyIncreasing};
ghost use Rattle.std.specs.Option.{option_map};
ghost use Rattle.loom_topology.specs.Topology.{IsSound, no_topology, with_node, with_cavity, with_segment, with_price, with_branch, open_segment, shut_in, shut_among, IsSoundSegment, KeepsBorder, harness_at, branch_at, segment_at, price_at, node_of, open_at, other_end_at};
ghost use Rattle.loom_topology.specs.Reach.{IsReached};
ghost use Rattle.loom_topology.specs.Ways.{MarksCheapest, way_from};
ghost use Rattle.loom_topology.specs.TopologyFault.{Gives, IsDue, number_of_new};
ghost use Rattle.loom_topology.specs.TopologyInside.{segment_of_link, IsIndexed};

use crate::incidence::Incidence;
use crate::spreading::reached_from;
use crate::ways::mark_cheapest;
use crate::{Kind, TopologyFault, Way};
use loom_base::{Branch, CavityNo, List, NoMemory, NodeNo, Price, SegmentNo};
use std::alloc::Global;
use std::marker::Model;

/// A node as it is kept.
#[derive(Clone, Copy, Debug)]
struct NodeData {
    harness: u32,
    branch: u64,
}

/// A segment as it is kept.
#[derive(Clone, Copy, Debug)]
struct Link {
    from: NodeNo,
    to: NodeNo,
    kind: Kind,
    is_open: bool,
}

impl Link {
    /// An open segment.
    fn new(from: NodeNo, to: NodeNo, kind: Kind) -> Link
        ensures { segment_of_link result ≡ open_segment from.0 to.0 kind }
    {
        Link {
            from,
            to,
            kind,
            is_open: true,
        }
    }
}

/// Nodes that lie in harnesses, segments between them, and cavities at them.
#[derive(Debug, Drop)]
pub struct Topology {
    nodes: Vec<NodeData>,
    links: Vec<Link>,
    cavities: Vec<NodeNo>,
    incidence: Incidence,
}

impl Model for Topology {
    ghost use Rattle.loom_topology.specs.Topology.{TopologyView};

    ghost Value = { TopologyView };

    ghost use Rattle.loom_topology.specs.TopologyInside.{view_of, IsKept};

    ghost view = { view_of };

    ghost invariant = { λ t. IsKept (view_of t) t.incidence };
}

impl Topology {
    /// A topology without nodes.
    pub fn new(alloc: Global) -> Topology
        ensures { result ≡ no_topology }
    {
        Topology {
            nodes: Vec::new(alloc),
            links: Vec::new(alloc),
            cavities: Vec::new(alloc),
            incidence: Incidence::new(alloc),
        }
    }

    /// Adds a node; after want of memory the topology is unchanged.
    pub fn add_node(&mut self, harness: u32, branch: Branch) -> Result<NodeNo, NoMemory>
        requires { length self.old.nodes < 1024 }
        ensures number { IfOk result (λ node. node.0 ≡ length self.old.nodes) }
        ensures added { OnOk result (self.new ≡ with_node self.old harness branch) }
        ensures refused { OnErr result (self.new ≡ self.old) }
    {
        let number = self.nodes.len() as u32;
        self.nodes.reserve(1)?;
        self.incidence.add_node()?;
        self.nodes.push(NodeData {
            harness,
            branch: branch.get(),
        })?;
        Ok(NodeNo(number))
    }

    /// Adds a cavity at a node; after want of memory the topology is unchanged.
    pub fn add_cavity(&mut self, node: NodeNo) -> Result<CavityNo, NoMemory>
        requires in_range { node.0 < length self.old.nodes }
        requires room { length self.old.cavities < 8192 }
        ensures number { IfOk result (λ cavity. cavity.0 ≡ length self.old.cavities) }
        ensures added { OnOk result (self.new ≡ with_cavity self.old node.0) }
        ensures refused { OnErr result (self.new ≡ self.old) }
    {
        let number = self.cavities.len() as u32;
        self.cavities.push(node)?;
        Ok(CavityNo(number))
    }

    /// Adds an open segment between two nodes, a run inside one harness or a coupler between two;
    /// after a refusal the topology is unchanged.
    pub fn add_segment(
        &mut self,
        from: NodeNo,
        to: NodeNo,
        kind: Kind,
    ) -> Result<SegmentNo, TopologyFault>
        requires from_in_range { from.0 < length self.old.nodes }
        requires to_in_range { to.0 < length self.old.nodes }
        requires room { length self.old.segments < 4096 }
        ensures due { Gives result (number_of_new self.old from.0 to.0 kind) }
        ensures added { OnOk result (self.new ≡ with_segment self.old from.0 to.0 kind) }
        ensures refused { OnErr result (self.new ≡ self.old) }
    {
        self.test(from, to, kind)?;
        let price = kind.price();
        prove!(price <= 1_000_000);
        let number = SegmentNo(self.links.len() as u32);
        self.links.reserve(1)?;
        self.incidence.add_segment(from, to, number)?;
        self.links.push(Link::new(from, to, kind))?;
        Ok(number)
    }

    /// Gives a segment another price: a run's length, a coupler's price. It takes no memory.
    pub fn set_price(&mut self, segment: SegmentNo, price: Price)
        requires { segment.0 < length self.old.segments }
        ensures { self.new ≡ with_price self.old segment.0 price }
    {
        let kind = self.links[segment.0 as usize].kind;
        self.links[segment.0 as usize].kind = kind.priced(price);
    }

    /// Gives a node another branch cost. It takes no memory.
    pub fn set_branch(&mut self, node: NodeNo, branch: Branch)
        requires { node.0 < length self.old.nodes }
        ensures { self.new ≡ with_branch self.old node.0 branch }
    {
        self.nodes[node.0 as usize].branch = branch.get();
    }

    pub fn node_count(&self) -> u32
        ensures count { result ≡ length self.now.nodes }
        ensures sound { IsSound self.now }
    {
        self.nodes.len() as u32
    }

    pub fn segment_count(&self) -> u32
        ensures count { result ≡ length self.now.segments }
        ensures sound { IsSound self.now }
    {
        self.links.len() as u32
    }

    pub fn cavity_count(&self) -> u32
        ensures count { result ≡ length self.now.cavities }
        ensures sound { IsSound self.now }
    {
        self.cavities.len() as u32
    }

    /// What each wire past the second costs at a splice there.
    pub fn branch(&self, node: NodeNo) -> u64
        requires { node.0 < length self.now.nodes }
        ensures value { result ≡ branch_at self.now node.0 }
        ensures range { result ≤ 1000000 }
    {
        self.nodes[node.0 as usize].branch
    }

    /// The number of the harness in which a node lies.
    pub fn harness(&self, node: NodeNo) -> u32
        requires { node.0 < length self.now.nodes }
        ensures { result ≡ harness_at self.now node.0 }
    {
        self.nodes[node.0 as usize].harness
    }

    /// The nodes that a segment joins, first its `from`, then its `to`.
    pub fn ends(&self, segment: SegmentNo) -> (NodeNo, NodeNo)
        requires { segment.0 < length self.now.segments }
        ensures from { result.0.0 ≡ (segment_at self.now segment.0).from }
        ensures to { result.1.0 ≡ (segment_at self.now segment.0).to }
        ensures from_in_range { result.0.0 < length self.now.nodes }
        ensures to_in_range { result.1.0 < length self.now.nodes }
    {
        let link = &self.links[segment.0 as usize];
        (link.from, link.to)
    }

    pub fn kind(&self, segment: SegmentNo) -> Kind
        requires { segment.0 < length self.now.segments }
        ensures { result ≡ (segment_at self.now segment.0).kind }
    {
        self.links[segment.0 as usize].kind
    }

    /// What a wire pays to pass the segment: a run's length, a coupler's price.
    pub fn price(&self, segment: SegmentNo) -> u64
        requires { segment.0 < length self.now.segments }
        ensures value { result ≡ price_at self.now segment.0 }
        ensures range { (1 ≤ result) × (result ≤ 1000000) }
    {
        self.links[segment.0 as usize].kind.price()
    }

    /// Whether the segment may be passed.
    pub fn is_open(&self, segment: SegmentNo) -> bool
        requires { segment.0 < length self.now.segments }
        ensures { result ≡ (segment_at self.now segment.0).is_open }
    {
        self.links[segment.0 as usize].is_open
    }

    /// The end of a segment that isn't this node; None exactly where the node is no end.
    pub fn other_end(&self, segment: SegmentNo, node: NodeNo) -> Option<NodeNo>
        requires { segment.0 < length self.now.segments }
        ensures { option_map (λ end. end.0) result ≡ other_end_at self.now segment.0 node.0 }
    {
        let link = &self.links[segment.0 as usize];
        if link.from == node {
            Some(link.to)
        } else if link.to == node {
            Some(link.from)
        } else {
            None
        }
    }

    /// The way over a segment from one of its ends to the other.
    pub fn way_from(&self, node: NodeNo, segment: SegmentNo) -> Way
        requires { segment.0 < length self.now.segments }
        ensures way { result ≡ way_from self.now node.0 segment.0 }
        ensures to_in_range { result.to.0 < length self.now.nodes }
        ensures range { result.price ≤ 1000000 }
    {
        let (from, to) = self.ends(segment);
        Way {
            from: node,
            to: if from == node { to } else { from },
            price: self.price(segment),
        }
    }

    /// Marks exactly those segments that are the first of the cheapest open ones between their two
    /// nodes, so that a search for least costs needs to look at no others.
    pub fn mark_cheapest(&self, marks: &mut [bool])
        requires { length self.now.segments ≤ length marks.old }
        ensures { MarksCheapest self.now marks.new }
    {
        mark_cheapest(self, marks)
    }

    /// The open segments at a node, rising.
    pub fn segments_at(&self, node: NodeNo) -> &[SegmentNo]
        requires { node.0 < length self.now.nodes }
        ensures { map (λ s. s.0) result.now ≡ open_at self.now node.0 }
    {
        self.incidence.at(node)
    }

    /// The k-th open segment at a node in rising order, None exactly past the last.
    pub fn at(&self, node: NodeNo, k: u32) -> Option<SegmentNo>
        requires { node.0 < length self.now.nodes }
        ensures { option_map (λ s. s.0) result ≡ slice_get (open_at self.now node.0) k }
    {
        self.segments_at(node).get(k as usize).copied()
    }

    /// The nodes that chains of open segments reach from this one, itself among them, rising.
    pub fn reach(&self, node: NodeNo) -> Result<List<NodeNo>, NoMemory>
        requires { node.0 < length self.now.nodes }
        ensures rising { IfOk result (λ nodes. IsStrictlyIncreasing (map (λ v. v.0) nodes)) }
        ensures reached { IfOk result (λ nodes. (u : ℕ) → Contains (map (λ v. v.0) nodes) u
            ↔ IsReached self.now node.0 u) }
    {
        reached_from(*self.links.allocator(), self, node)
    }

    /// The node at which a cavity lies.
    pub fn cavity_node(&self, cavity: CavityNo) -> NodeNo
        requires { cavity.0 < length self.now.cavities }
        ensures node { result.0 ≡ node_of self.now cavity.0 }
        ensures in_range { result.0 < length self.now.nodes }
    {
        self.cavities[cavity.0 as usize]
    }

    /// The same topology, in which exactly these segments are shut, whichever were shut before.
    pub fn shut(&self, segments: &[SegmentNo]) -> Result<Topology, NoMemory>
        requires { All (λ s. s.0 < length self.now.segments) segments.now }
        ensures value { IfOk result (λ shut.
            shut ≡ shut_in self.now (map (λ s. s.0) segments.now)) }
        ensures count { IfOk result (λ shut. length shut.segments ≡ length self.now.segments) }
    {
        let alloc = *self.links.allocator();
        let links = with_shut(alloc, &self.links, segments)?;
        Ok(Topology {
            nodes: Vec::from_slice(alloc, &self.nodes)?,
            incidence: incidence_of(alloc, self.nodes.len(), &links)?,
            links,
            cavities: Vec::from_slice(alloc, &self.cavities)?,
        })
    }

    /// Whether a segment may be added between the two nodes.
    fn test(&self, from: NodeNo, to: NodeNo, kind: Kind) -> Result<(), TopologyFault>
        requires from_in_range { from.0 < length self.now.nodes }
        requires to_in_range { to.0 < length self.now.nodes }
        ensures ok { OnOk result (number_of_new self.now from.0 to.0 kind
            ≡ Ok (length self.now.segments)) }
        ensures apart { OnOk result (from.0 ≢ to.0) }
        ensures border { OnOk result (KeepsBorder self.now (open_segment from.0 to.0 kind)) }
        ensures err { IfErr result (λ fault.
            IsDue fault (number_of_new self.now from.0 to.0 kind)) }
    {
        if from == to {
            return Err(TopologyFault::EndsEqual);
        }
        let one_harness = self.harness(from) == self.harness(to);
        match kind {
            Kind::Run { .. } if !one_harness => Err(TopologyFault::BorderCrossed),
            Kind::Coupler { .. } if one_harness => Err(TopologyFault::NoBorder),
            _ => Ok(()),
        }
    }
}

/// A copy of the links, of which exactly these are shut.
fn with_shut(alloc: Global, links: &[Link], segments: &[SegmentNo]) -> Result<Vec<Link>, NoMemory>
    requires { All (λ s. s.0 < length links.now) segments.now }
    ensures { IfOk result (λ copy. map segment_of_link copy.items
        ≡ shut_among (map segment_of_link links.now) (map (λ s. s.0) segments.now)) }
{
    let mut copy = opened(alloc, links)?;
    shut_links(&mut copy, segments);
    Ok(copy)
}

/// A copy of the links, all of which are open.
fn opened(alloc: Global, links: &[Link]) -> Result<Vec<Link>, NoMemory>
    ensures { IfOk result (λ copy. map segment_of_link copy.items
        ≡ shut_among (map segment_of_link links.now) []) }
{
    let mut copy = Vec::with_capacity(alloc, links.len())?;
    for link in links {
        copy.push(Link::new(link.from, link.to, link.kind))?;
    }
    Ok(copy)
}

/// Shuts these links.
fn shut_links(links: &mut [Link], segments: &[SegmentNo])
    requires in_range { All (λ s. s.0 < length links.old) segments.now }
    requires are_open { map segment_of_link links.old
        ≡ shut_among (map segment_of_link links.old) [] }
    ensures { map segment_of_link links.new
        ≡ shut_among (map segment_of_link links.old) (map (λ s. s.0) segments.now) }
{
    for segment in segments {
        links[segment.0 as usize].is_open = false;
    }
}

/// The open links at each node.
fn incidence_of(alloc: Global, node_count: usize, links: &[Link]) -> Result<Incidence, NoMemory>
    requires few { length links.now ≤ 4096 }
    requires sound { All (IsSoundSegment node_count) (map segment_of_link links.now) }
    ensures { IfOk result (λ incidence.
        IsIndexed incidence node_count (map segment_of_link links.now)) }
{
    let mut incidence = Incidence::with_nodes(alloc, node_count)?;
    for (number, link) in links.iter().enumerate() {
        if link.is_open {
            incidence.add_segment(link.from, link.to, SegmentNo(number as u32))?;
        }
    }
    Ok(incidence)
}

#[cfg(test)]
mod tests {
    use super::*;
    use loom_base::Pins;
    use std::test::Fail;

    /// A node of harness 0, and one of harness 1.
    fn two_nodes(alloc: Global, branch: Branch) -> Result<Topology, NoMemory>
        ensures nodes { IfOk result (λ topology. length topology.nodes ≡ 2) }
        ensures segments { IfOk result (λ topology. length topology.segments ≡ 0) }
        ensures cavities { IfOk result (λ topology. length topology.cavities ≡ 0) }
    {
        let mut topology = Topology::new(alloc);
        topology.add_node(0, branch)?;
        topology.add_node(1, branch)?;
        Ok(topology)
    }

    /// The two nodes, and a coupler between them.
    fn one_coupler(alloc: Global, branch: Branch, kind: Kind) -> Result<Topology, TopologyFault>
        ensures nodes { IfOk result (λ topology. length topology.nodes ≡ 2) }
        ensures segments { IfOk result (λ topology. length topology.segments ≡ 1) }
    {
        let mut topology = two_nodes(alloc, branch)?;
        topology.add_segment(NodeNo(0), NodeNo(1), kind)?;
        Ok(topology)
    }

    #[test]
    fn nodes_and_cavities(rt: HostRuntime) -> Result<(), Fail> {
        let branch = Branch::new(10).ok_or("a branch cost")?;
        let mut topology = two_nodes(rt.alloc(), branch)?;
        topology.add_cavity(NodeNo(1))?;
        assert_eq!(rt; topology.node_count(), 2);
        assert_eq!(rt; topology.cavity_count(), 1);
        assert_eq!(rt; topology.cavity_node(CavityNo(0)), NodeNo(1));
        assert_eq!(rt; topology.harness(NodeNo(1)), 1);
        assert_eq!(rt; topology.branch(NodeNo(0)), 10);
        Ok(())
    }

    #[test]
    fn coupler(rt: HostRuntime) -> Result<(), Fail> {
        let branch = Branch::new(0).ok_or("a branch cost")?;
        let price = Price::new(100).ok_or("a price")?;
        let pins = Pins::new(2).ok_or("pins")?;
        let kind = Kind::Coupler { price, pins };
        let topology = one_coupler(rt.alloc(), branch, kind)?;
        assert_eq!(rt; topology.segment_count(), 1);
        assert_eq!(rt; topology.ends(SegmentNo(0)), (NodeNo(0), NodeNo(1)));
        assert_eq!(rt; topology.kind(SegmentNo(0)), kind);
        assert_eq!(rt; topology.price(SegmentNo(0)), 100);
        assert_eq!(rt;
            topology.other_end(SegmentNo(0), NodeNo(1)),
            Some(NodeNo(0))
        );
        Ok(())
    }

    #[test]
    fn reaching(rt: HostRuntime) -> Result<(), Fail> {
        let branch = Branch::new(0).ok_or("a branch cost")?;
        let price = Price::new(100).ok_or("a price")?;
        let pins = Pins::new(2).ok_or("pins")?;
        let topology = one_coupler(rt.alloc(), branch, Kind::Coupler { price, pins })?;
        let both = topology.reach(NodeNo(1))?;
        assert_eq!(rt; both.as_slice(), [NodeNo(0), NodeNo(1)].as_slice());
        let shut = topology.shut(&[SegmentNo(0)])?;
        let one = shut.reach(NodeNo(1))?;
        assert_eq!(rt; one.as_slice(), [NodeNo(1)].as_slice());
        Ok(())
    }

    #[test]
    fn shutting(rt: HostRuntime) -> Result<(), Fail> {
        let branch = Branch::new(0).ok_or("a branch cost")?;
        let price = Price::new(100).ok_or("a price")?;
        let pins = Pins::new(2).ok_or("pins")?;
        let topology = one_coupler(rt.alloc(), branch, Kind::Coupler { price, pins })?;
        assert_eq!(rt; topology.segments_at(NodeNo(1)), [SegmentNo(0)].as_slice());
        assert_eq!(rt; topology.at(NodeNo(1), 0), Some(SegmentNo(0)));
        let shut = topology.shut(&[SegmentNo(0)])?;
        assert!(rt; !shut.is_open(SegmentNo(0)));
        assert_eq!(rt; shut.at(NodeNo(1), 0), None);
        Ok(())
    }

    #[test]
    fn borders(rt: HostRuntime) -> Result<(), Fail> {
        let branch = Branch::new(0).ok_or("a branch cost")?;
        let length = Price::new(1).ok_or("a price")?;
        let mut topology = two_nodes(rt.alloc(), branch)?;
        let outcome = topology.add_segment(NodeNo(0), NodeNo(1), Kind::Run { length });
        assert_eq!(rt; outcome, Err(TopologyFault::BorderCrossed));
        Ok(())
    }
}
