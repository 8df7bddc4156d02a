ghost use Rattle.std.specs.Prelude.{◌≡◌, ◌<◌, ◌-◌, [], ◌∷◌, ◌++◌, length, map, take, slice_set, replicate, IfOk, OnOk, OnErr};
ghost use Rattle.loom_topology.specs.Incidence.{list_at, with_at};

use loom_base::{NoMemory, NodeNo, SegmentNo};
use std::alloc::Global;
use std::marker::Model;

/// For each node a list of segments.
#[derive(Debug, Drop)]
pub struct Incidence {
    lists: Vec<Vec<SegmentNo>>,
}

impl Model for Incidence {
    ghost use Rattle.std.specs.Prelude.{ℕ, List};
    ghost use Rattle.std.specs.Coded.{coded_list, coded_ℕ};

    ghost Value = { List (List ℕ) };

    ghost coded = { coded_list (coded_list coded_ℕ) };

    ghost use Rattle.loom_topology.specs.Incidence.{lists_of};

    ghost view = { lists_of };
}

impl Incidence {
    pub fn new(alloc: Global) -> Incidence
        ensures { result ≡ [] }
    {
        Incidence {
            lists: Vec::new(alloc),
        }
    }

    /// That many nodes without segments.
    pub fn with_nodes(alloc: Global, count: usize) -> Result<Incidence, NoMemory>
        ensures { IfOk result (λ incidence. incidence ≡ replicate count []) }
    {
        let mut incidence = Incidence::new(alloc);
        for _ in 0..count {
            incidence.add_node()?;
        }
        Ok(incidence)
    }

    /// Adds a node without segments.
    pub fn add_node(&mut self) -> Result<(), NoMemory>
        ensures ok { OnOk result (self.new ≡ self.old ++ [] ∷ []) }
        ensures err { OnErr result (self.new ≡ self.old) }
    {
        let empty = Vec::new(*self.lists.allocator());
        self.lists.push(empty)?;
        Ok(())
    }

    /// Adds a segment to the lists of its two ends.
    pub fn add_segment(
        &mut self,
        from: NodeNo,
        to: NodeNo,
        segment: SegmentNo,
    ) -> Result<(), NoMemory>
        requires from_in_range { from.0 < length self.old }
        requires to_in_range { to.0 < length self.old }
        ensures ok { OnOk result (self.new
            ≡ with_at (with_at self.old from.0 segment.0) to.0 segment.0) }
        ensures err { OnErr result (self.new ≡ self.old) }
    {
        self.push(from, segment)?;
        match self.push(to, segment) {
            Ok(()) => Ok(()),
            Err(error) => {
                self.pop(from);
                Err(error)
            }
        }
    }

    /// The segments at a node.
    pub fn at(&self, node: NodeNo) -> &[SegmentNo]
        requires { node.0 < length self.now }
        ensures { map (λ s. s.0) result.now ≡ list_at self.now node.0 }
    {
        &self.lists[node.0 as usize]
    }

    fn push(&mut self, node: NodeNo, segment: SegmentNo) -> Result<(), NoMemory>
        requires { node.0 < length self.old }
        ensures ok { OnOk result (self.new ≡ with_at self.old node.0 segment.0) }
        ensures err { OnErr result (self.new ≡ self.old) }
    {
        self.lists[node.0 as usize].push(segment)?;
        Ok(())
    }

    /// Takes the last segment of a node's list away.
    fn pop(&mut self, node: NodeNo)
        requires { node.0 < length self.old }
        ensures { self.new ≡ slice_set self.old node.0
            (take (length (list_at self.old node.0) - 1) (list_at self.old node.0)) }
    {
        self.lists[node.0 as usize].pop();
    }
}
