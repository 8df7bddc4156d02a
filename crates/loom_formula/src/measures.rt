ghost use Rattle.std.specs.Prelude.{◌≡◌, min};
ghost use Rattle.loom_formula.specs.Formula.{members_of, nodes_of, depth_of, nodes_of_all, depth_of_all};

use crate::{Formula, Members};

impl Formula {
    /// How many formulas stand in this one, itself among them; above `u64`'s greatest number that
    /// number.
    #[cycle(nodes)]
    pub fn nodes(&self) -> u64
        ensures { result ≡ min (nodes_of self.now) u64.MAX }
    {
        match self {
            Formula::Always | Formula::Never | Formula::Is(_) => 1,
            Formula::Not(inner) => inner.get().nodes().saturating_add(1),
            Formula::And(members) | Formula::Or(members) | Formula::One(members) => {
                members.nodes().saturating_add(1)
            }
        }
    }

    /// How many formulas stand in one another at most: 1 without an inner formula; above `u64`'s
    /// greatest number that number.
    #[cycle(depth)]
    pub fn depth(&self) -> u64
        ensures { result ≡ min (depth_of self.now) u64.MAX }
    {
        match self {
            Formula::Always | Formula::Never | Formula::Is(_) => 1,
            Formula::Not(inner) => inner.get().depth().saturating_add(1),
            Formula::And(members) | Formula::Or(members) | Formula::One(members) => {
                members.depth().saturating_add(1)
            }
        }
    }
}

impl Members {
    /// The nodes of all members together.
    #[cycle(nodes)]
    fn nodes(&self) -> u64
        ensures { result ≡ min (nodes_of_all (members_of self.now)) u64.MAX }
    {
        let mut nodes = 0u64;
        for member in self.as_slice() {
            nodes = nodes.saturating_add(member.nodes());
        }
        nodes
    }

    /// The depth of the deepest member, 0 without members.
    #[cycle(depth)]
    fn depth(&self) -> u64
        ensures { result ≡ min (depth_of_all (members_of self.now)) u64.MAX }
    {
        let mut depth = 0;
        for member in self.as_slice() {
            depth = depth.max(member.depth());
        }
        depth
    }
}
