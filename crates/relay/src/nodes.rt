//! Sets of nodes of a cluster.
ghost use Rattle.std.specs.Prelude.{◌≡◌, ℕ, false, nat_lt};
ghost use Rattle.relay.specs.Nodes.{among, added};

use midpoint::MAX_NODES;

/// A set of nodes, which have the numbers 0 to 15: a bit for each, the lowest for node 0.
#[derive(Clone, Copy, PartialEq, Eq, Debug)]
pub struct NodeSet {
    bits: u16,
}

impl NodeSet {
    /// The set of no nodes.
    pub fn empty() -> NodeSet
        ensures { (node : ℕ) → among result node ≡ false }
    {
        NodeSet { bits: 0 }
    }

    // The set of all nodes.
    #[tactic(auto, using(crate::proofs::Sets::all_among))]
    pub(crate) fn all() -> NodeSet
        ensures { (node : ℕ) → among result node ≡ nat_lt node 16 }
    {
        NodeSet { bits: u16::MAX }
    }

    /// Whether a node is in the set; one past 15 is in none.
    pub fn has(self, node: usize) -> bool
        ensures { result ≡ among self node }
    {
        node < MAX_NODES && self.bits >> node & 1 == 1
    }

    /// The set with one node more; one past 15 is left out.
    #[tactic(auto, using(crate::proofs::Sets::one_more))]
    pub fn with(self, node: usize) -> NodeSet
        ensures { (other : ℕ) → among result other ≡ added (among self) node other }
    {
        if node < MAX_NODES {
            NodeSet {
                bits: self.bits | 1 << node,
            }
        } else {
            self
        }
    }
}
