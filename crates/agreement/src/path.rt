//! Paths of a cluster, and which nodes are on them.
ghost use Rattle.std.specs.Prelude.{◌≡◌, ℕ, ◌+◌, ◌^◌, ◌<◌, ◌≤◌, [], ◌∷◌, length};
ghost use Rattle.relay.specs.Nodes.{among};
ghost use Rattle.relay.specs.Paths.{AllBelow, stands_in, row_at};

use relay::NodeSet;

// A path, by its index: how many nodes it has, and which nodes are on it.
#[derive(Clone, Copy)]
pub(crate) struct Path {
    pub(crate) cluster_nodes: usize,
    pub(crate) length: u64,
    pub(crate) index: usize,
    on_it: NodeSet,
    ghost few: { cluster_nodes ≤ 16 },
    ghost short: { length ≤ 4 },
    ghost within: { index < cluster_nodes ^ length },
    ghost stand: { (node : ℕ) → node < cluster_nodes → among on_it node ≡ stands_in node (row_at cluster_nodes length index) },
}

impl Path {
    ghost use Rattle.agreement.specs.Rows.{row_of};

    // The path of no nodes, of a cluster of so many nodes.
    pub(crate) fn empty(cluster_nodes: usize) -> Path
        requires { cluster_nodes ≤ 16 }
        ensures cluster { result.cluster_nodes ≡ cluster_nodes }
        ensures length { result.length ≡ 0 }
        ensures row { row_of result ≡ [] }
    {
        Path {
            cluster_nodes,
            length: 0,
            index: 0,
            on_it: NodeSet::empty(),
        }
    }

    // The path that a row of nodes is.
    pub(crate) fn of(cluster_nodes: usize, row: &[u8]) -> Path
        requires few { cluster_nodes ≤ 16 }
        requires short { length row.now ≤ 4 }
        requires row { AllBelow cluster_nodes row.now }
        ensures cluster { result.cluster_nodes ≡ cluster_nodes }
        ensures length { result.length ≡ length row.now }
        ensures row { row_of result ≡ row.now }
    {
        let mut path = Path::empty(cluster_nodes);
        for place in (0..row.len()).rev() {
            path = path.with(row[place] as usize);
        }
        path
    }

    // The path with one more node in front.
    #[tactic(auto, using(crate::proofs::Fronts::front_fits, crate::proofs::Fronts::row_more))]
    pub(crate) fn with(self, node: usize) -> Path
        requires of_cluster { node < self.cluster_nodes }
        requires short { self.length < 4 }
        ensures cluster { result.cluster_nodes ≡ self.cluster_nodes }
        ensures length { result.length ≡ self.length + 1 }
        ensures row { row_of result ≡ node ∷ row_of self }
    {
        Path {
            cluster_nodes: self.cluster_nodes,
            length: self.length + 1,
            index: self.index * self.cluster_nodes + node,
            on_it: self.on_it.with(node),
        }
    }

    // Whether a node of the cluster is on the path.
    pub(crate) fn holds(self, node: usize) -> bool
        requires { node < self.cluster_nodes }
        ensures { result ≡ stands_in node (row_of self) }
    {
        self.on_it.has(node)
    }
}
