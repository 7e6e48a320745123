//! The indices of the paths that a node tells of in its turn.
ghost use Rattle.std.specs.Prelude.{◌≡◌, ℕ, ◌+◌, ◌*◌, ◌∷◌, ◌<◌, ◌≤◌, not};
ghost use Rattle.relay.specs.Nodes.{among};
ghost use Rattle.relay.specs.Paths.{is_path_without, row_at};

use crate::nodes::NodeSet;
use frame::Turn;

// The indices of the paths of so many nodes that do not hold the sender, in rising order. All rows of the length are looked at,
// in groups that differ in the first node only; which nodes may not stand first is worked out once for a group. The next row
// has `first` in front of the row with the index `behind`.
#[derive(Clone, Copy)]
pub(crate) struct PathIndices {
    nodes: usize,
    sender: usize,
    path_length: u64,
    end: usize,
    behind: usize,
    first: usize,
    barred: NodeSet,
    ghost few: { nodes ≤ 16 },
    ghost small: { end ≤ 65536 },
    ghost within: { first < nodes },
    ghost so_far: { behind ≤ end },
    ghost told: { (node : ℕ) → node < nodes → among barred node ≡ not (is_path_without nodes sender (row_at nodes path_length (behind * nodes + node))) },
}

// The nodes that may not stand before a row: the sender and those of the row, or all where the row itself is not told of.
fn barred(nodes: usize, sender: usize, row_length: u64, row: usize) -> NodeSet
    requires some { 0 < nodes }
    requires few { nodes ≤ 16 }
    ensures { (node : ℕ) → node < nodes → among result node ≡ not (is_path_without nodes sender (node ∷ row_at nodes row_length row)) }
{
    if row_length == 0 {
        return NodeSet::empty().with(sender);
    }
    let barred_behind = barred(nodes, sender, row_length - 1, row / nodes);
    let first = row % nodes;
    if barred_behind.has(first) {
        NodeSet::all()
    } else {
        barred_behind.with(first)
    }
}

// The nodes that may not stand first in a group: none in the only group of rows of no nodes.
fn barred_in(nodes: usize, sender: usize, path_length: u64, behind: usize) -> NodeSet
    requires some { 0 < nodes }
    requires few { nodes ≤ 16 }
    ensures { (node : ℕ) → node < nodes → among result node ≡ not (is_path_without nodes sender (row_at nodes path_length (behind * nodes + node))) }
{
    match path_length.checked_sub(1) {
        Some(row_length) => barred(nodes, sender, row_length, behind),
        None => NodeSet::empty(),
    }
}

impl PathIndices {
    ghost use Rattle.std.specs.Prelude.{map};
    ghost use Rattle.relay.specs.Paths.{index_of};
    ghost use Rattle.relay.specs.Telling.{paths_of};
    ghost use Rattle.relay.specs.Indices.{next_index, indices_left, OneFurther};

    // Those of a turn.
    pub(crate) fn of(turn: &Turn) -> PathIndices
        ensures { indices_left result ≡ map (index_of turn.now.cluster.nodes) (paths_of turn.now) }
    {
        let nodes = turn.cluster.nodes() as usize;
        let sender = turn.sender as usize;
        let path_length = turn.place_in_cycle();
        PathIndices {
            nodes,
            sender,
            path_length,
            end: nodes.pow(path_length as u32),
            behind: 0,
            first: 0,
            barred: barred_in(nodes, sender, path_length, 0),
        }
    }

    // The row that is looked at next.
    fn index(&self) -> usize
        ensures { result ≡ next_index self.now }
    {
        self.behind * self.nodes + self.first
    }

    // Goes on to the next row.
    fn go_on(&mut self)
        requires { next_index self.old < self.old.end }
        ensures { OneFurther self.old self.new }
    {
        self.first += 1;
        if self.first == self.nodes {
            self.first = 0;
            self.behind += 1;
            self.barred = barred_in(self.nodes, self.sender, self.path_length, self.behind);
        }
    }
}

impl Iterator for PathIndices {
    type Item = usize;

    ghost use Rattle.std.specs.Iterator.{YieldsFirst, item_count};
    ghost use Rattle.relay.specs.Indices.{indices_left};

    ghost next_gives = { YieldsFirst indices_left };

    ghost remaining = { item_count indices_left };

    fn next(&mut self) -> Option<usize> {
        while self.index() < self.end {
            let index = self.index();
            let is_barred = self.barred.has(self.first);
            self.go_on();
            if !is_barred {
                return Some(index);
            }
        }
        None
    }
}
