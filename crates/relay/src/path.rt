//! The index of a path, and why a row of nodes is none.
ghost use Rattle.std.specs.Prelude.{◌≡◌, ◌<◌, ◌≤◌, length};
ghost use Rattle.std.specs.List.{position, range_with_len};
ghost use Rattle.midpoint.specs.Refusals.{ByRows};
ghost use Rattle.relay.specs.Paths.{index_of, AllBelow};
ghost use Rattle.relay.specs.Tables.{wrong_at, no_path, table_length_of};

use crate::refusal::Refusal;
use clock::Cluster;

// The index of a path that the cluster's tables have, or why a row of nodes is none.
#[tactic(auto, using(crate::proofs::Places::taken_below, crate::proofs::Places::taken_short, crate::proofs::Places::taken_within))]
pub(crate) fn path_index(cluster: &Cluster, row: &[u8]) -> Result<usize, Refusal>
    ensures { ByRows (no_path cluster.now row.now) (λ e. e) (λ index. (index ≡ index_of cluster.now.nodes row.now) × (index < table_length_of cluster.now)) result }
{
    known_path(cluster, row)?;
    Ok(index_of(cluster.nodes() as usize, row))
}

/// Whether a row of nodes is a path that the cluster's tables have. One of no nodes, or of more than a cycle has rounds, is
/// refused, 11 at its length; then one with a node that is past the cluster or stood before, 11 at the first such.
#[tactic(auto, using(crate::proofs::Places::some_wrong, crate::proofs::Places::none_wrong))]
pub fn known_path(cluster: &Cluster, row: &[u8]) -> Result<(), Refusal>
    ensures { ByRows (no_path cluster.now row.now) (λ e. e) (λ _. Unit {0}) result }
{
    let length = row.len();
    if length == 0 || length as u64 > cluster.faults() + 1 {
        return Err(Refusal::PathLength { length });
    }
    match first_wrong(cluster.nodes() as usize, row) {
        Some(place) => Err(Refusal::Node { place }),
        None => Ok(()),
    }
}

// The place of the first node that is past the cluster or stood before.
fn first_wrong(nodes: usize, row: &[u8]) -> Option<usize>
    ensures { result ≡ position (wrong_at nodes row.now) (range_with_len 0 (length row.now)) }
{
    (0..row.len()).position(|place| wrong_at(nodes, row, place))
}

// Whether the node at a place of a row is past the cluster or stood before.
fn wrong_at(nodes: usize, row: &[u8], place: usize) -> bool
    requires { place < length row.now }
    ensures { result ≡ wrong_at nodes row.now place }
{
    row[place] as usize >= nodes || row[..place].contains(&row[place])
}

// The index of a row of nodes.
fn index_of(nodes: usize, row: &[u8]) -> usize
    requires nodes { nodes ≤ 16 }
    requires length { length row.now ≤ 4 }
    requires row { AllBelow nodes row.now }
    ensures { result ≡ index_of nodes row.now }
{
    let mut index = 0;
    for place in (0..row.len()).rev() {
        index = index * nodes + row[place] as usize;
    }
    index
}
