//! What a node makes of a path, and its results of a cycle.
ghost use Rattle.std.specs.Prelude.{◌≡◌, ◌+◌, ◌^◌, ◌≤◌, ◌∷◌, List, ℕ, length, map, take};
ghost use Rattle.std.specs.Result.{MatchResult};
ghost use Rattle.midpoint.specs.Refusals.{ByRows};
ghost use Rattle.relay.specs.Tables as of_tables;
ghost use Rattle.relay.specs.Tables.{held_in, no_path};
ghost use Rattle.agreement.specs.Results.{made_of, nodes_off, made_of_path, results_of, unfit};
ghost use Rattle.agreement.specs.Rows.{row_of, made_in};

use crate::most::majority;
use crate::path::Path;
use crate::refusal::Refusal;
use clock::Cluster;
use midpoint::MAX_NODES;
use relay::{fitting_table, known_path};

/// The results of a cycle: for each node in order what is made of the path of it alone. The table is the one that was written in
/// the cycle's last round, as it is before the next cycle begins. A table of another length than the cluster needs is refused,
/// 10 at the length needed; then memory that has not one place for each node, 10 at the number of nodes. The memory is then
/// left as it was.
#[tactic(auto, using(crate::proofs::Made::all_results))]
pub fn results(cluster: &Cluster, table: &[u32], memory: &mut [u32]) -> Result<(), Refusal>
    ensures answer { ByRows (unfit cluster.now table.now memory.old) (λ e. e) (λ _. Unit {0}) result }
    ensures memory { MatchResult result (λ _. memory.new ≡ results_of cluster.now table.now) (λ _. memory.new ≡ memory.old) }
{
    fitting_table(cluster, table)?;
    let nodes = cluster.nodes() as usize;
    if memory.len() != nodes {
        return Err(Refusal::ResultsLength { needed: nodes });
    }
    let no_nodes = Path::empty(nodes);
    for node in 0..nodes {
        memory[node] = made_of_path(table, no_nodes.with(node), cluster.faults());
    }
    Ok(())
}

/// What is made of a path, the node that told last standing first, from the same table: of one with as many nodes as a cycle has
/// rounds, what the table holds for it; of a shorter one the majority of what is made of the paths with one more node in front,
/// for each node that is not on it. A table of another length than the cluster needs is refused, 10 at the length needed; then a
/// path of no nodes or of more than a cycle has rounds, 11 at its length; then one with a node that is past the cluster or stood
/// before, 11 at the first such.
#[tactic(auto, using(relay::proofs::Places::taken_below, relay::proofs::Places::taken_short, crate::proofs::Made::made_of_row))]
pub fn made_of(cluster: &Cluster, table: &[u32], path: &[u8]) -> Result<u32, relay::Refusal>
    ensures { ByRows (of_tables.unfit cluster.now table.now ∷ no_path cluster.now path.now) (λ e. e) (λ value. value ≡ made_of cluster.now table.now path.now) result }
{
    fitting_table(cluster, table)?;
    known_path(cluster, path)?;
    let path = Path::of(cluster.nodes() as usize, path);
    Ok(made_of_path(table, path, cluster.faults() + 1 - path.length))
}

// What is made of a path, where so many tellings are left: what the table holds for it if none is; else the majority of what is
// made of the paths with one more node in front.
#[cycle(made_of_path)]
#[tactic(auto, using(crate::proofs::Made::made_last, crate::proofs::Made::made_of_list))]
fn made_of_path(table: &[u32], path: Path, left: u64) -> u32
    requires fits { path.cluster_nodes ^ (path.length + left) ≤ length table.now }
    requires short { path.length + left ≤ 4 }
    ensures { result ≡ made_of_path path.cluster_nodes left (held_in path.cluster_nodes table.now) (row_of path) }
{
    match left.checked_sub(1) {
        Some(left) => {
            let mut values = [0; MAX_NODES];
            let count = made_of_longer(table, path, left, &mut values);
            majority(&values[..count])
        }
        None => table[path.index],
    }
}

// What is made of each of the paths with one more node in front of this one, for each node that is not on it; and how many they are.
#[cycle(made_of_path)]
fn made_of_longer(table: &[u32], path: Path, left: u64, values: &mut [u32]) -> usize
    requires fits { path.cluster_nodes ^ (path.length + left + 1) ≤ length table.now }
    requires short { path.length + left + 1 ≤ 4 }
    requires room { path.cluster_nodes ≤ length values.old }
    ensures few { result ≤ length values.new }
    ensures values { take result values.new ≡ map (made_in path left table.now) (nodes_off path.cluster_nodes (row_of path)) }
{
    let mut count = 0;
    for node in 0..path.cluster_nodes {
        if !path.holds(node) {
            values[count] = made_of_path(table, path.with(node), left);
            count += 1;
        }
    }
    count
}
