//! Tables of what was told: how long one is, what it holds for a path, and the value of a new cycle.
ghost use Rattle.std.specs.Prelude.{◌≡◌, [], ◌∷◌};
ghost use Rattle.std.specs.Result.{MatchResult};
ghost use Rattle.midpoint.specs.Refusals.{ByRows};
ghost use Rattle.relay.specs.Tables.{table_length_of, held_for, unfit, no_path, with_entry};

use crate::path::path_index;
use crate::refusal::Refusal;
use clock::Cluster;

/// How many entries the longest table has: that of 16 nodes that allow 3 faults.
pub const MAX_TABLE_LENGTH: usize = 65_536;

/// How many entries a table of the cluster has: one for each row of as many nodes as a cycle has rounds.
#[tactic(auto, using(crate::proofs::Numbers::power_small))]
pub fn table_length(cluster: &Cluster) -> usize
    ensures { result ≡ table_length_of cluster.now }
{
    (cluster.nodes() as usize).pow(cluster.faults() as u32 + 1)
}

/// What a table holds for a path, the node that told last standing first: what that node told of the rest of the path, if the
/// path has one node more than the place of the round in which the table was written. A table does not say of which
/// round it is, and an index is that of a path of each length, so for other paths the answer means nothing. A table of
/// another length than the cluster needs is refused, 10 at the length needed; then a path of no nodes or of more than a
/// cycle has rounds, 11 at its length; then one with a node that is past the cluster or stood before, 11 at the first such.
pub fn held_for(cluster: &Cluster, table: &[u32], path: &[u8]) -> Result<u32, Refusal>
    ensures { ByRows (unfit cluster.now table.now ∷ no_path cluster.now path.now) (λ e. e) (λ value. value ≡ held_for cluster.now table.now path.now) result }
{
    fitting_table(cluster, table)?;
    let index = path_index(cluster, path)?;
    Ok(table[index])
}

/// Puts the value that a node gives in a new cycle into its table, from which it tells in the cycle's first round; all
/// other entries stay as they were. In a cluster that allows no faults this entry is also the one of node 0 in the round
/// before, so what that cycle came to is to be looked up first. A table of another length than the cluster needs is
/// refused, 10 at the length needed, and is left as it was.
#[tactic(auto, using(crate::proofs::Places::some_entry))]
pub fn begin_cycle(cluster: &Cluster, table: &mut [u32], value: u32) -> Result<(), Refusal>
    ensures answer { ByRows (unfit cluster.now table.old ∷ []) (λ e. e) (λ _. Unit {0}) result }
    ensures table { MatchResult result (λ _. table.new ≡ with_entry cluster.now [] value table.old) (λ _. table.new ≡ table.old) }
{
    fitting_table(cluster, table)?;
    table[0] = value;
    Ok(())
}

/// Whether a table has the length that the cluster needs; one of another length is refused, 10 at the length needed.
pub fn fitting_table(cluster: &Cluster, table: &[u32]) -> Result<(), Refusal>
    ensures { ByRows (unfit cluster.now table.now ∷ []) (λ e. e) (λ _. Unit {0}) result }
{
    let needed = table_length(cluster);
    if table.len() != needed {
        return Err(Refusal::TableLength { needed });
    }
    Ok(())
}
