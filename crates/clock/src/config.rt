//! The numbers of a cluster: which are turned away, and what follows from them.
ghost use Rattle.std.specs.Prelude.{◌≡◌, IfErr};
ghost use Rattle.midpoint.specs.Refusals.{ByRows};
ghost use Rattle.clock.specs.Config.{code_of, ToldApart, ClusterOf, unfit, error_of, bound_of, width_of};

use crate::limits::Cluster;
use midpoint::{Code, MAX_NODES};
use thiserror::Error;

/// Why there is no cluster with these numbers: the first that applies, in this order.
#[derive(Clone, Copy, PartialEq, Eq, Debug, Error)]
pub enum Unfit {
    /// Fewer than 4 nodes, or more than 16.
    #[error("a cluster has 4 to 16 nodes")]
    Nodes,
    /// More than 3 faults.
    #[error("a cluster allows at most 3 faults")]
    Faults,
    /// The nodes are not more than three times the faults.
    #[error("the nodes are not more than three times the faults")]
    NodesForFaults,
    /// A drift above 1000.
    #[error("the drift is above 1000")]
    Drift,
    /// A jitter above 1000.
    #[error("the jitter is above 1000")]
    Jitter,
}

/// The number and place of a refusal in the fixed list.
impl From<Unfit> for Code {
    ghost from_gives = { λ unfit code. code ≡ code_of unfit };

    fn from(unfit: Unfit) -> Code {
        let (number, place) = match unfit {
            Unfit::Nodes => (4, 0),
            Unfit::Faults | Unfit::NodesForFaults => (4, 1),
            Unfit::Drift => (5, 0),
            Unfit::Jitter => (5, 1),
        };
        Code { number, place }
    }
}

impl Cluster {
    /// A cluster with these numbers, or the first reason why there is none.
    // Four numbers, and no struct of them: the one that holds them is what this makes.
    pub fn new(nodes: u64, faults: u64, drift: u64, jitter: u64) -> Result<Cluster, Unfit>
        ensures listed { ByRows (unfit nodes faults drift jitter) code_of (ClusterOf nodes faults drift jitter) result }
        ensures told_apart { IfErr result (ToldApart faults) }
    {
        if nodes < 4 || nodes > MAX_NODES as u64 {
            return Err(Unfit::Nodes);
        }
        if faults > 3 {
            return Err(Unfit::Faults);
        }
        if nodes <= 3 * faults {
            return Err(Unfit::NodesForFaults);
        }
        if drift > 1000 {
            return Err(Unfit::Drift);
        }
        if jitter > 1000 {
            return Err(Unfit::Jitter);
        }
        Ok(Cluster {
            nodes,
            faults,
            drift,
            jitter,
        })
    }

    /// By how much a good node's reading of a good clock may be wrong in all.
    pub fn error(&self) -> u64
        ensures { result ≡ error_of self.now }
    {
        self.jitter + 2 * self.drift
    }

    /// How far apart good clocks may be as a round ends.
    pub fn bound(&self) -> u64
        ensures { result ≡ bound_of self.now }
    {
        4 * self.error() + 4 * self.drift + 2
    }

    /// How far apart they may come within a round.
    pub fn width(&self) -> u64
        ensures { result ≡ width_of self.now }
    {
        self.bound() + 2 * self.drift
    }
}
