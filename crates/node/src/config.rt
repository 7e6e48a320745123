//! The numbers of a configuration.
ghost use Rattle.std.specs.Prelude.{IfOk, IfErr};
ghost use Rattle.node.specs.Config.{Configured, NotConfigured};

use crate::refusal::Refusal;
use clock::Cluster;
use schedule::Schedule;

/// The numbers of a cluster and the times of its slots, as they are laid down for a line. They are the same for
/// all nodes of the cluster.
#[derive(Clone, Copy, PartialEq, Eq, Debug)]
pub struct Config {
    /// How many nodes there are.
    pub nodes: u64,
    /// How many of them may be faulty.
    pub faults: u64,
    /// By how many ticks a good clock runs off from common time, from one setting to the next.
    pub drift: u64,
    /// By how many ticks a good node's reading of a good clock is wrong, beside what the two run off.
    pub jitter: u64,
    /// How long a slot is.
    pub length: u64,
    /// How long the pause at its beginning is.
    pub pause: u64,
    /// How long a message lasts at most.
    pub message: u64,
    /// How long it is on its way at most.
    pub wire: u64,
}

impl Config {
    /// The schedule of a cluster with these numbers, or the first reason why there is none: 4 at 0 or 1, 5 at 0 or 1, 6 at
    /// 0 or 1.
    pub fn schedule(&self) -> Result<Schedule, Refusal>
        ensures ok { IfOk result (Configured self.now) }
        ensures err { IfErr result (NotConfigured self.now) }
    {
        let cluster = Cluster::new(self.nodes, self.faults, self.drift, self.jitter)?;
        let schedule = Schedule::new(cluster, self.length, self.pause, self.message, self.wire)?;
        Ok(schedule)
    }
}
