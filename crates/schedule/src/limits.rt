//! The times of a cluster's slots, with their limits in the type. The type stands apart from the functions
//! that make it, since an invariant cannot import a specification that names its type.
ghost use Rattle.std.specs.Prelude.{◌+◌, ◌≤◌};
ghost use Rattle.clock.specs.Config.{error_of, width_of};
ghost use Rattle.schedule.specs.Slots.{longest};

use clock::Cluster;

/// When the nodes of a cluster send and listen: how long a slot is, how long the pause at its beginning,
/// and the longest that a message lasts and is on its way. Whoever makes one has to show its limits, so
/// the fields can be read by all. That a message is on its way for some ticks makes its reading wrong by as many:
/// the cluster's jitter has to cover that, and is not compared with the wire's time here.
#[derive(Clone, Copy, PartialEq, Eq, Debug)]
pub struct Schedule {
    pub cluster: Cluster,
    pub length: u64,
    pub pause: u64,
    pub message: u64,
    pub wire: u64,
    ghost before: { width_of cluster + error_of cluster + cluster.drift ≤ pause },
    ghost behind: { pause + wire + width_of cluster + message ≤ length },
    ghost most: { length ≤ longest },
}
