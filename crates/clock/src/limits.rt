//! A cluster's numbers and a node's clock, with their limits in the types. The types stand apart from the
//! functions that make them, since an invariant cannot import a specification that names its type.
ghost use Rattle.std.specs.Prelude.{◌≡◌, ◌*◌, ◌<◌, ◌≤◌};
ghost use Rattle.midpoint.specs.Setting.{clock_limit, most_readings};

/// How many nodes there are and how many may be faulty, by how much a clock runs off from one setting
/// to the next, and by how much a reading is wrong.
#[derive(Clone, Copy, PartialEq, Eq, Debug)]
pub struct Cluster {
    pub(crate) nodes: u64,
    pub(crate) faults: u64,
    pub(crate) drift: u64,
    pub(crate) jitter: u64,
    ghost enough: { 4 ≤ nodes },
    ghost most: { nodes ≤ most_readings },
    ghost few: { faults ≤ 3 },
    ghost tolerated: { 3 * faults < nodes },
    ghost steady: { drift ≤ 1000 },
    ghost exact: { jitter ≤ 1000 },
}

impl Cluster {
    /// How many nodes there are, numbered from 0.
    pub fn nodes(&self) -> u64
        ensures { result ≡ self.now.nodes }
    {
        self.nodes
    }

    /// How many of them may be faulty.
    pub fn faults(&self) -> u64
        ensures { result ≡ self.now.faults }
    {
        self.faults
    }

    /// By how much a good clock runs off from common time, from one setting to the next.
    pub fn drift(&self) -> u64
        ensures { result ≡ self.now.drift }
    {
        self.drift
    }

    /// By how much a good node's reading of a good clock may be wrong, beside what the two clocks run off
    /// meanwhile.
    pub fn jitter(&self) -> u64
        ensures { result ≡ self.now.jitter }
    {
        self.jitter
    }
}

/// A node's clock: the local time that it last showed, and the round that the node is in. The round is
/// counted, and never worked out from the time: a clock that was set back shows times once more that the
/// last round already had.
#[derive(Clone, Copy, PartialEq, Eq, Debug)]
pub struct Clock {
    pub(crate) shown: u64,
    pub(crate) round: u64,
    ghost below: { shown < clock_limit },
}

impl Clock {
    /// The local time that it last showed.
    pub fn shown(self) -> u64
        ensures { result ≡ self.shown }
    {
        self.shown
    }

    /// The round that the node is in, counted from 0.
    pub fn round(self) -> u64
        ensures { result ≡ self.round }
    {
        self.round
    }
}
