//! The cluster of a script, and how each of its nodes starts.
ghost use Rattle.std.specs.Prelude.{◌≡◌, ◌<◌, [], ◌∷◌, Some};
ghost use Rattle.midpoint.specs.Refusals.{ByRows};
ghost use Rattle.std.specs.Fmt.{WritesOnOk};
ghost use Rattle.script.specs.Setup.{is_good, past, not_good, not_bad};
ghost use Rattle.script.specs.Text.{each_of, cluster_line, timing_line, naming_line, setup_text};

use crate::reason::Misfit;
use clock::Cluster;
use midpoint::MAX_NODES;
use schedule::Schedule;
use std::fmt;

/// How a node starts.
#[derive(Clone, Copy, PartialEq, Eq, Debug)]
pub enum Starting {
    /// It is faulty: it does what the script says, and else nothing.
    Bad,
    /// It is good, gives this value, and its clock is so far ahead of common time.
    Good { value: u32, ahead: u64 },
}

/// A cluster's schedule, and how each of its nodes starts. Past the cluster all are bad.
#[derive(Clone, Copy)]
pub struct Setup {
    pub schedule: Schedule,
    pub starting: [Starting; MAX_NODES],
}

impl Starting {
    /// It is good.
    pub fn is_good(&self) -> bool
        ensures { result ≡ is_good self.now }
    {
        matches!(self, Starting::Good { .. })
    }
}

// The index of a node of the cluster.
pub(crate) fn index(cluster: &Cluster, node: u64) -> Result<usize, Misfit>
    ensures { ByRows (past cluster.now node ∷ []) (λ e. e) (λ i. (i ≡ node) × (i < cluster.now.nodes)) result }
{
    if node < cluster.nodes() {
        Ok(node as usize)
    } else {
        Err(Misfit::PastTheCluster { node })
    }
}

impl Setup {
    // The index of a good node.
    pub(crate) fn good(&self, node: u64) -> Result<usize, Misfit>
        ensures { ByRows (not_good self.now node) (λ e. e) (λ i. (i ≡ node) × (i < 16)) result }
    {
        let i = index(&self.schedule.cluster, node)?;
        if self.starting[i].is_good() {
            Ok(i)
        } else {
            Err(Misfit::NotGood { node })
        }
    }

    // The index of a bad node.
    pub(crate) fn bad(&self, node: u64) -> Result<usize, Misfit>
        ensures { ByRows (not_bad self.now node) (λ e. e) (λ i. (i ≡ node) × (i < 16)) result }
    {
        let i = index(&self.schedule.cluster, node)?;
        if self.starting[i].is_good() {
            Err(Misfit::NotBad { node })
        } else {
            Ok(i)
        }
    }
}

// The lines of a script before its rounds.
impl fmt::Display for Setup {
    ghost output = { λ setup. Some (setup_text setup) };

    fn fmt<W: fmt::Write>(&self, f: &mut fmt::Formatter<W>) -> fmt::Result {
        write_cluster(f, &self.schedule.cluster)?;
        write_timing(f, &self.schedule)?;
        let nodes = self.schedule.cluster.nodes() as usize;
        write_namings(f, &self.starting[..nodes])
    }
}

fn write_cluster<W: fmt::Write>(f: &mut fmt::Formatter<W>, cluster: &Cluster) -> fmt::Result
    ensures { WritesOnOk W.write_str_gives f.old result (cluster_line cluster.now) f.new }
{
    let nodes = cluster.nodes();
    let faults = cluster.faults();
    let drift = cluster.drift();
    let jitter = cluster.jitter();
    writeln!(
        f,
        "cluster nodes {nodes} faults {faults} drift {drift} jitter {jitter}"
    )
}

fn write_timing<W: fmt::Write>(f: &mut fmt::Formatter<W>, schedule: &Schedule) -> fmt::Result
    ensures { WritesOnOk W.write_str_gives f.old result (timing_line schedule.now) f.new }
{
    let length = schedule.length;
    let pause = schedule.pause;
    let message = schedule.message;
    let wire = schedule.wire;
    writeln!(
        f,
        "timing length {length} pause {pause} message {message} wire {wire}"
    )
}

fn write_namings<W: fmt::Write>(f: &mut fmt::Formatter<W>, row: &[Starting]) -> fmt::Result
    ensures { WritesOnOk W.write_str_gives f.old result (each_of naming_line 0 row.now) f.new }
{
    for (node, starting) in row.iter().enumerate() {
        write_starting(f, node, *starting)?;
    }
    Ok(())
}

fn write_starting<W: fmt::Write>(
    f: &mut fmt::Formatter<W>,
    node: usize,
    starting: Starting,
) -> fmt::Result
    ensures { WritesOnOk W.write_str_gives f.old result (naming_line node starting) f.new }
{
    match starting {
        Starting::Bad => writeln!(f, "bad {node}"),
        Starting::Good { value, ahead } => writeln!(f, "good {node} value {value} ahead {ahead}"),
    }
}
