//! The lines before the rounds: the cluster, its timing, and its nodes, each named once.
ghost use Rattle.std.specs.Prelude.{◌≡◌, ◌≢◌, not, replicate, false, IfOk, IfErr};
ghost use Rattle.std.specs.List.{position};
ghost use Rattle.midpoint.specs.Refusals.{ByRows};
ghost use Rattle.script.specs.Naming.{Configured, NotConfigured, Timed, NotTimed, unnameable, Named, incomplete, misfits, NodeNamed};
ghost use Rattle.script.specs.Running.{Begun};
ghost use Rattle.script.specs.declared.setup.Starting.TheVariants as starting;

use crate::entry::Entry;
use crate::reason::{Lines, Misfit};
use crate::running::Running;
use crate::setup::{Setup, Starting, index};
use clock::Cluster;
use midpoint::MAX_NODES;
use schedule::Schedule;
use std::alloc::Global;

// A cluster whose nodes are being named.
#[derive(Clone, Copy)]
pub(crate) struct Naming {
    pub(crate) setup: Setup,
    pub(crate) named: [bool; MAX_NODES],
}

// The cluster, by the first line.
pub(crate) fn configured(entry: &Entry) -> Result<Cluster, Misfit>
    ensures ok { IfOk result (Configured entry.now) }
    ensures err { IfErr result (NotConfigured entry.now) }
{
    let Entry::Cluster {
        nodes,
        faults,
        drift,
        jitter,
    } = entry
    else {
        return Err(Misfit::Expected(Lines::Cluster));
    };
    Cluster::new(*nodes, *faults, *drift, *jitter).map_err(Misfit::NoCluster)
}

// The cluster's schedule, by the second line.
pub(crate) fn timed(cluster: Cluster, entry: &Entry) -> Result<Naming, Misfit>
    ensures ok { IfOk result (Timed cluster entry.now) }
    ensures err { IfErr result (NotTimed cluster entry.now) }
{
    let Entry::Timing {
        length,
        pause,
        message,
        wire,
    } = entry
    else {
        return Err(Misfit::Expected(Lines::Timing));
    };
    let schedule = Schedule::new(cluster, *length, *pause, *message, *wire).map_err(
        Misfit::NoSchedule,
    )?;
    Ok(Naming::new(schedule))
}

impl Naming {
    // No node is named yet.
    fn new(schedule: Schedule) -> Naming
        ensures schedule { result.setup.schedule ≡ schedule }
        ensures starting { result.setup.starting ≡ replicate 16 starting.Bad }
        ensures named { result.named ≡ replicate 16 false }
    {
        Naming {
            setup: Setup {
                schedule,
                starting: [Starting::Bad; MAX_NODES],
            },
            named: [false; MAX_NODES],
        }
    }

    // A line that names a node. What begins the rounds is taken by `begin`.
    pub(crate) fn take(&mut self, entry: &Entry) -> Result<(), Misfit>
        requires { entry.now ≢ Entry.Round }
        ensures { ByRows (misfits self.old entry.now) (λ e. e) (λ _. NodeNamed self.old entry.now self.new) result }
    {
        match *entry {
            Entry::Good { node, value, ahead } => self.name(node, Starting::Good { value, ahead }),
            Entry::Bad { node } => self.name(node, Starting::Bad),
            _ => Err(Misfit::Expected(Lines::Nodes)),
        }
    }

    // One node more.
    fn name(&mut self, node: u64, starting: Starting) -> Result<(), Misfit>
        ensures { ByRows (unnameable self.old node) (λ e. e) (λ _. Named self.old node starting self.new) result }
    {
        let i = index(&self.setup.schedule.cluster, node)?;
        if self.named[i] {
            return Err(Misfit::NamedTwice { node });
        }
        self.named[i] = true;
        self.setup.starting[i] = starting;
        Ok(())
    }

    // The rounds begin, once each node is named.
    pub(crate) fn begin(&self, heap: Global) -> Result<Running, Misfit>
        ensures { ByRows (incomplete self.now) (λ e. e) (Begun self.now.setup) result }
    {
        self.complete()?;
        Ok(Running::new(heap, self.setup))
    }

    // Each node is named.
    pub(crate) fn complete(&self) -> Result<(), Misfit>
        ensures { ByRows (incomplete self.now) (λ e. e) (λ _. Unit {0}) result }
    {
        match self.first_unnamed() {
            Some(i) if (i as u64) < self.setup.schedule.cluster.nodes() => {
                Err(Misfit::NotNamed { node: i as u64 })
            }
            _ => Ok(()),
        }
    }

    // The first place that is not named.
    fn first_unnamed(&self) -> Option<usize>
        ensures { result ≡ position not self.now.named }
    {
        self.named.iter().position(|named| !*named)
    }
}
