//! What a node is between two calls.
ghost use Rattle.std.specs.Prelude.{◌≡◌, ◌<◌, None, Some, IfErr, MatchOption};
ghost use Rattle.midpoint.specs.Refusals.{ByRows};

use crate::refusal::Refusal;
use clock::{Clock, Step as ClockStep};
use frame::Turn;
use midpoint::MAX_NODES;
use relay::{NodeSet, begin_cycle, fitting_table};
use schedule::Schedule;

/// A node of the bus. It goes through each call by value, and comes back with the answer. It has its configuration and its
/// number; its clock, which counts the rounds; of this round, whose slots are over and what was heard in them of other clocks;
/// and the results of the last whole cycle.
///
/// What was told is in two tables, which are lent to each call, always the same two in the same order: in an even round the node
/// reads the first and writes the second, and in an odd one it reads the second and writes the first. Nobody else writes to them,
/// and a node cannot see if they are handed over in the other order.
///
/// `due` says which call comes next and when. No call asks whether its time has come: it takes any local time below 10^12 that
/// is not earlier than the last, and does what it does.
#[derive(Clone, Copy, PartialEq, Eq, Debug)]
pub struct Node {
    pub(crate) schedule: Schedule,
    pub(crate) own: u8,
    pub(crate) clock: Clock,
    pub(crate) over: NodeSet,
    pub(crate) heard: [Option<i64>; MAX_NODES],
    pub(crate) results: Option<[u32; MAX_NODES]>,
    ghost known: { own < schedule.cluster.nodes },
}

/// A node that went through a call, and the answer of the call.
#[must_use]
#[derive(Clone, Copy, PartialEq, Eq, Debug)]
pub struct Step<A> {
    pub node: Node,
    pub answer: A,
}

impl Node {
    ghost use Rattle.node.specs.Nodes.{turn_of, reads_first, results_in};
    ghost use Rattle.node.specs.Starting.{unmade, MadeWith};

    /// A node that has this number in the cluster, and gives this value in its first cycle. It begins in round 0, at a local
    /// time that is not past its first due time if it is to miss nothing, with the first of its two tables, into which the
    /// value is put; what the second one holds does not matter. A time of 10^12 or more is refused, 3 at the own number; then a
    /// table of another length than the cluster needs, 10 at the length needed; then a number past the cluster, 11 at 0. The
    /// table is then left as it was.
    pub fn new(
        schedule: Schedule,
        own: u8,
        time: u64,
        value: u32,
        first: &mut [u32],
    ) -> Result<Node, Refusal>
        ensures made { ByRows (unmade schedule own time first.old) (λ e. e) (λ node. MadeWith schedule own time value first.old node first.new) result }
        ensures table { IfErr result (λ _. first.new ≡ first.old) }
    {
        let cluster = schedule.cluster;
        let ClockStep { clock, answer } = Clock::new().go_on(usize::from(own), time);
        answer?;
        fitting_table(&cluster, first)?;
        if u64::from(own) >= cluster.nodes() {
            return Err(Refusal::PastTheCluster);
        }
        begin_cycle(&cluster, first, value)?;
        Ok(Node {
            schedule,
            own,
            clock,
            over: NodeSet::empty(),
            heard: [None; MAX_NODES],
            results: None,
        })
    }

    /// Its clock: the last local time that it knows of, and the round that it is in.
    pub fn clock(&self) -> Clock
        ensures { result ≡ self.now.clock }
    {
        self.clock
    }

    /// The results of the last whole cycle, one for each node in order; nothing before the first cycle is over.
    pub fn results(&self) -> Option<&[u32]>
        ensures { MatchOption result (results_in self.now ≡ None) (λ results. results_in self.now ≡ Some results.now) }
    {
        match &self.results {
            Some(results) => Some(&results[..self.schedule.cluster.nodes() as usize]),
            None => None,
        }
    }

    // The turn of a node in this round.
    pub(crate) fn turn(&self, sender: u8) -> Turn
        ensures { result ≡ turn_of self.now sender }
    {
        Turn {
            cluster: self.schedule.cluster,
            sender,
            round: self.clock.round(),
        }
    }

    // Whether it reads the first table in this round, and writes the second.
    pub(crate) fn reads_first(&self) -> bool
        ensures { result ≡ reads_first self.now.clock.round }
    {
        let round = self.clock.round();
        round % 2 == 0
    }
}
