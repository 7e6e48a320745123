//! The end of a round.
ghost use Rattle.std.specs.Prelude.{◌≡◌, ◌<◌, length, IfOk};
ghost use Rattle.std.specs.Result.{MatchResult};
ghost use Rattle.midpoint.specs.Refusals.{ByRows};
ghost use Rattle.relay.specs.Tables.{table_length_of};
ghost use Rattle.relay.specs.Telling.{Entered};
ghost use Rattle.node.specs.Nodes.{turn_of};
ghost use Rattle.node.specs.Calls.{unended};
ghost use Rattle.node.specs.Ending.{Ends, Ended, Completed, IsSet, shown_by, is_last, results_after, value_missed};

use crate::refusal::Refusal;
use crate::state::{Node, Step};
use agreement::results;
use clock::Step as ClockStep;
use midpoint::MAX_NODES;
use relay::{NodeSet, Telling, begin_cycle, enter_silence};

/// What became of a clock at the end of a round.
#[derive(Clone, Copy, PartialEq, Eq, Debug)]
pub enum Setting {
    /// It was set, and shows this time.
    SetTo(u64),
    /// It was kept, since a reading was turned away; the round counts on all the same.
    Kept(midpoint::Refusal),
}

impl Node {
    /// The round is over: the clock is set by what was heard in it, or stays as it is where the readings are turned away. The
    /// answer says which, and the local clock is to go on from there. The round counts on, and the tables change places. A slot
    /// that is not over yet is over now, with nothing heard in it; if it is the own one, the node enters what it would have
    /// told. At the end of a cycle the results stand, and the value is the one that the node gives in the next cycle; at the
    /// end of other rounds it is not used. A time of 10^12 or more is refused, 3 at the own number; then tables of another
    /// length than the cluster needs, 10 at the length needed; then a time that is earlier than the last one, 12 at 0. The node
    /// and the tables are then as before.
    pub fn round_over(
        self,
        time: u64,
        value: u32,
        first: &mut [u32],
        second: &mut [u32],
    ) -> Step<Result<Setting, Refusal>>
        ensures answer { ByRows (unended self time first.old second.old) (λ e. e) (IsSet self time) result.answer }
        ensures shows { IfOk result.answer (λ setting. result.node.clock.shown ≡ shown_by time setting) }
        ensures leaves { Ends self time value first.old second.old result.node first.new second.new }
    {
        let outcome = if self.reads_first() {
            self.ended(time, value, first, second)
        } else {
            self.ended(time, value, second, first)
        };
        self.given_back(outcome)
    }

    // The node in the next round, and to what its clock is set. The table that was written is the one that it reads there.
    fn ended(
        self,
        time: u64,
        value: u32,
        read: &[u32],
        written: &mut [u32],
    ) -> Result<Step<Setting>, Refusal>
        ensures answer { ByRows (unended self time read.now written.old) (λ e. e) (λ step. IsSet self time step.answer) result }
        ensures shows { IfOk result (λ step. step.node.clock.shown ≡ shown_by time step.answer) }
        ensures leaves { MatchResult result (λ step. Ended self time value read.now written.old step.node written.new) (λ _. written.new ≡ written.old) }
    {
        let clock = self.at(time, self.fitting_tables(read, written))?;
        self.complete(read, written);
        let results = self.results_after(written);
        if self.is_last() {
            begin_cycle(&self.schedule.cluster, written, value)?;
        }
        let ClockStep { clock, answer } = clock.set(
            &self.schedule.cluster,
            usize::from(self.own),
            &self.heard,
        );
        let node = Node {
            schedule: self.schedule,
            own: self.own,
            clock,
            over: NodeSet::empty(),
            heard: [None; MAX_NODES],
            results,
        };
        let answer = match answer {
            Ok(time) => Setting::SetTo(time),
            Err(refusal) => Setting::Kept(refusal),
        };
        Ok(Step { node, answer })
    }

    // Whether the round is the last one of its cycle.
    fn is_last(&self) -> bool
        ensures { result ≡ is_last self.now }
    {
        self.turn(self.own).place_in_cycle() == self.schedule.cluster.faults()
    }

    // The results as the round is over: those of the cycle, if it is over too.
    fn results_after(&self, written: &[u32]) -> Option<[u32; MAX_NODES]>
        requires { length written.now ≡ table_length_of self.now.schedule.cluster }
        ensures { result ≡ results_after self.now written.now }
    {
        if !self.is_last() {
            return self.results;
        }
        let mut memory = [0; MAX_NODES];
        let nodes = self.schedule.cluster.nodes() as usize;
        results(&self.schedule.cluster, written, &mut memory[..nodes]).unwrap();
        Some(memory)
    }

    // Enters that nothing was heard of each node whose slot is not over yet, and for this one, if it has not sent, what it would
    // have told.
    fn complete(&self, read: &[u32], written: &mut [u32])
        requires reads { length read.now ≡ table_length_of self.now.schedule.cluster }
        requires writes { length written.old ≡ table_length_of self.now.schedule.cluster }
        ensures { Completed self.now read.now written.old written.new }
    {
        for node in 0..self.schedule.cluster.nodes() as u8 {
            if !self.over.has(usize::from(node)) {
                self.miss(node, read, written);
            }
        }
    }

    // Enters that nothing was heard of a node, or what this node would have told.
    fn miss(&self, node: u8, read: &[u32], written: &mut [u32])
        requires known { node < self.now.schedule.cluster.nodes }
        requires reads { length read.now ≡ table_length_of self.now.schedule.cluster }
        requires writes { length written.old ≡ table_length_of self.now.schedule.cluster }
        ensures { Entered (turn_of self.now node) (value_missed self.now read.now node) written.old written.new }
    {
        let turn = self.turn(node);
        if node == self.own {
            Telling::new(turn, read).unwrap().enter(written).unwrap();
        } else {
            enter_silence(&turn, written).unwrap();
        }
    }
}
