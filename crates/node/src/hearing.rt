//! The end of another node's slot.
ghost use Rattle.std.specs.Prelude.{◌≡◌, ◌<◌, length, slice_set};
ghost use Rattle.std.specs.Result.{MatchResult};
ghost use Rattle.midpoint.specs.Refusals.{ByRows};
ghost use Rattle.midpoint.specs.Setting.{most_readings};
ghost use Rattle.schedule.specs.Listening.{Opened};
ghost use Rattle.relay.specs.Tables.{table_length_of};
ghost use Rattle.relay.specs.Telling.{Entered};
ghost use Rattle.node.specs.Nodes.{turn_of, slot_in};
ghost use Rattle.node.specs.Calls.{unheard, unheard_in};
ghost use Rattle.node.specs.Events.{bytes_heard, Becomes, deviation_in};
ghost use Rattle.node.specs.Hearing.{Hears, HasHeard, taken, values_of, deviation_of_taken};

use crate::event::Event;
use crate::refusal::Refusal;
use crate::state::{Node, Step};
use midpoint::MAX_NODES;
use schedule::{Listener, Received};

impl Node {
    /// A listener for the slot of another node in this round. It has heard nothing yet, and has last seen the time that the node
    /// knows of. Made as the round begins, or at the latest as the slot does, it misses nothing; what it answers when the slot
    /// is over is for `slot_over`.
    pub fn listener<M: Copy>(&self, sender: u8) -> Listener<M>
        ensures { Opened self.now.schedule (slot_in self.now sender) self.now.clock.shown result }
    {
        let slot = self.schedule.slot(self.clock.round(), usize::from(sender));
        Listener::new(self.schedule, slot, self.clock.shown())
    }

    /// The slot of another node is over, in which a listener heard one message, or nothing. If it is a frame of the sender in this
    /// round, its values are entered into the table that is written, and its deviation is kept for the setting; else it is turned
    /// away, and all is as if nothing had come: its values are 0, and no deviation is kept. What came is answered. A time of 10^12
    /// or more is refused, 3 at the own number; then tables of another length than the cluster needs, 10 at the length needed;
    /// then a sender that is past the cluster, or this node itself, or one whose slot is over already in this round, 11 at 0; then
    /// a time that is earlier than the last one, 12 at 0. The node and the tables are then as before.
    pub fn slot_over<'a>(
        self,
        time: u64,
        sender: u8,
        heard: Option<Received<&'a [u8]>>,
        first: &mut [u32],
        second: &mut [u32],
    ) -> Step<Result<Event<'a>, Refusal>>
        ensures answer { ByRows (unheard self time sender first.old second.old) (λ e. e) (Becomes (turn_of self sender) (bytes_heard heard.entry)) result.answer }
        ensures leaves { Hears self time sender (bytes_heard heard.entry) first.old second.old result.node first.new second.new }
    {
        let outcome = if self.reads_first() {
            self.heard(time, sender, heard, first, second)
        } else {
            self.heard(time, sender, heard, second, first)
        };
        self.given_back(outcome)
    }

    // The node behind the slot, and what came in it.
    fn heard<'a>(
        self,
        time: u64,
        sender: u8,
        heard: Option<Received<&'a [u8]>>,
        read: &[u32],
        written: &mut [u32],
    ) -> Result<Step<Event<'a>>, Refusal>
        ensures answer { ByRows (unheard self time sender read.now written.old) (λ e. e) (λ step. Becomes (turn_of self sender) (bytes_heard heard.entry) step.answer) result }
        ensures leaves { MatchResult result (λ step. HasHeard self time sender (bytes_heard heard.entry) written.old step.node written.new) (λ _. written.new ≡ written.old) }
    {
        let clock = self.at(time, self.can_hear(sender, read, written))?;
        let event = self.receive(sender, heard, written);
        let node = self.passed(clock, sender, self.heard_with(sender, event.deviation()));
        Ok(Step {
            node,
            answer: event,
        })
    }

    // Whether there is nothing but the time for which the slot is not over.
    fn can_hear(&self, sender: u8, read: &[u32], written: &[u32]) -> Result<(), Refusal>
        ensures { ByRows (unheard_in self.now sender read.now written.now) (λ e. e) (λ _. Unit {0}) result }
    {
        self.fitting_tables(read, written)?;
        if u64::from(sender) >= self.schedule.cluster.nodes()
            || sender == self.own
            || self.over.has(usize::from(sender))
        {
            return Err(Refusal::OutOfTurn);
        }
        Ok(())
    }

    // What came in the slot of a node, whose values it enters into the table that is written.
    #[tactic(auto, using(crate::proofs::Receiving::deviation_as, crate::proofs::Receiving::values_as))]
    fn receive<'a>(
        &self,
        sender: u8,
        heard: Option<Received<&'a [u8]>>,
        written: &mut [u32],
    ) -> Event<'a>
        requires known { sender < self.now.schedule.cluster.nodes }
        requires writes { length written.old ≡ table_length_of self.now.schedule.cluster }
        ensures event { Becomes (turn_of self.now sender) (bytes_heard heard.entry) result }
        ensures deviation { deviation_in result ≡ deviation_of_taken (taken (turn_of self.now sender) (bytes_heard heard.entry)) }
        ensures entered { Entered (turn_of self.now sender) (values_of (turn_of self.now sender) (taken (turn_of self.now sender) (bytes_heard heard.entry))) written.old written.new }
    {
        let turn = self.turn(sender);
        let event = Event::of(&turn, heard);
        event.enter(&turn, written).unwrap();
        event
    }

    // What was heard of each node, with the deviation of one more.
    fn heard_with(mut self, sender: u8, deviation: Option<i64>) -> [Option<i64>; MAX_NODES]
        requires { sender < most_readings }
        ensures { result ≡ slice_set self.heard sender deviation }
    {
        self.heard[usize::from(sender)] = deviation;
        self.heard
    }
}
