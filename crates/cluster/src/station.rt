//! A good node of the cluster, with all that its driver has.
ghost use Rattle.std.specs.Prelude.{◌≡◌, ◌<◌, None, Some, IfOk, MatchOption, slice_index_or};
ghost use Rattle.midpoint.specs.Refusals.{ByRows};
ghost use Rattle.node.specs.Calls.{unended};
ghost use Rattle.node.specs.Ending.{Ends, IsSet};
ghost use Rattle.node.specs.Hearing.{Hears};
ghost use Rattle.node.specs.Events.{bytes_heard};
ghost use Rattle.node.specs.Nodes.{results_in};
ghost use Rattle.script.specs.Rounds.{next_of, drift_of};
ghost use Rattle.cluster.specs.Stations.{came_of, set_to, why_not, run_on, Same, SentBy, Notes, Starts, HeardBy, EndedBy};
ghost use Rattle.cluster.specs.declared.station.Came.TheVariants as came;

use clock::reading;
use frame::Reception;
use midpoint::{Code, MAX_NODES};
use node::{Event, Node, Setting, Step};
use relay::table_length;
use schedule::{Received, Schedule};
use script::Given;
use std::alloc::{AllocError, Global};

/// What came in another node's slot.
#[derive(Clone, Copy, PartialEq, Eq, Debug)]
pub enum Came {
    /// Nothing was heard.
    Nothing,
    /// A frame, which shows its sender's clock to be so far ahead of the own one.
    Whole(i64),
    /// A frame that was turned away, by this number and place.
    TurnedAway(Code),
}

impl From<Event<'_>> for Came {
    ghost from_gives = { λ event came. came ≡ came_of event };

    fn from(event: Event<'_>) -> Came {
        match event {
            Event::Nothing => Came::Nothing,
            Event::Frame(Reception::Whole { deviation, .. }) => Came::Whole(deviation),
            Event::Frame(Reception::TurnedAway(refusal)) => Came::TurnedAway(Code::from(refusal)),
        }
    }
}

/// A good node, with the two tables that its driver lends to it. Only a `Bus` has one, and lends it to be read.
#[derive(Drop)]
pub struct Station {
    pub(crate) node: Node,
    pub(crate) first: Vec<u32>,
    pub(crate) second: Vec<u32>,
    /// What its clock shows as the round ends.
    pub time: u64,
    /// The value that it gives in this cycle.
    pub value: u32,
    // The value that it gives in the next cycle.
    pub(crate) next: u32,
    pub(crate) came: [Came; MAX_NODES],
    /// By which number and place its clock was not set as the last round ended, if it was not.
    pub refused: Option<Code>,
}

impl Station {
    // A node of this number, whose clock shows `ahead` at the end of the first round, and which gives this value until another one is
    // given. Nothing, where memory is wanting.
    pub(crate) fn new(
        heap: Global,
        schedule: Schedule,
        number: u8,
        value: u32,
        ahead: u64,
    ) -> Result<Station, AllocError>
        requires { number < schedule.cluster.nodes }
        ensures { IfOk result (Starts schedule number value ahead) }
    {
        let length = table_length(&schedule.cluster);
        let mut first = vec![in heap; 0; length]?;
        let second = vec![in heap; 0; length]?;
        let node = Node::new(schedule, number, 0, value, &mut first).unwrap();
        Ok(Station {
            node,
            first,
            second,
            time: ahead,
            value,
            next: value,
            came: [Came::Nothing; MAX_NODES],
            refused: None,
        })
    }

    /// What came in the slot of a node in the last round; nothing of itself, and of a node past the largest cluster.
    pub fn came(&self, sender: usize) -> Came
        ensures { result ≡ slice_index_or self.now.came sender came.Nothing }
    {
        self.came.get(sender).copied().unwrap_or(Came::Nothing)
    }

    /// Its results of the last whole cycle, one for each node in order; nothing before the first one is over.
    pub fn results(&self) -> Option<&[u32]>
        ensures { MatchOption result (results_in self.now.node ≡ None) (λ results. results_in self.now.node ≡ Some results.now) }
    {
        self.node.results()
    }

    // Its slot has come: the frame is written into memory. The answer is its length, or nothing, where the node does not send.
    pub(crate) fn send(&mut self, memory: &mut [u8]) -> Option<usize>
        ensures { SentBy self.old memory.old self.new memory.new result }
    {
        let Step { node, answer } = self
            .node
            .send(self.time, &mut self.first, &mut self.second, memory);
        self.node = node;
        answer.ok()
    }

    // The slot of another node is over.
    pub(crate) fn hear(&mut self, sender: u8, heard: Option<Received<&[u8]>>)
        requires { sender < 16 }
        ensures { HeardBy self.old sender (bytes_heard heard.entry) self.new }
    {
        let noted = self.call_slot_over(sender, heard);
        self.came[usize::from(sender)] = noted;
    }

    // The call that ends another node's slot, and what is noted of it.
    fn call_slot_over(&mut self, sender: u8, heard: Option<Received<&[u8]>>) -> Came
        ensures hears { Hears self.old.node self.old.time sender (bytes_heard heard.entry) self.old.first.items self.old.second.items self.new.node self.new.first.items self.new.second.items }
        ensures noted { Notes self.old sender (bytes_heard heard.entry) result }
        ensures same { Same self.old self.new }
        ensures came { self.new.came ≡ self.old.came }
    {
        let Step { node, answer } = self.node.slot_over(
            self.time,
            sender,
            heard,
            &mut self.first,
            &mut self.second,
        );
        self.node = node;
        answer.map_or(Came::Nothing, Came::from)
    }

    // The round is over, and its clock runs on to the end of the next one.
    pub(crate) fn end(&mut self, number: usize, last: bool, span: u64, given: &Given)
        ensures { EndedBy self.old (next_of given.now number) last span (drift_of given.now number) self.new }
    {
        let next = given.next_of(number).unwrap_or(self.next);
        let answer = self.call_round_over(next);
        self.time = run_on(set_to(self.time, answer), span, given.drift_of(number));
        if last {
            self.value = next;
        }
        self.next = next;
        self.refused = why_not(answer);
    }

    // The call that ends the round.
    fn call_round_over(&mut self, next: u32) -> Result<Setting, node::Refusal>
        ensures ends { Ends self.old.node self.old.time next self.old.first.items self.old.second.items self.new.node self.new.first.items self.new.second.items }
        ensures answer { ByRows (unended self.old.node self.old.time self.old.first.items self.old.second.items) (λ e. e) (IsSet self.old.node self.old.time) result }
        ensures same { Same self.old self.new }
        ensures came { self.new.came ≡ self.old.came }
    {
        let Step { node, answer } = self
            .node
            .round_over(self.time, next, &mut self.first, &mut self.second);
        self.node = node;
        answer
    }
}

// What a clock shows behind the call that ends a round.
fn set_to(time: u64, answer: Result<Setting, node::Refusal>) -> u64
    ensures { result ≡ set_to time answer }
{
    match answer {
        Ok(Setting::SetTo(set)) => set,
        Ok(Setting::Kept(_)) | Err(_) => time,
    }
}

// Why it was not set, if it was not.
fn why_not(answer: Result<Setting, node::Refusal>) -> Option<Code>
    ensures { result ≡ why_not answer }
{
    match answer {
        Ok(Setting::SetTo(_)) => None,
        Ok(Setting::Kept(refusal)) => Some(Code::from(refusal)),
        Err(refusal) => Some(Code::from(refusal)),
    }
}

// What a clock that shows a time comes to show a round later, run off by the drift.
fn run_on(time: u64, span: u64, drift: i64) -> u64
    ensures { result ≡ run_on span drift time }
{
    reading(time.saturating_add(span), drift)
}
