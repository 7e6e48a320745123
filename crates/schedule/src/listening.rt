//! Listening in a slot: what arrives whole in it from the slot's node is heard, if it is one message and
//! not several.
ghost use Rattle.std.specs.Prelude.{◌≡◌, ◌≤◌};
ghost use Rattle.midpoint.specs.Refusals.{ByRows};
ghost use Rattle.clock.specs.Deviation.{deviation_of};
ghost use Rattle.schedule.specs.Config.{timing_of};
ghost use Rattle.schedule.specs.Heard.{answer_of};
ghost use Rattle.schedule.specs.Listening.{code_of, untimely, Opened, ToldBy, with_arrival, received_of, came_whole, heard_in};
ghost use Rattle.schedule.specs.Slots.{slot_start, send_time_of};

use crate::heard::Heard;
use crate::limits::Schedule;
use clock::deviation;
use midpoint::Code;

/// A message that has arrived: on which node's wire, and when by the own clock it began and had ended.
#[derive(Clone, Copy, PartialEq, Eq, Debug)]
pub struct Arrival<M> {
    pub wire: usize,
    pub began: u64,
    pub ended: u64,
    pub message: M,
}

/// A message that is heard, and how far it shows its sender's clock to be ahead.
#[derive(Clone, Copy, PartialEq, Eq, Debug)]
pub struct Received<M> {
    pub deviation: i64,
    pub message: M,
}

/// Why a listener does not take an arrival: the first that applies, in this order.
#[derive(Clone, Copy, PartialEq, Eq, Debug)]
pub enum Refusal {
    /// It ended before it began.
    EndsBeforeItBegan,
    /// It ended before the last time that the listener has seen.
    Earlier,
}

/// The number and place of a refusal in the fixed list.
impl From<Refusal> for Code {
    ghost from_gives = { λ refusal code. code ≡ code_of refusal };

    fn from(refusal: Refusal) -> Code {
        match refusal {
            Refusal::EndsBeforeItBegan | Refusal::Earlier => Code {
                number: 12,
                place: 0,
            },
        }
    }
}

/// A node that listens in one slot: the last time that it has seen, and what has arrived whole in the slot
/// from its node.
#[derive(Clone, Copy, PartialEq, Eq, Debug)]
pub struct Listener<M> {
    schedule: Schedule,
    slot: u64,
    last: u64,
    whole: Heard<Received<M>>,
}

/// A listener that was told of an arrival, and whether it took it.
#[derive(Clone, Copy, PartialEq, Eq, Debug)]
pub struct Told<M> {
    pub listener: Listener<M>,
    pub answer: Result<(), Refusal>,
}

impl<M: Copy> Listener<M> {
    /// A listener for a slot, which has heard nothing yet: this time is the last that it has seen. Made when
    /// the slot starts, or before, it misses nothing of it.
    pub fn new(schedule: Schedule, slot: u64, time: u64) -> Listener<M>
        ensures { Opened schedule slot time result }
    {
        Listener {
            schedule,
            slot,
            last: time,
            whole: Heard::Nothing,
        }
    }

    /// A message has arrived, on any wire. One that ended before it began, or before the last time that the
    /// listener has seen, is refused, 12 at 0, and the listener is then as before.
    pub fn tell(self, arrival: Arrival<M>) -> Told<M>
        ensures answer { ByRows (untimely self.last arrival) (λ e. e) (λ _. Unit {0}) result.answer }
        ensures listener { ToldBy self arrival result.listener }
    {
        let answer = self.timely(arrival);
        let listener = match answer {
            Ok(()) => Listener {
                last: arrival.ended,
                whole: self.whole_with(arrival),
                ..self
            },
            Err(_) => self,
        };
        Told { listener, answer }
    }

    /// The slot is over: the one message that has come whole in it from the slot's node; nothing if there is
    /// none, or more than one. What that is of all arrivals, `theorems::only_message_is_heard` says.
    pub fn heard(self) -> Option<Received<M>>
        ensures { result ≡ answer_of self.whole }
    {
        self.whole.only()
    }

    // Whether an arrival is taken.
    fn timely(self, arrival: Arrival<M>) -> Result<(), Refusal>
        ensures { ByRows (untimely self.last arrival) (λ e. e) (λ _. Unit {0}) result }
    {
        if arrival.ended < arrival.began {
            return Err(Refusal::EndsBeforeItBegan);
        }
        if arrival.ended < self.last {
            return Err(Refusal::Earlier);
        }
        Ok(())
    }

    // What has arrived whole, with one more arrival.
    fn whole_with(self, arrival: Arrival<M>) -> Heard<Received<M>>
        ensures { result ≡ with_arrival self.schedule self.slot self.whole arrival }
    {
        self.received(arrival)
            .map_or(self.whole, |received| self.whole.with(received))
    }

    // The message of an arrival, if it came whole in the slot from the slot's node.
    fn received(self, arrival: Arrival<M>) -> Option<Received<M>>
        ensures { result ≡ received_of self.schedule self.slot arrival }
    {
        self.is_whole(arrival).then(|| Received {
            deviation: self.deviation(arrival.began),
            message: arrival.message,
        })
    }

    // Whether an arrival came whole in the slot from the slot's node.
    fn is_whole(self, arrival: Arrival<M>) -> bool
        ensures { result ≡ came_whole self.schedule self.slot arrival }
    {
        let start = self.schedule.start(self.slot);
        arrival.wire == self.schedule.owner(self.slot)
            && start <= u128::from(arrival.began)
            && u128::from(arrival.ended) <= start + u128::from(self.schedule.length)
    }

    // How far the clock of the slot's node is ahead, if its message began at this time. It was due a pause
    // behind the slot's start.
    fn deviation(self, began: u64) -> i64
        requires { slot_start (timing_of self.schedule) self.slot ≤ began }
        ensures { result ≡ deviation_of (send_time_of (timing_of self.schedule) self.slot) began }
    {
        let into = u128::from(began) - self.schedule.start(self.slot);
        deviation(self.schedule.pause, into as u64)
    }
}

impl Schedule {
    /// What is heard of a slot, given all that arrived, in the order in which it ended: what a listener answers
    /// that has last seen a time and is then told of each. What it refuses is passed over.
    pub fn hear<M: Copy>(
        &self,
        slot: u64,
        time: u64,
        arrivals: &[Arrival<M>],
    ) -> Option<Received<M>>
        ensures { result ≡ heard_in self.now slot time arrivals.now }
    {
        let told = arrivals
            .iter()
            .fold(Listener::new(*self, slot, time), |listener, arrival| {
                listener.tell(*arrival).listener
            });
        told.heard()
    }
}
