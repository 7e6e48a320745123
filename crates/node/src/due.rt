//! Which call comes next, and when.
ghost use Rattle.std.specs.Prelude.{◌≡◌};
ghost use Rattle.node.specs.Due.{call_of, due_of, next_slot};

use crate::state::Node;

/// A call that a driver is to make.
#[derive(Clone, Copy, PartialEq, Eq, Debug)]
pub enum Call {
    /// `Node::send`: the own slot's time to send has come.
    Send,
    /// `Node::slot_over`: the slot of another node is over, which is this one.
    SlotOver { sender: u8 },
    /// `Node::round_over`: all slots of the round are over, and so is the round.
    RoundOver,
}

/// The call that comes next, and the local time for it.
#[derive(Clone, Copy, PartialEq, Eq, Debug)]
pub struct Due {
    pub call: Call,
    pub time: u64,
}

impl Node {
    /// The call that comes next, and the local time for it. The slots of a round are over one after the other: the next one is
    /// that of the first node whose slot is not over yet.
    ///
    /// - If it is the own one, the node sends, when its clock is a pause behind the slot's start.
    /// - If it is another node's, it is over when the clock shows the slot's end.
    /// - If there is none, the round is over, when the clock shows its end.
    ///
    /// The time may be past, as it is where a node was made late, or a call was missed: then the call is to be made now, and what
    /// is sent then is late. A time past 2^64 - 1 is given as that.
    pub fn due(&self) -> Due
        ensures { result ≡ due_of self.now }
    {
        let call = self.next_call();
        let round = self.clock.round();
        let time = match call {
            Call::Send => self
                .schedule
                .send_time(self.schedule.slot(round, usize::from(self.own))),
            Call::SlotOver { sender } => self
                .schedule
                .slot_end(self.schedule.slot(round, usize::from(sender))),
            Call::RoundOver => self.schedule.round_end(round),
        };
        Due { call, time }
    }

    // The call that comes next.
    fn next_call(&self) -> Call
        ensures { result ≡ call_of self.now }
    {
        match self.next_slot() {
            Some(sender) if sender == self.own => Call::Send,
            Some(sender) => Call::SlotOver { sender },
            None => Call::RoundOver,
        }
    }

    // The first node whose slot is not over yet.
    fn next_slot(&self) -> Option<u8>
        ensures { result ≡ next_slot self.now }
    {
        let nodes = self.schedule.cluster.nodes() as u8;
        (0..nodes).find(|node| !self.over.has(usize::from(*node)))
    }
}
