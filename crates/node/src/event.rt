//! What came in another node's slot.
ghost use Rattle.std.specs.Prelude.{◌≡◌};
ghost use Rattle.std.specs.Result.{MatchResult};
ghost use Rattle.midpoint.specs.Refusals.{ByRows};
ghost use Rattle.relay.specs.Telling.{untold, Entered};
ghost use Rattle.node.specs.Events.{bytes_heard, Becomes, deviation_in, code_of_event, values_in};

use frame::{Reception, Turn};
use midpoint::Code;
use relay::{enter_reception, enter_silence};
use schedule::Received;

/// What came in another node's slot.
#[derive(Clone, Copy, PartialEq, Eq, Debug)]
pub enum Event<'a> {
    /// Nothing was heard: no message came whole in the slot, or several did.
    Nothing,
    /// A frame, heard whole or turned away. Where it is turned away, the node goes on as if nothing had come.
    Frame(Reception<'a>),
}

impl<'a> Event<'a> {
    // What a listener for the slot of this turn heard.
    pub(crate) fn of(turn: &Turn, heard: Option<Received<&'a [u8]>>) -> Event<'a>
        ensures { Becomes turn.now (bytes_heard heard.entry) result }
    {
        match heard {
            Some(received) => Event::Frame(turn.receive(received)),
            None => Event::Nothing,
        }
    }

    /// The number and place of a frame that is turned away: 7 at its length, 8 at 0, or 9 at 1.
    pub fn code(&self) -> Option<Code>
        ensures { result ≡ code_of_event self.now }
    {
        match self {
            Event::Frame(reception) => reception.code(),
            Event::Nothing => None,
        }
    }

    // How far it shows the sender's clock to be ahead, if it was heard whole.
    pub(crate) fn deviation(&self) -> Option<i64>
        ensures { result ≡ deviation_in self.now }
    {
        match self {
            Event::Frame(Reception::Whole { deviation, .. }) => Some(*deviation),
            Event::Frame(Reception::TurnedAway(_)) | Event::Nothing => None,
        }
    }

    // Enters its values into the table that is written.
    pub(crate) fn enter(self, turn: &Turn, written: &mut [u32]) -> Result<(), relay::Refusal>
        ensures answer { ByRows (untold turn.now written.old) (λ e. e) (λ _. Unit {0}) result }
        ensures table { MatchResult result (λ _. Entered turn.now (values_in turn.now self.entry) written.old written.new) (λ _. written.new ≡ written.old) }
    {
        match self {
            Event::Frame(reception) => enter_reception(turn, reception, written),
            Event::Nothing => enter_silence(turn, written),
        }
    }
}
