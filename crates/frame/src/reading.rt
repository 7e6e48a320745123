//! Reading a frame: it is turned away, or taken, and then the payload behind its header is handed on as it lies.
ghost use Rattle.std.specs.Prelude.{◌≡◌, ◌≤◌, length};
ghost use Rattle.midpoint.specs.Refusals.{ByRows};
ghost use Rattle.frame.specs.Layout.{header_length, round_in, payload_of};
ghost use Rattle.frame.specs.Reading.{untaken, Receives, code_of_reception};

use crate::refusal::Refusal;
use crate::turn::{HEADER_LENGTH, Turn};
use midpoint::Code;
use schedule::Received;

/// A frame that came in its slot: heard whole, or turned away. A node that turns it away goes on as if nothing
/// had come.
#[derive(Clone, Copy, PartialEq, Eq, Debug)]
pub enum Reception<'a> {
    /// How far it shows its sender's clock to be ahead, and its payload.
    Whole { deviation: i64, payload: &'a [u8] },
    /// Why it is turned away.
    TurnedAway(Refusal),
}

impl Reception<'_> {
    /// Its number and place in the fixed list, if it is turned away.
    pub fn code(&self) -> Option<Code>
        ensures { result ≡ code_of_reception self.now }
    {
        match self {
            Reception::Whole { .. } => None,
            Reception::TurnedAway(refusal) => Some(Code::from(*refusal)),
        }
    }
}

impl Turn {
    /// The payload of a frame, which is the part behind its header, or the first reason why the frame is turned
    /// away: its length, 7 at the length; its sender, 8 at 0; its round, 9 at 1.
    pub fn read<'a>(&self, frame: &'a [u8]) -> Result<&'a [u8], Refusal>
        ensures { ByRows (untaken self.now frame.now) (λ e. e) (λ payload. payload.now ≡ payload_of frame.now) result }
    {
        if frame.len() != self.frame_length() {
            return Err(Refusal::Length {
                length: frame.len(),
            });
        }
        if frame[0] != self.sender {
            return Err(Refusal::Sender);
        }
        if round_in(frame) != self.header_round() {
            return Err(Refusal::Round);
        }
        Ok(&frame[HEADER_LENGTH..])
    }

    /// What becomes of a frame that a listener heard in the slot of this turn.
    pub fn receive<'a>(&self, heard: Received<&'a [u8]>) -> Reception<'a>
        ensures { Receives self.now heard.entry.deviation heard.entry.message.now result }
    {
        match self.read(heard.message) {
            Ok(payload) => Reception::Whole {
                deviation: heard.deviation,
                payload,
            },
            Err(refusal) => Reception::TurnedAway(refusal),
        }
    }
}

// The round that the header of a frame tells.
fn round_in(frame: &[u8]) -> u32
    requires { header_length ≤ length frame.now }
    ensures { result ≡ round_in frame.now }
{
    u32::from_le_bytes([frame[1], frame[2], frame[3], frame[4]])
}
