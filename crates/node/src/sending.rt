//! The own slot's time to send.
ghost use Rattle.std.specs.Prelude.{◌≡◌, ◌<◌, ◌≤◌, length, slice_index};
ghost use Rattle.std.specs.Result.{MatchResult};
ghost use Rattle.midpoint.specs.Refusals.{ByRows};
ghost use Rattle.frame.specs.Layout.{frame_length_of, value_count_of};
ghost use Rattle.frame.specs.Writing.{FirstFit, with_frame};
ghost use Rattle.relay.specs.Tables.{table_length_of};
ghost use Rattle.relay.specs.Telling.{told_from, Entered};
ghost use Rattle.node.specs.Nodes.{turn_of};
ghost use Rattle.node.specs.Calls.{unsent, unsent_in};
ghost use Rattle.node.specs.Sending.{Sends, Sent};

use crate::refusal::Refusal;
use crate::state::{Node, Step};
use frame::Turn;
use relay::Telling;

impl Node {
    /// The own slot's time to send has come: the frame is written into lent memory, its length is answered, and what it says is
    /// entered into the table that is written. A time of 10^12 or more is refused, 3 at the own number; then memory that is too
    /// short for the frame, 7 at its length; then tables of another length than the cluster needs, 10 at the length needed; then
    /// a second time in a round, 11 at 0; then a time that is earlier than the last one, 12 at 0. The node, the tables and the
    /// memory are then as before.
    pub fn send(
        self,
        time: u64,
        first: &mut [u32],
        second: &mut [u32],
        memory: &mut [u8],
    ) -> Step<Result<usize, Refusal>>
        ensures answer { ByRows (unsent self time first.old second.old memory.old) (λ e. e) (λ length. length ≡ frame_length_of (turn_of self self.own)) result.answer }
        ensures leaves { Sends self time first.old second.old memory.old result.node first.new second.new memory.new }
    {
        let outcome = if self.reads_first() {
            self.sent(time, first, second, memory)
        } else {
            self.sent(time, second, first, memory)
        };
        self.given_back(outcome)
    }

    // The node that has sent, from the table that it reads, and the length of its frame.
    fn sent(
        self,
        time: u64,
        read: &[u32],
        written: &mut [u32],
        memory: &mut [u8],
    ) -> Result<Step<usize>, Refusal>
        ensures answer { ByRows (unsent self time read.now written.old memory.old) (λ e. e) (λ step. step.answer ≡ frame_length_of (turn_of self self.own)) result }
        ensures leaves { MatchResult result (λ step. Sent self time read.now written.old memory.old step.node written.new memory.new) (λ _. (written.new ≡ written.old) × (memory.new ≡ memory.old)) }
    {
        let turn = self.turn(self.own);
        let clock = self.at(time, self.can_send(&turn, read, written, memory))?;
        let answer = self.tell(read, written, memory);
        let node = self.passed(clock, self.own, self.heard);
        Ok(Step { node, answer })
    }

    // Whether there is nothing but the time for which it does not send.
    fn can_send(
        &self,
        turn: &Turn,
        read: &[u32],
        written: &[u32],
        memory: &[u8],
    ) -> Result<(), Refusal>
        ensures { ByRows (unsent_in self.now turn.now read.now written.now memory.now) (λ e. e) (λ _. Unit {0}) result }
    {
        turn.fitting_memory(memory)?;
        self.fitting_tables(read, written)?;
        if self.over.has(usize::from(self.own)) {
            return Err(Refusal::OutOfTurn);
        }
        Ok(())
    }

    // Writes what it tells into memory, enters it into the table that is written, and answers the frame's length.
    fn tell(&self, read: &[u32], written: &mut [u32], memory: &mut [u8]) -> usize
        requires reads { length read.now ≡ table_length_of self.now.schedule.cluster }
        requires writes { length written.old ≡ table_length_of self.now.schedule.cluster }
        requires room { frame_length_of (turn_of self.now self.now.own) ≤ length memory.old }
        ensures length { result ≡ frame_length_of (turn_of self.now self.now.own) }
        ensures frame { memory.new ≡ with_frame (turn_of self.now self.now.own) (slice_index (told_from (turn_of self.now self.now.own) read.now)) memory.old }
        ensures fits { FirstFit (slice_index (told_from (turn_of self.now self.now.own) read.now)) (value_count_of (turn_of self.now self.now.own)) }
        ensures entered { Entered (turn_of self.now self.now.own) (told_from (turn_of self.now self.now.own) read.now) written.old written.new }
    {
        let telling = Telling::new(self.turn(self.own), read).unwrap();
        let length = telling.write(memory).unwrap();
        telling.enter(written).unwrap();
        length
    }
}
