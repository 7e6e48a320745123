//! What a node tells in its turn, and what is entered of what was told.
ghost use Rattle.std.specs.Prelude.{◌≡◌, ◌+◌, ◌*◌, ◌/◌, ◌<◌, length, slice_index, slice_set, cond, is_ok, OnOk, MatchOption};
ghost use Rattle.std.specs.Result.{MatchResult};
ghost use Rattle.midpoint.specs.Refusals.{ByRows};
ghost use Rattle.frame.specs.Layout.{value_length, value_count_of, frame_length_of};
ghost use Rattle.frame.specs.Writing.{too_short, FirstFit, filled, with_frame};
ghost use Rattle.relay.specs.Tables.{table_length_of};
ghost use Rattle.relay.specs.Telling.{told_from, untold, heard_in, nothing_heard, Entered, EntersReception};

use crate::indices::PathIndices;
use crate::refusal::Refusal;
use crate::table::fitting_table;
use frame::{Reception, Turn, VALUE_LENGTH, Values, put_value, value};

/// What a node tells in its turn: for each path without it, of as many nodes as the round's place in its cycle, what its
/// table holds, in rising order of the paths as they are read from the last node to the first. A frame is written of it.
#[derive(Clone, Copy, PartialEq, Eq, Debug)]
pub struct Telling<'a> {
    turn: Turn,
    table: &'a [u32],
}

impl<'a> Telling<'a> {
    /// What the sender of this turn tells from the table that it has from the round before. A table of another length than
    /// the cluster needs is refused, 10 at the length needed; then a sender that is past the cluster, 11 at 0.
    pub fn new(turn: Turn, table: &'a [u32]) -> Result<Telling<'a>, Refusal>
        ensures { ByRows (untold turn table.now) (λ e. e) (λ telling. (telling.turn ≡ turn) × (telling.table.now ≡ table.now)) result }
    {
        can_tell(&turn, table)?;
        Ok(Telling { turn, table })
    }

    /// Writes the frame of the turn into lent memory, and answers its length. Memory that is too short is refused, 7 at its
    /// length, and is left as it was; what lies behind the frame in longer memory is kept.
    pub fn write(self, memory: &mut [u8]) -> Result<usize, frame::Refusal>
        ensures answer { ByRows (too_short self.entry.turn memory.old) (λ e. e) (λ length. length ≡ frame_length_of self.entry.turn) result }
        ensures memory { memory.new ≡ cond (is_ok result) (with_frame self.entry.turn (slice_index (told_from self.entry.turn self.entry.table.now)) memory.old) memory.old }
        ensures fit { OnOk result (FirstFit (slice_index (told_from self.entry.turn self.entry.table.now)) (value_count_of self.entry.turn)) }
    {
        self.turn.write(self, memory)
    }

    /// Enters what the node tells into the table that it writes in this round: for itself in front of each path what its table
    /// holds for the path. All other entries stay as they were. A table of another length than the cluster needs is refused,
    /// 10 at the length needed, and is left as it was.
    pub fn enter(self, written: &mut [u32]) -> Result<(), Refusal>
        ensures answer { ByRows (untold self.entry.turn written.old) (λ e. e) (λ _. Unit {0}) result }
        ensures table { MatchResult result (λ _. Entered self.entry.turn (told_from self.entry.turn self.entry.table.now) written.old written.new) (λ _. written.new ≡ written.old) }
    {
        can_tell(&self.turn, written)?;
        put_own(&self.turn, self.table, written);
        Ok(())
    }
}

/// The values of the paths in their order, and 0 at each index past the last path.
impl Values for Telling<'_> {
    ghost value = { λ telling. slice_index (told_from telling.turn telling.table.now) };

    fn fill(self, payload: &mut [u8]) {
        fill_from(&self.turn, self.table, payload);
    }
}

/// Enters a payload that was heard of a node in its turn into the table that is written in this round: each value for its
/// path with the node in front, in the order of the paths, and 0 where the payload has no value; values past the last path
/// are left out. All other entries stay as they were. A table of another length than the cluster needs is refused, 10 at
/// the length needed; then a sender that is past the cluster, 11 at 0; the table is then left as it was.
pub fn enter_heard(turn: &Turn, payload: &[u8], written: &mut [u32]) -> Result<(), Refusal>
    ensures answer { ByRows (untold turn.now written.old) (λ e. e) (λ _. Unit {0}) result }
    ensures table { MatchResult result (λ _. Entered turn.now (heard_in turn.now payload.now) written.old written.new) (λ _. written.new ≡ written.old) }
{
    can_tell(turn, written)?;
    put_heard(turn, payload, written);
    Ok(())
}

/// Enters that nothing was heard of a node in its turn: 0 for each path that it was to tell of, with the node in front.
/// Refusals are those of `enter_heard`.
#[tactic(auto, using(crate::proofs::Entering::nothing_in))]
pub fn enter_silence(turn: &Turn, written: &mut [u32]) -> Result<(), Refusal>
    ensures answer { ByRows (untold turn.now written.old) (λ e. e) (λ _. Unit {0}) result }
    ensures table { MatchResult result (λ _. Entered turn.now (nothing_heard turn.now) written.old written.new) (λ _. written.new ≡ written.old) }
{
    enter_heard(turn, &[], written)
}

/// Enters what became of a frame that came in the turn of its node: its values if it was heard whole, and 0 for each if it
/// was turned away. Refusals are those of `enter_heard`.
pub fn enter_reception(
    turn: &Turn,
    reception: Reception<'_>,
    written: &mut [u32],
) -> Result<(), Refusal>
    ensures answer { ByRows (untold turn.now written.old) (λ e. e) (λ _. Unit {0}) result }
    ensures table { MatchResult result (λ _. EntersReception turn.now reception.entry written.old written.new) (λ _. written.new ≡ written.old) }
{
    match reception {
        Reception::Whole { payload, .. } => enter_heard(turn, payload, written),
        Reception::TurnedAway(_) => enter_silence(turn, written),
    }
}

// Fills a payload with what a table holds for the paths.
fn fill_from(turn: &Turn, table: &[u32], payload: &mut [u8])
    ensures payload { payload.new ≡ filled (slice_index (told_from turn.now table.now)) payload.old }
    ensures fit { FirstFit (slice_index (told_from turn.now table.now)) (length payload.old / value_length) }
{
    let mut indices = PathIndices::of(turn);
    for place in 0..payload.len() / VALUE_LENGTH {
        let value = held_at(table, indices.next());
        put_value(payload, place, value);
    }
}

// What a table holds at an index, or 0 where there is none.
fn held_at(table: &[u32], index: Option<usize>) -> u32
    ensures { MatchOption index (result ≡ 0) (λ index. result ≡ slice_index table.now index) }
{
    index
        .and_then(|index| table.get(index))
        .copied()
        .unwrap_or(0)
}

// Whether the sender of a turn is a node of the cluster, and can tell from a table, or be entered into it.
fn can_tell(turn: &Turn, table: &[u32]) -> Result<(), Refusal>
    ensures { ByRows (untold turn.now table.now) (λ e. e) (λ _. Unit {0}) result }
{
    fitting_table(&turn.cluster, table)?;
    if turn.sender as u64 >= turn.cluster.nodes() {
        return Err(Refusal::Node { place: 0 });
    }
    Ok(())
}

// Enters the values of a payload.
fn put_heard(turn: &Turn, payload: &[u8], written: &mut [u32])
    requires known { turn.now.sender < turn.now.cluster.nodes }
    requires fits { length written.old ≡ table_length_of turn.now.cluster }
    ensures { Entered turn.now (heard_in turn.now payload.now) written.old written.new }
{
    let mut place = 0;
    for index in PathIndices::of(turn) {
        put(turn, index, value(payload, place).unwrap_or(0), written);
        place += 1;
    }
}

// Enters what a table holds.
fn put_own(turn: &Turn, read: &[u32], written: &mut [u32])
    requires known { turn.now.sender < turn.now.cluster.nodes }
    requires fits { length written.old ≡ table_length_of turn.now.cluster }
    ensures { Entered turn.now (told_from turn.now read.now) written.old written.new }
{
    for index in PathIndices::of(turn) {
        put(turn, index, held_at(read, Some(index)), written);
    }
}

// Enters a value for the sender in front of the path with this index.
fn put(turn: &Turn, index: usize, value: u32, written: &mut [u32])
    requires { index * turn.now.cluster.nodes + turn.now.sender < length written.old }
    ensures { written.new ≡ slice_set written.old (index * turn.now.cluster.nodes + turn.now.sender) value }
{
    let entry = index * turn.cluster.nodes() as usize + turn.sender as usize;
    written[entry] = value;
}
