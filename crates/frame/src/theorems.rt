//! The theorems of this crate. Each function's contract is one statement of `specs/Theorems.antt`, so that the
//! crate is not proved without it; what the function does is nothing.
ghost use Rattle.frame.specs.Theorems.{RoundTrip, ReceivedWhole, Exact, SaidOneWay};
ghost use Rattle.frame.specs.Theorems.{TakenInItsTurn, HeaderTellsTheRound, CyclesFollow, LengthsAreWithin, PutIsRead};

/// What is written is taken in its turn, and has the values that were written.
pub fn what_is_written_is_read()
    ensures { RoundTrip }
{}

/// What is written and heard in its turn is received whole, with the values that were written.
pub fn what_is_written_is_received()
    ensures { ReceivedWhole }
{}

/// A row of bytes is taken if and only if it is what writing gives for some values.
pub fn only_what_is_written_is_taken()
    ensures { Exact }
{}

/// No two frames of a turn have the same values.
pub fn values_are_said_one_way()
    ensures { SaidOneWay }
{}

/// What is written in one turn and taken in another is of the same sender and, modulo 2^32, of the same round.
pub fn frames_are_taken_in_their_turn()
    ensures { TakenInItsTurn }
{}

/// The header tells the round modulo 2^32, and no more.
pub fn header_tells_the_round()
    ensures { HeaderTellsTheRound }
{}

/// Cycles begin with round 0 and follow one another.
pub fn cycles_follow()
    ensures { CyclesFollow }
{}

/// How many values a frame carries, and that it has 9 bytes at least, and 10,925 at most.
pub fn lengths_are_within()
    ensures { LengthsAreWithin }
{}

/// A value that was put is read where it was put, and the others stay.
pub fn what_is_put_is_read()
    ensures { PutIsRead }
{}
