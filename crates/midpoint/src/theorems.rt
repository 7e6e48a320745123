//! The theorems of this crate. Each function's contract is one statement of `specs/Theorems.antt`, so
//! that the crate is not proved without it; what the function does is nothing.
ghost use Rattle.midpoint.specs.Theorems.{Sorts, Trims, OrderFree, Shifts, Holds, NeedsMore, OneAnswer, StaysShown, Worked};

/// The sorted list rises, has the same readings, and is the only such list.
pub fn sorting_keeps_the_readings()
    ensures { Sorts }
{}

/// At most as many readings as faults are thrown away at each end.
pub fn extremes_are_few()
    ensures { Trims }
{}

/// The order of the readings does not matter.
pub fn order_does_not_matter()
    ensures { OrderFree }
{}

/// Readings that are all later by the same give a midpoint that is later by that.
pub fn midpoint_moves_along()
    ensures { Shifts }
{}

/// At most as many liars as faults do not pull the midpoint out of what the others span.
pub fn liars_do_not_move_it_out()
    ensures { Holds }
{}

/// With no more than twice as many readings as faults they do.
pub fn fewer_readings_do_not_hold()
    ensures { NeedsMore }
{}

/// The contract of `set_clock` leaves one answer for each input.
pub fn answer_is_one()
    ensures { OneAnswer }
{}

/// A clock is only set to a time that a clock can show.
pub fn limit_is_not_passed()
    ensures { StaysShown }
{}

/// The cases worked out by hand.
pub fn worked_cases_hold()
    ensures { Worked }
{}
