//! The theorems of this crate. Each function's contract is one statement of `specs/Theorems.antt`, so
//! that the crate is not proved without it; what the function does is nothing.
ghost use Rattle.clock.specs.Theorems.{StaysTogether, StaysInWidth, Halves, ComesTogether, StaysBetween, CountsTogether, ReadsAsSaid, CanBeRun, CanBeChosen};

/// Good clocks within the bound are within it after any number of rounds.
pub fn good_clocks_stay_together()
    ensures { StaysTogether }
{}

/// And they are within the width at any moment of a round.
pub fn good_clocks_stay_in_the_width()
    ensures { StaysInWidth }
{}

/// A round halves what good clocks are apart, up to a rest.
pub fn round_halves_the_distance()
    ensures { Halves }
{}

/// From any start good clocks come together, as fast as halving does.
pub fn good_clocks_come_together()
    ensures { ComesTogether }
{}

/// No good clock is pulled out of what good clocks span, but for the error and the drift.
pub fn nobody_is_pulled_out()
    ensures { StaysBetween }
{}

/// Good nodes that count the same round count the same round ever after.
pub fn rounds_are_counted_together()
    ensures { CountsTogether }
{}

/// The reading of a message is what is said of it, deviations that do not fit among them.
pub fn reading_is_as_said()
    ensures { ReadsAsSaid }
{}

/// What the theorems ask of rounds can be met, whatever the faulty nodes say.
pub fn rounds_can_be_run()
    ensures { CanBeRun }
{}

/// Nor do they ask for more: from any good clocks there is a round for any errors, lies and running off
/// that the cluster allows.
pub fn rounds_can_be_chosen()
    ensures { CanBeChosen }
{}
