//! The theorems of this crate. Each function's contract is one statement of `specs/`, so that the crate is not proved
//! without it; what the function does is nothing.
ghost use Rattle.node.specs.Runs.{Stands};
ghost use Rattle.node.specs.Possible.{RunCanBeGiven};
ghost use Rattle.node.specs.Settings.{SetsCloser, SetsBetween, RunsAreSet};

/// The main theorem: whatever the faulty nodes do, good nodes stay together, hear each other, do not overlap, and agree
/// at the end of each cycle, over any number of rounds.
pub fn good_nodes_stand()
    ensures { Stands }
{}

/// And what it asks can be met, for as many rounds as clocks can show: whatever the faulty nodes send and the good ones
/// give, and with any drift of the clocks, either way, and any times of the messages within the limits.
pub fn run_can_be_given()
    ensures { RunCanBeGiven }
{}

/// Whatever good clocks are apart, the setting at the end of a round halves it, up to a rest.
pub fn setting_halves_the_distance()
    ensures { SetsCloser }
{}

/// And it pulls no good clock out of what good clocks span, but for the error and the drift.
pub fn nobody_is_pulled_out()
    ensures { SetsBetween }
{}

/// What these two ask is met at the end of each round of a run, whatever the faulty nodes do.
pub fn rounds_of_runs_are_set()
    ensures { RunsAreSet }
{}
