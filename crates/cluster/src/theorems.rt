//! The theorems of this crate, beside what `Bus::play` and `Bus::play_all` promise. Each function's contract is a statement of
//! `specs/Limits.antt`, so that the crate is not proved without it; what the function does is nothing.
ghost use Rattle.cluster.specs.Limits.{ScriptsKeep, ScriptsStand, LimitsCanBeKept};

/// A script that keeps the limits, which is told by the script alone, keeps them in each round that is played of it.
pub fn scripts_keep_the_limits()
    ensures { ScriptsKeep }
{}

/// So where it has good clocks begin within the bound, they are within it after each round, and good nodes agree at each
/// cycle's end, whatever it says of the bad ones.
pub fn scripts_stand()
    ensures { ScriptsStand }
{}

/// And there are such scripts.
pub fn limits_can_be_kept()
    ensures { LimitsCanBeKept }
{}
