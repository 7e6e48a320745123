//! The theorems of this crate. Each function's contract is one statement of `specs/Theorems.antt`, so that the
//! crate is not proved without it; what the function does is nothing.
ghost use Rattle.relay.specs.Theorems.{IndexIsOrder, PathsAreInOrder, ValuesAreAsMany, Relays, HoldsWhatItTells};
ghost use Rattle.relay.specs.Theorems.{SilenceIsZero, OthersStay, RoundIsWhole, FirstIsOwn, PathsAreTaken, TablesAreWithin};

/// For rows of one length index and row are one to one, and the index rises as the rows do, read from the last node to
/// the first.
pub fn index_is_the_order()
    ensures { IndexIsOrder }
{}

/// A node tells of each path without it once, in rising order.
pub fn paths_are_told_in_order()
    ensures { PathsAreInOrder }
{}

/// A frame carries a value for each path.
pub fn values_are_as_many_as_paths()
    ensures { ValuesAreAsMany }
{}

/// Who heard a node holds, for each path with that node in front, what the node itself holds for the path.
pub fn what_is_told_is_held()
    ensures { Relays }
{}

/// The node holds the same for itself.
pub fn node_holds_what_it_tells()
    ensures { HoldsWhatItTells }
{}

/// Where nothing was heard, 0 is held.
pub fn silence_leaves_zero()
    ensures { SilenceIsZero }
{}

/// What one node told changes nothing of what others told.
pub fn others_are_left_alone()
    ensures { OthersStay }
{}

/// What was entered of several nodes, one after the other, is held of each.
pub fn round_is_whole()
    ensures { RoundIsWhole }
{}

/// In a cycle's first round a node tells the value that was put into its table.
pub fn first_round_tells_the_own_value()
    ensures { FirstIsOwn }
{}

/// A row of nodes is turned away if and only if it is no path that a table has.
pub fn only_paths_are_taken()
    ensures { PathsAreTaken }
{}

/// A table has at least 4 entries and at most 65,536.
pub fn tables_are_within()
    ensures { TablesAreWithin }
{}
