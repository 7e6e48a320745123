//! The theorems of this crate. Each function's contract is one statement of `specs/Theorems.antt`, so that the
//! crate is not proved without it; what the function does is nothing.
ghost use Rattle.agreement.specs.Theorems.{Most, ResultsAreMade, Agreed, AgreedByTables, AnythingCanBeTold, CycleCanBeRun, ThreeAreTooFew, WorkedCases};

/// The majority is the value that more than half have, and 0 if there is none.
pub fn majority_is_the_most()
    ensures { Most }
{}

/// What is made of paths, the longest first, and the results, which are what is made of the paths of one node.
pub fn results_are_made_of_paths()
    ensures { ResultsAreMade }
{}

/// Whatever the faulty nodes tell, good nodes come to the same, and for good nodes to what these gave.
pub fn good_nodes_agree()
    ensures { Agreed }
{}

/// And so they do by their tables, as a cycle is over.
pub fn results_agree()
    ensures { AgreedByTables }
{}

/// What is asked of good nodes leaves the faulty ones free to tell anything.
pub fn anything_can_be_told()
    ensures { AnythingCanBeTold }
{}

/// And so does what is asked of the tables of a cycle.
pub fn cycle_can_be_run()
    ensures { CycleCanBeRun }
{}

/// Of three nodes, one of which may be faulty, the good ones need not agree.
pub fn three_nodes_are_too_few()
    ensures { ThreeAreTooFew }
{}

/// The cases worked out by hand.
pub fn worked_cases_hold()
    ensures { WorkedCases }
{}
