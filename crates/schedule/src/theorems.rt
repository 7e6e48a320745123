//! The theorems of this crate. Each function's contract is one statement of `specs/Theorems.antt`,
//! `specs/Runs.antt`, `specs/Tight.antt` or `specs/Possible.antt`, so that the crate is not proved without
//! it; what the function does is nothing.
ghost use Rattle.schedule.specs.Theorems.{SlotsFollow, HearsTheOnlyOne, HearsFromItsSlot, HearsWhole, HearsTheMessage, HearsGoodNodes, ReadsRight, ReadsNoFarther, MakesARound, SetsBefore, NothingOverlaps, HeardWithLeads, NeverOverWithLeads, SetInTimeWithLeads};
ghost use Rattle.schedule.specs.Runs.{Stands, RunCanBeGiven};
ghost use Rattle.schedule.specs.Tight.{LengthIsTight, ShortLengthFails, ShortPauseFails};
ghost use Rattle.schedule.specs.Possible.{CourseCanBeRun, MessageCanPass, RoundCanBeHeard};

use crate::listening::Listener;

/// Slots follow one another, and each is that of one node in one round.
pub fn slots_follow()
    ensures { SlotsFollow }
{}

/// However many arrivals a listener was told of, it answers the only one that it took and that came whole.
pub fn only_message_is_heard<M: Copy>(listener: Listener<M>)
    ensures { HearsTheOnlyOne listener }
{}

/// Whatever a listener was told of, what it answers began in its slot.
pub fn what_is_heard_is_of_its_slot<M: Copy>(listener: Listener<M>)
    ensures { HearsFromItsSlot listener }
{}

/// Within the width, what is sent in a slot is whole in that slot where it arrives.
pub fn messages_are_heard_whole()
    ensures { HearsWhole }
{}

/// A listener answers the message of its slot's node, if nothing else of that node came whole in the slot, and
/// it ended no earlier than it began, than the listener began, and than all that this was told of before.
pub fn messages_are_answered<M: Copy>(listener: Listener<M>)
    ensures { HearsTheMessage listener }
{}

/// Good nodes hear each other whole, in a round that they begin within the bound.
pub fn good_nodes_hear_each_other()
    ensures { HearsGoodNodes }
{}

/// What a good node reads of a good one whose message it hears is right up to the error.
pub fn good_nodes_read_right()
    ensures { ReadsRight }
{}

/// No message that is heard is read as farther ahead than by the pause.
pub fn nobody_reads_past_the_pause()
    ensures { ReadsNoFarther }
{}

/// Where good nodes hear each other, what the clock's theorems ask of a round is met.
pub fn heard_rounds_are_rounds()
    ensures { MakesARound }
{}

/// When a good node sends, each good node has set its clock for that round, if good clocks were within the
/// width.
pub fn clocks_are_set_before()
    ensures { SetsBefore }
{}

/// What a good node sends is over before a good node sends in any later slot, where good clocks are within the
/// width in each round.
pub fn nothing_overlaps()
    ensures { NothingOverlaps }
{}

/// Where good clocks keep their leads, what a good node sends in its slot is heard whole in it.
pub fn heard_with_leads()
    ensures { HeardWithLeads }
{}

/// Where good clocks keep their leads, what a good node sends is over before one sends in a later slot.
pub fn never_over_with_leads()
    ensures { NeverOverWithLeads }
{}

/// By the leads before and after the setting, what a good node sends finds no clock still to be set.
pub fn set_in_time_with_leads()
    ensures { SetInTimeWithLeads }
{}

/// Good clocks that start within the bound stay together, and good nodes hear each other and do not overlap,
/// for any number of rounds and whatever the faulty nodes do. What a node hears is what its listeners answer
/// of all that they are told of, or nothing where it turns that away, as it may but for what good nodes say
/// in a round; and each round is one that the clock's theorems speak of.
pub fn good_nodes_stand_together<M: Copy>()
    ensures { Stands M }
{}

/// The length of a slot is tight: a tick less, and a message is not heard.
pub fn length_is_tight()
    ensures { LengthIsTight }
{}

/// In numbers: with a length that is a tick too short a message is not heard.
pub fn short_length_fails()
    ensures { ShortLengthFails }
{}

/// In numbers: with a pause that is a tick too short a message finds a clock still to be set.
pub fn short_pause_fails()
    ensures { ShortPauseFails }
{}

/// What the theorems ask of nodes that send round after round can be met.
pub fn course_can_be_run()
    ensures { CourseCanBeRun }
{}

/// What they ask of a message can be met, for clocks anywhere within the width.
pub fn message_can_pass()
    ensures { MessageCanPass }
{}

/// What they ask of a round can be met, whatever was heard of the faulty nodes.
pub fn round_can_be_heard()
    ensures { RoundCanBeHeard }
{}

/// There is a run of good nodes as `good_nodes_stand_together` asks for it: over as many rounds as clocks can
/// show, with clocks that start apart and run off either way, messages that are delayed and hold anything,
/// listeners that are told of anything in the slots of faulty nodes, and of anything on other wires in those of
/// good ones, and nodes that turn away anything but what good ones say in a round.
pub fn run_can_be_given<M: Copy>()
    ensures { RunCanBeGiven M }
{}
