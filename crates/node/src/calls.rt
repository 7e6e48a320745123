//! When a call is turned away, and what it then gives back.
ghost use Rattle.std.specs.Prelude.{◌≡◌, ℕ, Ok, Err};
ghost use Rattle.std.specs.Result.{MatchResult};
ghost use Rattle.midpoint.specs.Refusals.{ByRows};
ghost use Rattle.node.specs.Calls.{as_rows, around, unfit_tables, At, Passed};

use crate::refusal::Refusal;
use crate::state::{Node, Step};
use clock::{Clock, Refusal as TimeRefusal, Step as ClockStep};
use midpoint::MAX_NODES;
use relay::fitting_table;

impl Node {
    // The clock at a local time, where the call is not turned away: first by the limit, then by what it is lent or told of, and
    // last by a time that is earlier than the last one.
    pub(crate) fn at(self, time: u64, others: Result<(), Refusal>) -> Result<Clock, Refusal>
        ensures { ByRows (around self time (as_rows others)) (λ e. e) (At self time) result }
    {
        let ClockStep { clock, answer } = self.clock.go_on(usize::from(self.own), time);
        match answer {
            Err(TimeRefusal::PastLimit { node }) => Err(Refusal::Time(TimeRefusal::PastLimit {
                node,
            })),
            Err(TimeRefusal::Earlier) => {
                others?;
                Err(Refusal::Time(TimeRefusal::Earlier))
            }
            Ok(()) => {
                others?;
                Ok(clock)
            }
        }
    }

    // Whether both tables have the length that the cluster needs.
    pub(crate) fn fitting_tables(&self, one: &[u32], other: &[u32]) -> Result<(), Refusal>
        ensures { ByRows (unfit_tables self.now one.now other.now) (λ e. e) (λ _. Unit {0}) result }
    {
        fitting_table(&self.schedule.cluster, one)?;
        fitting_table(&self.schedule.cluster, other)?;
        Ok(())
    }

    // The node with its clock at a time of this round, where the slot of one node more is over, and this was heard.
    pub(crate) fn passed(self, clock: Clock, sender: u8, heard: [Option<i64>; MAX_NODES]) -> Node
        ensures passed { (time : ℕ) → At self time clock → Passed self time sender result }
        ensures heard { result.heard ≡ heard }
    {
        Node {
            schedule: self.schedule,
            own: self.own,
            clock,
            over: self.over.with(usize::from(sender)),
            heard,
            results: self.results,
        }
    }

    // What a call gives back: the node that went through it, or this one, where it was turned away.
    pub(crate) fn given_back<A>(self, outcome: Result<Step<A>, Refusal>) -> Step<Result<A, Refusal>>
        ensures { MatchResult outcome (λ step. (result.node ≡ step.node) × (result.answer ≡ Ok step.answer)) (λ refusal. (result.node ≡ self) × (result.answer ≡ Err refusal)) }
    {
        match outcome {
            Ok(Step { node, answer }) => Step {
                node,
                answer: Ok(answer),
            },
            Err(refusal) => Step {
                node: self,
                answer: Err(refusal),
            },
        }
    }
}
