//! A node's clock goes on, and is set at the end of a round.
ghost use Rattle.std.specs.Prelude.{◌≡◌, ◌<◌, ◌≤◌, take};
ghost use Rattle.midpoint.specs.Refusals.{ByRows};
ghost use Rattle.midpoint.specs.Setting.{SetSays, most_readings};
ghost use Rattle.clock.specs.Setting.{untimely, code_of, GoneOn, SetBy, read_of, readings, shown_after, next_round_of, Showable};

use crate::ahead::reading;
use crate::limits::{Clock, Cluster};
use midpoint::{CLOCK_LIMIT, Code, MAX_NODES, set_clock};
use std::array;

/// Why a clock does not go on to a time: the first that applies, in this order.
#[derive(Clone, Copy, PartialEq, Eq, Debug)]
pub enum Refusal {
    /// The time is 10^12 or more; the node is the one whose clock it is.
    PastLimit { node: usize },
    /// The time is earlier than the last one.
    Earlier,
}

/// The number and place of a refusal in the fixed list.
impl From<Refusal> for Code {
    ghost from_gives = { λ refusal code. code ≡ code_of refusal };

    fn from(refusal: Refusal) -> Code {
        match refusal {
            Refusal::PastLimit { node } => Code {
                number: 3,
                place: node as u64,
            },
            Refusal::Earlier => Code {
                number: 12,
                place: 0,
            },
        }
    }
}

/// A clock that went through a call, and the answer of the call.
#[derive(Clone, Copy, PartialEq, Eq, Debug)]
pub struct Step<A> {
    pub clock: Clock,
    pub answer: A,
}

impl Clock {
    /// A clock that has shown nothing but 0 yet, in round 0. It starts by going on to a local time.
    pub fn new() -> Clock
        ensures shown { result.shown ≡ 0 }
        ensures round { result.round ≡ 0 }
    {
        Clock { shown: 0, round: 0 }
    }

    /// Local time goes on: the clock of this node shows a time. One of 10^12 or more is refused, 3 at the
    /// node's number, and one earlier than the last, 12 at 0; the clock is then as before. Only the setting
    /// takes a clock back.
    pub fn go_on(self, node: usize, time: u64) -> Step<Result<(), Refusal>>
        ensures answer { ByRows (untimely self.shown node time) code_of (λ _. Unit {0}) result.answer }
        ensures clock { GoneOn self node time result.clock }
    {
        let answer = self.timely(node, time);
        let shown = match answer {
            Ok(()) => time,
            Err(_) => self.shown,
        };
        let clock = Clock {
            shown,
            round: self.round,
        };
        Step { clock, answer }
    }

    // Whether the clock can go on to a time.
    fn timely(self, node: usize, time: u64) -> Result<(), Refusal>
        ensures { ByRows (untimely self.shown node time) code_of (λ _. Unit {0}) result }
    {
        if time >= CLOCK_LIMIT {
            return Err(Refusal::PastLimit { node });
        }
        if time < self.shown {
            return Err(Refusal::Earlier);
        }
        Ok(())
    }

    /// The end of a round, at the time that the clock shows: it is set to the midpoint of what this node reads
    /// of all nodes of the cluster. Of each node its deviation was heard, or nothing, as of those past the
    /// slice's end; then, and of itself, the node reads its own clock, so that there are always as many readings
    /// as nodes. Readings that are turned away leave the clock as it is. The round counts on in both cases, up
    /// to 2^64 - 1.
    pub fn set(
        self,
        cluster: &Cluster,
        node: usize,
        heard: &[Option<i64>],
    ) -> Step<Result<u64, midpoint::Refusal>>
        ensures answer { SetSays cluster.now.faults (readings cluster.now.nodes node self.shown heard.now) result.answer }
        ensures clock { SetBy cluster.now node self heard.now result.clock }
    {
        let nodes = cluster.nodes as usize;
        let all = self.readings(nodes, node, heard);
        let answer = set_clock(cluster.faults, &all[0..nodes]);
        Step {
            clock: self.next_round(answer),
            answer,
        }
    }

    // The clock in the next round, set to the answer, or not.
    fn next_round(self, answer: Result<u64, midpoint::Refusal>) -> Clock
        requires { Showable answer }
        ensures shown { result.shown ≡ shown_after self.shown answer }
        ensures round { result.round ≡ next_round_of self.round }
    {
        Clock {
            shown: answer.unwrap_or(self.shown),
            round: self.round.saturating_add(1),
        }
    }

    // What the node reads of each node of a cluster of this many, and behind them 0: of the others nothing is worked out.
    fn readings(self, nodes: usize, node: usize, heard: &[Option<i64>]) -> [u64; MAX_NODES]
        ensures { nodes ≤ most_readings → take nodes result ≡ readings nodes node self.shown heard.now }
    {
        array::from_fn(|q| {
            if q >= nodes {
                0
            } else if q == node {
                self.shown
            } else {
                self.read(heard.get(q).copied().flatten())
            }
        })
    }

    // What it reads of another node, of which a deviation was heard, or nothing.
    fn read(self, heard: Option<i64>) -> u64
        ensures { result ≡ read_of self.shown heard }
    {
        heard.map_or(self.shown, |deviation| reading(self.shown, deviation))
    }
}
