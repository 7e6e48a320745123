//! A trial's rounds, as they are drawn.
use crate::counts::Counts;
use crate::dice::Dice;
use crate::lies::Stage;
use crate::trial::{Manner, Trial, is_set};
use midpoint::MAX_NODES;
use script::{Given, Round, Starting};
use std::alloc::{AllocError, Global};

/// What goes on from round to round.
#[derive(Clone, Copy)]
pub(crate) struct Story {
    /// What each good node gives in this cycle.
    values: [u32; MAX_NODES],
    /// What it gives in the next.
    next: [u32; MAX_NODES],
    /// What liars tell of each node in this cycle, to the one side and to the other.
    lies: [[u32; 2]; MAX_NODES],
}

impl Story {
    pub(crate) fn new(trial: &Trial) -> Story {
        let next = trial.setup.starting.map(|starts| match starts {
            Starting::Good { value, .. } => value,
            Starting::Bad => 0,
        });
        Story {
            values: next,
            next,
            lies: [[0; 2]; MAX_NODES],
        }
    }

    /// What a good node gives in this cycle.
    pub(crate) fn value(&self, node: usize) -> Option<u32> {
        self.values.get(node).copied()
    }

    /// The next round.
    pub(crate) fn round(
        &mut self,
        heap: Global,
        dice: &mut Dice,
        trial: &Trial,
        number: u64,
        counts: &mut Counts,
    ) -> Result<Round, AllocError> {
        if number % (trial.cluster().faults() + 1) == 0 {
            self.begin_cycle(dice, trial);
        }
        let manner = if dice.one_in(4) {
            Manner::drawn(dice)
        } else {
            trial.manner
        };
        let mut round = Round::new(heap);
        for node in 0..trial.nodes() {
            if trial.is_good(node) {
                self.give(dice, trial, node, manner, &mut round.given);
            }
        }
        let far = drawn_far(dice, trial.cluster().bound());
        let stage = Stage {
            trial,
            values: &self.values,
            lies: &self.lies,
            round: number,
            far,
        };
        for from in 0..MAX_NODES as u8 {
            stage.play(heap, dice, from, &mut round, counts)?;
        }
        Ok(round)
    }

    fn begin_cycle(&mut self, dice: &mut Dice, trial: &Trial) {
        self.values = self.next;
        let shared = drawn_lies(dice);
        for (node, lies) in self.lies.iter_mut().enumerate() {
            if node < trial.nodes() {
                let own = drawn_lies(dice);
                *lies = if trial.concert && !trial.is_good(node) {
                    shared
                } else {
                    own
                };
            }
        }
    }

    // What is given of a good node.
    fn give(
        &mut self,
        dice: &mut Dice,
        trial: &Trial,
        node: usize,
        manner: Manner,
        given: &mut Given,
    ) {
        match manner {
            Manner::Still => (),
            Manner::Random => give_random(dice, trial, node, given),
            Manner::Split => give_edges(trial, node, side_bits(trial, node), given),
            Manner::Edges => give_edges(trial, node, dice.next(), given),
        }
        if dice.one_in(4) {
            let value = dice.value();
            given.set_next(node, value);
            if let Some(next) = self.next.get_mut(node) {
                *next = value;
            }
        }
    }
}

fn drawn_lies(dice: &mut Dice) -> [u32; 2] {
    let first = dice.value();
    let second = dice.value();
    [first, second]
}

// By how much early and late clocks are off.
fn drawn_far(dice: &mut Dice, bound: u64) -> u64 {
    match dice.below(3) {
        0 => bound,
        1 => dice.up_to(bound.saturating_mul(4)),
        _ => dice.up_to(1_000_000_000),
    }
}

fn give_random(dice: &mut Dice, trial: &Trial, node: usize, given: &mut Given) {
    let cluster = trial.cluster();
    given.set_drift(node, dice.either_way(cluster.drift()));
    for other in 0..trial.nodes() {
        if other != node && trial.is_good(other) {
            given.set_jitter(node, other, dice.either_way(cluster.error()));
        }
    }
}

// As far off as may be, ahead where the bit is set.
fn give_edges(trial: &Trial, node: usize, bits: u64, given: &mut Given) {
    let cluster = trial.cluster();
    given.set_drift(node, edge(is_set(bits, node), cluster.drift()));
    for other in 0..trial.nodes() {
        if other != node && trial.is_good(other) {
            given.set_jitter(node, other, edge(is_set(bits, other), cluster.error()));
        }
    }
}

fn edge(ahead: bool, most: u64) -> i64 {
    let most = most.cast_signed();
    if ahead { most } else { most.wrapping_neg() }
}

// All bits alike, by a node's side.
fn side_bits(trial: &Trial, node: usize) -> u64 {
    if trial.is_ahead(node) { u64::MAX } else { 0 }
}
