//! What is counted, and printed in the end.
use crate::check::{Check, Failures};
use crate::liar::{Hands, Shape, Tale};
use crate::trial::{MAX_FAULTS, Trial};
use cluster::Came;
use midpoint::MAX_NODES;
use std::io;

/// What became of what liars sent.
const FATES: [&str; 5] = ["taken", "nothing", "refused-7", "refused-8", "refused-9"];

/// By what the checksum is multiplied as a number is mixed in.
const CHECKSUM_FACTOR: u64 = 0x100_0000_01b3;

/// What is counted over many trials.
#[derive(Clone, Copy)]
pub(crate) struct Counts {
    pub(crate) clusters: u64,
    pub(crate) beyond: u64,
    /// Which sizes came up: for so many faults so many nodes.
    sizes: [[bool; MAX_NODES + 1]; MAX_FAULTS + 1],
    pub(crate) rounds: u64,
    pub(crate) cycles: u64,
    shapes: [u64; Shape::NAMES.len()],
    hands: [u64; Hands::NAMES.len()],
    tales: [u64; Tale::NAMES.len()],
    fates: [u64; FATES.len()],
    pub(crate) zeros: u64,
    pub(crate) others: u64,
    /// Rounds that left the good clocks less than half as far apart.
    pub(crate) nearer: u64,
    /// Rounds that left them just as far apart as they may be.
    pub(crate) at_limit: u64,
    /// How far apart they came at most, in percent of the bound.
    pub(crate) widest: u64,
    pub(crate) kept: u64,
    broken: [u64; Check::NAMES.len()],
    checksum: u64,
}

impl Counts {
    pub(crate) fn new() -> Counts {
        Counts {
            clusters: 0,
            beyond: 0,
            sizes: [[false; MAX_NODES + 1]; MAX_FAULTS + 1],
            rounds: 0,
            cycles: 0,
            shapes: [0; Shape::NAMES.len()],
            hands: [0; Hands::NAMES.len()],
            tales: [0; Tale::NAMES.len()],
            fates: [0; FATES.len()],
            zeros: 0,
            others: 0,
            nearer: 0,
            at_limit: 0,
            widest: 0,
            kept: 0,
            broken: [0; Check::NAMES.len()],
            checksum: 0,
        }
    }

    /// A cluster more.
    pub(crate) fn trial(&mut self, trial: &Trial) {
        count(&mut self.clusters, true);
        count(&mut self.beyond, trial.beyond);
        let faults = trial.cluster().faults() as usize;
        if let Some(row) = self.sizes.get_mut(faults)
            && let Some(came_up) = row.get_mut(trial.nodes())
        {
            *came_up = true;
        }
    }

    /// What a liar sends to one node.
    pub(crate) fn lie(&mut self, shape: Shape, hands: Hands, tale: Tale) {
        count_at(&mut self.shapes, shape as usize);
        if shape != Shape::Silent && shape != Shape::Rubbish {
            count_at(&mut self.hands, hands as usize);
            count_at(&mut self.tales, tale as usize);
        }
    }

    /// What a good node makes of it.
    pub(crate) fn fate(&mut self, came: Came) {
        let place = match came {
            Came::Whole(_) => 0,
            Came::Nothing => 1,
            Came::TurnedAway(code) => match code.number {
                7 => 2,
                8 => 3,
                9 => 4,
                _ => return,
            },
        };
        count_at(&mut self.fates, place);
    }

    /// The checks that failed in a trial.
    pub(crate) fn failures(&mut self, failures: &Failures) {
        for check in Check::ALL {
            if failures.has(check) {
                count_at(&mut self.broken, check as usize);
            }
        }
    }

    /// Whether any check failed in any trial.
    pub(crate) fn any_broken(&self) -> bool {
        self.broken.iter().any(|times| *times != 0)
    }

    /// A number more of those whose checksum is printed.
    pub(crate) fn note(&mut self, word: u64) {
        let mixed = (self.checksum ^ word).wrapping_mul(CHECKSUM_FACTOR);
        self.checksum = mixed ^ (mixed >> 32);
    }

    /// Prints all.
    pub(crate) fn print(&self, rt: &HostRuntime) -> io::Result<()> {
        let Counts {
            clusters,
            beyond,
            rounds,
            cycles,
            zeros,
            others,
            nearer,
            at_limit,
            widest,
            kept,
            checksum,
            ..
        } = *self;
        let sizes = self.sizes_seen();
        println!(rt; "clusters {clusters} of sizes {sizes} beyond {beyond}")?;
        println!(rt; "rounds {rounds} cycles {cycles}")?;
        print_row(rt, "slots of liars:", &Shape::NAMES, &self.shapes)?;
        print_row(rt, "clocks of liars:", &Hands::NAMES, &self.hands)?;
        print_row(rt, "values of liars:", &Tale::NAMES, &self.tales)?;
        print_row(rt, "at good nodes:", &FATES, &self.fates)?;
        println!(rt; "results for liars: zero {zeros} other {others}")?;
        println!(rt;
            "good clocks: halved {nearer} at-limit {at_limit} widest-percent {widest} kept {kept}"
        )?;
        print_row(rt, "broken:", &Check::NAMES, &self.broken)?;
        println!(rt; "checksum {checksum:016x}")
    }

    fn sizes_seen(&self) -> usize {
        let mut seen = 0usize;
        for row in &self.sizes {
            let in_row = row.iter().filter(|came_up| **came_up).count();
            seen = seen.saturating_add(in_row);
        }
        seen
    }
}

/// One more, if so.
pub(crate) fn count(times: &mut u64, so: bool) {
    *times = times.saturating_add(u64::from(so));
}

fn count_at(all: &mut [u64], place: usize) {
    if let Some(times) = all.get_mut(place) {
        count(times, true);
    }
}

fn print_row(rt: &HostRuntime, title: &str, names: &[&str], all: &[u64]) -> io::Result<()> {
    print!(rt; "{title}")?;
    for (name, times) in names.iter().zip(all) {
        print!(rt; " {name} {times}")?;
    }
    println!(rt; "")
}
