//! What a picture shows of a play: the clocks, what the bad nodes made the good ones read, and the results.
use clock::Cluster;
use cluster::{Bus, Came, Station};
use midpoint::{CLOCK_LIMIT, MAX_NODES};
use std::alloc::{AllocError, Global};

/// As many rounds are shown.
pub(crate) const MOST_ROUNDS: usize = 400;

/// The good clocks at one moment, ahead of common time. A bad node has none, and a clock at the limit or past it counts as none.
#[derive(Clone, Copy)]
pub(crate) struct Clocks(pub(crate) [Option<i64>; MAX_NODES]);

/// Of clocks the mean, the lowest, and the highest.
#[derive(Clone, Copy)]
pub(crate) struct Spread {
    pub(crate) mean: i64,
    pub(crate) low: i64,
    pub(crate) high: i64,
}

/// How far a bad node made a good one read its clock to be ahead of the mean of the good clocks, in a round, which counts from 1;
/// nothing where no message was taken.
#[derive(Clone, Copy)]
pub(crate) struct Reading {
    pub(crate) round: usize,
    pub(crate) of: usize,
    pub(crate) by: usize,
    pub(crate) ahead: Option<i64>,
}

/// What there is to say of the good nodes' results: all have the same, and for each good node what it gave; all have the same; they differ;
/// or one has none.
#[derive(Clone, Copy)]
pub(crate) enum Verdict {
    Agree,
    Wrong,
    Differ,
    Missing,
}

/// A cycle, by its last round, and the results that all good nodes have that have any.
#[derive(Clone, Copy)]
pub(crate) struct Cycle {
    pub(crate) round: usize,
    pub(crate) verdict: Verdict,
    pub(crate) results: [Option<u32>; MAX_NODES],
}

/// What a picture shows of a play: how many rounds there were in all; and of the first ones the clocks at their start and behind each, all
/// readings of bad nodes, as many for each round, and all cycles that ended. Of the cycle under way what the good nodes give.
#[derive(Drop)]
pub(crate) struct History {
    pub(crate) cluster: Cluster,
    pub(crate) good: [bool; MAX_NODES],
    pub(crate) rounds: u64,
    pub(crate) clocks: Vec<Clocks>,
    pub(crate) readings: Vec<Reading>,
    pub(crate) cycles: Vec<Cycle>,
    given: [Option<u32>; MAX_NODES],
}

impl History {
    /// Nothing has been played yet.
    pub(crate) fn new(heap: Global, cluster: Cluster, bus: &Bus) -> Result<History, AllocError> {
        let mut clocks = Vec::new(heap);
        clocks.push(Clocks::of(bus))?;
        Ok(History {
            cluster,
            good: std::array::from_fn(|node| bus.station(node).is_some()),
            rounds: 0,
            clocks,
            readings: Vec::new(heap),
            cycles: Vec::new(heap),
            given: given(bus),
        })
    }

    /// A round has been played.
    pub(crate) fn note(&mut self, bus: &Bus) -> Result<(), AllocError> {
        self.rounds = self.rounds.saturating_add(1);
        if self.clocks.len() <= MOST_ROUNDS {
            self.note_readings(bus)?;
            self.clocks.push(Clocks::of(bus))?;
            if bus.has_ended_cycle() && self.good_count() > 0 {
                self.note_cycle(bus)?;
            }
        }
        Ok(())
    }

    // What the bad nodes made the good ones read. The clocks that these read by are those before the round.
    fn note_readings(&mut self, bus: &Bus) -> Result<(), AllocError> {
        let round = self.clocks.len();
        let before = self
            .clocks
            .last()
            .copied()
            .unwrap_or(Clocks([None; MAX_NODES]));
        for of in 0..self.nodes() {
            for by in 0..self.nodes() {
                if bus.station(of).is_none() {
                    if let Some(station) = bus.station(by) {
                        self.readings.push(Reading {
                            round,
                            of,
                            by,
                            ahead: before.reading(by, station.came(of)),
                        })?;
                    }
                }
            }
        }
        Ok(())
    }

    // A cycle has ended with the last round of which the clocks were noted, and the next one begins.
    fn note_cycle(&mut self, bus: &Bus) -> Result<(), AllocError> {
        let results = std::array::from_fn(|node| common_result(bus, node));
        let cycle = Cycle {
            round: self.shown(),
            verdict: self.verdict(bus, &results),
            results,
        };
        self.cycles.push(cycle)?;
        self.given = given(bus);
        Ok(())
    }

    // What there is to say of results.
    fn verdict(&self, bus: &Bus, results: &[Option<u32>; MAX_NODES]) -> Verdict {
        if (0..MAX_NODES).any(|node| lacks_results(bus, node)) {
            Verdict::Missing
        } else if !results.iter().take(self.nodes()).all(Option::is_some) {
            Verdict::Differ
        } else if self.are_right(results) {
            Verdict::Agree
        } else {
            Verdict::Wrong
        }
    }

    // Whether the result for each good node is what it gave.
    fn are_right(&self, results: &[Option<u32>; MAX_NODES]) -> bool {
        self.given
            .iter()
            .zip(results)
            .all(|(given, common)| given.is_none() || given == common)
    }

    /// How many nodes there are.
    pub(crate) fn nodes(&self) -> usize {
        self.cluster.nodes() as usize
    }

    /// How many of the nodes are good.
    pub(crate) fn good_count(&self) -> usize {
        self.good.iter().filter(|good| **good).count()
    }

    /// How many rounds are shown.
    pub(crate) fn shown(&self) -> usize {
        self.clocks.len().saturating_sub(1)
    }
}

impl Clocks {
    // The good clocks as the next round finds them.
    fn of(bus: &Bus) -> Clocks {
        Clocks(std::array::from_fn(|node| clock_of(bus, node)))
    }

    /// The mean, the lowest and the highest; nothing where there are no clocks.
    pub(crate) fn spread(&self) -> Option<Spread> {
        let mut sum = 0i64;
        let mut count = 0i64;
        let mut low = i64::MAX;
        let mut high = i64::MIN;
        for clock in self.0.iter().flatten() {
            sum = sum.saturating_add(*clock);
            count = count.saturating_add(1);
            low = low.min(*clock);
            high = high.max(*clock);
        }
        let mean = sum.checked_div(count)?;
        Some(Spread { mean, low, high })
    }

    // How far ahead of the mean a node reads another clock, by what came of it.
    fn reading(&self, by: usize, came: Came) -> Option<i64> {
        let spread = self.spread()?;
        let own = self.0.get(by).copied().flatten()?;
        match came {
            Came::Whole(deviation) => Some(
                own.saturating_add(deviation).saturating_sub(spread.mean),
            ),
            Came::Nothing | Came::TurnedAway(_) => None,
        }
    }
}

// A good clock as the next round finds it, if it is below the limit.
fn clock_of(bus: &Bus, node: usize) -> Option<i64> {
    let time = bus.station(node)?.time;
    if time < CLOCK_LIMIT {
        i64::try_from(bus.ahead(time)).ok()
    } else {
        None
    }
}

// What the good nodes give in the cycle that begins.
fn given(bus: &Bus) -> [Option<u32>; MAX_NODES] {
    std::array::from_fn(|node| bus.station(node).map(|station| station.value))
}

// Whether a node is good and has no results.
fn lacks_results(bus: &Bus, node: usize) -> bool {
    bus.station(node)
        .is_some_and(|station| station.results().is_none())
}

// The result for a node that all good nodes have that have any; nothing where they differ.
fn common_result(bus: &Bus, node: usize) -> Option<u32> {
    let mut common = None;
    for holder in 0..MAX_NODES {
        if let Some(results) = bus.station(holder).and_then(Station::results) {
            let next = results.get(node).copied();
            if common.is_some() && common != next {
                return None;
            }
            common = next;
        }
    }
    common
}
