//! What has to hold behind each round.
use crate::counts::{Counts, count};
use crate::story::Story;
use crate::trial::Trial;
use cluster::{Bus, Came, Station};
use midpoint::MAX_NODES;

/// What has to hold of good nodes, whatever the bad ones do.
#[derive(Clone, Copy)]
pub(crate) enum Check {
    /// Their clocks are at most the bound apart.
    Bound,
    /// And at most half of what they were apart, twice the error, twice the drift, and 1.
    Halving,
    /// At a cycle's end all have the same results.
    Agreement,
    /// And for each of them the value that it gave.
    Validity,
    /// Each takes the others' frames.
    Frames,
    /// Each sets its clock.
    Setting,
}

/// The checks that failed.
#[derive(Clone, Copy)]
pub(crate) struct Failures([bool; Check::NAMES.len()]);

impl Check {
    pub(crate) const ALL: [Check; 6] = [
        Check::Bound,
        Check::Halving,
        Check::Agreement,
        Check::Validity,
        Check::Frames,
        Check::Setting,
    ];

    /// By their order.
    pub(crate) const NAMES: [&'static str; 6] = [
        "bound",
        "halving",
        "agreement",
        "validity",
        "frames",
        "setting",
    ];

    pub(crate) fn name(self) -> &'static str {
        Check::NAMES.get(self as usize).copied().unwrap_or("")
    }
}

impl Failures {
    pub(crate) fn none() -> Failures {
        Failures([false; Check::NAMES.len()])
    }

    pub(crate) fn has(&self, check: Check) -> bool {
        self.0.get(check as usize).copied().unwrap_or(false)
    }

    // It failed, unless so.
    fn unless(&mut self, so: bool, check: Check) {
        if !so && let Some(failed) = self.0.get_mut(check as usize) {
            *failed = true;
        }
    }
}

/// How far apart the good clocks are.
pub(crate) fn distance(bus: &Bus) -> u64 {
    let mut low = u64::MAX;
    let mut high = 0;
    for node in 0..MAX_NODES {
        if let Some(station) = bus.station(node) {
            low = low.min(station.time);
            high = high.max(station.time);
        }
    }
    high.saturating_sub(low)
}

/// Counts what is seen behind a round, and checks it. Before it the good clocks were so far apart.
pub(crate) fn look(
    trial: &Trial,
    story: &Story,
    bus: &Bus,
    before: u64,
    counts: &mut Counts,
    failures: &mut Failures,
) {
    count(&mut counts.rounds, true);
    look_at_nodes(trial, bus, counts, failures);
    if !trial.beyond {
        look_at_clocks(trial, before, distance(bus), counts, failures);
    }
    if bus.has_ended_cycle() {
        count(&mut counts.cycles, true);
        for node in 0..trial.nodes() {
            look_at_results(trial, story, bus, node, counts, failures);
        }
    }
}

// What came at each good node, and what its clock shows.
fn look_at_nodes(trial: &Trial, bus: &Bus, counts: &mut Counts, failures: &mut Failures) {
    for node in 0..trial.nodes() {
        if let Some(station) = bus.station(node) {
            counts.note(as_word(bus.ahead(station.time)));
            for sender in 0..trial.nodes() {
                if sender != node {
                    look_at_slot(trial, station, sender, counts, failures);
                }
            }
            look_at_setting(trial, station, counts, failures);
        }
    }
}

fn look_at_slot(
    trial: &Trial,
    station: &Station,
    sender: usize,
    counts: &mut Counts,
    failures: &mut Failures,
) {
    let came = station.came(sender);
    note_came(came, counts);
    if trial.is_good(sender) {
        failures.unless(matches!(came, Came::Whole(_)), Check::Frames);
    } else {
        counts.fate(came);
    }
}

fn note_came(came: Came, counts: &mut Counts) {
    match came {
        Came::Nothing => counts.note(0),
        Came::Whole(deviation) => {
            counts.note(1);
            counts.note(deviation.cast_unsigned());
        }
        Came::TurnedAway(code) => {
            counts.note(2);
            counts.note(code.number);
            counts.note(code.place);
        }
    }
}

fn look_at_setting(trial: &Trial, station: &Station, counts: &mut Counts, failures: &mut Failures) {
    match station.refused {
        None => counts.note(0),
        Some(code) => {
            counts.note(code.number);
            counts.note(code.place);
            count(&mut counts.kept, true);
            failures.unless(trial.beyond, Check::Setting);
        }
    }
}

// How far apart the good clocks were and are.
fn look_at_clocks(
    trial: &Trial,
    before: u64,
    after: u64,
    counts: &mut Counts,
    failures: &mut Failures,
) {
    let cluster = trial.cluster();
    let limit = before / 2 + 2 * cluster.error() + 2 * cluster.drift() + 1;
    failures.unless(after <= cluster.bound(), Check::Bound);
    failures.unless(after <= limit, Check::Halving);
    count(&mut counts.at_limit, after == limit);
    count(&mut counts.nearer, after.saturating_mul(2) < before);
    let percent = after.saturating_mul(100).checked_div(cluster.bound());
    counts.widest = counts.widest.max(percent.unwrap_or(0));
}

// The good nodes' results for a node, as a cycle is over.
fn look_at_results(
    trial: &Trial,
    story: &Story,
    bus: &Bus,
    node: usize,
    counts: &mut Counts,
    failures: &mut Failures,
) {
    let mut first = None;
    for own in 0..trial.nodes() {
        if let Some(station) = bus.station(own) {
            let outcome = station
                .results()
                .and_then(|results| results.get(node).copied());
            counts.note(outcome.map_or(u64::MAX, u64::from));
            let agreed = *first.get_or_insert(outcome);
            failures.unless(outcome == agreed, Check::Agreement);
            if trial.is_good(node) {
                failures.unless(outcome == story.value(node), Check::Validity);
            }
        }
    }
    if !trial.is_good(node) {
        let zero = first == Some(Some(0));
        count(&mut counts.zeros, zero);
        count(&mut counts.others, !zero);
    }
}

// As 64 bits with a sign; it stops at their ends.
fn as_word(ahead: i128) -> u64 {
    let fitting = ahead.clamp(i128::from(i64::MIN), i128::from(i64::MAX)) as i64;
    fitting.cast_unsigned()
}
