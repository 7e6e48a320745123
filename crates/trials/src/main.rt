//! `trials SEED COUNT`: plays so many random clusters with random liars, checks behind each round what has to hold of the good
//! nodes, and prints what was counted. Then it plays fewer clusters with one liar too many, to see that the checks of
//! clocks and results can fail. If one fails where none may, the program names it and ends with status 1.
//!
//! - `dice`: random numbers.
//! - `liar`: what bad nodes do.
//! - `trial`: a cluster, as it is drawn.
//! - `story`: its rounds.
//! - `lies`: what bad nodes send in them.
//! - `check`: what has to hold.
//! - `counts`: what is counted.

#![tactic(auto)]

mod check;
mod counts;
mod dice;
mod liar;
mod lies;
mod story;
mod trial;

use crate::check::{Check, Failures, distance, look};
use crate::counts::Counts;
use crate::dice::Dice;
use crate::story::Story;
use crate::trial::Trial;
use cluster::Bus;
use std::env;
use std::process::ExitCode;

/// With one liar too many so many times fewer clusters are played.
const TIMES_FEWER: u64 = 4;

fn main(rt: HostRuntime) -> anyhow::Result<ExitCode> {
    let mut words = env::args(&rt)?;
    let _program = words.next();
    let (Some(seed), Some(count), None) = (number(words.next()), number(words.next()), words.next())
    else {
        eprintln!(rt; "usage: trials SEED COUNT")?;
        return Ok(ExitCode::FAILURE);
    };
    let mut dice = Dice::new(seed);
    println!(rt; "as many liars as faults, or fewer")?;
    let counts = run(&rt, &mut dice, count, false)?;
    println!(rt; "one liar too many")?;
    run(&rt, &mut dice, count / TIMES_FEWER, true)?;
    Ok(if counts.any_broken() {
        ExitCode::FAILURE
    } else {
        ExitCode::SUCCESS
    })
}

fn number(word: Option<String>) -> Option<u64> {
    word.and_then(|word| word.as_str().parse().ok())
}

// Plays so many trials, and prints what was counted.
fn run(
    rt: &HostRuntime,
    dice: &mut Dice,
    count: u64,
    one_too_many: bool,
) -> anyhow::Result<Counts> {
    let mut counts = Counts::new();
    for number in 0..count {
        let mut own = Dice::new(dice.next());
        let failures = play(rt, &mut own, one_too_many, &mut counts)?;
        counts.failures(&failures);
        if !one_too_many {
            report(rt, number, &failures)?;
        }
    }
    counts.print(rt)?;
    Ok(counts)
}

// Plays a trial.
fn play(
    rt: &HostRuntime,
    dice: &mut Dice,
    one_too_many: bool,
    counts: &mut Counts,
) -> anyhow::Result<Failures> {
    let trial = Trial::drawn(dice, one_too_many)?;
    counts.trial(&trial);
    let mut bus = Bus::new(rt.alloc(), &trial.setup)?;
    let mut story = Story::new(&trial);
    let mut failures = Failures::none();
    for number in 0..trial.rounds() {
        let round = story.round(rt.alloc(), dice, &trial, number, counts)?;
        let before = distance(&bus);
        bus.play(&round);
        look(&trial, &story, &bus, before, counts, &mut failures);
    }
    Ok(failures)
}

// Names the checks that failed in a trial.
fn report(rt: &HostRuntime, number: u64, failures: &Failures) -> anyhow::Result<()> {
    for check in Check::ALL {
        if failures.has(check) {
            let name = check.name();
            println!(rt; "trial {number}: {name} FAILED")?;
        }
    }
    Ok(())
}
