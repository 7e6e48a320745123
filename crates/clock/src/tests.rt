//! Examples of the rules and the edges of every refusal. The expected values are worked out by hand.
use crate::ahead::{deviation, reading};
use crate::config::Unfit;
use crate::limits::{Clock, Cluster};
use crate::setting::Refusal;
use midpoint::{Code, MAX_NODES};
use std::process::Abort;
use std::test::Fail;

const LAST: u64 = 999_999_999_999;

const LARGEST: u64 = 18_446_744_073_709_551_615;

const SILENT: [Option<i64>; MAX_NODES] = [None; MAX_NODES];

// There is no such cluster, by this number and place.
fn unfit(rt: &impl Abort, numbers: [u64; 4], why: Unfit, number: u64, place: u64) {
    let [nodes, faults, drift, jitter] = numbers;
    assert_eq!(rt; Cluster::new(nodes, faults, drift, jitter).err(), Some(why));
    assert_eq!(rt; Code::from(why), Code { number, place });
}

// There is such a cluster, with these numbers.
fn fit(rt: &impl Abort, numbers: [u64; 4]) -> Result<(), Fail> {
    let [nodes, faults, drift, jitter] = numbers;
    let cluster = Cluster::new(nodes, faults, drift, jitter)?;
    assert_eq!(rt; cluster.nodes(), nodes);
    assert_eq!(rt; cluster.faults(), faults);
    assert_eq!(rt; cluster.drift(), drift);
    assert_eq!(rt; cluster.jitter(), jitter);
    Ok(())
}

// A clock of node 2 that shows a time.
fn clock_at(time: u64) -> Clock {
    Clock::new().go_on(2, time).clock
}

fn shows(rt: &impl Abort, clock: Clock, time: u64, round: u64) {
    assert_eq!(rt; clock.shown(), time);
    assert_eq!(rt; clock.round(), round);
}

// The clock of node 2, of a cluster of four with one fault, is set from this time to that one.
fn sets(rt: &impl Abort, from: u64, heard: [Option<i64>; 4], to: u64) -> Result<(), Fail> {
    let step = clock_at(from).set(&Cluster::new(4, 1, 0, 0)?, 2, &first_four(heard));
    assert_eq!(rt; step.answer, Ok(to));
    shows(rt, step.clock, to, 1);
    Ok(())
}

fn first_four(heard: [Option<i64>; 4]) -> [Option<i64>; MAX_NODES] {
    let mut all = SILENT;
    all[0..4].copy_from_slice(&heard);
    all
}

#[test]
fn numbers_that_follow(rt: HostRuntime) -> Result<(), Fail> {
    let seven = Cluster::new(7, 2, 5, 10)?;
    assert_eq!(rt; seven.error(), 20);
    assert_eq!(rt; seven.bound(), 102);
    assert_eq!(rt; seven.width(), 112);
    let exact = Cluster::new(4, 1, 0, 0)?;
    assert_eq!(rt; exact.error(), 0);
    assert_eq!(rt; exact.bound(), 2);
    assert_eq!(rt; exact.width(), 2);
    let widest = Cluster::new(16, 3, 1000, 1000)?;
    assert_eq!(rt; widest.error(), 3000);
    assert_eq!(rt; widest.bound(), 16_002);
    assert_eq!(rt; widest.width(), 18_002);
    Ok(())
}

#[test]
fn number_of_nodes(rt: HostRuntime) -> Result<(), Fail> {
    unfit(&rt, [3, 0, 0, 0], Unfit::Nodes, 4, 0);
    fit(&rt, [4, 0, 0, 0])?;
    fit(&rt, [16, 0, 0, 0])?;
    unfit(&rt, [17, 0, 0, 0], Unfit::Nodes, 4, 0);
    unfit(&rt, [0, 0, 0, 0], Unfit::Nodes, 4, 0);
    unfit(&rt, [LARGEST, 0, 0, 0], Unfit::Nodes, 4, 0);
    Ok(())
}

#[test]
fn number_of_faults(rt: HostRuntime) -> Result<(), Fail> {
    fit(&rt, [4, 1, 0, 0])?;
    unfit(&rt, [4, 2, 0, 0], Unfit::NodesForFaults, 4, 1);
    unfit(&rt, [6, 2, 0, 0], Unfit::NodesForFaults, 4, 1);
    fit(&rt, [7, 2, 0, 0])?;
    unfit(&rt, [9, 3, 0, 0], Unfit::NodesForFaults, 4, 1);
    fit(&rt, [10, 3, 0, 0])?;
    unfit(&rt, [16, 4, 0, 0], Unfit::Faults, 4, 1);
    // three times these faults would wrap to a small number
    unfit(
        &rt,
        [16, 6_148_914_691_236_517_206, 0, 0],
        Unfit::Faults,
        4,
        1,
    );
    Ok(())
}

#[test]
fn drift_and_jitter(rt: HostRuntime) -> Result<(), Fail> {
    fit(&rt, [7, 2, 1000, 1000])?;
    unfit(&rt, [7, 2, 1001, 0], Unfit::Drift, 5, 0);
    unfit(&rt, [7, 2, 0, 1001], Unfit::Jitter, 5, 1);
    unfit(&rt, [7, 2, LARGEST, LARGEST], Unfit::Drift, 5, 0);
    Ok(())
}

#[test]
fn first_check_that_fails(rt: HostRuntime) {
    unfit(&rt, [3, 4, 1001, 1001], Unfit::Nodes, 4, 0);
    unfit(&rt, [4, 4, 1001, 1001], Unfit::Faults, 4, 1);
    unfit(&rt, [4, 3, 1001, 1001], Unfit::NodesForFaults, 4, 1);
    unfit(&rt, [4, 1, 1001, 1001], Unfit::Drift, 5, 0);
}

#[test]
fn local_time_goes_on(rt: HostRuntime) {
    shows(&rt, Clock::new(), 0, 0);
    let step = Clock::new().go_on(2, 500);
    assert_eq!(rt; step.answer, Ok(()));
    shows(&rt, step.clock, 500, 0);
    let again = step.clock.go_on(2, 500);
    assert_eq!(rt; again.answer, Ok(()));
    shows(&rt, again.clock, 500, 0);
    let back = again.clock.go_on(2, 499);
    assert_eq!(rt; back.answer, Err(Refusal::Earlier));
    shows(&rt, back.clock, 500, 0);
    assert_eq!(rt;
        Code::from(Refusal::Earlier),
        Code {
            number: 12,
            place: 0,
        }
    );
}

#[test]
fn local_time_ends(rt: HostRuntime) {
    let last = Clock::new().go_on(5, LAST);
    assert_eq!(rt; last.answer, Ok(()));
    shows(&rt, last.clock, LAST, 0);
    let past = Clock::new().go_on(5, 300).clock.go_on(5, LAST + 1);
    let refusal = Refusal::PastLimit { node: 5 };
    assert_eq!(rt; past.answer, Err(refusal));
    shows(&rt, past.clock, 300, 0);
    assert_eq!(rt;
        Code::from(refusal),
        Code {
            number: 3,
            place: 5,
        }
    );
    assert_eq!(rt; Clock::new().go_on(5, LARGEST).answer, Err(refusal));
}

#[test]
fn deviations(rt: HostRuntime) {
    assert_eq!(rt; deviation(137, 137), 0);
    assert_eq!(rt; deviation(137, 138), -1);
    assert_eq!(rt; deviation(138, 137), 1);
    assert_eq!(rt; deviation(0, LAST), -999_999_999_999);
    assert_eq!(rt; deviation(LAST, 0), 999_999_999_999);
}

// The type goes from -2^63 to 2^63 - 1.
#[test]
fn deviations_at_their_ends(rt: HostRuntime) {
    assert_eq!(rt; deviation(9_223_372_036_854_775_807, 0), i64::MAX);
    assert_eq!(rt; deviation(9_223_372_036_854_775_808, 0), i64::MAX);
    assert_eq!(rt; deviation(9_223_372_036_854_775_808, 1), i64::MAX);
    assert_eq!(rt; deviation(9_223_372_036_854_775_808, 2), i64::MAX - 1);
    assert_eq!(rt; deviation(LARGEST, 0), i64::MAX);
    assert_eq!(rt; deviation(1, 9_223_372_036_854_775_808), -i64::MAX);
    assert_eq!(rt; deviation(0, 9_223_372_036_854_775_808), i64::MIN);
    assert_eq!(rt; deviation(0, 9_223_372_036_854_775_809), i64::MIN);
    assert_eq!(rt; deviation(0, LARGEST), i64::MIN);
}

#[test]
fn readings(rt: HostRuntime) {
    assert_eq!(rt; reading(1000, 0), 1000);
    assert_eq!(rt; reading(1000, -1), 999);
    assert_eq!(rt; reading(1000, 7), 1007);
    assert_eq!(rt; reading(1000, -1000), 0);
    assert_eq!(rt; reading(1000, -1001), 0);
    assert_eq!(rt; reading(0, i64::MIN), 0);
    assert_eq!(rt; reading(LARGEST, i64::MIN), 9_223_372_036_854_775_807);
    assert_eq!(rt; reading(LARGEST, i64::MAX), LARGEST);
}

// A clock at 1010 reads the own clock, and those at 1000 and 1004 by their deviations. The fourth node
// is silent, so there are four readings all the same: 1000, 1004, 1010 and 1010.
#[test]
fn silent_node(rt: HostRuntime) -> Result<(), Fail> {
    sets(&rt, 1010, [Some(-10), Some(-6), None, None], 1007)
}

// What it has of itself is not looked at.
#[test]
fn own_clock(rt: HostRuntime) -> Result<(), Fail> {
    sets(&rt, 1010, [Some(-10), Some(-6), Some(-500), None], 1007)?;
    sets(&rt, 1010, [None; 4], 1010)
}

#[test]
fn set_back_and_forward(rt: HostRuntime) -> Result<(), Fail> {
    sets(&rt, 1000, [Some(4), Some(10), None, Some(6)], 1005)?;
    sets(&rt, 1010, [Some(-10), Some(-6), None, Some(-4)], 1005)?;
    // readings 0, 0, 5 and 5: what is below 0 is read as 0
    sets(&rt, 5, [Some(-6), Some(-5), None, None], 2)
}

// One node that lies is thrown away, whichever way it lies.
#[test]
fn liar(rt: HostRuntime) -> Result<(), Fail> {
    sets(&rt, 1000, [Some(2), Some(4), None, Some(900_000)], 1003)?;
    sets(&rt, 1000, [Some(2), Some(4), None, Some(-900)], 1001)
}

// Only the nodes of the cluster are read, here four.
#[test]
fn past_the_cluster(rt: HostRuntime) -> Result<(), Fail> {
    let mut heard = first_four([Some(4), Some(10), None, Some(6)]);
    heard[4] = Some(i64::MAX);
    heard[15] = Some(-1000);
    let step = clock_at(1000).set(&Cluster::new(4, 1, 0, 0)?, 2, &heard);
    assert_eq!(rt; step.answer, Ok(1005));
    Ok(())
}

// With more nodes more is thrown away: of the seven readings 990, 1000, 1000, 1006, 1012, 1500 and 1600
// those that have two below and two above are 1000 and 1012.
#[test]
fn two_faults(rt: HostRuntime) -> Result<(), Fail> {
    let mut heard = SILENT;
    heard[0] = Some(500);
    heard[1] = Some(12);
    heard[3] = Some(600);
    heard[4] = Some(-10);
    heard[5] = Some(6);
    let step = clock_at(1000).set(&Cluster::new(7, 2, 5, 10)?, 2, &heard);
    assert_eq!(rt; step.answer, Ok(1006));
    shows(&rt, step.clock, 1006, 1);
    Ok(())
}

// The reading of node 3 comes to 10^12, so no clock is set, and the round counts on.
#[test]
fn readings_turned_away(rt: HostRuntime) -> Result<(), Fail> {
    let heard = first_four([Some(0), Some(0), None, Some(1)]);
    let step = clock_at(LAST).set(&Cluster::new(4, 1, 0, 0)?, 2, &heard);
    let Err(refusal) = step.answer else {
        return Err(Fail::new("a reading of 10^12 is turned away"));
    };
    assert_eq!(rt;
        Code::from(refusal),
        Code {
            number: 3,
            place: 3,
        }
    );
    shows(&rt, step.clock, LAST, 1);
    sets(&rt, LAST, [Some(0), Some(0), None, Some(0)], LAST)
}

// Set back, the clock goes on from there: the round is counted, not worked out from the clock.
#[test]
fn goes_on_from_the_setting(rt: HostRuntime) -> Result<(), Fail> {
    let cluster = Cluster::new(4, 1, 0, 0)?;
    let heard = first_four([Some(-10), Some(-10), None, Some(-10)]);
    let set = clock_at(1000).set(&cluster, 2, &heard);
    shows(&rt, set.clock, 990, 1);
    let on = set.clock.go_on(2, 995);
    assert_eq!(rt; on.answer, Ok(()));
    shows(&rt, on.clock, 995, 1);
    let again = on.clock.set(&cluster, 2, &heard);
    shows(&rt, again.clock, 985, 2);
    assert_eq!(rt; again.clock.go_on(2, 984).answer, Err(Refusal::Earlier));
    Ok(())
}

#[test]
fn rounds_end(rt: HostRuntime) -> Result<(), Fail> {
    let last = Clock {
        shown: 5,
        round: LARGEST,
    };
    let step = last.set(&Cluster::new(4, 1, 0, 0)?, 2, &SILENT);
    shows(&rt, step.clock, 5, LARGEST);
    Ok(())
}

// A node past the cluster reads none of the nodes as itself.
#[test]
fn no_node_of_the_cluster(rt: HostRuntime) -> Result<(), Fail> {
    let heard = first_four([Some(2), Some(4), Some(6), Some(8)]);
    let step = clock_at(1000).set(&Cluster::new(4, 1, 0, 0)?, 4, &heard);
    assert_eq!(rt; step.answer, Ok(1005));
    Ok(())
}

// Of nodes past the end of what was heard nothing was heard.
#[test]
fn shorter_than_the_cluster(rt: HostRuntime) -> Result<(), Fail> {
    let cluster = Cluster::new(4, 1, 0, 0)?;
    let step = clock_at(1010).set(&cluster, 2, &[Some(-10), Some(-6)]);
    assert_eq!(rt; step.answer, Ok(1007));
    shows(&rt, step.clock, 1007, 1);
    let step = clock_at(1010).set(&cluster, 2, &[]);
    assert_eq!(rt; step.answer, Ok(1010));
    shows(&rt, step.clock, 1010, 1);
    Ok(())
}
