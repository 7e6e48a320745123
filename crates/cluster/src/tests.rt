//! What is seen of a cluster from outside, by numbers that were worked out by hand. Whole scripts are played by the bench.
ghost use Rattle.std.specs.Prelude.{◌≡◌, ◌-◌, ◌==◌, not};

use crate::bus::{Bus, Watch};
use crate::station::{Came, Station};
use midpoint::{Code, MAX_NODES};
use node::Config;
use script::{Message, Round, Setup, Starting};
use std::alloc::{AllocError, Global};
use std::process::Abort;
use std::test::Fail;

// Four nodes, of which the last is bad; the others give 5, 6 and 7.
fn setup(rt: &impl Abort, aheads: [u64; 3]) -> Setup {
    let config = Config {
        nodes: 4,
        faults: 1,
        drift: 0,
        jitter: 0,
        length: 457,
        pause: 137,
        message: 200,
        wire: 8,
    };
    let schedule = config.schedule();
    assert!(rt; schedule.is_ok());
    let mut starting = [Starting::Bad; MAX_NODES];
    for (node, ahead) in aheads.iter().enumerate() {
        starting[node] = Starting::Good {
            value: node as u32 + 5,
            ahead: *ahead,
        };
    }
    Setup {
        schedule: schedule.unwrap(),
        starting,
    }
}

// Sees so many rounds, and then wants no more.
#[derive(Clone, Copy)]
struct Sees(usize);

impl Watch for Sees {
    type Error = ();

    ghost sees = { λ old bus round more new. (new.0 ≡ old.0 - 1) × (more ≡ not (new.0 == 0)) };

    fn played(&mut self, _bus: &Bus, _round: &Round) -> Result<(), ()> {
        self.0 = self.0.saturating_sub(1);
        if self.0 == 0 { Err(()) } else { Ok(()) }
    }
}

fn quiet_rounds(heap: Global, count: usize) -> Result<Vec<Round>, AllocError> {
    let mut rounds = Vec::new(heap);
    for _ in 0..count {
        rounds.push(Round::new(heap))?;
    }
    Ok(rounds)
}

// A clock in ticks ahead of common time, if the node is a good one.
fn ahead(bus: &Bus, node: usize) -> Option<i128> {
    bus.station(node).map(|station| bus.ahead(station.time))
}

#[test]
fn rounds_until_enough_is_seen(rt: HostRuntime) -> Result<(), Fail> {
    let heap = rt.alloc();
    let setup = setup(&rt, [1000, 1004, 1010]);
    let rounds = quiet_rounds(heap, 3)?;
    // the clocks at the start, and behind one, two and three rounds; a cycle is two rounds
    for (wanted, taken, clocks, ended) in [
        (1, false, [1002, 1004, 1007], false),
        (2, false, [1003, 1004, 1005], true),
        (3, false, [1003, 1004, 1004], false),
        (4, true, [1003, 1004, 1004], false),
    ] {
        let mut bus = Bus::new(heap, &setup)?;
        let all = bus.play_all(rounds.as_slice(), &mut Sees(wanted));
        assert_eq!(&rt; all.is_ok(), taken, "{}", wanted);
        assert_eq!(&rt; bus.has_ended_cycle(), ended, "{}", wanted);
        for (node, clock) in clocks.iter().enumerate() {
            assert_eq!(&rt; ahead(&bus, node), Some(*clock), "{} {}", wanted, node);
        }
    }
    Ok(())
}

#[test]
fn before_the_first_round(rt: HostRuntime) -> Result<(), Fail> {
    let bus = Bus::new(rt.alloc(), &setup(&rt, [1000, 1004, 1010]))?;
    assert!(&rt; !bus.has_ended_cycle());
    for (node, clock) in [Some(1000), Some(1004), Some(1010), None, None]
        .iter()
        .enumerate()
    {
        assert_eq!(&rt; ahead(&bus, node), *clock);
        assert!(&rt; bus.station(node).and_then(Station::results).is_none());
    }
    assert!(&rt; bus.station(usize::MAX).is_none());
    Ok(())
}

// What came at node 0, as a whole frame of node 1, and frames that are turned away and not of node 3; and a node that is out.
#[test]
fn what_comes(rt: HostRuntime) -> Result<(), Fail> {
    let heap = rt.alloc();
    let mut bus = Bus::new(heap, &setup(&rt, [1000, 1004, 1_000_000_000_000]))?;
    let mut round = Round::new(heap);
    round.add_message(Message {
        from: 3,
        to: 0,
        reading: 1000,
        bytes: vec![in heap; 3, 0, 0, 0, 0]?,
    })?;
    bus.play(&round);
    let station = bus.station(0);
    assert!(&rt; station.is_some());
    let station = station.unwrap();
    assert_eq!(&rt; station.came(0), Came::Nothing);
    assert_eq!(&rt; station.came(1), Came::Whole(4));
    assert_eq!(&rt; station.came(2), Came::Nothing);
    assert_eq!(&rt;
        station.came(3),
        Came::TurnedAway(Code {
            number: 7,
            place: 5
        })
    );
    assert_eq!(&rt; station.came(usize::MAX), Came::Nothing);
    assert_eq!(&rt; station.refused, None);
    let out = bus.station(2).and_then(|station| station.refused);
    assert_eq!(&rt;
        out,
        Some(Code {
            number: 3,
            place: 2
        })
    );
    Ok(())
}
