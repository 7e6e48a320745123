//! Examples of the rules and the edges of every refusal. The expected values are worked out by hand.
use crate::config::{MAX_LENGTH, Unfit};
use crate::heard::Heard;
use crate::limits::Schedule;
use crate::listening::{Arrival, Listener, Received, Refusal};
use clock::Cluster;
use midpoint::Code;
use std::process::Abort;
use std::test::Fail;

const LARGEST: u64 = 18_446_744_073_709_551_615;

// For a cluster, whether there is a schedule of each length, pause, message and wire.
fn taken(rt: &impl Abort, cluster: Cluster, cases: &[([u64; 4], Option<Unfit>)]) {
    for (times, why) in cases {
        let [length, pause, message, wire] = *times;
        assert_eq!(rt;
            Schedule::new(cluster, length, pause, message, wire).err(),
            *why
        );
    }
}

// To compare in a function of its own takes less to prove, here and below.
fn heard_is(rt: &impl Abort, heard: Option<Received<u8>>, wanted: Option<Received<u8>>) {
    assert_eq!(rt; heard, wanted);
}

fn answers(rt: &impl Abort, answer: Result<(), Refusal>, wanted: Result<(), Refusal>) {
    assert_eq!(rt; answer, wanted);
}

fn number_is(rt: &impl Abort, number: u64, wanted: u64) {
    assert_eq!(rt; number, wanted);
}

// A schedule has the times that it was made of, here each longer than it has to be.
#[test]
fn times_are_kept(rt: HostRuntime) -> Result<(), Fail> {
    let cluster = Cluster::new(7, 2, 5, 10)?;
    let schedule = Schedule::new(cluster, 500, 140, 201, 9)?;
    assert_eq!(rt; schedule.cluster, cluster);
    number_is(&rt, schedule.length, 500);
    number_is(&rt, schedule.pause, 140);
    number_is(&rt, schedule.message, 201);
    number_is(&rt, schedule.wire, 9);
    Ok(())
}

// With 7 nodes, 2 faults, a drift of 5 and a jitter of 10 the width is 112 and the error 20.
#[test]
fn pause_and_length(rt: HostRuntime) -> Result<(), Fail> {
    taken(
        &rt,
        Cluster::new(7, 2, 5, 10)?,
        &[
            ([457, 137, 200, 8], None),
            ([457, 136, 200, 8], Some(Unfit::PauseTooShort)),
            ([456, 137, 200, 8], Some(Unfit::LengthTooShort)),
            ([457, 138, 200, 8], Some(Unfit::LengthTooShort)),
            ([457, 137, 201, 8], Some(Unfit::LengthTooShort)),
            ([457, 137, 200, 9], Some(Unfit::LengthTooShort)),
            ([458, 138, 200, 8], None),
            ([MAX_LENGTH, 137, 200, 8], None),
            ([MAX_LENGTH, 137, 999_999_743, 8], None),
            (
                [MAX_LENGTH, 137, 999_999_744, 8],
                Some(Unfit::LengthTooShort),
            ),
            ([1_000_000_001, 137, 200, 8], Some(Unfit::LengthTooLong)),
            ([LARGEST, 137, 200, 8], Some(Unfit::LengthTooLong)),
            // the first check that fails
            ([0, 136, 200, 8], Some(Unfit::PauseTooShort)),
            ([LARGEST, 0, 0, 0], Some(Unfit::PauseTooShort)),
            (
                [1_500_000_000, 2_000_000_000, 0, 0],
                Some(Unfit::LengthTooShort),
            ),
            // a sum that is the largest number, and sums that would wrap to 0 or to a small one
            (
                [1000, 137, LARGEST - 1000, 751],
                Some(Unfit::LengthTooShort),
            ),
            (
                [1000, 137, LARGEST - 1000, 752],
                Some(Unfit::LengthTooShort),
            ),
            ([1000, 137, 0, LARGEST], Some(Unfit::LengthTooShort)),
            ([1000, 137, LARGEST, 0], Some(Unfit::LengthTooShort)),
            (
                [LARGEST, LARGEST, LARGEST, LARGEST],
                Some(Unfit::LengthTooShort),
            ),
        ],
    );
    Ok(())
}

// Without drift and jitter the width is 2, with the most of both it is 18,002, and the error 3,000.
#[test]
fn other_clusters(rt: HostRuntime) -> Result<(), Fail> {
    taken(
        &rt,
        Cluster::new(4, 1, 0, 0)?,
        &[
            ([4, 2, 0, 0], None),
            ([3, 2, 0, 0], Some(Unfit::LengthTooShort)),
            ([4, 1, 0, 0], Some(Unfit::PauseTooShort)),
        ],
    );
    taken(
        &rt,
        Cluster::new(16, 3, 1000, 1000)?,
        &[
            ([40_212, 22_002, 200, 8], None),
            ([40_211, 22_002, 200, 8], Some(Unfit::LengthTooShort)),
            ([40_212, 22_001, 200, 8], Some(Unfit::PauseTooShort)),
        ],
    );
    Ok(())
}

#[test]
fn codes(rt: HostRuntime) {
    for (why, place) in [
        (Unfit::PauseTooShort, 0),
        (Unfit::LengthTooShort, 1),
        (Unfit::LengthTooLong, 1),
    ] {
        assert_eq!(rt; Code::from(why), Code { number: 6, place });
    }
    for why in [Refusal::EndsBeforeItBegan, Refusal::Earlier] {
        assert_eq!(rt;
            Code::from(why),
            Code {
                number: 12,
                place: 0,
            }
        );
    }
}

// Slots of 457, each with a pause of 137, for seven nodes.
fn seven() -> Result<Schedule, Fail> {
    Ok(Schedule::new(Cluster::new(7, 2, 5, 10)?, 457, 137, 200, 8)?)
}

#[test]
fn owners_and_rounds(rt: HostRuntime) -> Result<(), Fail> {
    let schedule = seven()?;
    let last = 2_635_249_153_387_078_802;
    for (slot, round, node) in [
        (0, 0, 0),
        (6, 0, 6),
        (7, 1, 0),
        (17, 2, 3),
        (LARGEST - 1, last, 0),
        (LARGEST, last, 1),
    ] {
        assert_eq!(rt; schedule.owner(slot), node);
        number_is(&rt, schedule.round(slot), round);
        number_is(&rt, schedule.slot(round, node), slot);
    }
    number_is(&rt, schedule.slot(last, 2), LARGEST);
    number_is(&rt, schedule.slot(LARGEST, 0), LARGEST);
    number_is(&rt, schedule.slot(0, 16), 16);
    Ok(())
}

#[test]
fn times(rt: HostRuntime) -> Result<(), Fail> {
    let schedule = seven()?;
    for (slot, sends, ends) in [
        (0, 137, 457),
        (1, 594, 914),
        (6, 2879, 3199),
        (7, 3336, 3656),
        (40_364_866_682_077_792, LARGEST - 534, LARGEST - 214),
        (40_364_866_682_077_793, LARGEST - 77, LARGEST),
        (40_364_866_682_077_794, LARGEST, LARGEST),
        (LARGEST, LARGEST, LARGEST),
    ] {
        number_is(&rt, schedule.send_time(slot), sends);
        number_is(&rt, schedule.slot_end(slot), ends);
    }
    for (round, ends) in [
        (0, 3199),
        (1, 6398),
        (5_766_409_526_011_112, LARGEST - 1128),
        (5_766_409_526_011_113, LARGEST),
        (LARGEST, LARGEST),
    ] {
        number_is(&rt, schedule.round_end(round), ends);
    }
    Ok(())
}

#[test]
fn heard_of_several(rt: HostRuntime) {
    let nothing: Heard<u8> = Heard::Nothing;
    let once = nothing.with(5);
    for (heard, with_six, only) in [
        (nothing, Heard::Once(6), None),
        (once, Heard::Several, Some(5)),
        (once.with(5), Heard::Several, None),
        (once.with(5).with(7), Heard::Several, None),
    ] {
        assert_eq!(rt; heard.with(6), with_six);
        assert_eq!(rt; heard.only(), only);
    }
}

// An arrival on a node's wire.
fn on(wire: usize, began: u64, ended: u64, message: u8) -> Arrival<u8> {
    Arrival {
        wire,
        began,
        ended,
        message,
    }
}

fn one(deviation: i64, message: u8) -> Option<Received<u8>> {
    Some(Received { deviation, message })
}

// Slot 8 is that of node 1, from 3656 to 4113, and a message is due at 3793. What is heard in it of these
// arrivals, by a listener that is told of one after another, and by `hear` of all at once.
fn hears(rt: &impl Abort, cases: &[(&[Arrival<u8>], Option<Received<u8>>)]) -> Result<(), Fail> {
    let schedule = seven()?;
    for (arrivals, expected) in cases {
        let mut listener = Listener::new(schedule, 8, 0);
        for arrival in *arrivals {
            listener = listener.tell(*arrival).listener;
        }
        heard_is(rt, listener.heard(), *expected);
        heard_is(rt, schedule.hear(8, 0, *arrivals), *expected);
    }
    Ok(())
}

#[test]
fn one_message(rt: HostRuntime) -> Result<(), Fail> {
    hears(
        &rt,
        &[
            (&[], None),
            (&[on(1, 3793, 3993, 5)], one(0, 5)),
            (&[on(1, 3794, 3994, 5)], one(-1, 5)),
            (&[on(1, 3792, 3992, 5)], one(1, 5)),
            (&[on(1, 3793, 3793, 5)], one(0, 5)),
            // of a clock that is ahead by the width, and of one that is behind by it, 8 on its way
            (&[on(1, 3681, 3881, 5)], one(112, 5)),
            (&[on(1, 3913, 4113, 5)], one(-120, 5)),
            // a tick longer on its way, and it ends behind the slot
            (&[on(1, 3914, 4114, 5)], None),
            // at the very ends of the slot
            (&[on(1, 3656, 4113, 5)], one(137, 5)),
            (&[on(1, 3655, 4113, 5)], None),
            (&[on(1, 3656, 4114, 5)], None),
            (&[on(1, 3656, 3656, 5)], one(137, 5)),
            (&[on(1, 4113, 4113, 5)], one(-320, 5)),
        ],
    )
}

// Two good nodes at the two ends of the width, 112: node 1 shows common time, and node 2 is ahead of it. Node 1
// sends in slot 8 at 3793; 8 on its way, its message lasts at node 2 from 3801 to 4001, where it shows 3913 to
// 4113. Node 2 sends in slot 9 when it shows 4250, at 4138; at once at node 1, its message lasts to 4338. So each
// is whole in its slot, which is from 4113 to 4570 for slot 9, and the first is over before the second begins.
#[test]
fn ends_of_the_width(rt: HostRuntime) -> Result<(), Fail> {
    let schedule = seven()?;
    number_is(&rt, schedule.send_time(8), 3793);
    number_is(&rt, schedule.send_time(9), 4138 + 112);
    for (slot, arrival, expected) in [
        (8, on(1, 3913, 4113, 5), one(-120, 5)),
        (9, on(2, 4138, 4338, 6), one(112, 6)),
        // a tick farther apart the first ends behind its slot
        (8, on(1, 3914, 4114, 5), None),
        // ahead by the pause the second begins as its slot starts, and a tick farther ahead before it
        (9, on(2, 4113, 4313, 6), one(137, 6)),
        (9, on(2, 4112, 4312, 6), None),
    ] {
        heard_is(&rt, schedule.hear(slot, 3656, &[arrival]), expected);
    }
    Ok(())
}

#[test]
fn several_messages(rt: HostRuntime) -> Result<(), Fail> {
    let first = on(1, 3700, 3750, 5);
    let second = on(1, 3800, 3850, 6);
    let third = on(1, 3900, 3950, 7);
    let early = on(1, 3600, 3650, 8);
    let late = on(1, 4100, 4114, 9);
    hears(
        &rt,
        &[
            (&[first, second], None),
            (&[first, second, third], None),
            (&[first, first], None),
            // at the two ends of the slot
            (&[on(1, 3656, 3656, 5), on(1, 4113, 4113, 6)], None),
            // one outside and one inside
            (&[early, second], one(-7, 6)),
            (&[second, late], one(-7, 6)),
            (&[early, second, late], one(-7, 6)),
            (&[early, first, second, late], None),
        ],
    )
}

// In a slot only the slot's node is listened to.
#[test]
fn other_wires(rt: HostRuntime) -> Result<(), Fail> {
    let before = on(0, 3700, 3790, 5);
    let due = on(1, 3793, 3993, 6);
    let behind = on(2, 3794, 3994, 7);
    hears(
        &rt,
        &[
            (&[before], None),
            (&[behind], None),
            (&[on(8, 3793, 3993, 5)], None),
            (&[before, due, behind], one(0, 6)),
        ],
    )
}

// What is refused changes nothing.
#[test]
fn arrivals_refused(rt: HostRuntime) -> Result<(), Fail> {
    let start = Listener::new(seven()?, 8, 3700);
    let told = start.tell(on(1, 3660, 3700, 5));
    answers(&rt, told.answer, Ok(()));
    heard_is(&rt, told.listener.heard(), one(133, 5));
    for (listener, arrival, why) in [
        (start, on(1, 3800, 3799, 5), Refusal::EndsBeforeItBegan),
        (start, on(1, 3690, 3699, 5), Refusal::Earlier),
        (start, on(1, 3699, 3698, 5), Refusal::EndsBeforeItBegan),
        (start, on(4, 3800, 3799, 5), Refusal::EndsBeforeItBegan),
        (told.listener, on(1, 3660, 3699, 6), Refusal::Earlier),
    ] {
        let again = listener.tell(arrival);
        answers(&rt, again.answer, Err(why));
        assert_eq!(rt; again.listener, listener);
    }
    Ok(())
}

// What is refused is no second message, and is not the last time seen; what comes on other wires is a time
// seen.
#[test]
fn goes_on_after_a_refusal(rt: HostRuntime) -> Result<(), Fail> {
    let back = on(1, 3800, 3799, 9);
    let first = on(1, 3700, 3750, 5);
    hears(
        &rt,
        &[
            (&[back], None),
            (&[back, first], one(93, 5)),
            (&[first, back], one(93, 5)),
            (&[on(0, 3700, 3751, 6), first], None),
            (&[on(0, 3700, 3751, 6), on(0, 3600, 3700, 6), first], None),
            (&[on(0, 3700, 3751, 6), on(0, 3700, 3740, 6), first], None),
            (&[on(0, 3700, 3750, 6), first], one(93, 5)),
        ],
    )
}

// What ends behind the slot is taken too, and what ended before it is then refused, also where nothing can be
// heard any more.
#[test]
fn seen_all_along(rt: HostRuntime) -> Result<(), Fail> {
    let start = Listener::new(seven()?, 8, 3656);
    let late = start.tell(on(1, 4100, 4114, 5));
    answers(&rt, late.answer, Ok(()));
    let again = late.listener.tell(on(1, 3700, 4113, 5));
    answers(&rt, again.answer, Err(Refusal::Earlier));
    let twice = start
        .tell(on(1, 3700, 3750, 5))
        .listener
        .tell(on(1, 3800, 3850, 6));
    let third = twice.listener.tell(on(1, 3900, 3950, 7));
    answers(&rt, third.answer, Ok(()));
    let back = third.listener.tell(on(1, 3900, 3949, 8));
    answers(&rt, back.answer, Err(Refusal::Earlier));
    heard_is(&rt, back.listener.heard(), None);
    Ok(())
}

// The last time seen before the first arrival.
#[test]
fn hears_from_a_time(rt: HostRuntime) -> Result<(), Fail> {
    let schedule = seven()?;
    let first = [on(1, 3700, 3750, 5)];
    heard_is(&rt, schedule.hear(8, 3750, &first), one(93, 5));
    heard_is(&rt, schedule.hear(8, 3751, &first), None);
    Ok(())
}

// More arrivals than there are nodes: 32 on another wire, then the one of the slot's node.
#[test]
fn many_arrivals(rt: HostRuntime) -> Result<(), Fail> {
    let mut arrivals = [on(0, 3700, 3750, 5); 33];
    arrivals[32] = on(1, 3793, 3993, 6);
    heard_is(&rt, seven()?.hear(8, 0, &arrivals), one(0, 6));
    Ok(())
}

// No clock shows a time of these slots, and nothing wraps into them.
#[test]
fn last_slots(rt: HostRuntime) -> Result<(), Fail> {
    let schedule = seven()?;
    let last = 40_364_866_682_077_793;
    for (slot, arrival, expected) in [
        (last, on(2, LARGEST - 214, LARGEST, 5), one(137, 5)),
        (last, on(2, LARGEST - 215, LARGEST, 5), None),
        (last + 1, on(3, LARGEST, LARGEST, 5), None),
        (LARGEST, on(1, LARGEST, LARGEST, 5), None),
        (LARGEST, on(1, 0, 100, 5), None),
    ] {
        heard_is(&rt, schedule.hear(slot, 0, &[arrival]), expected);
    }
    // a slot that starts 43 ticks before the end, so that its message is due behind it
    let longer = Schedule::new(Cluster::new(7, 2, 5, 10)?, 458, 137, 200, 8)?;
    let slot = 40_276_733_785_392_034;
    let heard = longer.hear(slot, 0, &[on(0, LARGEST, LARGEST, 5)]);
    heard_is(&rt, heard, one(94, 5));
    Ok(())
}
