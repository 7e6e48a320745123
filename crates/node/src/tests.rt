//! Examples of the rules and the edges of every refusal. The expected values are worked out by hand. In the cycles that are played
//! the good nodes are the first ones of the cluster.
use crate::config::Config;
use crate::due::{Call, Due};
use crate::ending::Setting;
use crate::event::Event;
use crate::refusal::Refusal;
use crate::state::Node;
use frame::{Reception, Turn};
use midpoint::Code;
use relay::{MAX_TABLE_LENGTH, table_length};
use schedule::{Arrival, Listener, Received, Schedule, Told};
use std::process::Abort;

// No clock shows this time.
const LIMIT: u64 = 1_000_000_000_000;

// What is heard of a message.
type Heard<'a> = Option<Received<&'a [u8]>>;

// What a call answers, in two numbers: the length that is sent, what came in a slot, or to what the clock is set or why it is not;
// or the number and place by which the call is turned away.
type Answer = Result<(u64, u64), (u64, u64)>;

// A call, and the local time for it.
type At = (Call, u64);

// A node and its two tables: the first, which it reads in even rounds, and the second. `lent` says how many entries of each are
// lent, and `lead` how far its clock is ahead of common time.
#[derive(Clone, Copy)]
struct Station {
    node: Node,
    lent: [usize; 2],
    lead: u64,
    even: [u32; 343],
    odd: [u32; 343],
}

fn config([nodes, faults, drift, jitter, length, pause, message, wire]: [u64; 8]) -> Config {
    Config {
        nodes,
        faults,
        drift,
        jitter,
        length,
        pause,
        message,
        wire,
    }
}

// Slots of 200 ticks: of four nodes they send at 10, 210, 410 and 610, and each round is over after 800 ticks.
fn schedule_of(rt: &impl Abort, nodes: u64, faults: u64) -> Schedule {
    let schedule = config([nodes, faults, 0, 0, 200, 10, 150, 5]).schedule();
    assert!(rt; schedule.is_ok());
    schedule.unwrap()
}

// A node that begins at 0, with sevens in its tables beside its value.
fn begins(rt: &impl Abort, schedule: Schedule, own: u8, value: u32) -> Station {
    let length = table_length(&schedule.cluster);
    assert!(rt; length <= 343);
    let mut even = [7; 343];
    let node = Node::new(schedule, own, 0, value, &mut even[..length]);
    assert!(rt; node.is_ok());
    Station {
        node: node.unwrap(),
        lent: [length, length],
        lead: 0,
        even,
        odd: [7; 343],
    }
}

// One of four, which gives 5.
fn one_of_four(rt: &impl Abort, own: u8) -> Station {
    begins(rt, schedule_of(rt, 4, 1), own, 5)
}

fn pair(code: Code) -> (u64, u64) {
    (code.number, code.place)
}

fn refusal(refusal: Refusal) -> (u64, u64) {
    pair(Code::from(refusal))
}

fn sent(length: usize) -> (u64, u64) {
    (length as u64, 0)
}

// What came in a slot: nothing, a whole frame with a payload of so many bytes, or one that is turned away by this.
fn came(event: Event<'_>) -> (u64, u64) {
    let taken = match event {
        Event::Frame(Reception::Whole { payload, .. }) => (1, payload.len() as u64),
        _ => (0, 0),
    };
    event.code().map_or(taken, pair)
}

fn set(setting: Setting) -> (u64, u64) {
    match setting {
        Setting::SetTo(time) => (time, 0),
        Setting::Kept(refusal) => pair(Code::from(refusal)),
    }
}

// Makes a call. At the end of a round the value is 10 and the number of the node, at the end of the next one 20, and so on.
fn calls(
    rt: &impl Abort,
    station: &mut Station,
    (call, time): At,
    heard: Heard<'_>,
    memory: &mut [u8],
) -> Answer {
    let Station { node, lent, .. } = *station;
    assert!(rt; lent[0] <= 343 && lent[1] <= 343);
    let mut even = station.even;
    let mut odd = station.odd;
    let first = &mut even[..lent[0]];
    let second = &mut odd[..lent[1]];
    let (node, answer) = match call {
        Call::Send => {
            let step = node.send(time, first, second, memory);
            (step.node, step.answer.map(sent))
        }
        Call::SlotOver { sender } => {
            let step = node.slot_over(time, sender, heard, first, second);
            (step.node, step.answer.map(came))
        }
        Call::RoundOver => {
            let value = (node.clock().round() % 9 + 1) as u32 * 10 + u32::from(node.own);
            let step = node.round_over(time, value, first, second);
            (step.node, step.answer.map(set))
        }
    };
    station.node = node;
    station.even = even;
    station.odd = odd;
    answer.map_err(refusal)
}

fn answers(rt: &impl Abort, answer: Answer, wanted: Answer) {
    assert_eq!(rt; answer, wanted);
}

// A call in which this is heard, and which answers this.
fn hears(rt: &impl Abort, station: &mut Station, at: At, heard: Heard<'_>, answer: (u64, u64)) {
    answers(rt, calls(rt, station, at, heard, &mut []), Ok(answer));
}

fn ahead(deviation: i64, message: &[u8]) -> Heard<'_> {
    Some(Received { deviation, message })
}

// A call in which nothing is heard is taken. The longest frame of seven nodes has 125 bytes.
fn takes(rt: &impl Abort, station: &mut Station, call: Call, time: u64) {
    let answer = calls(rt, station, (call, time), None, &mut [0; 125]);
    assert!(rt; answer.is_ok());
}

fn over(sender: u8) -> Call {
    Call::SlotOver { sender }
}

fn due_is(rt: &impl Abort, node: &Node, call: Call, time: u64) {
    assert_eq!(rt; node.due(), Due { call, time });
}

fn same(rt: &impl Abort, station: &Station, other: &Station) {
    assert!(rt; station.node == other.node);
    assert!(rt; station.even == other.even && station.odd == other.odd);
}

// These are the tables of one of four nodes: all entries of the first, and those of the second in front of sevens.
fn tables_are(rt: &impl Abort, station: &Station, even: [u32; 16], odd: [u32; 4]) {
    assert!(rt; station.even.starts_with(&even));
    assert!(rt; station.odd.starts_with(&odd) && station.odd.ends_with(&[7; 339]));
}

// All these nodes have these results.
fn results_are(rt: &impl Abort, stations: &[Station], wanted: Option<&[u32]>) {
    for station in stations {
        assert_eq!(rt; station.node.results(), wanted);
    }
}

// A call, which is due, and the time for it.
fn due_at(rt: &impl Abort, node: &Node, call: Call) -> At {
    let due = node.due();
    assert!(rt; due.call == call);
    (call, due.time)
}

// A message on a node's wire, one tick long for each byte.
fn arrival(wire: u8, began: u64, message: &[u8]) -> Arrival<&[u8]> {
    Arrival {
        wire: usize::from(wire),
        began,
        ended: began.saturating_add(message.len() as u64),
        message,
    }
}

// The slot of a node is over, in which this frame came as it was due by the clock of that node, which is so far ahead of common
// time, or nothing, if the frame has no bytes. There are 5 bytes in front of its payload.
fn hears_due(rt: &impl Abort, station: &mut Station, sender: u8, lead: u64, message: &[u8]) {
    let schedule = station.node.schedule;
    let slot = schedule.slot(station.node.clock().round(), usize::from(sender));
    let mut listener = station.node.listener(sender);
    let mut answer = (0, 0);
    if !message.is_empty() {
        let began = schedule.send_time(slot).saturating_add(station.lead);
        let came = arrival(sender, began.saturating_sub(lead), message);
        listener = listener.tell(came).listener;
        answer = (1, (message.len() as u64).saturating_sub(5));
    }
    let at = due_at(rt, &station.node, over(sender));
    hears(rt, station, at, listener.heard(), answer);
}

// The slot of a good node is over: all others have heard its frame, which is this one, if one is given.
fn good_slot(rt: &impl Abort, stations: &mut [Station], sender: u8, wanted: &[u8]) {
    assert!(rt; usize::from(sender) < stations.len());
    let mut memory = [0xEE; 125];
    let station = &mut stations[usize::from(sender)];
    let lead = station.lead;
    let at = due_at(rt, &station.node, Call::Send);
    let (length, _) = calls(rt, station, at, None, &mut memory).unwrap_or((126, 0));
    assert!(rt; length <= 125);
    let frame = &memory[..length as usize];
    assert!(rt; wanted.is_empty() || frame == wanted);
    for station in stations.iter_mut() {
        if station.node.own != sender {
            hears_due(rt, station, sender, lead, frame);
        }
    }
}

// The good nodes of a cluster with so many faults, each of which gives this value and its number.
fn good_nodes(rt: &impl Abort, faults: u64, value: u32) -> [Station; 5] {
    assert!(rt; faults <= 2 && value <= 100);
    let schedule = schedule_of(rt, 3 * faults + 1, faults);
    let mut stations = [begins(rt, schedule, 0, value); 5];
    for own in 1..=2 * faults {
        stations[own as usize] = begins(rt, schedule, own as u8, value + own as u32);
    }
    stations
}

// The frame of a node in a round that tells 9 for so many paths, and then a number.
fn frame_of(sender: u8, round: u8, nines: usize, number: u8) -> [u8; 125] {
    let mut frame = [0; 125];
    frame[0] = sender;
    frame[1] = round;
    for index in 0..30 {
        frame[5 + 4 * index] = if index < nines { 9 } else { number };
    }
    frame
}

// A round of good nodes, of which the first ones send these frames, and of liars behind them. Each of these tells the good ones
// these numbers in its frame, of so many bytes; 9 stands in front for so many paths. If the number is 0 it sends nothing.
fn goes_round(
    rt: &impl Abort,
    stations: &mut [Station],
    frames: &[&[u8]],
    told: &[&[u8; 5]],
    (round, nines, length): (u8, usize, usize),
) {
    let good = stations.len();
    assert!(rt; good <= 5 && told.len() <= 2 && length <= 125);
    for sender in 0..good {
        let wanted = frames.get(sender).copied().unwrap_or(&[]);
        good_slot(rt, stations, sender as u8, wanted);
    }
    for liar in 0..told.len() {
        for own in 0..good {
            let sender = (good + liar) as u8;
            let number = told[liar][own];
            let frame = frame_of(sender, round, nines, number);
            let sent = if number == 0 { 0 } else { length };
            hears_due(rt, &mut stations[own], sender, 0, &frame[..sent]);
        }
    }
    for station in stations.iter_mut() {
        let (call, time) = due_at(rt, &station.node, Call::RoundOver);
        takes(rt, station, call, time);
    }
}

// Each good node of four has this first table, with its number added to the value in front. In its second one is what it was told
// in the first round: 5, 6, 7 and this number.
fn tables_of_four(rt: &impl Abort, stations: &[Station], even: [u32; 16], told: &[u8; 5]) {
    for (station, number) in stations.iter().zip(told) {
        let mut even = even;
        even[0] = even[0].saturating_add(u32::from(station.node.own));
        tables_are(rt, station, even, [5, 6, 7, u32::from(*number)]);
    }
}

// Node 3 tells the others these numbers, and then that it heard 9 of each. In the first table an entry for the path of q in front
// of p is at the index 4p + q, so that there is none at 5, 10 and 15; at 0 is the value of the next cycle.
fn cycle_of_four(rt: &impl Abort, stations: &mut [Station], told: &[u8; 5]) {
    let frames = [
        [0, 0, 0, 0, 0, 5, 0, 0, 0].as_slice(),
        &[1, 0, 0, 0, 0, 6, 0, 0, 0],
        &[2, 0, 0, 0, 0, 7, 0, 0, 0],
    ];
    goes_round(rt, stations, &frames, &[told], (0, 0, 9));
    results_are(rt, stations, None);
    let even = [5, 7, 7, 7, 7, 7, 7, 7, 7, 7, 7, 7, 7, 7, 7, 7];
    tables_of_four(rt, stations, even, told);
    let zero = [0, 1, 0, 0, 0, 6, 0, 0, 0, 7, 0, 0, 0, told[0], 0, 0, 0];
    let one = [1, 1, 0, 0, 0, 5, 0, 0, 0, 7, 0, 0, 0, told[1], 0, 0, 0];
    let two = [2, 1, 0, 0, 0, 5, 0, 0, 0, 6, 0, 0, 0, told[2], 0, 0, 0];
    goes_round(rt, stations, &[&zero, &one, &two], &[&[9; 5]], (1, 3, 17));
    let [a, b, c, _, _] = told.map(u32::from);
    let even = [20, 5, 5, 9, 6, 7, 6, 9, 7, 7, 7, 9, a, b, c, 7];
    tables_of_four(rt, stations, even, told);
}

// Nodes 0, 1 and 2 give 5, 6 and 7. Node 3 tells them these numbers, 0 if it sends nothing. What all come to for it is what it
// told more than one of them, or 0. In the next cycle they give what was given as this one ended: 20 and their number.
#[test]
fn liar_of_four(rt: HostRuntime) {
    for (told, number) in [
        (&[1, 2, 1, 0, 0], 1),
        (&[1, 2, 3, 0, 0], 0),
        (&[4, 4, 4, 0, 0], 4),
        (&[0, 8, 8, 0, 0], 8),
    ] {
        let [zero, one, two, _, _] = good_nodes(&rt, 1, 5);
        let mut stations = [zero, one, two];
        cycle_of_four(&rt, &mut stations, told);
        results_are(&rt, &stations, Some(&[5, 6, 7, number]));
        good_slot(&rt, &mut stations, 0, &[0, 2, 0, 0, 0, 20, 0, 0, 0]);
        good_slot(&rt, &mut stations, 1, &[1, 2, 0, 0, 0, 21, 0, 0, 0]);
    }
}

// Nodes 5 and 6 tell the good nodes these numbers, 0 if they send nothing: in the first round as their own, and then as what the
// other one told. Of the six numbers that are made for node 5 five are what it told the good nodes in the first round, and one
// is what more than half of these were told of it by node 6 in the second. In the second round node 0 tells what it was told in
// the first.
#[test]
fn two_liars_of_seven(rt: HostRuntime) {
    let one = &[1, 1, 1, 2, 2];
    let two = &[2, 2, 2, 1, 1];
    let no = &[0, 0, 0, 0, 0];
    for (told, five, six) in [
        ([one, one, one, one, one, one], 1, 1),
        ([one, one, two, one, two, two], 1, 0),
        ([one, one, one, two, one, two], 0, 1),
        ([one, two, two, two, one, one], 0, 2),
        ([one, two, two, one, two, one], 1, 2),
        ([one, one, no, one, one, one], 1, 0),
        ([two, no, no, two, one, no], 2, 0),
    ] {
        let mut stations = good_nodes(&rt, 2, 10);
        goes_round(&rt, &mut stations, &[], &told[..2], (0, 0, 9));
        let [a, b] = [told[0][0], told[1][0]];
        let zero = [
            0, 1, 0, 0, 0, 11, 0, 0, 0, 12, 0, 0, 0, 13, 0, 0, 0, 14, 0, 0, 0, a, 0, 0, 0, b, 0, 0,
            0,
        ];
        goes_round(&rt, &mut stations, &[&zero], &told[2..4], (1, 5, 29));
        goes_round(&rt, &mut stations, &[], &told[4..], (2, 25, 125));
        results_are(&rt, &stations, Some(&[10, 11, 12, 13, 14, five, six]));
    }
}

// The clocks of the nodes 0, 1 and 2 are ahead of common time by 0, 4 and 10. Node 3 is silent, and is read as the own clock. As
// the round ends node 0 reads 800, 804, 810 and 800, node 1 reads 796, 800, 806 and 800, and node 2 reads 790, 794, 800 and 800.
#[test]
fn clocks_that_differ(rt: HostRuntime) {
    let [zero, one, two, _, _] = good_nodes(&rt, 1, 5);
    let mut stations = [zero, one, two];
    stations[1].lead = 4;
    stations[2].lead = 10;
    goes_round(&rt, &mut stations, &[], &[&[0; 5]], (0, 0, 9));
    for (station, time) in stations.iter().zip([802, 800, 797]) {
        assert!(rt; station.node.clock().shown() == time);
    }
}

// How long a message of a schedule of these numbers lasts, and is on its way, or why there is no such schedule.
fn scheduled(numbers: [u64; 8]) -> Answer {
    let schedule = config(numbers).schedule().map_err(refusal)?;
    Ok((schedule.message, schedule.wire))
}

// Without drift and jitter width, error and drift are 2 together; with a drift of 5 and a jitter of 10 they are 137, and the width
// is 112.
#[test]
fn configs_refused(rt: HostRuntime) {
    for (numbers, wanted) in [
        ([4, 1, 0, 0, 200, 10, 150, 5], Ok((150, 5))),
        ([16, 3, 1000, 1000, 40_212, 22_002, 200, 8], Ok((200, 8))),
        ([3, 0, 0, 0, 200, 10, 150, 5], Err((4, 0))),
        ([17, 4, 0, 0, 200, 10, 150, 5], Err((4, 0))),
        ([16, 4, 0, 0, 200, 10, 150, 5], Err((4, 1))),
        ([6, 2, 1001, 0, 200, 10, 150, 5], Err((4, 1))),
        ([4, 1, 1001, 1001, 200, 10, 150, 5], Err((5, 0))),
        ([4, 1, 0, 1001, 200, 0, 150, 5], Err((5, 1))),
        ([4, 1, 0, 0, 0, 1, 150, 5], Err((6, 0))),
        ([4, 1, 0, 0, 159, 2, 150, 5], Ok((150, 5))),
        ([4, 1, 0, 0, u64::MAX, 2, u64::MAX, 5], Err((6, 1))),
        ([4, 1, 0, 0, 1_000_000_000, 2, 150, 5], Ok((150, 5))),
        ([4, 1, 0, 0, 1_000_000_001, 2, 150, 5], Err((6, 1))),
        ([7, 2, 5, 10, 457, 137, 200, 8], Ok((200, 8))),
        ([7, 2, 5, 10, 457, 136, 200, 8], Err((6, 0))),
        ([7, 2, 5, 10, 456, 137, 200, 8], Err((6, 1))),
    ] {
        answers(&rt, scheduled(numbers), wanted);
    }
}

// What the clock shows of a node that begins at a time, and its number, or why there is none.
fn begun(schedule: Schedule, own: u8, time: u64, table: &mut [u32]) -> Answer {
    let node = Node::new(schedule, own, time, 5, table).map_err(refusal)?;
    Ok((node.clock().shown(), u64::from(node.own)))
}

#[test]
fn nodes_refused(rt: HostRuntime) {
    let four = schedule_of(&rt, 4, 1);
    let mut table = [7; 17];
    for (own, time, length, wanted) in [
        (3, LIMIT, 16, (3, 3)),
        (4, LIMIT, 15, (3, 4)),
        (255, u64::MAX, 0, (3, 255)),
        (3, 0, 15, (10, 16)),
        (4, 0, 17, (10, 16)),
        (4, LIMIT - 1, 16, (11, 0)),
        (255, 0, 16, (11, 0)),
    ] {
        assert!(rt; length <= 17);
        let answer = begun(four, own, time, &mut table[..length]);
        answers(&rt, answer, Err(wanted));
        assert!(rt; table == [7; 17]);
    }
    let answer = begun(four, 3, LIMIT - 1, &mut table[..16]);
    answers(&rt, answer, Ok((LIMIT - 1, 3)));
    assert!(rt; table == [5, 7, 7, 7, 7, 7, 7, 7, 7, 7, 7, 7, 7, 7, 7, 7, 7]);
}

// Calls of one of four nodes in its first or second round at these times, with so many entries of the tables and so much memory,
// and by what they are turned away. In the slot of another node a frame comes that would else be heard whole. The node, the tables
// and the memory are then as before.
type Refused = (Call, u64, [usize; 3], (u64, u64));

fn refused(rt: &impl Abort, before: &Station, cases: &[Refused]) {
    let round = (before.node.clock().round() % 2) as u8;
    for (call, time, [first, second, length], wanted) in cases {
        assert!(rt; *length <= 17);
        let sender = match call {
            Call::SlotOver { sender } => *sender,
            _ => 0,
        };
        let frame = frame_of(sender, round, 0, 6);
        let heard = ahead(9, &frame[..if round == 0 { 9 } else { 17 }]);
        let mut after = *before;
        after.lent = [*first, *second];
        let mut memory = [0xEE; 17];
        let room = &mut memory[..*length];
        let answer = calls(rt, &mut after, (*call, *time), heard, room);
        answers(rt, answer, Err(*wanted));
        same(rt, before, &after);
        assert!(rt; memory == [0xEE; 17]);
    }
}

// Node 2 of four, which shows 300. The slot of node 0 is over in the first round, and also in the second, in which a frame has 17
// bytes and not 9, and the tables change places.
fn at_300(rt: &impl Abort) -> [Station; 2] {
    let mut early = one_of_four(rt, 2);
    takes(rt, &mut early, over(0), 300);
    let mut late = early;
    takes(rt, &mut late, Call::RoundOver, 300);
    takes(rt, &mut late, over(0), 300);
    [early, late]
}

#[test]
fn calls_refused(rt: HostRuntime) {
    let unsent = [
        (Call::Send, LIMIT, [15, 17, 0], (3, 2)),
        (Call::Send, u64::MAX, [16, 16, 17], (3, 2)),
        (Call::Send, 299, [15, 16, 8], (7, 8)),
        (Call::Send, 300, [16, 16, 0], (7, 0)),
        (Call::Send, 299, [15, 16, 17], (10, 16)),
        (Call::Send, 300, [16, 17, 17], (10, 16)),
        (Call::Send, 299, [16, 16, 17], (12, 0)),
        (over(4), LIMIT, [15, 17, 0], (3, 2)),
        (over(4), 299, [15, 16, 0], (10, 16)),
        (over(1), 300, [16, 17, 0], (10, 16)),
        (over(4), 299, [16, 16, 0], (11, 0)),
        (over(255), 300, [16, 16, 0], (11, 0)),
        (over(2), 300, [16, 16, 0], (11, 0)),
        (over(0), 300, [16, 16, 0], (11, 0)),
        (over(1), 299, [16, 16, 0], (12, 0)),
        (Call::RoundOver, LIMIT, [15, 17, 0], (3, 2)),
        (Call::RoundOver, 299, [17, 16, 0], (10, 16)),
        (Call::RoundOver, 300, [16, 15, 0], (10, 16)),
        (Call::RoundOver, 299, [16, 16, 0], (12, 0)),
    ];
    let sent = [
        (Call::Send, 300, [16, 16, 8], (7, 8)),
        (Call::Send, 300, [16, 15, 17], (10, 16)),
        (Call::Send, 299, [16, 16, 17], (11, 0)),
        (Call::Send, 300, [16, 16, 17], (11, 0)),
    ];
    for mut station in at_300(&rt) {
        refused(&rt, &station, &unsent);
        takes(&rt, &mut station, Call::Send, 300);
        refused(&rt, &station, &sent);
    }
}

// Sends at the last time that a clock shows: a frame of this length.
fn sends(rt: &impl Abort, station: &mut Station, memory: &mut [u8], length: u64) {
    let answer = calls(rt, station, (Call::Send, LIMIT - 1), None, memory);
    answers(rt, answer, Ok((length, 0)));
}

// The last time is taken by each call, again and again; and memory that is as long as the frame, here of 9 bytes and then of 17.
// What lies behind the frame in longer memory stays.
#[test]
fn last_time_is_taken(rt: HostRuntime) {
    let mut one = one_of_four(&rt, 1);
    takes(&rt, &mut one, over(3), LIMIT - 1);
    let mut other = one;
    let mut memory = [0xEE; 11];
    sends(&rt, &mut one, &mut memory, 9);
    assert!(rt; memory == [1, 0, 0, 0, 0, 5, 0, 0, 0, 0xEE, 0xEE]);
    sends(&rt, &mut other, &mut [0; 9], 9);
    same(&rt, &one, &other);
    takes(&rt, &mut one, Call::RoundOver, LIMIT - 1);
    refused(&rt, &one, &[(Call::Send, LIMIT - 1, [16, 16, 16], (7, 16))]);
    sends(&rt, &mut one, &mut [0; 17], 17);
    due_is(&rt, &one.node, over(0), 1000);
}

// A frame in the slot of node 3 is turned away, and the node is as one that heard nothing.
fn turned_away(rt: &impl Abort, before: &Station, message: &[u8], code: (u64, u64)) {
    let mut silent = *before;
    takes(rt, &mut silent, over(3), 820);
    let mut after = *before;
    hears(rt, &mut after, (over(3), 820), ahead(9, message), code);
    same(rt, &silent, &after);
}

// It is heard, and has these values.
fn heard_whole(rt: &impl Abort, before: &Station, message: &[u8], values: [u32; 3]) {
    let mut after = *before;
    hears(rt, &mut after, (over(3), 820), ahead(9, message), (1, 12));
    let Station { node, even, .. } = after;
    let deviations = node.heard;
    assert!(rt; [even[3], even[7], even[11]] == values && deviations[3] == Some(9));
}

// Node 1 is in the second round, in which a frame has 17 bytes. That of a round 2^32 later has the same header.
#[test]
fn frames_turned_away(rt: HostRuntime) {
    let mut station = one_of_four(&rt, 1);
    takes(&rt, &mut station, Call::RoundOver, 800);
    let frame = [3, 1, 0, 0, 0, 9, 0, 0, 0, 8, 0, 0, 0, 6, 0, 0, 0, 0];
    heard_whole(&rt, &station, &frame[..17], [9, 8, 6]);
    for length in [0, 1, 5, 9, 16, 18] {
        turned_away(&rt, &station, &frame[..length], (7, length as u64));
    }
    for (place, byte, code) in [
        (0, 0, (8, 0)),
        (0, 4, (8, 0)),
        (1, 0, (9, 1)),
        (1, 3, (9, 1)),
        (4, 1, (9, 1)),
    ] {
        let mut other = frame;
        other[place] = byte;
        turned_away(&rt, &station, &other[..17], code);
    }
    let early = [4, 0, 0, 0, 0, 9, 0, 0, 0, 8, 0, 0, 0, 6, 0, 0, 0];
    turned_away(&rt, &station, &early, (8, 0));
    turned_away(&rt, &station, &early[..9], (7, 9));
    let turn = Turn {
        cluster: station.node.schedule.cluster,
        sender: 3,
        round: 4_294_967_297,
    };
    let mut later = [0; 17];
    assert!(rt; turn.write([2, 4, 5].as_slice(), &mut later) == Ok(17));
    heard_whole(&rt, &station, &later, [2, 4, 5]);
}

// A listener is told of a message and takes it. This is then what it hears.
fn listens<'a>(
    rt: &impl Abort,
    listener: Listener<&'a [u8]>,
    came: Arrival<&'a [u8]>,
    wanted: Heard<'a>,
) -> Listener<&'a [u8]> {
    let Told { listener, answer } = listener.tell(came);
    assert!(rt; answer.is_ok() && listener.heard() == wanted);
    listener
}

// In the slot of node 3, which is from 600 to 800, two frames come, so nothing is heard. No other call for the slot is then taken.
#[test]
fn two_messages_in_a_slot(rt: HostRuntime) {
    let mut silent = one_of_four(&rt, 1);
    let mut station = silent;
    let frame = [3, 0, 0, 0, 0, 9, 0, 0, 0];
    let listener = silent.node.listener(3);
    let listener = listens(&rt, listener, arrival(3, 610, &frame), ahead(0, &frame));
    let listener = listens(&rt, listener, arrival(3, 700, &frame), None);
    hears(&rt, &mut station, (over(3), 800), listener.heard(), (0, 0));
    takes(&rt, &mut silent, over(3), 800);
    same(&rt, &station, &silent);
    refused(&rt, &station, &[(over(3), 800, [16, 16, 0], (11, 0))]);
}

// In a round of four that begins at a time these calls are due: a node sends, or another one's slot is over, and last the round.
// All others are silent, so that the clock is set to what it shows.
fn goes_through(rt: &impl Abort, station: &mut Station, times: [u64; 5]) {
    let own = usize::from(station.node.own);
    for slot in 0..5 {
        let call = match slot {
            4 => Call::RoundOver,
            slot if slot == own => Call::Send,
            slot => over(slot as u8),
        };
        due_is(rt, &station.node, call, times[slot]);
        takes(rt, station, call, times[slot]);
    }
    assert!(rt; station.node.clock().shown() == times[4]);
}

#[test]
fn rounds_that_are_due(rt: HostRuntime) {
    for (own, times, next) in [
        (0, [10, 400, 600, 800, 800], [810, 1200, 1400, 1600, 1600]),
        (2, [200, 400, 410, 800, 800], [1000, 1200, 1210, 1600, 1600]),
        (3, [200, 400, 600, 610, 800], [1000, 1200, 1400, 1410, 1600]),
    ] {
        let mut station = one_of_four(&rt, own);
        goes_through(&rt, &mut station, times);
        goes_through(&rt, &mut station, next);
    }
}

// The calls are made in another order: due is the first one that is left, also if its time is over.
#[test]
fn due_in_another_order(rt: HostRuntime) {
    let mut station = one_of_four(&rt, 1);
    for (call, next, time) in [
        (over(2), over(0), 200),
        (Call::Send, over(0), 200),
        (over(0), over(3), 800),
        (over(3), Call::RoundOver, 800),
        (Call::RoundOver, over(0), 1000),
        (over(3), over(0), 1000),
        (Call::RoundOver, over(0), 1800),
    ] {
        takes(&rt, &mut station, call, 800);
        due_is(&rt, &station.node, next, time);
    }
}

// Node 1 gives 5 and does not send. In the first round it hears of node 0 alone, and in the second of 0 and 2, in which they tell
// of the nodes 1, 2 and 3, and 0, 1 and 3. An entry for the path of q in front of p is at the index 4p + q.
#[test]
fn slots_that_are_missing(rt: HostRuntime) {
    let mut station = one_of_four(&rt, 1);
    let zero = [0, 0, 0, 0, 0, 6, 0, 0, 0];
    hears(&rt, &mut station, (over(0), 200), ahead(0, &zero), (1, 4));
    takes(&rt, &mut station, Call::RoundOver, 800);
    let even = [5, 7, 7, 7, 7, 7, 7, 7, 7, 7, 7, 7, 7, 7, 7, 7];
    tables_are(&rt, &station, even, [6, 5, 0, 0]);
    let two = [2, 1, 0, 0, 0, 6, 0, 0, 0, 5, 0, 0, 0, 4, 0, 0, 0];
    hears(&rt, &mut station, (over(2), 1400), ahead(0, &two), (1, 12));
    let zero = [0, 1, 0, 0, 0, 5, 0, 0, 0, 8, 0, 0, 0, 3, 0, 0, 0];
    hears(&rt, &mut station, (over(0), 1500), ahead(0, &zero), (1, 12));
    takes(&rt, &mut station, Call::RoundOver, 1600);
    let even = [21, 6, 6, 0, 5, 7, 5, 0, 8, 0, 7, 0, 3, 0, 4, 7];
    tables_are(&rt, &station, even, [6, 5, 0, 0]);
    results_are(&rt, &[station], Some(&[6, 5, 0, 0]));
    takes(&rt, &mut station, Call::RoundOver, 2400);
    results_are(&rt, &[station], Some(&[6, 5, 0, 0]));
}

// Without faults each round is a cycle, and node 1 gives 5 and then 11. It hears of node 0, and then of none.
#[test]
fn cycles_of_one_round(rt: HostRuntime) {
    let mut station = begins(&rt, schedule_of(&rt, 4, 0), 1, 5);
    let zero = [0, 0, 0, 0, 0, 8, 0, 0, 0];
    hears(&rt, &mut station, (over(0), 200), ahead(0, &zero), (1, 4));
    takes(&rt, &mut station, Call::Send, 210);
    takes(&rt, &mut station, Call::RoundOver, 800);
    results_are(&rt, &[station], Some(&[8, 5, 0, 0]));
    takes(&rt, &mut station, Call::RoundOver, 1600);
    results_are(&rt, &[station], Some(&[0, 11, 0, 0]));
}

// Node 0 of four or five hears the others with these deviations, and ends the round at 800 or 1000. This is answered.
fn sets(rt: &impl Abort, deviations: &[i64], answer: (u64, u64)) -> Station {
    assert!(rt; deviations.len() <= 4);
    let nodes = deviations.len() as u64 + 1;
    let end = 200 * nodes;
    let mut station = begins(rt, schedule_of(rt, nodes, 1), 0, 5);
    takes(rt, &mut station, Call::Send, 10);
    for index in 0..deviations.len() {
        let sender = index as u8 + 1;
        let frame = [sender, 0, 0, 0, 0, 6, 0, 0, 0];
        let heard = ahead(deviations[index], &frame);
        hears(rt, &mut station, (over(sender), end), heard, (1, 4));
    }
    hears(rt, &mut station, (Call::RoundOver, end), None, answer);
    due_is(rt, &station.node, Call::Send, end + 10);
    station
}

// The readings are 800 and three others, or 1000 and four. Of the second lowest and the second highest the mean is taken, rounded
// down. A reading stops at 0; one of 10^12 or more is turned away, and the node and its tables are as if all were read as 800.
#[test]
fn clocks_set(rt: HostRuntime) {
    let level = sets(&rt, &[0, 0, 0], (800, 0));
    for (deviations, answer, shown) in [
        ([0, 0, 0].as_slice(), (800, 0), 800),
        (&[3, -4, 100_000_000_000], (801, 0), 801),
        (&[-100_000_000_000, 3, -4], (798, 0), 798),
        (&[30, 999_999_999_199, 40], (835, 0), 835),
        (&[30, 40, 999_999_999_200], (3, 3), 800),
        (&[30, i64::MAX, 999_999_999_200], (3, 2), 800),
        (&[10, 20, 30, 40], (1020, 0), 1020),
    ] {
        let station = sets(&rt, deviations, answer);
        assert!(rt; station.node.clock().shown() == shown);
        if shown == 800 {
            same(&rt, &station, &level);
        }
    }
}

// The others are behind by 150, so that the clock shows 650 as the second round begins, a time in the slot of node 3. The slots of
// the second round come one after the other all the same. What was heard in the first one does not set the clock again. A frame of
// node 3 in the first one that comes only now is not heard in its second slot, and is turned away if it is handed over.
#[test]
fn clock_set_back(rt: HostRuntime) {
    let mut station = sets(&rt, &[-150, -150, -150], (650, 0));
    let early = [
        (Call::Send, 649, [16, 16, 17], (12, 0)),
        (over(3), 649, [16, 16, 17], (12, 0)),
        (Call::RoundOver, 649, [16, 16, 17], (12, 0)),
    ];
    refused(&rt, &station, &early);
    let mut at_once = station;
    takes(&rt, &mut at_once, over(3), 650);
    takes(&rt, &mut at_once, Call::RoundOver, 660);
    assert!(rt; at_once.node.clock().shown() == 660);
    let old = [3, 0, 0, 0, 0, 6, 0, 0, 0];
    let new = [3, 1, 0, 0, 0, 6, 0, 0, 0, 7, 0, 0, 0, 8, 0, 0, 0];
    let listener = listens(&rt, station.node.listener(3), arrival(3, 660, &old), None);
    listens(&rt, listener, arrival(3, 1410, &new), ahead(0, &new));
    let mut late = station;
    hears(&rt, &mut late, (over(3), 1600), ahead(0, &old), (7, 9));
    goes_through(&rt, &mut station, [810, 1200, 1400, 1600, 1600]);
    due_is(&rt, &station.node, Call::Send, 1610);
}

// In the fourth round of a cycle of sixteen a frame has 5 bytes and 4 for each of 15 * 14 * 13 values. All others are silent, but
// for node 2 in the third round: of its 15 * 14 values the first, for the path 1, 0, is 6, and the others are 0. In the fourth
// round the first value of node 15 is for the path 2, 1, 0.
#[test]
fn longest_frame(rt: HostRuntime) {
    let mut first = [7; MAX_TABLE_LENGTH];
    let mut second = [7; MAX_TABLE_LENGTH];
    let node = Node::new(schedule_of(&rt, 16, 3), 15, 0, 5, &mut first);
    assert!(rt; node.is_ok());
    let mut node = node.unwrap();
    let mut frame = [0; 845];
    frame[..6].copy_from_slice(&[2, 2, 0, 0, 0, 6]);
    for _ in 0..2 {
        node = node.round_over(0, 50, &mut first, &mut second).node;
    }
    let heard = ahead(0, &frame);
    node = node.slot_over(0, 2, heard, &mut first, &mut second).node;
    node = node.round_over(0, 50, &mut first, &mut second).node;
    let tables = [first, second];
    let mut memory = [0xEE; 10_926];
    let step = node.send(0, &mut first, &mut second, &mut memory[..10_924]);
    let short = step.answer.map(sent).map_err(refusal);
    answers(&rt, short, Err((7, 10_924)));
    assert!(rt; step.node == node && [first, second] == tables && memory == [0xEE; 10_926]);
    let step = node.send(0, &mut first, &mut second, &mut memory);
    assert!(rt; step.answer == Ok(10_925));
    let mut wanted = [0; 10_926];
    wanted[..6].copy_from_slice(&[15, 3, 0, 0, 0, 6]);
    wanted[10_925] = 0xEE;
    assert!(rt; memory == wanted);
}
