//! Examples of the rules and the edges of every refusal. The expected values are worked out by hand.
use crate::reading::Reception;
use crate::refusal::Refusal;
use crate::turn::Turn;
use crate::values::{put_value, value};
use crate::writing::Values;
use clock::Cluster;
use midpoint::Code;
use schedule::{Received, Schedule};
use std::process::Abort;
use std::test::Fail;

const LARGEST: u64 = 18_446_744_073_709_551_615;

// 2^32: rounds so far apart are told alike.
const ALIKE: u64 = 4_294_967_296;

fn turn_of(nodes: u64, faults: u64, sender: u8, round: u64) -> Result<Turn, Fail> {
    Ok(Turn {
        cluster: Cluster::new(nodes, faults, 0, 0)?,
        sender,
        round,
    })
}

// With 4 nodes and 1 fault a cycle has two rounds: an even round's frame has one value, which makes 9 bytes, and
// an odd one's has three, which makes 17.
fn four(sender: u8, round: u64) -> Result<Turn, Fail> {
    turn_of(4, 1, sender, round)
}

fn of_length(length: usize) -> Refusal {
    Refusal::Length { length }
}

// What is written is as long as this, or refused so. To compare in a function of its own takes less to prove.
fn writes(rt: &impl Abort, written: Result<usize, Refusal>, wanted: Result<usize, Refusal>) {
    assert_eq!(rt; written, wanted);
}

// This is what a payload has at an index.
fn value_is(rt: &impl Abort, payload: &[u8], index: usize, wanted: Option<u32>) {
    assert_eq!(rt; value(payload, index), wanted);
}

// In this turn a frame of these values has these bytes, and from these bytes the values are read.
fn says(rt: &impl Abort, turn: Turn, values: &[u32], bytes: &[u8]) -> Result<(), Fail> {
    let mut memory = [0xEE; 29];
    writes(rt, turn.write(values, &mut memory), Ok(bytes.len()));
    assert!(rt; memory.starts_with(bytes));
    assert!(rt; bytes.starts_with(&turn.header()));
    let payload = turn.read(bytes)?;
    for index in 0..=values.len() {
        value_is(rt, payload, index, values.get(index).copied());
    }
    Ok(())
}

// In this turn a frame is turned away.
fn turned_away(rt: &impl Abort, turn: Turn, frame: &[u8], why: Refusal) {
    let received = Received {
        deviation: -7,
        message: frame,
    };
    assert_eq!(rt; turn.read(frame).err(), Some(why));
    assert_eq!(rt; turn.receive(received), Reception::TurnedAway(why));
}

#[test]
fn bytes_of_frames(rt: HostRuntime) -> Result<(), Fail> {
    says(&rt, four(2, 6)?, &[7], &[2, 6, 0, 0, 0, 7, 0, 0, 0])?;
    let bytes = [2, 7, 0, 0, 0, 5, 0, 0, 0, 6, 0, 0, 0, 8, 0, 0, 0];
    says(&rt, four(2, 7)?, &[5, 6, 8], &bytes)?;
    let bytes = [2, 6, 0, 0, 0, 4, 3, 2, 1];
    says(&rt, four(2, 6)?, &[0x01020304], &bytes)?;
    let bytes = [255, 0x0E, 0x0C, 0x0B, 0x0A, 4, 3, 2, 1];
    says(&rt, four(255, 0x0A0B0C0E)?, &[0x01020304], &bytes)?;
    let bytes = [
        0, 7, 0, 0, 0, 0x14, 0x13, 0x12, 0x11, 0x24, 0x23, 0x22, 0x21, 0x34, 0x33, 0x32, 0x31,
    ];
    let values = [0x11121314, 0x21222324, 0x31323334];
    says(&rt, four(0, 7)?, &values, &bytes)?;
    let bytes = [
        3, 0xF5, 0xF3, 0xF2, 0xF1, 1, 0, 0, 0, 255, 255, 255, 255, 0, 1, 0, 0,
    ];
    says(&rt, four(3, 0xF1F2F3F5)?, &[1, 0xFFFFFFFF, 256], &bytes)
}

// With two rounds in a cycle, rounds that are 2^32 apart have the same place.
#[test]
fn rounds_told_alike(rt: HostRuntime) -> Result<(), Fail> {
    for round in [6, ALIKE + 6, 3 * ALIKE + 6, LARGEST - ALIKE + 7] {
        let bytes = [2, 6, 0, 0, 0, 4, 3, 2, 1];
        says(&rt, four(2, round)?, &[0x01020304], &bytes)?;
    }
    for round in [ALIKE - 2, 2 * ALIKE - 2, LARGEST - 1] {
        let bytes = [2, 0xFE, 0xFF, 0xFF, 0xFF, 4, 3, 2, 1];
        says(&rt, four(2, round)?, &[0x01020304], &bytes)?;
    }
    Ok(())
}

// With three they have not, since 2^32 is 1 modulo 3. Of 7 nodes the first round's frame has 9 bytes, and the
// second one's 29.
#[test]
fn told_alike_at_other_places(rt: HostRuntime) -> Result<(), Fail> {
    let early = turn_of(7, 2, 2, 3)?;
    let later = turn_of(7, 2, 2, ALIKE + 3)?;
    let first = [2, 3, 0, 0, 0, 5, 0, 0, 0];
    let mut second = [0; 29];
    second[..9].copy_from_slice(&first);
    says(&rt, early, &[5], &first)?;
    says(&rt, turn_of(7, 2, 2, 3 * ALIKE + 3)?, &[5], &first)?;
    says(&rt, later, &[5, 0, 0, 0, 0, 0], &second)?;
    turned_away(&rt, later, &first, of_length(9));
    turned_away(&rt, early, &second, of_length(29));
    Ok(())
}

// At the places 0 to 3 there are 1, n - 1, (n - 1)(n - 2) and (n - 1)(n - 2)(n - 3) values. The last of all rounds,
// 2^64 - 1, is 1 modulo 2, 0 modulo 3 and 3 modulo 4.
#[test]
fn lengths(rt: HostRuntime) -> Result<(), Fail> {
    for (nodes, faults, round, place, count, length) in [
        (4, 0, 0, 0, 1, 9),
        (4, 0, 1, 0, 1, 9),
        (16, 0, LARGEST, 0, 1, 9),
        (4, 1, 0, 0, 1, 9),
        (4, 1, 1, 1, 3, 17),
        (4, 1, 2, 0, 1, 9),
        (4, 1, LARGEST, 1, 3, 17),
        (7, 2, 0, 0, 1, 9),
        (7, 2, 1, 1, 6, 29),
        (7, 2, 2, 2, 30, 125),
        (7, 2, LARGEST, 0, 1, 9),
        (10, 3, 3, 3, 504, 2021),
        (16, 3, 0, 0, 1, 9),
        (16, 3, 1, 1, 15, 65),
        (16, 3, 2, 2, 210, 845),
        (16, 3, 3, 3, 2730, 10_925),
        (16, 3, 4, 0, 1, 9),
        (16, 3, LARGEST, 3, 2730, 10_925),
    ] {
        let turn = turn_of(nodes, faults, 0, round)?;
        assert_eq!(rt; turn.place_in_cycle(), place);
        assert_eq!(rt; [turn.value_count(), turn.frame_length()], [count, length]);
    }
    Ok(())
}

#[test]
fn other_length(rt: HostRuntime) -> Result<(), Fail> {
    let even = [2, 6, 0, 0, 0, 4, 3, 2, 1, 0, 0, 0, 0, 0, 0, 0, 0, 0];
    let odd = [2, 7, 0, 0, 0, 4, 3, 2, 1, 0, 0, 0, 0, 0, 0, 0, 0, 0];
    for length in 0..=18 {
        if length != 9 {
            turned_away(&rt, four(2, 6)?, &even[..length], of_length(length));
        }
        if length != 17 {
            turned_away(&rt, four(2, 7)?, &odd[..length], of_length(length));
        }
    }
    Ok(())
}

// The turn is that of node 2 in round 0x0A0B0C0E. The rounds are a cycle earlier and later, and such as have one
// other byte, or the same bytes in another order.
#[test]
fn other_sender_or_round(rt: HostRuntime) -> Result<(), Fail> {
    let turn = four(2, 0x0A0B0C0E)?;
    for sender in [0, 1, 3, 130, 255] {
        let frame = [sender, 0x0E, 0x0C, 0x0B, 0x0A, 4, 3, 2, 1];
        turned_away(&rt, turn, &frame, Refusal::Sender);
    }
    for [first, second, third, fourth] in [
        [0x0C, 0x0C, 0x0B, 0x0A],
        [0x10, 0x0C, 0x0B, 0x0A],
        [0x8E, 0x0C, 0x0B, 0x0A],
        [0x0E, 0x0D, 0x0B, 0x0A],
        [0x0E, 0x0C, 0x0A, 0x0A],
        [0x0E, 0x0C, 0x0B, 0x0B],
        [0x0E, 0x0C, 0x0B, 0x8A],
        [0x0A, 0x0B, 0x0C, 0x0E],
    ] {
        let frame = [2, first, second, third, fourth, 4, 3, 2, 1];
        turned_away(&rt, turn, &frame, Refusal::Round);
    }
    // without faults the rounds next to it have the same place too
    let at = turn_of(4, 0, 2, ALIKE)?;
    says(&rt, at, &[0x01020304], &[2, 0, 0, 0, 0, 4, 3, 2, 1])?;
    for frame in [
        [2, 0xFF, 0xFF, 0xFF, 0xFF, 4, 3, 2, 1],
        [2, 1, 0, 0, 0, 4, 3, 2, 1],
    ] {
        turned_away(&rt, at, &frame, Refusal::Round);
    }
    Ok(())
}

#[test]
fn first_check_that_fails(rt: HostRuntime) -> Result<(), Fail> {
    for (frame, why) in [
        // length and sender
        ([3, 6, 0, 0, 0, 4, 3, 2].as_slice(), of_length(8)),
        // length and round
        (&[2, 8, 0, 0, 0, 4, 3, 2], of_length(8)),
        (
            &[2, 7, 0, 0, 0, 4, 3, 2, 1, 0, 0, 0, 0, 0, 0, 0, 0],
            of_length(17),
        ),
        // sender and round
        (&[3, 8, 0, 0, 0, 4, 3, 2, 1], Refusal::Sender),
        (&[255; 9], Refusal::Sender),
        // all three
        (&[255; 8], of_length(8)),
        (&[255; 10], of_length(10)),
    ] {
        turned_away(&rt, four(2, 6)?, frame, why);
    }
    Ok(())
}

#[test]
fn codes(rt: HostRuntime) {
    for (refusal, number, place) in [
        (of_length(0), 7, 0),
        (of_length(8), 7, 8),
        (of_length(10_925), 7, 10_925),
        (Refusal::Sender, 8, 0),
        (Refusal::Round, 9, 1),
    ] {
        let code = Code { number, place };
        assert_eq!(rt; Code::from(refusal), code);
        assert_eq!(rt; Reception::TurnedAway(refusal).code(), Some(code));
    }
}

#[test]
fn heard_whole(rt: HostRuntime) -> Result<(), Fail> {
    let even = [2, 6, 0, 0, 0, 4, 3, 2, 1];
    let odd = [2, 7, 0, 0, 0, 4, 3, 2, 1, 8, 7, 6, 5, 12, 11, 10, 9];
    for (deviation, round, frame) in [
        (0, 6, even.as_slice()),
        (112, 7, &odd),
        (-120, 7, &odd),
        (i64::MIN, 6, &even),
    ] {
        let reception = four(2, round)?.receive(Received {
            deviation,
            message: frame,
        });
        let payload = &frame[5..];
        assert_eq!(rt; reception, Reception::Whole { deviation, payload });
        assert_eq!(rt; reception.code(), None);
    }
    Ok(())
}

// A frame that a header and a number of values make up, as a faulty node may send it. Three values are asked.
#[test]
fn other_number_of_values(rt: HostRuntime) -> Result<(), Fail> {
    let turn = four(2, 7)?;
    let values = [5, 6, 8, 9].as_slice();
    for (count, answer) in [
        (0, Err(of_length(5))),
        (2, Err(of_length(13))),
        (3, Ok([5, 0, 0, 0, 6, 0, 0, 0, 8, 0, 0, 0].as_slice())),
        (4, Err(of_length(21))),
    ] {
        let mut memory = [0; 21];
        memory[..5].copy_from_slice(&turn.header());
        values.fill(&mut memory[5..5 + 4 * count]);
        assert_eq!(rt; turn.read(&memory[..5 + 4 * count]), answer);
    }
    Ok(())
}

// Bytes at the end of a payload that are too few for a value stay as they were.
#[test]
fn payloads_filled(rt: HostRuntime) {
    for (length, filled) in [
        (0, [9, 9, 9, 9, 9, 9, 9, 9, 9, 9, 9]),
        (3, [9, 9, 9, 9, 9, 9, 9, 9, 9, 9, 9]),
        (4, [1, 0, 0, 0, 9, 9, 9, 9, 9, 9, 9]),
        (7, [1, 0, 0, 0, 9, 9, 9, 9, 9, 9, 9]),
        (8, [1, 0, 0, 0, 2, 0, 0, 0, 9, 9, 9]),
        (11, [1, 0, 0, 0, 2, 0, 0, 0, 9, 9, 9]),
    ] {
        let mut row = [9; 11];
        [1, 2].as_slice().fill(&mut row[..length]);
        assert_eq!(rt; row, filled);
    }
}

#[test]
fn memory_too_short(rt: HostRuntime) -> Result<(), Fail> {
    let values = [1, 2, 3].as_slice();
    for length in 0..17 {
        let mut memory = [0xEE; 17];
        let answer = four(3, 5)?.write(values, &mut memory[..length]);
        writes(&rt, answer, Err(of_length(length)));
        assert_eq!(rt; memory, [0xEE; 17]);
    }
    Ok(())
}

// As many values as the frame carries, more, and fewer. What lies behind the frame is kept, here with room for a
// value more.
#[test]
fn memory_long_enough(rt: HostRuntime) -> Result<(), Fail> {
    let all = [3, 5, 0, 0, 0, 1, 0, 0, 0, 2, 0, 0, 0, 3, 0, 0, 0];
    let two = [3, 5, 0, 0, 0, 1, 0, 0, 0, 2, 0, 0, 0, 0, 0, 0, 0];
    let none = [3, 5, 0, 0, 0, 0, 0, 0, 0, 0, 0, 0, 0, 0, 0, 0, 0];
    for (values, frame) in [
        ([1, 2, 3].as_slice(), all),
        (&[1, 2, 3, 4], all),
        (&[1, 2], two),
        (&[], none),
    ] {
        let turn = four(3, 5)?;
        let mut exact = [0xEE; 17];
        writes(&rt, turn.write(values, &mut exact), Ok(17));
        assert_eq!(rt; exact, frame);
        let mut longer = [0xEE; 24];
        writes(&rt, turn.write(values, &mut longer), Ok(17));
        assert!(rt; longer.starts_with(&frame));
        assert!(rt; longer.ends_with(&[0xEE; 7]));
    }
    Ok(())
}

// In a payload of 11 bytes there are two values.
#[test]
fn values_put(rt: HostRuntime) {
    for (index, number, after) in [
        (0, 0x01020304, [4, 3, 2, 1, 9, 9, 9, 9, 9, 9, 9]),
        (0, 0xFFFFFFFF, [255, 255, 255, 255, 9, 9, 9, 9, 9, 9, 9]),
        (1, 0x01020304, [9, 9, 9, 9, 4, 3, 2, 1, 9, 9, 9]),
        (1, 1, [9, 9, 9, 9, 1, 0, 0, 0, 9, 9, 9]),
        (1, 0, [9, 9, 9, 9, 0, 0, 0, 0, 9, 9, 9]),
    ] {
        let mut payload = [9; 11];
        assert!(rt; put_value(&mut payload, index, number));
        assert_eq!(rt; payload, after);
        value_is(&rt, &payload, index, Some(number));
    }
}

// The first index past the last whole value, and some farther on. Four times 2^62 would wrap to 0.
#[test]
fn past_the_last_value(rt: HostRuntime) {
    for length in 0..12 {
        for index in [length / 4, length, 1 << 62, usize::MAX] {
            let mut row = [9; 11];
            let payload = &mut row[..length];
            value_is(&rt, payload, index, None);
            assert!(rt; !put_value(payload, index, 5));
            assert_eq!(rt; row, [9; 11]);
        }
    }
}

// 2^64 - 1 is 7 times the last of these rounds, and 1.
#[test]
fn turns_of_slots(rt: HostRuntime) -> Result<(), Fail> {
    let cluster = Cluster::new(7, 2, 5, 10)?;
    let schedule = Schedule::new(cluster, 457, 137, 200, 8)?;
    for (slot, sender, round) in [
        (0, 0, 0),
        (6, 6, 0),
        (7, 0, 1),
        (17, 3, 2),
        (LARGEST, 1, 2_635_249_153_387_078_802),
    ] {
        let turn = Turn {
            cluster,
            sender,
            round,
        };
        assert_eq!(rt; Turn::in_slot(&schedule, slot), turn);
    }
    Ok(())
}

// The last round of a cycle of 16 nodes that allow 3 faults.
#[test]
fn longest_frame(rt: HostRuntime) -> Result<(), Fail> {
    let turn = turn_of(16, 3, 15, 7)?;
    let mut values = [0; 2730];
    for index in 0..2730 {
        values[index] = index as u32 * 1_000_000 + 1;
    }
    let mut memory = [0xEE; 10_925];
    let answer = turn.write(values.as_slice(), &mut memory[..10_924]);
    writes(&rt, answer, Err(of_length(10_924)));
    assert!(rt; memory == [0xEE; 10_925]);
    writes(&rt, turn.write(values.as_slice(), &mut memory), Ok(10_925));
    let payload = turn.read(&memory)?;
    for (index, number) in [
        (0, Some(1)),
        (1, Some(1_000_001)),
        (1365, Some(1_365_000_001)),
        (2729, Some(2_729_000_001)),
        (2730, None),
    ] {
        value_is(&rt, payload, index, number);
    }
    Ok(())
}
