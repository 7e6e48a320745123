//! Examples of the rules and the edges of every refusal. The expected values are worked out by hand; those of whole tables
//! of seven and of sixteen nodes in loops over the nodes of each row.
use crate::nodes::NodeSet;
use crate::refusal::Refusal;
use crate::table::{MAX_TABLE_LENGTH, begin_cycle, held_for, table_length};
use crate::telling::{Telling, enter_heard, enter_reception, enter_silence};
use clock::Cluster;
use frame::{Turn, Values, value};
use midpoint::Code;
use schedule::Received;
use std::process::Abort;
use std::test::Fail;

// 2^64 - 1, which is 1 modulo 2, 0 modulo 3 and 3 modulo 4.
const LARGEST: u64 = 18_446_744_073_709_551_615;

// 2^32, which is 0 modulo 2 and 4, and 1 modulo 3.
const FAR: u64 = 4_294_967_296;

// A table of four nodes that allow one fault has 16 entries.
const SIXTEEN: Refusal = Refusal::TableLength { needed: 16 };

fn turn_of(nodes: u64, faults: u64, sender: u8, round: u64) -> Result<Turn, Fail> {
    Ok(Turn {
        cluster: Cluster::new(nodes, faults, 0, 0)?,
        sender,
        round,
    })
}

// With 4 nodes and 1 fault a cycle has two rounds: an even one is its first, an odd one its second.
fn four(sender: u8, round: u64) -> Result<Turn, Fail> {
    turn_of(4, 1, sender, round)
}

// A call answers this. To compare in a function of its own takes less to prove, here and below.
fn answers(rt: &impl Abort, answer: Result<(), Refusal>, wanted: Result<(), Refusal>) {
    assert_eq!(rt; answer, wanted);
}

// A table of four nodes is this.
fn table_is(rt: &impl Abort, table: [u32; 16], wanted: [u32; 16]) {
    assert_eq!(rt; table, wanted);
}

// This is what a table holds for a path.
fn holds(
    rt: &impl Abort,
    cluster: &Cluster,
    table: &[u32],
    path: &[u8],
    wanted: Result<u32, Refusal>,
) {
    assert_eq!(rt; held_for(cluster, table, path), wanted);
}

// In this turn these values are told from a table: the frame has as many, and is the one that is written of them.
fn tells(rt: &impl Abort, turn: Turn, table: &[u32], values: &[u32]) -> Result<(), Fail> {
    let mut told = [0xEE; 130];
    let mut wanted = [0xEE; 130];
    Telling::new(turn, table)?.write(&mut told)?;
    turn.write(values, &mut wanted)?;
    assert_eq!(rt; told, wanted);
    assert_eq!(rt; turn.value_count(), values.len());
    Ok(())
}

// A round for one of four nodes, with the frame of each; a silent one's has no bytes. Its own has the bytes that it writes.
// The table that it enters into comes to be the one that is wanted.
fn goes_through(
    rt: &impl Abort,
    own: usize,
    round: u64,
    frames: [&[u8]; 4],
    read: &[u32; 16],
    written: &mut [u32; 16],
    wanted: [u32; 16],
) -> Result<(), Fail> {
    for sender in 0..4 {
        let turn = four(sender as u8, round)?;
        let frame = frames[sender];
        if sender == own {
            tells_own(rt, turn, frame, read, written)?;
        } else if frame.is_empty() {
            enter_silence(&turn, written)?;
        } else {
            enter_heard(&turn, turn.read(frame)?, written)?;
        }
    }
    table_is(rt, *written, wanted);
    Ok(())
}

fn tells_own(
    rt: &impl Abort,
    turn: Turn,
    frame: &[u8],
    read: &[u32],
    written: &mut [u32],
) -> Result<(), Fail> {
    let mut memory = [0; 17];
    let telling = Telling::new(turn, read)?;
    assert_eq!(rt; telling.write(&mut memory), Ok(frame.len()));
    assert!(rt; memory.starts_with(frame));
    telling.enter(written)?;
    Ok(())
}

// Nodes 0, 1 and 2 give 5, 6 and 7. Node 3 tells them 1, 2 and 3, and in the second round that it heard 9 of each. In the
// next cycle they give 2, 3 and 4; node 3 tells them nothing, 5 and 6, and is silent in the second round. In the end the good
// nodes hold the same for each path of two nodes. The tables change places. Before they have 8 and 4 throughout: this
// stays where a node would stand twice, but for index 0, where the own value stays; and, in the table of the first round,
// past the entries of the four nodes.
#[test]
fn two_cycles_of_four(rt: HostRuntime) -> Result<(), Fail> {
    for (own, value, lie, next, other) in [(0, 5, 1, 2, 0), (1, 6, 2, 3, 5), (2, 7, 3, 4, 6)] {
        let mut even = [8; 16];
        let mut odd = [4; 16];
        first_cycle(&rt, own, value, lie, &mut even, &mut odd)?;
        held_after_first_cycle(&rt, lie as u32, &even, &odd)?;
        second_cycle(&rt, own, next, other, &mut even, &mut odd)?;
    }
    Ok(())
}

// Node 3 tells this one the lie.
fn first_cycle(
    rt: &impl Abort,
    own: usize,
    value: u32,
    lie: u8,
    even: &mut [u32; 16],
    odd: &mut [u32; 16],
) -> Result<(), Fail> {
    begins(rt, even, value)?;
    let frames = [
        [0, 6, 0, 0, 0, 5, 0, 0, 0].as_slice(),
        &[1, 6, 0, 0, 0, 6, 0, 0, 0],
        &[2, 6, 0, 0, 0, 7, 0, 0, 0],
        &[3, 6, 0, 0, 0, lie, 0, 0, 0],
    ];
    let told = lie as u32;
    let wanted = [5, 6, 7, told, 4, 4, 4, 4, 4, 4, 4, 4, 4, 4, 4, 4];
    goes_through(rt, own, 6, frames, even, odd, wanted)?;
    let frames = [
        [0, 7, 0, 0, 0, 6, 0, 0, 0, 7, 0, 0, 0, 1, 0, 0, 0].as_slice(),
        &[1, 7, 0, 0, 0, 5, 0, 0, 0, 7, 0, 0, 0, 2, 0, 0, 0],
        &[2, 7, 0, 0, 0, 5, 0, 0, 0, 6, 0, 0, 0, 3, 0, 0, 0],
        &[3, 7, 0, 0, 0, 9, 0, 0, 0, 9, 0, 0, 0, 9, 0, 0, 0],
    ];
    let wanted = [value, 5, 5, 9, 6, 8, 6, 9, 7, 7, 8, 9, 1, 2, 3, 8];
    goes_through(rt, own, 7, frames, odd, even, wanted)
}

fn begins(rt: &impl Abort, table: &mut [u32], value: u32) -> Result<(), Fail> {
    let cluster = Cluster::new(4, 1, 0, 0)?;
    answers(rt, begin_cycle(&cluster, table, value), Ok(()));
    Ok(())
}

// Node 3 told this.
fn held_after_first_cycle(
    rt: &impl Abort,
    told: u32,
    even: &[u32],
    odd: &[u32],
) -> Result<(), Fail> {
    let cluster = Cluster::new(4, 1, 0, 0)?;
    for (node, number) in [(0, 5), (1, 6), (2, 7), (3, told)] {
        holds(rt, &cluster, odd, &[node], Ok(number));
    }
    for (path, number) in [
        ([1, 0], 5),
        ([2, 0], 5),
        ([3, 0], 9),
        ([0, 1], 6),
        ([2, 1], 6),
        ([3, 1], 9),
        ([0, 2], 7),
        ([1, 2], 7),
        ([3, 2], 9),
        ([0, 3], 1),
        ([1, 3], 2),
        ([2, 3], 3),
    ] {
        holds(rt, &cluster, even, &path, Ok(number));
    }
    Ok(())
}

// Node 3 tells this one the other value, and node 0 nothing.
fn second_cycle(
    rt: &impl Abort,
    own: usize,
    next: u32,
    other: u8,
    even: &mut [u32; 16],
    odd: &mut [u32; 16],
) -> Result<(), Fail> {
    begins(rt, even, next)?;
    let heard = [3, 8, 0, 0, 0, other, 0, 0, 0];
    let frames = [
        [0, 8, 0, 0, 0, 2, 0, 0, 0].as_slice(),
        &[1, 8, 0, 0, 0, 3, 0, 0, 0],
        &[2, 8, 0, 0, 0, 4, 0, 0, 0],
        if own == 0 { &[] } else { &heard },
    ];
    let told = other as u32;
    let wanted = [2, 3, 4, told, 4, 4, 4, 4, 4, 4, 4, 4, 4, 4, 4, 4];
    goes_through(rt, own, 8, frames, even, odd, wanted)?;
    let frames = [
        [0, 9, 0, 0, 0, 3, 0, 0, 0, 4, 0, 0, 0, 0, 0, 0, 0].as_slice(),
        &[1, 9, 0, 0, 0, 2, 0, 0, 0, 4, 0, 0, 0, 5, 0, 0, 0],
        &[2, 9, 0, 0, 0, 2, 0, 0, 0, 3, 0, 0, 0, 6, 0, 0, 0],
        &[],
    ];
    let wanted = [next, 2, 2, 0, 3, 8, 3, 0, 4, 4, 8, 0, 0, 5, 6, 8];
    goes_through(rt, own, 9, frames, odd, even, wanted)
}

// In an even round the entry of index 0 is told, and entered at the sender's number. In an odd one those of the other nodes
// are told, in their order, and entered at four times the node's number and the sender's; none is told of the sender itself.
#[test]
fn rounds_of_each_node(rt: HostRuntime) -> Result<(), Fail> {
    for (round, sender, told, indices) in [
        (10, 0, [9].as_slice(), [0].as_slice()),
        (10, 1, &[9], &[1]),
        (10, 2, &[9], &[2]),
        (10, 3, &[9], &[3]),
        (11, 0, &[1, 2, 3], &[4, 8, 12]),
        (11, 1, &[9, 2, 3], &[1, 9, 13]),
        (11, 2, &[9, 1, 3], &[2, 6, 14]),
        (11, 3, &[9, 1, 2], &[3, 7, 11]),
    ] {
        tells_and_enters(&rt, four(sender, round)?, told, indices)?;
    }
    Ok(())
}

fn tells_and_enters(
    rt: &impl Abort,
    turn: Turn,
    told: &[u32],
    indices: &[usize],
) -> Result<(), Fail> {
    let read = [9, 1, 2, 3, 4, 5, 6, 7, 8, 9, 10, 11, 12, 13, 14, 15];
    tells(rt, turn, &read, told)?;
    let mut payload = [0; 12];
    told.fill(&mut payload);
    let mut own = [7; 16];
    let mut heard = [7; 16];
    let mut silent = [7; 16];
    answers(rt, Telling::new(turn, &read)?.enter(&mut own), Ok(()));
    answers(rt, enter_heard(&turn, &payload, &mut heard), Ok(()));
    answers(rt, enter_silence(&turn, &mut silent), Ok(()));
    let wanted = entered_at(indices, &read);
    table_is(rt, own, wanted);
    table_is(rt, heard, wanted);
    table_is(rt, silent, entered_at(indices, &[0; 16]));
    Ok(())
}

// A table of sevens, with a quarter of each of these indices looked up and entered there.
fn entered_at(indices: &[usize], read: &[u32; 16]) -> [u32; 16] {
    let mut table = [7; 16];
    for index in 0..16 {
        if indices.contains(&index) {
            table[index] = read[index / 4];
        }
    }
    table
}

// What is told of the path of nodes 4 and 5, 5 standing last, is 145. The paths that end in node 0 come first. What stands
// at a row that is no path, or that another node told last, stays.
#[test]
fn third_round_of_seven(rt: HostRuntime) -> Result<(), Fail> {
    let mut read = [1; 343];
    for last in 0..7 {
        for first in 0..7 {
            read[7 * last + first] = 100 + 10 * first as u32 + last as u32;
        }
    }
    let told = [
        110, 120, 140, 150, 160, 101, 121, 141, 151, 161, 102, 112, 142, 152, 162, 104, 114, 124,
        154, 164, 105, 115, 125, 145, 165, 106, 116, 126, 146, 156,
    ];
    let turn = turn_of(7, 2, 3, 5)?;
    tells(&rt, turn, &read, &told)?;
    let mut payload = [0; 120];
    told.as_slice().fill(&mut payload);
    let mut written = [9; 343];
    let mut own = [9; 343];
    assert_eq!(rt; enter_heard(&turn, &payload, &mut written), Ok(()));
    assert_eq!(rt; Telling::new(turn, &read)?.enter(&mut own), Ok(()));
    told_by_three(&rt, &read, &own, &written)
}

// Both tables have what node 3 tells of its paths of two nodes, and 9 elsewhere.
fn told_by_three(
    rt: &impl Abort,
    read: &[u32; 343],
    own: &[u32; 343],
    written: &[u32; 343],
) -> Result<(), Fail> {
    let cluster = Cluster::new(7, 2, 0, 0)?;
    for last in 0..7 {
        for second in 0..7 {
            for first in 0..7 {
                let is_path = first != second && first != last && second != last;
                let is_path_without = is_path && first == 3;
                let number = if is_path_without {
                    read[7 * last + second]
                } else {
                    9
                };
                let index = 49 * last + 7 * second + first;
                assert_eq!(rt; [own[index], written[index]], [number, number]);
                let path = [first as u8, second as u8, last as u8];
                if is_path {
                    holds(rt, &cluster, written, &path, Ok(number));
                }
            }
        }
    }
    Ok(())
}

// A whole cycle of node 5: in its four rounds it tells of 1, 15, 15 * 14 and 15 * 14 * 13 paths, of as many nodes as the
// round's place. In the table that is read each entry is a hundred more than its index.
#[test]
fn cycle_of_sixteen(rt: HostRuntime) -> Result<(), Fail> {
    let mut read = [0; MAX_TABLE_LENGTH];
    for index in 0..MAX_TABLE_LENGTH {
        read[index] = index as u32 + 100;
    }
    for (place, rows, count) in [(0, 1, 1), (1, 16, 15), (2, 256, 210), (3, 4096, 2730)] {
        let turn = turn_of(16, 3, 5, 4 + place as u64)?;
        let mut memory = [0; 10_925];
        let length = Telling::new(turn, &read)?.write(&mut memory)?;
        assert_eq!(rt; length, 5 + 4 * count);
        let payload = turn.read(&memory[..length])?;
        let mut written = [9; MAX_TABLE_LENGTH];
        answers(&rt, enter_heard(&turn, payload, &mut written), Ok(()));
        assert_eq!(rt; told_of_rows(&rt, place, rows, payload, &written), count);
        assert!(rt; written[16 * rows..].iter().all(|entry| *entry == 9));
    }
    Ok(())
}

// How many of these rows are told of, in the payload and in the table.
fn told_of_rows(
    rt: &impl Abort,
    place: usize,
    rows: usize,
    payload: &[u8],
    written: &[u32],
) -> usize {
    assert!(rt; place <= 3);
    let mut told = 0;
    for row in 0..rows {
        assert!(rt; row < 4096);
        let nodes = [row % 16, row / 16 % 16, row / 256];
        let is_told = is_path_without(&nodes[..place], 5);
        let number = row as u32 + 100;
        if is_told {
            assert_eq!(rt; value(payload, told), Some(number));
            assert!(rt; told < rows);
            told += 1;
        }
        row_is(rt, written, row, if is_told { number } else { 9 });
    }
    told
}

// Behind each row its front is entered: this for node 5, and 9 for the others.
fn row_is(rt: &impl Abort, written: &[u32], row: usize, entry: u32) {
    assert!(rt; row < 4096 && written.len() == MAX_TABLE_LENGTH);
    for front in 0..16 {
        assert_eq!(rt;
            written[16 * row + front],
            if front == 5 { entry } else { 9 }
        );
    }
}

// Whether no node of a row stands twice, or is this one.
fn is_path_without(row: &[usize], node: usize) -> bool {
    (0..row.len()).all(|place| row[place] != node && !row[..place].contains(&row[place]))
}

#[test]
fn lengths_of_tables(rt: HostRuntime) -> Result<(), Fail> {
    for (nodes, faults, length) in [
        (4, 0, 4),
        (4, 1, 16),
        (7, 2, 343),
        (10, 3, 10_000),
        (13, 3, 28_561),
        (16, 3, 65_536),
    ] {
        assert_eq!(rt; table_length(&Cluster::new(nodes, faults, 0, 0)?), length);
    }
    assert_eq!(rt; MAX_TABLE_LENGTH, 65_536);
    Ok(())
}

#[test]
fn values_of_new_cycles(rt: HostRuntime) -> Result<(), Fail> {
    for number in [0, 1, 0xFFFFFFFF] {
        let mut table = [7; 16];
        begins(&rt, &mut table, number)?;
        let wanted = [number, 7, 7, 7, 7, 7, 7, 7, 7, 7, 7, 7, 7, 7, 7, 7];
        table_is(&rt, table, wanted);
    }
    Ok(())
}

// Node 1 tells of nodes 0, 2 and 3. A payload may have fewer values, or more, and bytes at its end that are too few for one.
#[test]
fn payloads_of_other_lengths(rt: HostRuntime) -> Result<(), Fail> {
    let turn = four(1, 3)?;
    let bytes = [4, 3, 2, 1, 5, 0, 0, 0, 0, 1, 0, 0, 6, 6, 6, 6, 6, 6, 6, 6];
    for (length, zero, two, three) in [
        (0, 0, 0, 0),
        (3, 0, 0, 0),
        (4, 0x01020304, 0, 0),
        (7, 0x01020304, 0, 0),
        (8, 0x01020304, 5, 0),
        (11, 0x01020304, 5, 0),
        (12, 0x01020304, 5, 256),
        (20, 0x01020304, 5, 256),
    ] {
        let mut table = [7; 16];
        answers(
            &rt,
            enter_heard(&turn, &bytes[..length], &mut table),
            Ok(()),
        );
        let wanted = [7, zero, 7, 7, 7, 7, 7, 7, 7, two, 7, 7, 7, three, 7, 7];
        table_is(&rt, table, wanted);
    }
    Ok(())
}

// Heard whole, its payload is entered as `enter_heard` does it; turned away, zeros.
#[test]
fn what_becomes_of_frames(rt: HostRuntime) -> Result<(), Fail> {
    let turn = four(1, 3)?;
    let stranger = four(4, 3)?;
    let frame = [1, 3, 0, 0, 0, 4, 3, 2, 1, 5, 0, 0, 0, 0, 1, 0, 0, 9];
    for (length, zero, two, three) in [(17, 0x01020304, 5, 256), (18, 0, 0, 0), (9, 0, 0, 0)] {
        let reception = turn.receive(Received {
            deviation: -3,
            message: &frame[..length],
        });
        let mut table = [7; 16];
        answers(&rt, enter_reception(&turn, reception, &mut table), Ok(()));
        let wanted = [7, zero, 7, 7, 7, 7, 7, 7, 7, two, 7, 7, 7, three, 7, 7];
        table_is(&rt, table, wanted);
        let mut short = [7; 15];
        let answer = enter_reception(&turn, reception, &mut short);
        answers(&rt, answer, Err(SIXTEEN));
        assert_eq!(rt; short, [7; 15]);
        let answer = enter_reception(&stranger, reception, &mut table);
        answers(&rt, answer, Err(Refusal::Node { place: 0 }));
        table_is(&rt, table, wanted);
    }
    Ok(())
}

// What it tells fills payloads of other lengths too: with 0 past the last path, and bytes that are too few for a value stay.
#[test]
fn payloads_filled(rt: HostRuntime) -> Result<(), Fail> {
    let table = [9, 1, 2, 3, 9, 9, 9, 9, 9, 9, 9, 9, 9, 9, 9, 9];
    let telling = Telling::new(four(0, 3)?, &table)?;
    for (length, filled) in [
        (0, [9, 9, 9, 9, 9, 9, 9, 9, 9, 9, 9, 9, 9, 9, 9, 9, 9, 9]),
        (7, [1, 0, 0, 0, 9, 9, 9, 9, 9, 9, 9, 9, 9, 9, 9, 9, 9, 9]),
        (12, [1, 0, 0, 0, 2, 0, 0, 0, 3, 0, 0, 0, 9, 9, 9, 9, 9, 9]),
        (18, [1, 0, 0, 0, 2, 0, 0, 0, 3, 0, 0, 0, 0, 0, 0, 0, 9, 9]),
    ] {
        let mut payload = [9; 18];
        telling.fill(&mut payload[..length]);
        assert_eq!(rt; payload, filled);
    }
    Ok(())
}

// A frame of 17 bytes is asked for.
#[test]
fn memory_too_short(rt: HostRuntime) -> Result<(), Fail> {
    let telling = Telling::new(four(0, 3)?, &[5; 16])?;
    for length in 0..17 {
        let mut memory = [0xEE; 17];
        let answer = telling.write(&mut memory[..length]);
        assert_eq!(rt; answer, Err(frame::Refusal::Length { length }));
        assert_eq!(rt; memory, [0xEE; 17]);
    }
    Ok(())
}

// The place is the round modulo the number of rounds in a cycle. At the places 0 to 3 there are 1, n - 1, (n - 1)(n - 2)
// and (n - 1)(n - 2)(n - 3) entries of a sender, one of which is that of the path.
#[test]
fn rounds_far_on(rt: HostRuntime) -> Result<(), Fail> {
    for (nodes, faults, sender, round, path, count) in [
        (4, 0, 2, 1, [2].as_slice(), 1),
        (4, 0, 3, LARGEST, &[3], 1),
        (4, 1, 0, FAR, &[0], 1),
        (4, 1, 2, FAR + 1, &[2, 1], 3),
        (4, 1, 3, LARGEST, &[3, 0], 3),
        (7, 2, 6, FAR, &[6, 2], 6),
        (7, 2, 0, FAR + 1, &[0, 6, 4], 30),
        (7, 2, 2, FAR + 2, &[2], 1),
        (7, 2, 6, LARGEST - 1, &[6, 5, 0], 30),
        (7, 2, 2, LARGEST, &[2], 1),
        (10, 3, 2, FAR, &[2], 1),
        (10, 3, 2, FAR + 1, &[2, 9], 9),
        (10, 3, 0, FAR + 2, &[0, 9, 2], 72),
        (10, 3, 9, LARGEST, &[9, 2, 0, 8], 504),
    ] {
        silences(&rt, turn_of(nodes, faults, sender, round)?, path, count);
    }
    Ok(())
}

fn silences(rt: &impl Abort, turn: Turn, path: &[u8], count: usize) {
    let length = table_length(&turn.cluster);
    let mut memory = [7; 10_000];
    assert!(rt; length <= 10_000);
    let written = &mut memory[..length];
    answers(rt, enter_silence(&turn, written), Ok(()));
    holds(rt, &turn.cluster, written, path, Ok(0));
    assert_eq!(rt; written.iter().filter(|entry| **entry == 0).count(), count);
}

// Each entry is its index. With 16 nodes its digits in base 16 are the nodes, the lowest that of the one that stands first.
#[test]
fn held_for_rows(rt: HostRuntime) -> Result<(), Fail> {
    let mut table = [0; MAX_TABLE_LENGTH];
    for index in 0..MAX_TABLE_LENGTH {
        table[index] = index as u32;
    }
    for (nodes, faults, row, number) in [
        (16, 3, [0].as_slice(), 0),
        (16, 3, &[15], 0xF),
        (16, 3, &[1, 2], 0x21),
        (16, 3, &[3, 2, 1], 0x123),
        (16, 3, &[1, 2, 3, 4], 0x4321),
        (16, 3, &[15, 14, 13, 12], 0xCDEF),
        // (3 * 7 + 2) * 7 + 1 and (1 * 7 + 2) * 7 + 3
        (7, 2, &[1, 2, 3], 162),
        (7, 2, &[3, 2, 1], 66),
        (4, 1, &[0, 3], 12),
        (4, 0, &[3], 3),
    ] {
        holds_in(&rt, &table, nodes, faults, row, Ok(number))?;
    }
    Ok(())
}

// What a cluster of so many nodes and faults has in the part of this table that is as long as its own.
fn holds_in(
    rt: &impl Abort,
    table: &[u32; MAX_TABLE_LENGTH],
    nodes: u64,
    faults: u64,
    row: &[u8],
    wanted: Result<u32, Refusal>,
) -> Result<(), Fail> {
    let cluster = Cluster::new(nodes, faults, 0, 0)?;
    let length = table_length(&cluster);
    assert!(rt; length <= MAX_TABLE_LENGTH);
    holds(rt, &cluster, &table[..length], row, wanted);
    Ok(())
}

#[test]
fn rows_of_other_lengths(rt: HostRuntime) -> Result<(), Fail> {
    let table = [7; MAX_TABLE_LENGTH];
    for (nodes, faults, row, length) in [
        (4, 0, [].as_slice(), 0),
        (4, 0, &[0, 1], 2),
        (4, 1, &[0, 1, 2], 3),
        (16, 3, &[0, 1, 2, 3, 4], 5),
        // the length and nodes
        (4, 1, &[0, 0, 0], 3),
        (16, 3, &[16, 16, 16, 16, 16], 5),
    ] {
        let wanted = Err(Refusal::PathLength { length });
        holds_in(&rt, &table, nodes, faults, row, wanted)?;
    }
    Ok(())
}

#[test]
fn rows_that_are_no_paths(rt: HostRuntime) -> Result<(), Fail> {
    let table = [7; MAX_TABLE_LENGTH];
    for (nodes, faults, row, place) in [
        (4, 1, [4].as_slice(), 0),
        (4, 1, &[255], 0),
        (4, 1, &[0, 4], 1),
        (16, 3, &[16, 1, 2, 3], 0),
        (16, 3, &[0, 16, 2, 3], 1),
        (16, 3, &[0, 1, 16, 3], 2),
        (16, 3, &[0, 1, 2, 16], 3),
        (16, 3, &[1, 1, 2, 3], 1),
        (16, 3, &[1, 2, 1, 3], 2),
        (16, 3, &[1, 2, 2, 3], 2),
        (16, 3, &[1, 2, 3, 1], 3),
        (16, 3, &[1, 2, 3, 2], 3),
        (16, 3, &[1, 2, 3, 3], 3),
        // the first of several
        (4, 1, &[4, 4], 0),
        (16, 3, &[1, 16, 16, 1], 1),
        (16, 3, &[1, 2, 2, 16], 2),
    ] {
        holds_in(
            &rt,
            &table,
            nodes,
            faults,
            row,
            Err(Refusal::Node { place }),
        )?;
    }
    Ok(())
}

// For this turn each call refuses a table of sevens so, and leaves it as it was.
fn refused(rt: &impl Abort, turn: Turn, table: &mut [u32], why: Refusal) {
    assert_eq!(rt; Telling::new(turn, table).err(), Some(why));
    answers(rt, enter_heard(&turn, &[9; 12], table), Err(why));
    answers(rt, enter_silence(&turn, table), Err(why));
    assert!(rt; table.iter().all(|entry| *entry == 7));
}

// The length comes first, also where the sender is past the cluster or a row is no path.
#[test]
fn tables_of_another_length(rt: HostRuntime) -> Result<(), Fail> {
    for length in [0, 4, 15, 17, 64] {
        let mut memory = [7; 64];
        let table = &mut memory[..length];
        for sender in [3, 4] {
            refused(&rt, four(sender, 6)?, table, SIXTEEN);
            refused(&rt, four(sender, 7)?, table, SIXTEEN);
        }
        refused_by_all(&rt, table)?;
        assert_eq!(rt; memory, [7; 64]);
    }
    Ok(())
}

fn refused_by_all(rt: &impl Abort, table: &mut [u32]) -> Result<(), Fail> {
    let cluster = Cluster::new(4, 1, 0, 0)?;
    let telling = Telling::new(four(3, 7)?, &[1; 16])?;
    answers(rt, telling.enter(table), Err(SIXTEEN));
    answers(rt, begin_cycle(&cluster, table, 5), Err(SIXTEEN));
    for row in [[].as_slice(), &[0], &[4], &[0, 0], &[0, 1, 2]] {
        holds(rt, &cluster, table, row, Err(SIXTEEN));
    }
    Ok(())
}

#[test]
fn senders_past_the_cluster(rt: HostRuntime) -> Result<(), Fail> {
    let why = Refusal::Node { place: 0 };
    for sender in [4, 5, 16, 255] {
        refused(&rt, four(sender, 6)?, &mut [7; 16], why);
        refused(&rt, four(sender, 7)?, &mut [7; 16], why);
    }
    refused(&rt, turn_of(16, 0, 16, 6)?, &mut [7; 16], why);
    Ok(())
}

#[test]
fn codes(rt: HostRuntime) {
    for (refusal, number, place) in [
        (SIXTEEN, 10, 16),
        (Refusal::PathLength { length: 5 }, 11, 5),
        (Refusal::Node { place: 3 }, 11, 3),
    ] {
        assert_eq!(rt; Code::from(refusal), Code { number, place });
    }
}

#[test]
fn sets_of_nodes(rt: HostRuntime) {
    let some = NodeSet::empty().with(0).with(15).with(6).with(15);
    for node in 0..20 {
        let has = [
            NodeSet::empty().has(node),
            NodeSet::all().has(node),
            some.has(node),
        ];
        assert_eq!(rt;
            has,
            [false, node < 16, node == 0 || node == 6 || node == 15]
        );
    }
    assert_eq!(rt; NodeSet::all().with(4), NodeSet::all());
    assert_eq!(rt; some, NodeSet::empty().with(6).with(15).with(0));
}

#[test]
fn nodes_past_all(rt: HostRuntime) {
    let some = NodeSet::empty().with(0).with(15).with(6).with(15);
    for node in [16, 22, 32, 64, usize::MAX] {
        assert!(rt; !NodeSet::all().has(node) && !some.has(node));
        let sets = [NodeSet::empty().with(node), some.with(node)];
        assert_eq!(rt; sets, [NodeSet::empty(), some]);
    }
}
