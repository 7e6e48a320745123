//! Examples of the rules and the edges of every refusal. The expected values are worked out by hand; those of tables that are
//! filled by a formula by a separate program that follows the rules. In the cycles that are played the good nodes are the
//! first ones of the cluster.
use crate::making::{made_of, results};
use crate::most::majority;
use crate::refusal::Refusal;
use clock::Cluster;
use frame::{MAX_FRAME_LENGTH, Turn};
use midpoint::Code;
use relay::{
    MAX_TABLE_LENGTH, Telling, begin_cycle, enter_heard, enter_silence, held_for, table_length,
};
use std::alloc::Global;
use std::process::Abort;
use std::test::Fail;

// 2^32 - 1.
const LARGEST: u32 = 4_294_967_295;

// Each list has this majority.
fn have(rt: &impl Abort, cases: &[(&[u32], u32)]) {
    for (values, most) in cases {
        assert_eq!(rt; majority(values), *most);
    }
}

#[test]
fn majorities(rt: HostRuntime) {
    let cases = [
        ([].as_slice(), 0),
        (&[7], 7),
        (&[0], 0),
        (&[LARGEST], LARGEST),
        (&[7, 8], 0),
        (&[7, 0], 0),
        (&[0, 7], 0),
        (&[0, 0], 0),
        // two are more than half of three
        (&[7, 7, 8], 7),
        (&[7, 8, 7], 7),
        (&[8, 7, 7], 7),
        (&[7, 7, 0], 7),
        (&[7, 0, 0], 0),
        (&[7, 8, 9], 0),
        // half is not enough
        (&[7, 8, 7, 8], 0),
        (&[7, 7, 0, 0], 0),
        (&[0, 7, 0, 7], 0),
        (&[8, 9, 7, 7], 0),
        // and it is not enough to be the most frequent
        (&[1, 1, 2, 3], 0),
        (&[1, 1, 1, 2, 3, 4], 0),
        (&[7, 7, 7, 0, 0], 7),
        (&[0, 7, 7, 7, 0], 7),
        (&[7, 7, 0, 0, 0], 0),
        (&[LARGEST, 1, LARGEST], LARGEST),
        (&[LARGEST, LARGEST, 0x7FFFFFFF, 0xFFFF], 0),
    ];
    have(&rt, &cases);
}

// Makes so many values of a list 7: the first ones, the last ones, or some all over it. The rest are all `other`, or all
// different if there is none.
fn arrange(
    rt: &impl Abort,
    values: &mut [u32],
    count: usize,
    arrangement: usize,
    other: Option<u32>,
) {
    let length = values.len();
    assert!(rt; 0 < length && length <= 1000 && count <= length);
    for place in 0..length {
        let is_seven = match arrangement {
            0 => place < count,
            1 => place >= length - count,
            _ => place * count % length < count,
        };
        values[place] = if is_seven {
            7
        } else {
            other.unwrap_or(100 + place as u32)
        };
    }
}

// With so many sevens the majority is 7 if they are more than the rest. If they are fewer it is what the rest are, or 0 if
// these are all different.
fn with_sevens(rt: &impl Abort, values: &mut [u32], count: usize) {
    assert!(rt; count <= values.len());
    let rest = values.len() - count;
    for other in [None, Some(0), Some(8), Some(LARGEST)] {
        for arrangement in 0..3 {
            arrange(rt, values, count, arrangement, other);
            let most = if count > rest {
                7
            } else if count < rest {
                other.unwrap_or(0)
            } else {
                0
            };
            assert_eq!(rt; majority(values), most);
        }
    }
}

#[test]
fn sevens_among_others(rt: HostRuntime) {
    for length in 1..16 {
        for count in 1..=length {
            with_sevens(&rt, &mut [0; 15][..length], count);
        }
    }
    for count in [1, 499, 500, 501, 999] {
        with_sevens(&rt, &mut [0; 1000], count);
    }
    for count in [499, 500] {
        with_sevens(&rt, &mut [0; 999], count);
    }
}

// What is made of a path, or held for it, is this. To compare in a function of its own takes less to prove.
fn made_is(
    rt: &impl Abort,
    made: Result<u32, relay::Refusal>,
    wanted: Result<u32, relay::Refusal>,
) {
    assert_eq!(rt; made, wanted);
}

// By this table the results are these, and so is what is made of the path of each node alone.
fn comes_to(rt: &impl Abort, cluster: &Cluster, table: &[u32], wanted: &[u32]) {
    assert!(rt; wanted.len() <= 16);
    let mut memory = [77; 16];
    let places = &mut memory[..wanted.len()];
    assert_eq!(rt; results(cluster, table, places), Ok(()));
    assert_eq!(rt; &*places, wanted);
    for node in 0..wanted.len() {
        made_is(rt, made_of(cluster, table, &[node as u8]), Ok(wanted[node]));
    }
}

// What a good node enters in a turn. A good sender writes its frame from the table that it reads. A faulty one tells the node
// these numbers, in the order of the paths, and 0 for the paths that are left; if there are none it is silent.
fn hears(
    turn: Turn,
    read: &[Vec<u32>],
    node: usize,
    numbers: &[u32],
    written: &mut [u32],
) -> Result<(), Fail> {
    let mut memory = [0; MAX_FRAME_LENGTH];
    let length = match read.get(turn.sender as usize) {
        Some(table) => {
            let telling = Telling::new(turn, table)?;
            if node == turn.sender as usize {
                telling.enter(written)?;
                return Ok(());
            }
            telling.write(&mut memory)?
        }
        None if numbers.is_empty() => {
            enter_silence(&turn, written)?;
            return Ok(());
        }
        None => turn.write(numbers, &mut memory)?,
    };
    enter_heard(&turn, turn.read(&memory[..length])?, written)?;
    Ok(())
}

// The tables of the good nodes, which give these values, after some rounds of a cycle: for each round `lies` has the numbers
// that each faulty node tells each good one. An entry that nobody writes is 77.
fn rounds_over(
    heap: Global,
    cluster: Cluster,
    values: &[u32],
    lies: &[&[&[u32]]],
) -> Result<Vec<Vec<u32>>, Fail> {
    let mut read = Vec::new(heap);
    for &value in values {
        let mut table = vec![in heap; 77; table_length(&cluster)]?;
        begin_cycle(&cluster, &mut table, value)?;
        read.push(table)?;
    }
    for (round, to_each) in lies.iter().enumerate() {
        let mut written = Vec::new(heap);
        for (node, numbers) in to_each.iter().enumerate() {
            let mut table = vec![in heap; 77; table_length(&cluster)]?;
            for sender in 0..cluster.nodes() as u8 {
                let turn = Turn {
                    cluster,
                    sender,
                    round: round as u64,
                };
                hears(turn, &read, node, numbers, &mut table)?;
            }
            written.push(table)?;
        }
        read = written;
    }
    Ok(read)
}

// When a cycle with these lies is over all good nodes come to these results, of which the first are the values that they give.
fn all_come_to(
    rt: &impl Abort,
    heap: Global,
    cluster: Cluster,
    lies: &[&[&[u32]]],
    wanted: &[u32],
) -> Result<(), Fail> {
    let good = (cluster.nodes() - cluster.faults()) as usize;
    assert!(rt; good <= wanted.len() && lies.len() as u64 == cluster.faults() + 1);
    let tables = rounds_over(heap, cluster, &wanted[..good], lies)?;
    assert_eq!(rt; tables.len(), good);
    for table in tables.iter() {
        comes_to(rt, &cluster, table, wanted);
    }
    Ok(())
}

// Node 3 tells each of the others one number, and in the second round that it heard 9 of each. What all come to is what it
// told more than one of them, or 0.
#[test]
fn liar_of_four(rt: HostRuntime) -> Result<(), Fail> {
    let cluster = Cluster::new(4, 1, 0, 0)?;
    for (told, number) in [
        ([1, 2, 1], 1),
        ([1, 2, 3], 0),
        ([4, 4, 4], 4),
        ([0, 0, 3], 0),
        ([6, 5, 6], 6),
    ] {
        let first = [&told[..1], &told[1..2], &told[2..]];
        let second = [[9, 9, 9].as_slice(); 3];
        let wanted = [5, 6, 7, number];
        all_come_to(&rt, rt.alloc(), cluster, &[&first, &second], &wanted)?;
    }
    Ok(())
}

// The same where it tells some of them nothing in the first round, or nothing at all.
#[test]
fn silent_liar_of_four(rt: HostRuntime) -> Result<(), Fail> {
    let cluster = Cluster::new(4, 1, 0, 0)?;
    let to_two: &[&[u32]] = &[&[], &[8], &[8]];
    let to_one: &[&[u32]] = &[&[8], &[], &[]];
    let to_none: &[&[u32]] = &[&[], &[], &[]];
    let nines: &[&[u32]] = &[&[9, 9, 9], &[9, 9, 9], &[9, 9, 9]];
    for (lies, number) in [
        ([to_two, nines], 8),
        ([to_one, nines], 0),
        ([to_none, nines], 0),
        ([to_none, to_none], 0),
    ] {
        all_come_to(&rt, rt.alloc(), cluster, &lies, &[5, 6, 7, number])?;
    }
    Ok(())
}

// A result need not be what a node was told first: after the first round node 1 holds 2 for node 3, and in the end it comes
// to 1.
#[test]
fn first_round_of_four(rt: HostRuntime) -> Result<(), Fail> {
    let cluster = Cluster::new(4, 1, 0, 0)?;
    let first: &[&[u32]] = &[&[1], &[2], &[1]];
    let second: &[&[u32]] = &[&[9, 9, 9], &[9, 9, 9], &[9, 9, 9]];
    let tables = rounds_over(rt.alloc(), cluster, &[5, 6, 7], &[first])?;
    for (node, table) in tables.iter().enumerate() {
        made_is(
            &rt,
            held_for(&cluster, table, &[3]),
            Ok([1, 2, 1][node % 3]),
        );
    }
    all_come_to(&rt, rt.alloc(), cluster, &[first, second], &[5, 6, 7, 1])?;
    Ok(())
}

// One number for all paths, also those of the longest frame.
const ONES: &[u32] = &[1; 2730];

const TWOS: &[u32] = &[2; 2730];

// Nodes 5 and 6 tell three nodes 1 for all paths and two nodes 2, or the other way round. Of the six numbers that are made
// for node 5 three are what it told the three, two are what it told the two, and one comes from what 6 told of it: what it
// told the three in the second round. In `backed` they also lie of the good nodes, and back each other: of the other liar,
// who stands last in the frame, they tell three nodes 1.
#[test]
fn two_liars_of_seven(rt: HostRuntime) -> Result<(), Fail> {
    let cluster = Cluster::new(7, 2, 0, 0)?;
    let one: &[&[u32]] = &[ONES, ONES, ONES, TWOS, TWOS];
    let other: &[&[u32]] = &[TWOS, TWOS, TWOS, ONES, ONES];
    let backed: &[&[u32]] = &[
        &[8, 8, 8, 8, 8, 1],
        &[8, 8, 8, 8, 8, 1],
        &[9, 9, 9, 9, 9, 1],
        &[9, 9, 9, 9, 9, 2],
        &[],
    ];
    for (lies, number) in [
        ([one, one, one], 1),
        ([one, one, other], 1),
        ([one, backed, other], 1),
        ([one, other, one], 0),
        ([other, one, other], 0),
        ([other, backed, other], 0),
        ([other, other, other], 2),
    ] {
        let wanted = [10, 11, 12, 13, 14, number, number];
        all_come_to(&rt, rt.alloc(), cluster, &lies, &wanted)?;
    }
    Ok(())
}

// Nodes 13, 14 and 15 tell seven nodes 1 for all paths and six nodes 2, or the other way round. Of the fifteen numbers that
// are made for node 13 seven are what it told the seven, six are what it told the six, and two come from what 14 and 15
// told of it: that of 14 is the majority of what 14 told the seven and the six in the second round, and of what 15 told the
// seven in the third. In `mixed` they tell different numbers of the two other liars, who stand last in the frame.
#[test]
fn three_liars_of_sixteen(rt: HostRuntime) -> Result<(), Fail> {
    const ONE_TWO: &[u32] = &[9, 9, 9, 9, 9, 9, 9, 9, 9, 9, 9, 9, 9, 1, 2];
    const TWO_ONE: &[u32] = &[9, 9, 9, 9, 9, 9, 9, 9, 9, 9, 9, 9, 9, 2, 1];
    let cluster = Cluster::new(16, 3, 0, 0)?;
    let one: &[&[u32]] = &[
        ONES, ONES, ONES, ONES, ONES, ONES, ONES, TWOS, TWOS, TWOS, TWOS, TWOS, TWOS,
    ];
    let other: &[&[u32]] = &[
        TWOS, TWOS, TWOS, TWOS, TWOS, TWOS, TWOS, ONES, ONES, ONES, ONES, ONES, ONES,
    ];
    let mixed: &[&[u32]] = &[
        ONE_TWO, ONE_TWO, ONE_TWO, ONE_TWO, ONE_TWO, ONE_TWO, ONE_TWO, TWO_ONE, TWO_ONE, TWO_ONE,
        TWO_ONE, TWO_ONE, TWO_ONE,
    ];
    for (lies, numbers) in [
        ([one, one, one, one], [1, 1, 1]),
        ([one, other, other, one], [2, 2, 2]),
        ([one, other, one, one], [0, 0, 0]),
        ([one, one, other, other], [0, 0, 0]),
        ([one, mixed, one, one], [1, 1, 0]),
        ([one, mixed, other, one], [0, 0, 2]),
    ] {
        let mut wanted = [20, 21, 22, 23, 24, 25, 26, 27, 28, 29, 30, 31, 32, 0, 0, 0];
        wanted[13..].copy_from_slice(&numbers);
        all_come_to(&rt, rt.alloc(), cluster, &lies, &wanted)?;
    }
    Ok(())
}

// By this table this is made of each path, or the path is refused so.
fn makes(
    rt: &impl Abort,
    cluster: &Cluster,
    table: &[u32],
    cases: &[(&[u8], Result<u32, relay::Refusal>)],
) {
    for (path, made) in cases {
        made_is(rt, made_of(cluster, table, path), *made);
    }
}

// The first four entries are those of the rows that end in node 0, and so on. Where a node would stand twice there is 77.
#[test]
fn table_of_four(rt: HostRuntime) -> Result<(), Fail> {
    let cluster = Cluster::new(4, 1, 0, 0)?;
    let table = [77, 5, 5, 9, 6, 77, 9, 6, 9, 7, 77, 7, 1, 2, 3, 77];
    comes_to(&rt, &cluster, &table, &[5, 6, 7, 0]);
    let cases = [
        ([1, 0].as_slice(), Ok(5)),
        (&[3, 0], Ok(9)),
        (&[0, 1], Ok(6)),
        (&[2, 1], Ok(9)),
        (&[0, 3], Ok(1)),
        (&[2, 3], Ok(3)),
    ];
    makes(&rt, &cluster, &table, &cases);
    Ok(())
}

// Where no faults are allowed the results are the table.
#[test]
fn no_faults(rt: HostRuntime) -> Result<(), Fail> {
    let table = [9, 0, LARGEST, 9];
    comes_to(&rt, &Cluster::new(4, 0, 0, 0)?, &table, &table);
    let table = [3, 1, 4, 1, 5, 9, 2, 6, 5, 3, 5, 8, 9, 7, 9, 3];
    comes_to(&rt, &Cluster::new(16, 0, 0, 0)?, &table, &table);
    Ok(())
}

// Fills a table: if a row's first node is one of the first nodes, so many, with 7, else with 8.
fn fill_by_first(cluster: &Cluster, sevens: usize, table: &mut [u32]) {
    let nodes = cluster.nodes() as usize;
    for index in 0..table.len() {
        table[index] = if index % nodes < sevens { 7 } else { 8 };
    }
}

// Three nodes can stand in front of a path of one: one of the two with 7, or both.
#[test]
fn first_nodes_of_four(rt: HostRuntime) -> Result<(), Fail> {
    let cluster = Cluster::new(4, 1, 0, 0)?;
    let mut table = [0; 16];
    fill_by_first(&cluster, 2, &mut table);
    comes_to(&rt, &cluster, &table, &[8, 8, 7, 7]);
    Ok(())
}

// Five nodes can stand in front of a path of two: those of the four with 7 that are not on it, so only two if two are on
// it. So of the six paths of two that end in one of the four three come to 8, and of those that end in another node none.
#[test]
fn first_nodes_of_seven(rt: HostRuntime) -> Result<(), Fail> {
    let cluster = Cluster::new(7, 2, 0, 0)?;
    let mut table = [0; 343];
    fill_by_first(&cluster, 4, &mut table);
    let cases = [
        ([0, 1, 2].as_slice(), Ok(7)),
        (&[4, 0, 1], Ok(8)),
        (&[6, 5], Ok(7)),
        (&[0, 6], Ok(7)),
        (&[4, 0], Ok(7)),
        (&[1, 3], Ok(8)),
        (&[3, 1], Ok(8)),
    ];
    makes(&rt, &cluster, &table, &cases);
    comes_to(&rt, &cluster, &table, &[0, 0, 0, 0, 7, 7, 7]);
    Ok(())
}

// Seven nodes can stand in front of a path of three: those of the six with 7 that are not on it, so only three if three are
// on it. So of the eight paths of three that end in two of the six four come to 8, and of those that end in other two none.
// So of the nine paths of two that end in one of the six five come to 0, and of those that end in another node none.
#[test]
fn first_nodes_of_ten(rt: HostRuntime) -> Result<(), Fail> {
    let cluster = Cluster::new(10, 3, 0, 0)?;
    let mut table = [0; 10_000];
    fill_by_first(&cluster, 6, &mut table);
    let cases = [
        ([5, 0, 1, 2].as_slice(), Ok(7)),
        (&[6, 0, 1, 2], Ok(8)),
        (&[9, 8, 7], Ok(7)),
        (&[0, 1, 9], Ok(7)),
        (&[9, 0, 1], Ok(7)),
        (&[0, 1, 2], Ok(8)),
        (&[6, 7], Ok(7)),
        (&[9, 0], Ok(7)),
        (&[0, 1], Ok(0)),
    ];
    makes(&rt, &cluster, &table, &cases);
    comes_to(&rt, &cluster, &table, &[0, 0, 0, 0, 0, 0, 7, 7, 7, 7]);
    Ok(())
}

// The entries are 1 for a thousand indices, and 2 for the next thousand.
#[test]
fn largest_table(rt: HostRuntime) -> Result<(), Fail> {
    let cluster = Cluster::new(16, 3, 0, 0)?;
    let mut table = [0; MAX_TABLE_LENGTH];
    for index in 0..MAX_TABLE_LENGTH {
        table[index] = (index / 1000 % 2) as u32 + 1;
    }
    let wanted = [2, 2, 2, 1, 1, 1, 0, 2, 2, 1, 1, 0, 2, 2, 2, 1];
    comes_to(&rt, &cluster, &table, &wanted);
    let cases = [
        ([0, 1].as_slice(), Ok(1)),
        (&[15, 14], Ok(2)),
        (&[3, 9], Ok(2)),
        (&[9, 3], Ok(1)),
        (&[7, 6, 5], Ok(1)),
        (&[15, 0, 8], Ok(2)),
        (&[1, 2, 3, 4], Ok(2)),
        (&[4, 3, 2, 1], Ok(1)),
    ];
    makes(&rt, &cluster, &table, &cases);
    Ok(())
}

// Whether the row of three of seven nodes at an index is a path that ends in these nodes.
fn is_path_to(end: &[u8], index: usize) -> bool {
    let row = [
        (index % 7) as u8,
        (index / 7 % 7) as u8,
        (index / 49 % 7) as u8,
    ];
    row.ends_with(end) && row[0] != row[1] && row[0] != row[2] && row[1] != row[2]
}

// A table of seven nodes with 1 for five indices, 2 for the next five, and so on; but with `other` for all rows except the
// paths that end in these nodes.
fn paths_to(end: &[u8], other: u32) -> [u32; 343] {
    let mut table = [other; 343];
    for index in 0..343 {
        if is_path_to(end, index) {
            table[index] = (index / 5 % 2) as u32 + 1;
        }
    }
    table
}

// What is made of a path rests on the entries of the paths that end in it. `longer` has, for each last node, what is made
// of each first node in front of it, and 0 where that would be the same node.
#[test]
fn entries_of_other_rows(rt: HostRuntime) -> Result<(), Fail> {
    let cluster = Cluster::new(7, 2, 0, 0)?;
    let alone = [2, 1, 0, 0, 0, 2, 1];
    let longer = [
        [0, 1, 2, 2, 1, 2, 2],
        [1, 0, 2, 1, 1, 2, 1],
        [1, 2, 0, 1, 2, 2, 1],
        [1, 2, 2, 0, 2, 1, 1],
        [2, 2, 1, 2, 0, 1, 1],
        [2, 2, 1, 2, 2, 0, 2],
        [2, 1, 1, 2, 1, 1, 0],
    ];
    for other in [1, 2, 9] {
        comes_to(&rt, &cluster, &paths_to(&[], other), &alone);
        for last in 0..7 {
            let path = [last as u8];
            let made = made_of(&cluster, &paths_to(&path, other), &path);
            made_is(&rt, made, Ok(alone[last]));
            for first in 0..7 {
                let path = [first as u8, last as u8];
                if first != last {
                    let made = made_of(&cluster, &paths_to(&path, other), &path);
                    made_is(&rt, made, Ok(longer[last][first]));
                }
            }
        }
    }
    Ok(())
}

fn table(needed: usize) -> Refusal {
    Refusal::Table(relay::Refusal::TableLength { needed })
}

fn memory(needed: usize) -> Refusal {
    Refusal::ResultsLength { needed }
}

// By a table of each length, and with memory of so many places, results are refused so, and the memory is left as it was.
fn refused(rt: &impl Abort, cluster: &Cluster, cases: &[(usize, usize, Refusal)]) {
    let entries = [9; 65_537];
    for &(length, places, why) in cases {
        assert!(rt; length <= 65_537 && places <= 17);
        let mut memory = [77; 17];
        let answer = results(cluster, &entries[..length], &mut memory[..places]);
        assert_eq!(rt; answer, Err(why));
        assert_eq!(rt; memory, [77; 17]);
    }
}

#[test]
fn results_refused(rt: HostRuntime) -> Result<(), Fail> {
    let cases = [
        (0, 4, table(16)),
        (4, 4, table(16)),
        (15, 4, table(16)),
        (17, 4, table(16)),
        (64, 4, table(16)),
        // the table comes first
        (0, 0, table(16)),
        (15, 3, table(16)),
        (17, 5, table(16)),
        (16, 0, memory(4)),
        (16, 1, memory(4)),
        (16, 3, memory(4)),
        (16, 5, memory(4)),
        (16, 16, memory(4)),
    ];
    refused(&rt, &Cluster::new(4, 1, 0, 0)?, &cases);
    let cases = [
        (3, 4, table(4)),
        (5, 5, table(4)),
        (4, 3, memory(4)),
        (4, 5, memory(4)),
    ];
    refused(&rt, &Cluster::new(4, 0, 0, 0)?, &cases);
    let cases = [
        (65_535, 16, table(65_536)),
        (65_537, 17, table(65_536)),
        (65_536, 15, memory(16)),
        (65_536, 17, memory(16)),
    ];
    refused(&rt, &Cluster::new(16, 3, 0, 0)?, &cases);
    Ok(())
}

fn of_length(length: usize) -> Result<u32, relay::Refusal> {
    Err(relay::Refusal::PathLength { length })
}

fn at(place: usize) -> Result<u32, relay::Refusal> {
    Err(relay::Refusal::Node { place })
}

// A path's length comes before its nodes, and of the nodes that are wrong the first.
#[test]
fn paths_refused(rt: HostRuntime) -> Result<(), Fail> {
    let cases = [
        ([0].as_slice(), Ok(9)),
        (&[3, 0], Ok(9)),
        (&[], of_length(0)),
        (&[0, 1, 2], of_length(3)),
        (&[4, 4, 4], of_length(3)),
        (&[4], at(0)),
        (&[255], at(0)),
        (&[4, 4], at(0)),
        (&[0, 4], at(1)),
        (&[3, 3], at(1)),
    ];
    makes(&rt, &Cluster::new(4, 1, 0, 0)?, &[9; 16], &cases);
    let cases = [
        ([15, 0, 14, 1].as_slice(), Ok(9)),
        (&[0, 1, 2, 3, 4], of_length(5)),
        (&[15, 16], at(1)),
        (&[3, 3, 16], at(1)),
        (&[3, 2, 3, 16], at(2)),
        (&[3, 2, 1, 2], at(3)),
    ];
    makes(
        &rt,
        &Cluster::new(16, 3, 0, 0)?,
        &[9; MAX_TABLE_LENGTH],
        &cases,
    );
    let cases = [
        ([3].as_slice(), Ok(9)),
        (&[], of_length(0)),
        (&[0, 1], of_length(2)),
    ];
    makes(&rt, &Cluster::new(4, 0, 0, 0)?, &[9; 4], &cases);
    Ok(())
}

// The table comes first, also where a row is no path.
#[test]
fn tables_of_another_length(rt: HostRuntime) -> Result<(), Fail> {
    let cluster = Cluster::new(4, 1, 0, 0)?;
    let why = relay::Refusal::TableLength { needed: 16 };
    for length in [0, 4, 15, 17, 64] {
        for path in [[0].as_slice(), &[3, 0], &[], &[4], &[0, 0], &[0, 1, 2]] {
            made_is(&rt, made_of(&cluster, &[9; 64][..length], path), Err(why));
        }
    }
    Ok(())
}

#[test]
fn codes(rt: HostRuntime) {
    let length = relay::Refusal::PathLength { length: 5 };
    let node = relay::Refusal::Node { place: 3 };
    for (refusal, number, place) in [
        (table(65_536), 10, 65_536),
        (memory(16), 10, 16),
        (Refusal::from(length), 11, 5),
        (Refusal::from(node), 11, 3),
    ] {
        assert_eq!(rt; Code::from(refusal), Code { number, place });
    }
}
