//! Scripts, what is read of them, and what is wrong with those that are turned away. What is expected follows from the rules, worked
//! out by hand.
use crate::reader::Reader;
use crate::reason::Fault;
use crate::round::{Given, Message, Round};
use crate::setup::{Setup, Starting};
use std::alloc::Global;
use std::fmt::Write;
use std::process::Abort;
use std::test::Fail;

// Eight lines: nodes 0, 1 and 2 are good, node 3 is bad, and a round has begun. The error is 9.
const HEAD: &str = "cluster nodes 4 faults 1 drift 2 jitter 5
timing length 1000 pause 300 message 200 wire 8
good 0 value 5 ahead 1000
good 1 value 6 ahead 1004
good 2 value 7 ahead 1010
bad 3

round # the line after this one is the ninth
";

// The same as it is written, without the round.
const SETUP: &str = "cluster nodes 4 faults 1 drift 2 jitter 5
timing length 1000 pause 300 message 200 wire 8
good 0 value 5 ahead 1000
good 1 value 6 ahead 1004
good 2 value 7 ahead 1010
bad 3
";

// Two lines: none of its four nodes is named yet.
const UNNAMED: &str = "cluster nodes 4 faults 1 drift 0 jitter 0
timing length 457 pause 137 message 200 wire 8
";

// A script that has been read to its end.
#[derive(Drop)]
struct Script {
    setup: Option<Setup>,
    rounds: Vec<Round>,
}

fn read<'a>(heap: Global, text: &'a str) -> Result<Script, Fault<'a>> {
    let mut reader = Reader::new(heap);
    let mut rounds = Vec::new(heap);
    for line in text.lines() {
        keep(&mut rounds, reader.line(line)?)?;
    }
    keep(&mut rounds, reader.end()?)?;
    Ok(Script {
        setup: reader.setup().copied(),
        rounds,
    })
}

fn keep(rounds: &mut Vec<Round>, round: Option<Round>) -> Result<(), Fault<'static>> {
    match round {
        Some(round) => rounds.push(round).map_err(|_| Fault::Memory),
        None => Ok(()),
    }
}

// What is written of a script that is taken, or what is wrong with it.
fn answer(heap: Global, text: &str) -> Result<String, Fail> {
    match read(heap, text) {
        Ok(script) => written(heap, &script),
        Err(fault) => Ok(format!(in heap; "{fault}\n")?),
    }
}

fn written(heap: Global, script: &Script) -> Result<String, Fail> {
    let mut out = String::new(heap);
    if let Some(setup) = &script.setup {
        write!(out, "{setup}")?;
    }
    for round in &script.rounds {
        write!(out, "{round}")?;
    }
    Ok(out)
}

// Lines behind a head. In them ` / ` ends a line.
fn lines_of(heap: Global, head: &str, lines: &str) -> Result<String, Fail> {
    let mut text = String::from_str(heap, head)?;
    for line in lines.split(" / ") {
        writeln!(text, "{line}")?;
    }
    Ok(text)
}

// Each case is a line `SCRIPT => ANSWER`, each behind its head.
fn answers(rt: &impl Abort, heap: Global, heads: [&str; 2], cases: &str) -> Result<(), Fail> {
    for case in cases.lines() {
        let (script, expected) = case.split_once(" => ").unwrap_or((case, ""));
        let text = lines_of(heap, heads[0], script)?;
        let expected = lines_of(heap, heads[1], expected)?;
        let answer = answer(heap, text.as_str())?;
        assert_eq!(rt; answer.as_str(), expected.as_str(), "{}", case);
    }
    Ok(())
}

#[test]
fn configurations(rt: HostRuntime) -> Result<(), Fail> {
    answers(
        &rt,
        rt.alloc(),
        ["cluster ", "line "],
        "nodes 4 faults 1 drift 1000 jitter 1000 => 2: expected 'timing'
nodes 16 faults 3 drift 0 jitter 0 => 2: expected 'timing'
nodes 7 faults 2 drift 1000 jitter 0 => 2: expected 'timing'
nodes 3 faults 0 drift 0 jitter 0 => 1: refused 4 at 0: a cluster has 4 to 16 nodes
nodes 17 faults 4 drift 2000 jitter 2000 => 1: refused 4 at 0: a cluster has 4 to 16 nodes
nodes 18446744073709551615 faults 0 drift 0 jitter 0 => 1: refused 4 at 0: a cluster has 4 to 16 nodes
nodes 16 faults 4 drift 0 jitter 0 => 1: refused 4 at 1: a cluster allows at most 3 faults
nodes 6 faults 2 drift 1001 jitter 0 => 1: refused 4 at 1: the nodes are not more than three times the faults
nodes 4 faults 0 drift 1001 jitter 1001 => 1: refused 5 at 0: the drift is above 1000
nodes 4 faults 0 drift 1000 jitter 1001 => 1: refused 5 at 1: the jitter is above 1000
nodes 4 faults 1 drift 0 => 1: expected 'jitter'
nodes 4 faults 1 drift 0 jitter => 1: expected a whole number below 2^64 after 'jitter'
nodes 4 faults 1 drift 0 jitter 0 0 => 1: '0' is one word too many
nodes 4 faults 1 drift 0 jitter 18446744073709551616 => 1: expected a whole number below 2^64 after 'jitter'
nodes 4 faults 1 drift 0 jitter 0 / bad 1 => 2: expected 'timing'",
    )
}

// With 7 nodes, drift 5 and jitter 10 the error is 20, the bound 102 and the width 112.
#[test]
fn timings(rt: HostRuntime) -> Result<(), Fail> {
    let head = "cluster nodes 7 faults 2 drift 5 jitter 10\ntiming ";
    answers(
        &rt,
        rt.alloc(),
        [head, "line "],
        "length 457 pause 137 message 200 wire 8 => 3: node 0 is named neither good nor bad
length 1000000000 pause 137 message 200 wire 8 => 3: node 0 is named neither good nor bad
length 456 pause 136 message 200 wire 8 => 2: refused 6 at 0: the pause is shorter than width, error and drift together
length 456 pause 137 message 200 wire 8 => 2: refused 6 at 1: the length is shorter than pause, wire, width and message together
length 457 pause 138 message 200 wire 8 => 2: refused 6 at 1: the length is shorter than pause, wire, width and message together
length 1000000001 pause 137 message 200 wire 8 => 2: refused 6 at 1: the length is above 10^9
length 1000 pause 137 message 0 wire 18446744073709551615 => 2: refused 6 at 1: the length is shorter than pause, wire, width and message together
length 1000 pause 18446744073709551615 message 18446744073709551615 wire 18446744073709551615 => 2: refused 6 at 1: the length is shorter than pause, wire, width and message together",
    )
}

#[test]
fn nodes(rt: HostRuntime) -> Result<(), Fail> {
    answers(
        &rt,
        rt.alloc(),
        [UNNAMED, "line "],
        "bad 0 / good 1 value 4294967295 ahead 18446744073709551615 / bad 3 /  => 7: node 2 is named neither good nor bad
bad 4 => 3: node 4 is past the cluster
good 18446744073709551615 value 1 ahead 1 => 3: node 18446744073709551615 is past the cluster
bad 1 / good 1 value 0 ahead 0 => 4: node 1 is named twice
bad 0 / bad 1 / bad 2 / round => 6: node 3 is named neither good nor bad
says 0 to 1 reading 1 value 1 => 3: expected 'good', 'bad' or 'round'
value 0 next 1 => 3: expected 'good', 'bad' or 'round'
good 1 value 4294967296 ahead 0 => 3: expected a whole number below 2^32 after 'value'
good 1 ahead 0 value 1 => 3: expected 'value'
good one value 1 ahead 0 => 3: expected a whole number below 2^64 after 'good'
good 1 value 1 ahead -1 => 3: expected a whole number below 2^64 after 'ahead'
good 1 value 1 ahead 18446744073709551616 => 3: expected a whole number below 2^64 after 'ahead'
bad => 3: expected a whole number below 2^64 after 'bad'",
    )?;
    answers(
        &rt,
        rt.alloc(),
        [UNNAMED, UNNAMED],
        "bad 0 / bad 1 / bad 2 / bad 3 => bad 0 / bad 1 / bad 2 / bad 3
bad 3 / bad 2 / good 1 value 4294967295 ahead 18446744073709551615 / bad 0 / round => bad 0 / good 1 value 4294967295 ahead 18446744073709551615 / bad 2 / bad 3 / round",
    )
}

// The last line of a file may have no end; an empty file has no lines.
#[test]
fn files(rt: HostRuntime) -> Result<(), Fail> {
    let heap = rt.alloc();
    let written = answer(heap, "")?;
    assert_eq!(rt; written.as_str(), "line 1: expected 'cluster'\n");
    let written = answer(heap, "# nothing\r\n\r\n")?;
    assert_eq!(rt; written.as_str(), "line 3: expected 'cluster'\n");
    let written = answer(heap, "clutser nodes 4")?;
    assert_eq!(rt; written.as_str(), "line 1: unknown word 'clutser'\n");
    let written = answer(heap, "round\n")?;
    assert_eq!(rt; written.as_str(), "line 1: expected 'cluster'\n");
    Ok(())
}

// A message of values is the sender, the round in four bytes, and four bytes for each value, the low byte first.
#[test]
fn messages(rt: HostRuntime) -> Result<(), Fail> {
    answers(
        &rt,
        rt.alloc(),
        [HEAD, SETUP],
        "# nothing => round
says 3 to 0 reading 1008 value 9 => round / says 3 to 0 reading 1008 bytes 030000000009000000
says 3 to 2 reading 18446744073709551615 value 4294967295 0 258 => round / says 3 to 2 reading 18446744073709551615 bytes 0300000000ffffffff0000000002010000
says 3 to 1 reading 0 bytes 0300000000fFAbcDeF / says 3 to 1 reading 0 bytes 00 => round / says 3 to 1 reading 0 bytes 0300000000ffabcdef / says 3 to 1 reading 0 bytes 00
round / round / says 3 to 1 reading 0 value 1 / round / says 3 to 1 reading 0 value 1 => round / round / round / says 3 to 1 reading 0 bytes 030200000001000000 / round / says 3 to 1 reading 0 bytes 030300000001000000
says 3 to 0 reading 1008 bytes 09#x => round / says 3 to 0 reading 1008 bytes 09
\t  says\t3 to 0 reading 1008  bytes 09\t => round / says 3 to 0 reading 1008 bytes 09",
    )
}

#[test]
fn wrong_messages(rt: HostRuntime) -> Result<(), Fail> {
    answers(
        &rt,
        rt.alloc(),
        [HEAD, "line 9: "],
        "says 3 to 3 reading 1 value 9 => node 3 is bad, and a good one has to stand here
says 0 to 1 reading 1 value 9 => node 0 is good, and a bad one has to stand here
says 0 to 3 reading 1 bytes 00 => node 0 is good, and a bad one has to stand here
says 4 to 1 reading 1 value 9 => node 4 is past the cluster
says 3 to 4 reading 1 bytes 00 => node 4 is past the cluster
says 3 to 1 reading 1 value => expected a whole number below 2^32 after 'value'
says 3 to 1 reading 1 value 9 -9 => expected a whole number below 2^32 after 'value'
says 3 to 1 reading 1 value 4294967296 => expected a whole number below 2^32 after 'value'
says 4 to 1 reading 1 value 1 4294967296 => expected a whole number below 2^32 after 'value'
says 3 to 1 reading 1 bytes => expected an even number of hex digits, at least two, after 'bytes'
says 3 to 1 reading 1 bytes 0 => expected an even number of hex digits, at least two, after 'bytes'
says 3 to 1 reading 1 bytes 03000 => expected an even number of hex digits, at least two, after 'bytes'
says 3 to 1 reading 1 bytes 0g => expected an even number of hex digits, at least two, after 'bytes'
says 3 to 1 reading 1 bytes +0 => expected an even number of hex digits, at least two, after 'bytes'
says 3 to 1 reading 1 bytes @` => expected an even number of hex digits, at least two, after 'bytes'
says 3 to 1 reading 1 bytes 0:/0 => expected an even number of hex digits, at least two, after 'bytes'
says 3 to 1 reading 1 bytes é => expected an even number of hex digits, at least two, after 'bytes'
says 3 to 1 reading 1 bytes 00 11 => '11' is one word too many
says 3 to 1 reading 1 => expected 'value' or 'bytes'
says 3 to 1 reading 1 values 1 => expected 'value' or 'bytes'
says 3 to 1 value 1 => expected 'reading'
says 3 reading 1 value 1 => expected 'to'",
    )
}

#[test]
fn given_of_good_nodes(rt: HostRuntime) -> Result<(), Fail> {
    answers(
        &rt,
        rt.alloc(),
        [HEAD, SETUP],
        "jitter 0 of 1 by -9 => round / jitter 0 of 1 by -9
jitter 0 of 1 by 9 => round / jitter 0 of 1 by 9
jitter 1 of 0 by +1 / jitter 0 of 1 by 0 / round / jitter 0 of 1 by 0 => round / jitter 0 of 1 by 0 / jitter 1 of 0 by 1 / round / jitter 0 of 1 by 0
drift 0 by 2 => round / drift 0 by 2
drift 2 by -2 / drift 1 by 0 / round / drift 2 by 1 => round / drift 1 by 0 / drift 2 by -2 / round / drift 2 by 1
value 1 next 4294967295 / value 0 next 0 / round / value 1 next 8 => round / value 0 next 0 / value 1 next 4294967295 / round / value 1 next 8",
    )
}

#[test]
fn wrong_given(rt: HostRuntime) -> Result<(), Fail> {
    answers(
        &rt,
        rt.alloc(),
        [HEAD, "line "],
        "jitter 0 of 1 by 10 => 9: a jitter is at most the error, 9, either way
jitter 0 of 1 by -10 => 9: a jitter is at most the error, 9, either way
jitter 2 of 1 by -9223372036854775808 => 9: a jitter is at most the error, 9, either way
jitter 0 of 1 by 1 / jitter 1 of 0 by 1 / jitter 0 of 1 by 1 => 11: the jitter 0 of 1 stands twice in this round
jitter 0 of 3 by 1 => 9: node 3 is bad, and a good one has to stand here
jitter 3 of 0 by 1 => 9: node 3 is bad, and a good one has to stand here
jitter 4 of 0 by 1 => 9: node 4 is past the cluster
jitter 0 of 4 by 1 => 9: node 4 is past the cluster
jitter 2 of 2 by 0 => 9: node 2 reads its own clock as it is
jitter 2 of 1 by 1.5 => 9: expected a whole number from -2^63 to 2^63 - 1 after 'by'
jitter 2 of 1 by 9223372036854775808 => 9: expected a whole number from -2^63 to 2^63 - 1 after 'by'
drift 2 by 3 => 9: a drift is at most 2 either way
drift 2 by -3 => 9: a drift is at most 2 either way
drift 2 by 1 / drift 2 by 1 => 10: the drift 2 stands twice in this round
drift 3 by 1 => 9: node 3 is bad, and a good one has to stand here
drift 4 by 1 => 9: node 4 is past the cluster
drift 2 => 9: expected 'by'
value 1 next 8 / value 2 next 8 / value 1 next 9 => 11: the next value of 1 stands twice in this round
value 3 next 1 => 9: node 3 is bad, and a good one has to stand here
value 4 next 1 => 9: node 4 is past the cluster
value 1 next 4294967296 => 9: expected a whole number below 2^32 after 'next'
value 1 next -1 => 9: expected a whole number below 2^32 after 'next'
value 1 next => 9: expected a whole number below 2^32 after 'next'
value 1 8 => 9: expected 'next'
value 1 next 8 9 => 9: '9' is one word too many
bad 3 => 9: expected 'round', 'says', 'jitter', 'drift' or 'value'
timing length 457 pause 137 message 200 wire 8 => 9: expected 'round', 'says', 'jitter', 'drift' or 'value'
round 2 => 9: '2' is one word too many
# one /  / rond => 11: unknown word 'rond'",
    )
}

// A script with lines of every kind, and one line end of each kind; and how it is written.
const ALL_KINDS: &str = "cluster nodes 4 faults 1 drift 2 jitter 5\r
timing length 1000 pause 300 message 200 wire 8
bad 3
good 0 value 5 ahead 1000
good 1 value 6 ahead 1004
good 2 value 7 ahead 1010
round
value 2 next 8
drift 2 by -2
jitter 1 of 0 by 9 # all kinds
jitter 0 of 2 by -9\r
says 3 to 1 reading 1100 value 2 9 9
round

round
says 3 to 1 reading 0 bytes 0300000000Ff
says 3 to 2 reading 18446744073709551615 value 4294967295
  says 3 to 1 reading 1 bytes 00
drift 0 by 1";

const ALL_WRITTEN: &str = "cluster nodes 4 faults 1 drift 2 jitter 5
timing length 1000 pause 300 message 200 wire 8
good 0 value 5 ahead 1000
good 1 value 6 ahead 1004
good 2 value 7 ahead 1010
bad 3
round
says 3 to 1 reading 1100 bytes 0300000000020000000900000009000000
jitter 0 of 2 by -9
jitter 1 of 0 by 9
drift 2 by -2
value 2 next 8
round
round
says 3 to 1 reading 0 bytes 0300000000ff
says 3 to 2 reading 18446744073709551615 bytes 0302000000ffffffff
says 3 to 1 reading 1 bytes 00
drift 0 by 1
";

// Read, written, and read again it is the same.
#[test]
fn read_again(rt: HostRuntime) -> Result<(), Fail> {
    let heap = rt.alloc();
    let once = answer(heap, ALL_KINDS)?;
    assert_eq!(rt; once.as_str(), ALL_WRITTEN);
    let again = answer(heap, ALL_WRITTEN)?;
    assert_eq!(rt; again.as_str(), ALL_WRITTEN);
    let (Ok(once), Ok(again)) = (read(heap, ALL_KINDS), read(heap, ALL_WRITTEN)) else {
        panic!(rt; "both are taken");
    };
    assert!(rt; same_setups(once.setup, again.setup));
    assert!(rt; once.rounds.len() == 3 && again.rounds.len() == 3);
    let mut pairs = once.rounds.iter().zip(again.rounds.iter());
    assert!(rt; pairs.all(|(round, other)| same_rounds(round, other)));
    Ok(())
}

fn same_setups(setup: Option<Setup>, other: Option<Setup>) -> bool {
    match (setup, other) {
        (Some(setup), Some(other)) => {
            setup.schedule == other.schedule && setup.starting == other.starting
        }
        _ => false,
    }
}

fn same_rounds(round: &Round, other: &Round) -> bool {
    let mut pairs = round.messages.iter().zip(other.messages.iter());
    round.messages.len() == other.messages.len()
        && pairs.all(|(message, other)| same_messages(message, other))
        && round.given.jitter == other.given.jitter
        && round.given.drift == other.given.drift
        && round.given.next == other.given.next
}

fn same_messages(message: &Message, other: &Message) -> bool {
    message.from == other.from
        && message.to == other.to
        && message.reading == other.reading
        && message.bytes.as_slice() == other.bytes.as_slice()
}

// Two hundred and fifty-eight rounds have ended, so this one is told as 258.
#[test]
fn later_rounds(rt: HostRuntime) -> Result<(), Fail> {
    let heap = rt.alloc();
    let mut reader = Reader::new(heap);
    for line in HEAD.lines() {
        assert!(rt; reader.line(line).is_ok());
    }
    for _ in 0..258 {
        assert!(rt; matches!(reader.line("round"), Ok(Some(_))));
    }
    assert!(rt; matches!(reader.line("says 3 to 0 reading 1 value 7"), Ok(None)));
    let Ok(Some(last)) = reader.end() else {
        panic!(rt; "a round is under way");
    };
    let last = format!(in heap; "{last}")?;
    assert_eq!(rt;
        last.as_str(),
        "round\nsays 3 to 0 reading 1 bytes 030201000007000000\n"
    );
    Ok(())
}

// The setup is known once the last node is named, and not before. Past the cluster nodes are bad.
#[test]
fn setup_while_reading(rt: HostRuntime) -> Result<(), Fail> {
    let mut reader = Reader::new(rt.alloc());
    for line in HEAD.lines() {
        let named = line.is_empty() || line.starts_with("round");
        assert_eq!(rt; reader.setup().is_some(), named, "{}", line);
        assert!(rt; matches!(reader.line(line), Ok(None)));
    }
    let Some(setup) = reader.setup() else {
        panic!(rt; "all nodes are named");
    };
    let good = Starting::Good {
        value: 7,
        ahead: 1010,
    };
    assert!(rt; setup.starting[2] == good && setup.starting[3] == Starting::Bad);
    assert!(rt; setup.starting[15] == Starting::Bad && good.is_good());
    Ok(())
}

// Of two messages between the same two nodes none is the only one; and what is given is kept.
#[test]
fn rounds_by_hand(rt: HostRuntime) -> Result<(), Fail> {
    let heap = rt.alloc();
    let mut round = Round::new(heap);
    for (to, reading) in [(0, 10), (1, 11), (1, 12)] {
        round.add_message(Message {
            from: 3,
            to,
            reading,
            bytes: Vec::new(heap),
        })?;
    }
    assert_eq!(rt;
        round.only_message(0, 3).map(|message| message.reading),
        Some(10)
    );
    assert!(rt; round.only_message(1, 3).is_none());
    let mut given = Given::nothing();
    given.set_jitter(1, 2, -3);
    given.set_drift(15, 5);
    given.set_next(0, 0);
    assert!(rt; given.jitter_of(1, 2) == -3 && given.jitter_of(2, 1) == 0);
    assert!(rt; given.drift_of(15) == 5 && given.next_of(0) == Some(0));
    Ok(())
}
