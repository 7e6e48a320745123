//! What a script says of one round.
ghost use Rattle.std.specs.Prelude.{◌≡◌, ◌<◌, [], ◌++◌, ◌∷◌, replicate, Some, None, MatchOption, IfOk, IfErr};
ghost use Rattle.std.specs.Fmt.{WritesOnOk};
ghost use Rattle.script.specs.Hex.{digits_of};
ghost use Rattle.script.specs.Text.{byte_text, message_text, message_at, round_text, each_of, given_line, jitter_lines, given_text};
ghost use Rattle.script.specs.declared.entry.Entry.TheVariants as entry;
ghost use Rattle.script.specs.Rounds.{is_message, only_message, nothing_given, jitter_of, drift_of, next_of, with_entry, with_place};

use crate::hex::digits_of;
use midpoint::MAX_NODES;
use std::alloc::{AllocError, Global};
use std::fmt;

/// A message of a bad node in its slot, as one good node gets it: the bytes, and how far that one then reads the sender's
/// clock to be ahead of common time.
#[derive(Drop)]
pub struct Message {
    pub from: usize,
    pub to: usize,
    pub reading: u64,
    pub bytes: Vec<u8>,
}

/// What is given of the good nodes: by how much one reads another one wrong; by how much its clock runs off after its setting; and
/// the value that it gives in the next cycle. What is not given is 0, and for a value the one that was given last.
#[derive(Clone, Copy)]
pub struct Given {
    pub jitter: [[Option<i64>; MAX_NODES]; MAX_NODES],
    pub drift: [Option<i64>; MAX_NODES],
    pub next: [Option<u32>; MAX_NODES],
}

/// A round: the messages of the bad nodes, and what is given of the good ones.
#[derive(Drop)]
pub struct Round {
    pub messages: Vec<Message>,
    pub given: Given,
}

impl Message {
    // It goes to one node, from another.
    fn is_between(&self, to: usize, from: usize) -> bool
        ensures { result ≡ is_message to from self.now }
    {
        self.to == to && self.from == from
    }
}

impl Given {
    /// Nothing is given.
    pub fn nothing() -> Given
        ensures { result ≡ nothing_given }
    {
        Given {
            jitter: [[None; MAX_NODES]; MAX_NODES],
            drift: [None; MAX_NODES],
            next: [None; MAX_NODES],
        }
    }

    /// By how much node `p` reads the good node `q` wrong; 0 past the largest cluster.
    pub fn jitter_of(&self, p: usize, q: usize) -> i64
        ensures { result ≡ jitter_of self.now p q }
    {
        let row = self.jitter.get(p);
        row.and_then(|row| row.get(q).copied().flatten())
            .unwrap_or(0)
    }

    /// By how much the clock of node `p` runs off; 0 past the largest cluster.
    pub fn drift_of(&self, p: usize) -> i64
        ensures { result ≡ drift_of self.now p }
    {
        self.drift.get(p).copied().flatten().unwrap_or(0)
    }

    /// The value that node `p` gives in the next cycle, if one is given; none past the largest cluster.
    pub fn next_of(&self, p: usize) -> Option<u32>
        ensures { result ≡ next_of self.now p }
    {
        self.next.get(p).copied().flatten()
    }

    /// Node `p` reads the good node `q` wrong by so much. A node past the largest cluster changes nothing.
    pub fn set_jitter(&mut self, p: usize, q: usize, by: i64)
        ensures jitter { self.new.jitter ≡ with_entry self.old.jitter p q (Some by) }
        ensures drift { self.new.drift ≡ self.old.drift }
        ensures next { self.new.next ≡ self.old.next }
    {
        if p < MAX_NODES && q < MAX_NODES {
            self.jitter[p][q] = Some(by);
        }
    }

    /// The clock of node `p` runs off by so much. A node past the largest cluster changes nothing.
    pub fn set_drift(&mut self, p: usize, by: i64)
        ensures jitter { self.new.jitter ≡ self.old.jitter }
        ensures drift { self.new.drift ≡ with_place self.old.drift p (Some by) }
        ensures next { self.new.next ≡ self.old.next }
    {
        if p < MAX_NODES {
            self.drift[p] = Some(by);
        }
    }

    /// Node `p` gives this value in the next cycle. A node past the largest cluster changes nothing.
    pub fn set_next(&mut self, p: usize, value: u32)
        ensures jitter { self.new.jitter ≡ self.old.jitter }
        ensures drift { self.new.drift ≡ self.old.drift }
        ensures next { self.new.next ≡ with_place self.old.next p (Some value) }
    {
        if p < MAX_NODES {
            self.next[p] = Some(value);
        }
    }
}

impl Round {
    /// A round of which nothing is said.
    pub fn new(heap: Global) -> Round
        ensures messages { result.messages.items ≡ [] }
        ensures given { result.given ≡ nothing_given }
    {
        Round {
            messages: Vec::new(heap),
            given: Given::nothing(),
        }
    }

    /// One message more. Where memory is wanting, the round is as it was.
    pub fn add_message(&mut self, message: Message) -> Result<(), AllocError>
        ensures ok { IfOk result (λ _. self.new.messages.items ≡ self.old.messages.items ++ message ∷ []) }
        ensures err { IfErr result (λ _. self.new.messages.items ≡ self.old.messages.items) }
        ensures given { self.new.given ≡ self.old.given }
    {
        self.messages.push(message)?;
        Ok(())
    }

    /// The message of node `from` to node `to`; nothing if there is none, or more than one.
    pub fn only_message(&self, to: usize, from: usize) -> Option<&Message>
        ensures { MatchOption result (only_message self.now to from ≡ None) (λ message. only_message self.now to from ≡ Some message.now) }
    {
        let mut found = None;
        for message in &self.messages {
            if message.is_between(to, from) {
                if found.is_some() {
                    return None;
                }
                found = Some(message);
            }
        }
        found
    }
}

// The lines of a round. A message is written as its bytes.
impl fmt::Display for Round {
    ghost output = { λ round. Some (round_text round) };

    fn fmt<W: fmt::Write>(&self, f: &mut fmt::Formatter<W>) -> fmt::Result {
        writeln!(f, "round")?;
        write_messages(f, &self.messages)?;
        write!(f, "{}", self.given)
    }
}

fn write_messages<W: fmt::Write>(f: &mut fmt::Formatter<W>, row: &[Message]) -> fmt::Result
    ensures { WritesOnOk W.write_str_gives f.old result (each_of message_at 0 row.now) f.new }
{
    for message in row {
        write!(f, "{message}")?;
    }
    Ok(())
}

impl fmt::Display for Message {
    ghost output = { λ message. Some (message_text message) };

    fn fmt<W: fmt::Write>(&self, f: &mut fmt::Formatter<W>) -> fmt::Result {
        let from = self.from;
        let to = self.to;
        let reading = self.reading;
        write!(f, "says {from} to {to} reading {reading} bytes ")?;
        write_bytes(f, &self.bytes)?;
        writeln!(f)
    }
}

fn write_bytes<W: fmt::Write>(f: &mut fmt::Formatter<W>, row: &[u8]) -> fmt::Result
    ensures { WritesOnOk W.write_str_gives f.old result (each_of byte_text 0 row.now) f.new }
{
    for byte in row {
        write_byte(f, *byte)?;
    }
    Ok(())
}

fn write_byte<W: fmt::Write>(f: &mut fmt::Formatter<W>, byte: u8) -> fmt::Result
    ensures { WritesOnOk W.write_str_gives f.old result (digits_of byte) f.new }
{
    let [high, low] = digits_of(byte);
    write!(f, "{high}{low}")
}

impl fmt::Display for Given {
    ghost output = { λ given. Some (given_text given) };

    fn fmt<W: fmt::Write>(&self, f: &mut fmt::Formatter<W>) -> fmt::Result {
        write_all_jitters(f, &self.jitter)?;
        write_drifts(f, &self.drift)?;
        write_values(f, &self.next)
    }
}

fn write_all_jitters<W: fmt::Write>(
    f: &mut fmt::Formatter<W>,
    rows: &[[Option<i64>; MAX_NODES]],
) -> fmt::Result
    ensures { WritesOnOk W.write_str_gives f.old result (each_of jitter_lines 0 rows.now) f.new }
{
    for (node, row) in rows.iter().enumerate() {
        write_jitters(f, node, row)?;
    }
    Ok(())
}

fn write_jitters<W: fmt::Write>(
    f: &mut fmt::Formatter<W>,
    node: usize,
    row: &[Option<i64>],
) -> fmt::Result
    ensures { WritesOnOk W.write_str_gives f.old result (jitter_lines node row.now) f.new }
{
    for (of, by) in row.iter().enumerate() {
        write_jitter(f, node, of, *by)?;
    }
    Ok(())
}

fn write_jitter<W: fmt::Write>(
    f: &mut fmt::Formatter<W>,
    node: usize,
    of: usize,
    by: Option<i64>,
) -> fmt::Result
    ensures { WritesOnOk W.write_str_gives f.old result (given_line (entry.Jitter node) of by) f.new }
{
    match by {
        Some(by) => writeln!(f, "jitter {node} of {of} by {by}"),
        None => Ok(()),
    }
}

fn write_drifts<W: fmt::Write>(f: &mut fmt::Formatter<W>, row: &[Option<i64>]) -> fmt::Result
    ensures { WritesOnOk W.write_str_gives f.old result (each_of (given_line entry.Drift) 0 row.now) f.new }
{
    for (node, by) in row.iter().enumerate() {
        write_drift(f, node, *by)?;
    }
    Ok(())
}

fn write_drift<W: fmt::Write>(
    f: &mut fmt::Formatter<W>,
    node: usize,
    by: Option<i64>,
) -> fmt::Result
    ensures { WritesOnOk W.write_str_gives f.old result (given_line entry.Drift node by) f.new }
{
    match by {
        Some(by) => writeln!(f, "drift {node} by {by}"),
        None => Ok(()),
    }
}

fn write_values<W: fmt::Write>(f: &mut fmt::Formatter<W>, row: &[Option<u32>]) -> fmt::Result
    ensures { WritesOnOk W.write_str_gives f.old result (each_of (given_line entry.Value) 0 row.now) f.new }
{
    for (node, next) in row.iter().enumerate() {
        write_value(f, node, *next)?;
    }
    Ok(())
}

fn write_value<W: fmt::Write>(
    f: &mut fmt::Formatter<W>,
    node: usize,
    next: Option<u32>,
) -> fmt::Result
    ensures { WritesOnOk W.write_str_gives f.old result (given_line entry.Value node next) f.new }
{
    match next {
        Some(next) => writeln!(f, "value {node} next {next}"),
        None => Ok(()),
    }
}
