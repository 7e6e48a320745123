//! Why a script is turned away, and the words for it.
ghost use Rattle.std.specs.Prelude.{◌≡◌};
ghost use Rattle.script.specs.Reading.{fault_at};
ghost use Rattle.script.specs.declared.reason.Reason.TheVariants as reasons;
ghost use Rattle.script.specs.declared.reason.Untaken.TheVariants as untaken;
ghost use Rattle.script.specs.declared.reason.Fault.TheVariants as faults;

use midpoint::Code;
use std::alloc::{AllocError, AllocFailed};
use std::fmt;

/// Why a line cannot be read.
#[derive(Clone, Copy)]
pub enum Malformed<'a> {
    /// No line begins with this word.
    UnknownWord { word: &'a str },
    /// This word has to stand next.
    Missing { word: &'static str },
    /// One of the two words for what a message is has to stand next.
    NoContent,
    /// A number has to stand behind this word.
    NotANumber { after: &'static str, range: Range },
    /// The digits of bytes have to stand next.
    NotBytes,
    /// The line goes on behind its end.
    TooLong { word: &'a str },
}

/// The numbers that fit at a place.
#[derive(Clone, Copy)]
pub enum Range {
    /// From 0 to 2^64 - 1.
    Natural64,
    /// From 0 to 2^32 - 1.
    Natural32,
    /// From -2^63 to 2^63 - 1.
    Signed64,
}

/// The lines that fit at a place.
#[derive(Clone, Copy)]
pub enum Lines {
    /// The first line.
    Cluster,
    /// The second line.
    Timing,
    /// The lines that name nodes, and what ends them.
    Nodes,
    /// The lines of rounds.
    Rounds,
}

/// Why a line that can be read does not fit where it stands.
#[derive(Clone, Copy)]
pub enum Misfit {
    /// Another line has to stand here.
    Expected(Lines),
    /// There is no cluster with these numbers.
    NoCluster(clock::Unfit),
    /// There is no schedule of it with these times.
    NoSchedule(schedule::Unfit),
    /// The cluster does not have this node.
    PastTheCluster { node: u64 },
    /// This node is named a second time.
    NamedTwice { node: u64 },
    /// This node has to be named before rounds begin.
    NotNamed { node: u64 },
    /// A good node has to stand here.
    NotGood { node: u64 },
    /// A bad node has to stand here.
    NotBad { node: u64 },
    /// A node reads its own clock as it is.
    OwnClock { node: u64 },
    /// A jitter that is past the error.
    JitterPast { most: u64 },
    /// A drift that is past the cluster's.
    DriftPast { most: u64 },
    /// A second jitter of the same two nodes in a round.
    JitterTwice { node: u64, of: u64 },
    /// A second drift of the same node in a round.
    DriftTwice { node: u64 },
    /// A second next value of the same node in a round.
    ValueTwice { node: u64 },
}

/// Why a line is turned away.
#[derive(Clone, Copy)]
pub enum Reason<'a> {
    /// It cannot be read.
    Malformed(Malformed<'a>),
    /// It does not fit where it stands.
    Misfit(Misfit),
}

/// Why a script is read no further: a line that is turned away, or want of memory.
#[derive(Clone, Copy)]
pub enum Fault<'a> {
    /// This line is turned away; the first one is line 1.
    Line { line: u64, reason: Reason<'a> },
    /// Memory is wanting.
    Memory,
}

// Why a line is not taken, before it is said which one it is.
#[derive(Clone, Copy)]
pub(crate) enum Untaken<'a> {
    Wrong(Reason<'a>),
    Memory,
}

impl<'a> Untaken<'a> {
    // It is this line that is not taken.
    pub(crate) fn at(self, line: u64) -> Fault<'a>
        ensures { result ≡ fault_at line self.entry }
    {
        match self {
            Untaken::Wrong(reason) => Fault::Line { line, reason },
            Untaken::Memory => Fault::Memory,
        }
    }
}

impl<'a> From<Malformed<'a>> for Untaken<'a> {
    ghost from_gives = { λ malformed carried. carried ≡ untaken.Wrong (reasons.Malformed malformed) };

    fn from(malformed: Malformed<'a>) -> Untaken<'a> {
        Untaken::Wrong(Reason::Malformed(malformed))
    }
}

impl<'a> From<Misfit> for Untaken<'a> {
    ghost from_gives = { λ misfit carried. carried ≡ untaken.Wrong (reasons.Misfit misfit) };

    fn from(misfit: Misfit) -> Untaken<'a> {
        Untaken::Wrong(Reason::Misfit(misfit))
    }
}

impl<'a> From<AllocError> for Untaken<'a> {
    ghost from_gives = { λ _ carried. carried ≡ untaken.Memory };

    fn from(_error: AllocError) -> Untaken<'a> {
        Untaken::Memory
    }
}

impl<'a, T: Drop> From<AllocFailed<T>> for Untaken<'a> {
    ghost from_gives = { λ _ carried. carried ≡ untaken.Memory };

    fn from(_error: AllocFailed<T>) -> Untaken<'a> {
        Untaken::Memory
    }
}

/// Memory is wanting, for whoever takes the rounds of a script.
impl<'a> From<AllocError> for Fault<'a> {
    ghost from_gives = { λ _ fault. fault ≡ faults.Memory };

    fn from(_error: AllocError) -> Fault<'a> {
        Fault::Memory
    }
}

impl fmt::Display for Malformed<'_> {
    fn fmt<W: fmt::Write>(&self, f: &mut fmt::Formatter<W>) -> fmt::Result {
        match self {
            Malformed::UnknownWord { word } => write!(f, "unknown word '{word}'"),
            Malformed::Missing { word } => write!(f, "expected '{word}'"),
            Malformed::NoContent => write!(f, "expected 'value' or 'bytes'"),
            Malformed::NotANumber { after, range } => write!(f, "expected {range} after '{after}'"),
            Malformed::NotBytes => write!(
                f,
                "expected an even number of hex digits, at least two, after 'bytes'"
            ),
            Malformed::TooLong { word } => write!(f, "'{word}' is one word too many"),
        }
    }
}

impl fmt::Display for Range {
    fn fmt<W: fmt::Write>(&self, f: &mut fmt::Formatter<W>) -> fmt::Result {
        match self {
            Range::Natural64 => write!(f, "a whole number below 2^64"),
            Range::Natural32 => write!(f, "a whole number below 2^32"),
            Range::Signed64 => write!(f, "a whole number from -2^63 to 2^63 - 1"),
        }
    }
}

impl fmt::Display for Lines {
    fn fmt<W: fmt::Write>(&self, f: &mut fmt::Formatter<W>) -> fmt::Result {
        match self {
            Lines::Cluster => write!(f, "'cluster'"),
            Lines::Timing => write!(f, "'timing'"),
            Lines::Nodes => write!(f, "'good', 'bad' or 'round'"),
            Lines::Rounds => write!(f, "'round', 'says', 'jitter', 'drift' or 'value'"),
        }
    }
}

impl fmt::Display for Misfit {
    fn fmt<W: fmt::Write>(&self, f: &mut fmt::Formatter<W>) -> fmt::Result {
        match self {
            Misfit::Expected(lines) => write!(f, "expected {lines}"),
            Misfit::NoCluster(unfit) => write!(f, "refused {}: {unfit}", Code::from(*unfit)),
            Misfit::NoSchedule(unfit) => write!(f, "refused {}: {unfit}", Code::from(*unfit)),
            Misfit::PastTheCluster { node } => write!(f, "node {node} is past the cluster"),
            Misfit::NamedTwice { node } => write!(f, "node {node} is named twice"),
            Misfit::NotNamed { node } => write!(f, "node {node} is named neither good nor bad"),
            Misfit::NotGood { node } => {
                write!(f, "node {node} is bad, and a good one has to stand here")
            }
            Misfit::NotBad { node } => {
                write!(f, "node {node} is good, and a bad one has to stand here")
            }
            Misfit::OwnClock { node } => write!(f, "node {node} reads its own clock as it is"),
            Misfit::JitterPast { most } => {
                write!(f, "a jitter is at most the error, {most}, either way")
            }
            Misfit::DriftPast { most } => write!(f, "a drift is at most {most} either way"),
            Misfit::JitterTwice { node, of } => {
                write!(f, "the jitter {node} of {of} stands twice in this round")
            }
            Misfit::DriftTwice { node } => {
                write!(f, "the drift {node} stands twice in this round")
            }
            Misfit::ValueTwice { node } => {
                write!(f, "the next value of {node} stands twice in this round")
            }
        }
    }
}

impl fmt::Display for Reason<'_> {
    fn fmt<W: fmt::Write>(&self, f: &mut fmt::Formatter<W>) -> fmt::Result {
        match self {
            Reason::Malformed(malformed) => write!(f, "{malformed}"),
            Reason::Misfit(misfit) => write!(f, "{misfit}"),
        }
    }
}

impl fmt::Display for Fault<'_> {
    fn fmt<W: fmt::Write>(&self, f: &mut fmt::Formatter<W>) -> fmt::Result {
        match self {
            Fault::Line { line, reason } => write!(f, "line {line}: {reason}"),
            Fault::Memory => write!(f, "out of memory"),
        }
    }
}
