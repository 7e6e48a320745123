//! Why readings are turned away.
ghost use Rattle.std.specs.Prelude.{◌≡◌};
ghost use Rattle.midpoint.specs.Setting.{code_of};

use std::fmt;

/// A refusal as the fixed list of all refusals has it: the number of its row, and the place in the
/// input that it names.
// Numbers, since callers and the fixed list know refusals by them; the reason itself is a case of an enum.
#[derive(Clone, Copy, PartialEq, Eq, Debug)]
pub struct Code {
    pub number: u64,
    pub place: u64,
}

// By hand: it is no error by itself, and `thiserror` shows errors.
/// Shown as `6 at 0`: the number, and the place behind it.
impl fmt::Display for Code {
    fn fmt<W: fmt::Write>(&self, f: &mut fmt::Formatter<W>) -> fmt::Result {
        let Code { number, place } = self;
        write!(f, "{number} at {place}")
    }
}

/// Why no clock is set by these readings. Where several apply it is the first of this order.
#[derive(Clone, Copy, PartialEq, Eq, Debug)]
pub enum Refusal {
    /// There are no readings, or more than 16.
    ReadingCount { count: usize },
    /// The readings are not more than three times the faults.
    TooManyFaults { faults: u64 },
    /// A reading is 10^12 or more; the index is that of the first such.
    ReadingTooLarge { index: usize },
}

/// The number and place of a refusal in the fixed list.
impl From<Refusal> for Code {
    ghost from_gives = { λ refusal code. code ≡ code_of refusal };

    fn from(refusal: Refusal) -> Code {
        match refusal {
            Refusal::ReadingCount { count } => Code {
                number: 1,
                place: count as u64,
            },
            Refusal::TooManyFaults { faults } => Code {
                number: 2,
                place: faults,
            },
            Refusal::ReadingTooLarge { index } => Code {
                number: 3,
                place: index as u64,
            },
        }
    }
}
