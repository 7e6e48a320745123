//! Why no results are given.
ghost use Rattle.std.specs.Prelude.{◌≡◌};
ghost use Rattle.agreement.specs.Results.{code_of};
ghost use Rattle.agreement.specs.declared.refusal.Refusal.TheVariants.{Table};

use midpoint::Code;

/// Why no results are given. Where both reasons apply it is the table.
#[derive(Clone, Copy, PartialEq, Eq, Debug)]
pub enum Refusal {
    /// The table is turned away, for this reason.
    Table(relay::Refusal),
    /// The memory for the results has not one place for each node; how many nodes there are is given.
    ResultsLength { needed: usize },
}

/// A table that `relay` turns away.
impl From<relay::Refusal> for Refusal {
    ghost from_gives = { λ refusal carried. carried ≡ Table refusal };

    fn from(refusal: relay::Refusal) -> Refusal {
        Refusal::Table(refusal)
    }
}

/// The number and place of a refusal in the fixed list.
impl From<Refusal> for Code {
    ghost from_gives = { λ refusal code. code ≡ code_of refusal };

    fn from(refusal: Refusal) -> Code {
        match refusal {
            Refusal::Table(refusal) => Code::from(refusal),
            Refusal::ResultsLength { needed } => Code {
                number: 10,
                place: needed as u64,
            },
        }
    }
}
