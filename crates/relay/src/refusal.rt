//! Why a table, a path or a node is turned away.
ghost use Rattle.std.specs.Prelude.{◌≡◌};
ghost use Rattle.relay.specs.Tables.{code_of};

use midpoint::Code;

/// Why nothing is looked up, told or entered. Where several apply it is the first of this order.
#[derive(Clone, Copy, PartialEq, Eq, Debug)]
pub enum Refusal {
    /// A lent table has another length than the cluster needs, which is given.
    TableLength { needed: usize },
    /// A path has no nodes, or more than a cycle has rounds.
    PathLength { length: usize },
    /// A node is past the cluster, or stood before on the path; the place is its index in the path. A node that
    /// tells stands first on the paths that it tells last.
    Node { place: usize },
}

/// The number and place of a refusal in the fixed list.
impl From<Refusal> for Code {
    ghost from_gives = { λ refusal code. code ≡ code_of refusal };

    fn from(refusal: Refusal) -> Code {
        match refusal {
            Refusal::TableLength { needed } => Code {
                number: 10,
                place: needed as u64,
            },
            Refusal::PathLength { length } => Code {
                number: 11,
                place: length as u64,
            },
            Refusal::Node { place } => Code {
                number: 11,
                place: place as u64,
            },
        }
    }
}
