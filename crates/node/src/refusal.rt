//! Why a call is turned away.
ghost use Rattle.std.specs.Prelude.{◌≡◌};
ghost use Rattle.node.specs.Refusals.{code_of};
ghost use Rattle.node.specs.declared.refusal.Refusal.TheVariants as ours;

use midpoint::Code;

/// Why a configuration or a call is turned away: by one of the crates below, or by the node itself.
#[derive(Clone, Copy, PartialEq, Eq, Debug)]
pub enum Refusal {
    /// The numbers of the cluster: 4 or 5.
    Cluster(clock::Unfit),
    /// The times of the slots: 6.
    Schedule(schedule::Unfit),
    /// The local time: 3 at the own number, or 12 at 0.
    Time(clock::Refusal),
    /// The memory for a frame: 7 at its length.
    Frame(frame::Refusal),
    /// A table: 10 at the length needed.
    Table(relay::Refusal),
    /// The number of a node that the cluster does not have: 11 at 0.
    PastTheCluster,
    /// A slot that is over already in this round, or that is no other node's: 11 at 0.
    OutOfTurn,
}

/// Numbers of a cluster that `clock` turns away.
impl From<clock::Unfit> for Refusal {
    ghost from_gives = { λ refusal carried. carried ≡ ours.Cluster refusal };

    fn from(refusal: clock::Unfit) -> Refusal {
        Refusal::Cluster(refusal)
    }
}

/// Times that `schedule` turns away.
impl From<schedule::Unfit> for Refusal {
    ghost from_gives = { λ refusal carried. carried ≡ ours.Schedule refusal };

    fn from(refusal: schedule::Unfit) -> Refusal {
        Refusal::Schedule(refusal)
    }
}

/// A local time that `clock` turns away.
impl From<clock::Refusal> for Refusal {
    ghost from_gives = { λ refusal carried. carried ≡ ours.Time refusal };

    fn from(refusal: clock::Refusal) -> Refusal {
        Refusal::Time(refusal)
    }
}

/// Memory that `frame` turns away.
impl From<frame::Refusal> for Refusal {
    ghost from_gives = { λ refusal carried. carried ≡ ours.Frame refusal };

    fn from(refusal: frame::Refusal) -> Refusal {
        Refusal::Frame(refusal)
    }
}

/// A table that `relay` turns away.
impl From<relay::Refusal> for Refusal {
    ghost from_gives = { λ refusal carried. carried ≡ ours.Table refusal };

    fn from(refusal: relay::Refusal) -> Refusal {
        Refusal::Table(refusal)
    }
}

/// The number and place of a refusal in the fixed list.
impl From<Refusal> for Code {
    ghost from_gives = { λ refusal code. code ≡ code_of refusal };

    fn from(refusal: Refusal) -> Code {
        match refusal {
            Refusal::Cluster(refusal) => Code::from(refusal),
            Refusal::Schedule(refusal) => Code::from(refusal),
            Refusal::Time(refusal) => Code::from(refusal),
            Refusal::Frame(refusal) => Code::from(refusal),
            Refusal::Table(refusal) => Code::from(refusal),
            Refusal::PastTheCluster | Refusal::OutOfTurn => Code {
                number: 11,
                place: 0,
            },
        }
    }
}
