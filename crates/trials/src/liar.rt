//! What bad nodes do.
use crate::dice::Dice;

/// What a bad node sends.
#[derive(Clone, Copy, PartialEq, Eq)]
pub(crate) enum Shape {
    /// A frame in order.
    Whole,
    /// Any few bytes.
    Rubbish,
    /// A frame without its end.
    Cut,
    /// A frame and more.
    Long,
    /// Two frames in one slot.
    Twice,
    /// A frame of another round.
    WrongRound,
    /// A frame of another node.
    WrongSender,
    Silent,
}

/// How it shows its clock.
#[derive(Clone, Copy, PartialEq, Eq)]
pub(crate) enum Hands {
    /// Amid the good clocks.
    Right,
    Early,
    Late,
    /// Early to the one side, late to the other.
    Apart,
    /// To each node another one.
    Any,
    /// As early as can be to the one side, as late as can be to the other.
    Far,
}

/// Which values it tells.
#[derive(Clone, Copy, PartialEq, Eq)]
pub(crate) enum Tale {
    /// Of good nodes the value that they give, of bad ones a lie that is the same for all.
    True,
    /// Of bad nodes to each side another one, over all rounds of a cycle.
    TwoFaced,
    /// The same of all nodes.
    Slander,
    /// The same, but for changing sides from path to path.
    Mixed,
    Noise,
    Zero,
}

/// What a bad node does.
#[derive(Clone, Copy)]
pub(crate) struct Liar {
    pub(crate) shape: Shape,
    pub(crate) hands: Hands,
    pub(crate) tale: Tale,
    /// Whether the one side gets whole frames all the same.
    pub(crate) half: bool,
    /// Whether it does something else in each round.
    pub(crate) fickle: bool,
}

impl Liar {
    pub(crate) fn drawn(dice: &mut Dice) -> Liar {
        let hands = dice.one_of(&Hands::ALL);
        let tale = dice.one_of(&Tale::ALL);
        let whole = dice.one_in(2);
        let shape = dice.one_of(&Shape::ALL);
        Liar {
            shape: if whole { Shape::Whole } else { shape },
            hands,
            tale,
            half: dice.one_in(2),
            fickle: dice.one_in(3),
        }
    }
}

impl Shape {
    // In the order in which they are drawn; the names have the same.
    const ALL: [Shape; 8] = [
        Shape::Whole,
        Shape::Rubbish,
        Shape::Cut,
        Shape::Long,
        Shape::Twice,
        Shape::WrongRound,
        Shape::WrongSender,
        Shape::Silent,
    ];

    /// By their order.
    pub(crate) const NAMES: [&'static str; 8] = [
        "whole",
        "rubbish",
        "cut",
        "long",
        "twice",
        "wrong-round",
        "wrong-sender",
        "silent",
    ];
}

impl Hands {
    // In the order in which they are drawn; the names have the same.
    const ALL: [Hands; 6] = [
        Hands::Right,
        Hands::Early,
        Hands::Late,
        Hands::Apart,
        Hands::Any,
        Hands::Far,
    ];

    /// By their order.
    pub(crate) const NAMES: [&'static str; 6] = ["right", "early", "late", "apart", "any", "far"];
}

impl Tale {
    // In the order in which they are drawn; the names have the same.
    const ALL: [Tale; 6] = [
        Tale::True,
        Tale::TwoFaced,
        Tale::Slander,
        Tale::Mixed,
        Tale::Noise,
        Tale::Zero,
    ];

    /// By their order.
    pub(crate) const NAMES: [&'static str; 6] = [
        "true",
        "two-faced",
        "slander",
        "mixed",
        "noise",
        "zero",
    ];
}
