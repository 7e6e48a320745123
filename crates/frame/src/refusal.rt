//! Why a frame is turned away.
ghost use Rattle.std.specs.Prelude.{◌≡◌};
ghost use Rattle.frame.specs.Reading.{code_of};

use midpoint::Code;

/// Why a frame is not taken: the first that applies, in this order.
#[derive(Clone, Copy, PartialEq, Eq, Debug)]
pub enum Refusal {
    /// It is shorter or longer than its round asks, or the memory for it is too short. The length is that of the
    /// frame, or of the memory.
    Length { length: usize },
    /// Its sender is not the node whose slot it is.
    Sender,
    /// It is of another round.
    Round,
}

/// The number and place of a refusal in the fixed list.
impl From<Refusal> for Code {
    ghost from_gives = { λ refusal code. code ≡ code_of refusal };

    fn from(refusal: Refusal) -> Code {
        match refusal {
            Refusal::Length { length } => Code {
                number: 7,
                place: length as u64,
            },
            Refusal::Sender => Code {
                number: 8,
                place: 0,
            },
            Refusal::Round => Code {
                number: 9,
                place: 1,
            },
        }
    }
}
