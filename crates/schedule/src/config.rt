//! Which schedules there are, and why one is turned away.
ghost use Rattle.std.specs.Prelude.{◌≡◌};
ghost use Rattle.midpoint.specs.Refusals.{ByRows};
ghost use Rattle.schedule.specs.Config.{code_of, unfit, ScheduleOf};

use crate::limits::Schedule;
use clock::Cluster;
use midpoint::Code;
use thiserror::Error;

/// The longest slot.
pub const MAX_LENGTH: u64 = 1_000_000_000;

/// Why there is no schedule with these times: the first that applies, in this order.
#[derive(Clone, Copy, PartialEq, Eq, Debug, Error)]
pub enum Unfit {
    /// The pause is shorter than width, error and drift together: a message could begin to arrive at a
    /// node whose clock is still to be set.
    #[error("the pause is shorter than width, error and drift together")]
    PauseTooShort,
    /// A slot is shorter than pause, wire, width and message together: a message could end behind it.
    #[error("the length is shorter than pause, wire, width and message together")]
    LengthTooShort,
    /// A slot is longer than 10^9.
    #[error("the length is above 10^9")]
    LengthTooLong,
}

/// The number and place of a refusal in the fixed list.
impl From<Unfit> for Code {
    ghost from_gives = { λ unfit code. code ≡ code_of unfit };

    fn from(unfit: Unfit) -> Code {
        let place = match unfit {
            Unfit::PauseTooShort => 0,
            Unfit::LengthTooShort | Unfit::LengthTooLong => 1,
        };
        Code { number: 6, place }
    }
}

impl Schedule {
    /// Slots of these times for a cluster, or the first reason why they do not do. No sum wraps.
    // Four numbers in a row: the struct that has a name for each is what is made here.
    pub fn new(
        cluster: Cluster,
        length: u64,
        pause: u64,
        message: u64,
        wire: u64,
    ) -> Result<Schedule, Unfit>
        ensures { ByRows (unfit cluster length pause message wire) (λ e. e) (ScheduleOf cluster length pause message wire) result }
    {
        let width = cluster.width();
        if pause < width + cluster.error() + cluster.drift() {
            return Err(Unfit::PauseTooShort);
        }
        let least = u128::from(pause) + u128::from(wire) + u128::from(width) + u128::from(message);
        if u128::from(length) < least {
            return Err(Unfit::LengthTooShort);
        }
        if length > MAX_LENGTH {
            return Err(Unfit::LengthTooLong);
        }
        Ok(Schedule {
            cluster,
            length,
            pause,
            message,
            wire,
        })
    }
}
