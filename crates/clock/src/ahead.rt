//! How far another clock is ahead, and what that makes of the own clock.
ghost use Rattle.std.specs.Prelude.{◌≡◌};
ghost use Rattle.clock.specs.Deviation.{deviation_of, moved};

/// How far the sender's clock is ahead of the own one: when its message was due to begin, less when it
/// began, both by the own clock. It is 0 where the message began in time, and below 0 where it began
/// late. Times that are too far apart for the type give its smallest or its largest number.
pub fn deviation(due: u64, began: u64) -> i64
    ensures { result ≡ deviation_of due began }
{
    let ahead = i128::from(due) - i128::from(began);
    ahead.clamp(i128::from(i64::MIN), i128::from(i64::MAX)) as i64
}

/// What the own clock makes of a deviation: the other node's clock as it appears here. It stops at 0 and
/// at 2^64 - 1.
pub fn reading(own: u64, deviation: i64) -> u64
    ensures { result ≡ moved own deviation }
{
    own.saturating_add_signed(deviation)
}
