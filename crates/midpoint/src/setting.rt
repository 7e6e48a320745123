//! The fault-tolerant midpoint of readings, or why there is none.
ghost use Rattle.std.specs.Prelude.{◌≡◌, ◌*◌, ◌<◌, ◌≤◌, length, not, take};
ghost use Rattle.std.specs.List.{position};
ghost use Rattle.midpoint.specs.Midpoint.{lower, upper};
ghost use Rattle.midpoint.specs.Refusals.{ByRows};
ghost use Rattle.midpoint.specs.Setting.{SetSays, unusable, code_of, shown};

use crate::order::{MAX_NODES, in_order};
use crate::refusal::Refusal;

/// No clock comes to this number, and no reading of one is taken.
pub const CLOCK_LIMIT: u64 = 1_000_000_000_000;

/// The midpoint of what a node reads of all nodes: half of the sum, rounded down, of the reading that
/// has as many below it as there may be faults and of the one that has as many above it. Or the first
/// refusal that applies.
pub fn set_clock(faults: u64, readings: &[u64]) -> Result<u64, Refusal>
    ensures { SetSays faults readings.now result }
{
    usable(faults, readings)?;
    let (low, high) = without_extremes(faults as usize, readings);
    Ok(low.midpoint(high))
}

// Whether a clock can be set by these readings.
fn usable(faults: u64, readings: &[u64]) -> Result<(), Refusal>
    ensures { ByRows (unusable faults readings.now) code_of (λ _. Unit {0}) result }
{
    let count = readings.len();
    if count < 1 || count > MAX_NODES {
        return Err(Refusal::ReadingCount { count });
    }
    if count as u64 <= faults.saturating_mul(3) {
        return Err(Refusal::TooManyFaults { faults });
    }
    match first_too_large(readings) {
        Some(index) => Err(Refusal::ReadingTooLarge { index }),
        None => Ok(()),
    }
}

// The index of the first reading that is too large.
fn first_too_large(readings: &[u64]) -> Option<usize>
    ensures { result ≡ position (λ reading. not (shown reading)) readings.now }
{
    readings.iter().position(|reading| *reading >= CLOCK_LIMIT)
}

// The reading that has `faults` below it, and the one that has `faults` above it.
fn without_extremes(faults: usize, readings: &[u64]) -> (u64, u64)
    requires count { length readings.now ≤ 16 }
    requires faults { 3 * faults < length readings.now }
    ensures low { result.0 ≡ lower faults readings.now }
    ensures high { result.1 ≡ upper faults readings.now }
{
    let count = readings.len();
    let all = in_order(padded(readings), count);
    let rising = &all[0..count];
    (rising[faults], rising[count - 1 - faults])
}

// The readings at the front of an array. What stands behind them is not looked at.
fn padded(readings: &[u64]) -> [u64; MAX_NODES]
    requires { length readings.now ≤ 16 }
    ensures { take (length readings.now) result ≡ readings.now }
{
    let mut all = [0; MAX_NODES];
    all[0..readings.len()].copy_from_slice(readings);
    all
}
