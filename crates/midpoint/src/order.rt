//! Readings in rising order.
ghost use Rattle.std.specs.Prelude.{◌≡◌, take, drop};
ghost use Rattle.midpoint.specs.Order.{sorted};

/// The most nodes of a cluster, and so the most readings that a node has.
pub const MAX_NODES: usize = 16;

// An array with a count beside it: so the form is asked for, by value, put in order and handed back.
/// The first `count` readings in rising order, and those behind them as they were. A count above 16
/// means all of them.
pub fn in_order(mut readings: [u64; MAX_NODES], count: usize) -> [u64; MAX_NODES]
    ensures risen { take count result ≡ sorted (take count readings) }
    ensures rest { drop count result ≡ drop count readings }
{
    sort(&mut readings[..count.min(MAX_NODES)]);
    readings
}

// All of them in rising order.
fn sort(readings: &mut [u64])
    ensures { readings.new ≡ sorted readings.old }
{
    readings.sort_unstable();
}
