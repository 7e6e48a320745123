//! Slots: whose they are, and when they begin and end by a node's own clock. They count from 0 over all
//! rounds, as many to a round as there are nodes. A number or a time past 2^64 - 1 is given as that; no
//! clock comes near it.
ghost use Rattle.std.specs.Prelude.{◌≡◌, ◌+◌, ◌*◌, min};
ghost use Rattle.clock.specs.Deviation.{largest};
ghost use Rattle.schedule.specs.Slots.{owner_of, round_of, slot_of, slot_start, send_time_of, slot_end_of, round_end_of};
ghost use Rattle.schedule.specs.Config.{timing_of};

use crate::limits::Schedule;

impl Schedule {
    /// The node that a slot belongs to.
    pub fn owner(&self, slot: u64) -> usize
        ensures { result ≡ owner_of (timing_of self.now) slot }
    {
        (slot % self.cluster.nodes()) as usize
    }

    /// The round that a slot is of.
    pub fn round(&self, slot: u64) -> u64
        ensures { result ≡ round_of (timing_of self.now) slot }
    {
        slot / self.cluster.nodes()
    }

    /// The slot of a node in a round; of a node past the cluster's it is a slot of a later round.
    pub fn slot(&self, round: u64, node: usize) -> u64
        ensures { result ≡ min (slot_of (timing_of self.now) round node) largest }
    {
        added_up(round, self.cluster.nodes(), node as u64)
    }

    // What a clock shows when a slot starts, in full.
    pub(crate) fn start(&self, slot: u64) -> u128
        ensures { result ≡ slot_start (timing_of self.now) slot }
    {
        u128::from(slot) * u128::from(self.length)
    }

    /// What the clock of a slot's node shows when it starts to send in it: the slot's start and the pause.
    pub fn send_time(&self, slot: u64) -> u64
        ensures { result ≡ min (send_time_of (timing_of self.now) slot) largest }
    {
        added_up(slot, self.length, self.pause)
    }

    /// What a clock shows when a slot ends, which is when the next one starts.
    pub fn slot_end(&self, slot: u64) -> u64
        ensures { result ≡ min (slot_end_of (timing_of self.now) slot) largest }
    {
        added_up(slot, self.length, self.length)
    }

    /// What a clock shows when a round ends, and it is to be set.
    pub fn round_end(&self, round: u64) -> u64
        ensures { result ≡ min (round_end_of (timing_of self.now) round) largest }
    {
        let span = self.cluster.nodes() * self.length;
        added_up(round, span, span)
    }
}

// So many of a number, and some more.
fn added_up(count: u64, each: u64, more: u64) -> u64
    ensures { result ≡ min (count * each + more) largest }
{
    count.saturating_mul(each).saturating_add(more)
}
