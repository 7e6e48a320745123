//! A node's turn to send in a round: how long its frame is, and its header.
ghost use Rattle.std.specs.Prelude.{◌≡◌};
ghost use Rattle.schedule.specs.Config.{timing_of};
ghost use Rattle.schedule.specs.Slots.{owner_of, round_of};
ghost use Rattle.frame.specs.Layout.{place_in_cycle, value_count_of, frame_length_of, header_round_of, header_of};

use clock::Cluster;
use schedule::Schedule;

/// How many bytes a frame's header has: one for the sender, four for the round.
pub const HEADER_LENGTH: usize = 5;

/// How many bytes a value has.
pub const VALUE_LENGTH: usize = 4;

/// How many bytes the longest frame has: that of the last round of a cycle of 16 nodes that allow 3 faults.
pub const MAX_FRAME_LENGTH: usize = 10_925;

/// A node's turn to send: in which cluster, which node, in which round. It says what the node's frame is like. The
/// caller makes sure that the sender is a node of the cluster.
#[derive(Clone, Copy, PartialEq, Eq, Debug)]
pub struct Turn {
    pub cluster: Cluster,
    pub sender: u8,
    pub round: u64,
}

impl Turn {
    /// The turn of a slot: its node sends, in its round. Slots count up to 2^64 - 1 only; later rounds have turns, but
    /// no slots.
    pub fn in_slot(schedule: &Schedule, slot: u64) -> Turn
        ensures cluster { result.cluster ≡ schedule.now.cluster }
        ensures sender { result.sender ≡ owner_of (timing_of schedule.now) slot }
        ensures round { result.round ≡ round_of (timing_of schedule.now) slot }
    {
        Turn {
            cluster: schedule.cluster,
            sender: schedule.owner(slot) as u8,
            round: schedule.round(slot),
        }
    }

    /// The round's place in its cycle, counted from 0. A cycle has a round more than the cluster allows faults.
    pub fn place_in_cycle(&self) -> u64
        ensures { result ≡ place_in_cycle self.now.cluster self.now.round }
    {
        self.round % (self.cluster.faults() + 1)
    }

    /// How many values the frame carries: one for each path of different nodes without the sender that has as many
    /// nodes as the round's place in its cycle.
    #[tactic(auto, using(crate::proofs::Counts::one_longer_at_most, std::proofs::lemmas::Nat::mod_below))]
    pub fn value_count(&self) -> usize
        ensures { result ≡ value_count_of self.now }
    {
        let mut count = 1;
        for on_path in 0..self.place_in_cycle() {
            count *= self.cluster.nodes() - on_path - 1;
        }
        count as usize
    }

    /// How many bytes the frame has.
    #[tactic(auto, using(crate::proofs::Counts::values_at_most))]
    pub fn frame_length(&self) -> usize
        ensures { result ≡ frame_length_of self.now }
    {
        HEADER_LENGTH + VALUE_LENGTH * self.value_count()
    }

    /// The header of the frame: the sender, and the round modulo 2^32, low byte first.
    pub fn header(&self) -> [u8; HEADER_LENGTH]
        ensures { result ≡ header_of self.now }
    {
        let [first, second, third, fourth] = self.header_round().to_le_bytes();
        [self.sender, first, second, third, fourth]
    }

    // The round as a header tells it.
    pub(crate) fn header_round(&self) -> u32
        ensures { result ≡ header_round_of self.now }
    {
        (self.round % (1 << 32)) as u32
    }
}
