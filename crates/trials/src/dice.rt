//! Random numbers: from one seed always the same ones.
ghost use Rattle.std.specs.Prelude.{◌<◌, ◌≤◌, ◌^◌};

use rand_core::{Rng, SeedableRng};
use rand_xoshiro::SplitMix64;

/// A row of random numbers.
#[derive(Drop)]
pub(crate) struct Dice {
    numbers: SplitMix64,
}

impl Dice {
    pub(crate) fn new(seed: u64) -> Dice {
        Dice {
            numbers: SplitMix64::seed_from_u64(seed),
        }
    }

    /// A number of 64 bits.
    pub(crate) fn next(&mut self) -> u64 {
        self.numbers.next_u64()
    }

    /// A number below `count`.
    pub(crate) fn below(&mut self, count: u64) -> u64
        requires { 0 < count }
        ensures { result < count }
    {
        self.next() % count
    }

    /// A number that is at most `most`, which is not the largest there is.
    pub(crate) fn up_to(&mut self, most: u64) -> u64
        ensures { result ≤ most }
    {
        self.below(most.saturating_add(1))
    }

    /// A number that is at most `most` away from 0.
    pub(crate) fn either_way(&mut self, most: u64) -> i64 {
        let moved = self.up_to(most.saturating_mul(2));
        moved.cast_signed().wrapping_sub(most.cast_signed())
    }

    /// Whether a thing comes about that does once in so many times.
    pub(crate) fn one_in(&mut self, times: u64) -> bool
        requires { 0 < times }
    {
        self.below(times) == 0
    }

    /// One of these.
    pub(crate) fn one_of<T: Copy, const N: usize>(&mut self, all: &[T; N]) -> T
        requires { 0 < N }
    {
        let place = self.below(N as u64) as usize;
        all[place]
    }

    /// A node's value: often a small one, so that values meet.
    pub(crate) fn value(&mut self) -> u32 {
        if self.one_in(4) {
            self.below(4) as u32
        } else {
            (self.next() >> 32) as u32
        }
    }
}
