//! A cluster of which a script plays the faulty nodes: real nodes, called as a driver calls them, on a bus of numbers.
//!
//! - `station`: a good node, with all that its driver has.
//! - `bus`: the nodes on the bus, round after round.
//! - `theorems`: what is proved of scripts, beside what the calls promise.

#![tactic(auto)]

pub mod bus;
pub mod station;
#[cfg(test)]
mod tests;
pub mod theorems;

pub use bus::{Bus, Watch};
pub use station::{Came, Station};
