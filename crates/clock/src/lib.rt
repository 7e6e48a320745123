//! A node's clock: local time goes on, other clocks are read by their messages, and at the end of a round
//! the clock is set to the fault-tolerant midpoint of what was read.
//!
//! - `limits`: the numbers of a cluster and the state of a clock, within their limits.
//! - `config`: how a cluster is made, why one is turned away, and what follows from its numbers.
//! - `ahead`: how far another clock is ahead, and what is read of it.
//! - `setting`: a clock goes on, and is set.
//! - `theorems`: what is proved of good clocks, each statement on a function that demands it.

#![tactic(auto)]

pub mod ahead;
pub mod config;
pub mod limits;
pub mod setting;
#[cfg(test)]
mod tests;
pub mod theorems;

pub use ahead::{deviation, reading};
pub use config::Unfit;
pub use limits::{Clock, Cluster};
pub use setting::{Refusal, Step};
