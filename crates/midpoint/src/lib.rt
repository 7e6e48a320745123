//! The fault-tolerant midpoint: what a node sets its clock to, given what it reads of every node's
//! clock, where some nodes are faulty and may be read as anything.
//!
//! - `order`: readings in rising order.
//! - `setting`: the midpoint of readings, or why there is none.
//! - `refusal`: the refusals of this crate, with their numbers and places.
//! - `theorems`: what is proved of the midpoint, each statement on a function that demands it.

#![tactic(auto)]

pub mod order;
pub mod refusal;
pub mod setting;
#[cfg(test)]
mod tests;
pub mod theorems;

pub use order::{MAX_NODES, in_order};
pub use refusal::{Code, Refusal};
pub use setting::{CLOCK_LIMIT, set_clock};
