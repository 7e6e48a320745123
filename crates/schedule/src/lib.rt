//! The schedule of the bus: when nodes send, when they listen, and what they hear of what arrives.
//!
//! - `limits`: the times of a cluster's slots, within their limits.
//! - `config`: how a schedule is made, and why one is turned away.
//! - `slots`: whose a slot is, and when by a node's own clock something is due in it.
//! - `heard`: what was heard of several, kept only if it is one.
//! - `listening`: what is heard in a slot, of all that arrives.
//! - `theorems`: what is proved of messages between good nodes and of whole runs, each statement on a function
//!   that demands it.

#![tactic(auto)]

pub mod config;
pub mod heard;
pub mod limits;
pub mod listening;
pub mod slots;
#[cfg(test)]
mod tests;
pub mod theorems;

pub use config::{MAX_LENGTH, Unfit};
pub use heard::Heard;
pub use limits::Schedule;
pub use listening::{Arrival, Listener, Received, Refusal, Told};
