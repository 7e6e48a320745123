//! A node of the bus: what it does at each event.
//!
//! A driver makes a `Config` a schedule and with it a `Node`; asks it which call is `due`, and makes it at its time; opens a
//! `listener` for each other node's slot, and tells it what arrives. Each of the two tables that it lends has `relay::table_length`
//! numbers, the memory for a frame `frame::MAX_FRAME_LENGTH` bytes at most.
//!
//! - `config`: the numbers of a configuration, which are made a schedule or turned away.
//! - `refusal`: why a call is turned away, with the refusals of the crates below.
//! - `state`: what a node is between two calls, and which table it reads.
//! - `due`: which call comes next, and when.
//! - `event`: what came in another node's slot.
//! - `calls`: when a call is turned away.
//! - `sending`: the time to send in the own slot.
//! - `hearing`: the end of another node's slot.
//! - `ending`: the end of a round.
//! - `theorems`: what is proved of good nodes, each statement on a function that demands it.

#![tactic(auto)]

mod calls;
pub mod config;
pub mod due;
pub mod ending;
pub mod event;
pub mod hearing;
pub mod refusal;
pub mod sending;
pub mod state;
#[cfg(test)]
mod tests;
pub mod theorems;

pub use config::Config;
pub use due::{Call, Due};
pub use ending::Setting;
pub use event::Event;
pub use refusal::Refusal;
pub use state::{Node, Step};
