//! Scripts of a cluster of which some nodes are played by a file: how one is read, line after line, and how it is written.
//!
//! - `setup`: the cluster of a script, and how each of its nodes starts.
//! - `round`: what a script says of one round.
//! - `reader`: how far a script has been read; it gives round after round.
//! - `reason`: why a script is turned away.
//! - `theorems`: what is proved of text, and of the rounds that are read.

#![tactic(auto)]

mod entry;
mod hex;
mod naming;
pub mod reader;
pub mod reason;
pub mod round;
mod running;
pub mod setup;
#[cfg(test)]
mod tests;
pub mod theorems;

pub use reader::Reader;
pub use reason::{Fault, Lines, Malformed, Misfit, Range, Reason};
pub use round::{Given, Message, Round};
pub use setup::{Setup, Starting};
