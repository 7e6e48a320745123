//! Frames: what a node sends in its slot, written and read.
//!
//! - `turn`: a node's turn to send in a round: how long its frame is, and its header.
//! - `refusal`: why a frame is turned away.
//! - `reading`: a frame is turned away, or the payload behind its header is handed on.
//! - `writing`: a frame is written into lent memory, and the payload behind its header is handed on to be filled.
//! - `values`: values in a payload, read and put by index.
//! - `theorems`: what is proved of frames, each statement on a function that demands it.

#![tactic(auto)]

pub mod reading;
pub mod refusal;
#[cfg(test)]
mod tests;
pub mod theorems;
pub mod turn;
pub mod values;
pub mod writing;

pub use reading::Reception;
pub use refusal::Refusal;
pub use turn::{HEADER_LENGTH, MAX_FRAME_LENGTH, Turn, VALUE_LENGTH};
pub use values::{put_value, value};
pub use writing::Values;
