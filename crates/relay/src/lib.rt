//! Tables of what was told, by paths.
//!
//! - `refusal`: why a table, a path or a node is turned away.
//! - `path`: the index of a path, and why a row of nodes is none.
//! - `table`: how long a table is, what it holds for a path, and the value of a new cycle.
//! - `nodes`: sets of nodes.
//! - `indices`: the indices of the paths that a node tells of in its turn, in order.
//! - `telling`: what a node tells in its turn, and what is entered of what was told.
//! - `theorems`: what is proved of paths and tables, each statement on a function that demands it.

#![tactic(auto)]

mod indices;
pub mod nodes;
pub mod path;
pub mod refusal;
pub mod table;
pub mod telling;
#[cfg(test)]
mod tests;
pub mod theorems;

pub use nodes::NodeSet;
pub use path::known_path;
pub use refusal::Refusal;
pub use table::{MAX_TABLE_LENGTH, begin_cycle, fitting_table, held_for, table_length};
pub use telling::{Telling, enter_heard, enter_reception, enter_silence};
