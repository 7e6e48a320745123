//! What a node makes of what it was told, when a cycle is over.
//!
//! - `making`: what is made of a path, and the results of a cycle.
//! - `most`: the value that more than half of a list have.
//! - `path`: paths of a cluster, and which nodes are on them.
//! - `refusal`: why no results are given.
//! - `theorems`: what is proved of majority and results, each statement on a function that demands it.

#![tactic(auto)]

pub mod making;
pub mod most;
mod path;
pub mod refusal;
#[cfg(test)]
mod tests;
pub mod theorems;

pub use making::{made_of, results};
pub use most::majority;
pub use refusal::Refusal;
