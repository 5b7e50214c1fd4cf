//! Ordered indices: balanced trees of nodes, each through the links of one column of a store.
//!
//! Each call takes the store. It reads and writes the links of its own column alone, so a node may
//! stand in one tree of each column at once.
#![tactic(auto)]

mod free;
mod height;
mod order;
mod parts;
mod removal;
mod same;
mod seek;
mod settle;
mod steps;
mod tally;
mod tree;
mod walk;

pub use order::order_to_probe;
pub use tally::{NoTally, Tally};
pub use tree::OrdTree;
