//! Ranked indices: ordered trees whose nodes know how many nodes come before them.
//!
//! Such a tree is an [`OrdTree`](ord_tree::OrdTree) that keeps the size of each subtree. Its changes, walks and look-ups are
//! those of every ordered tree; this crate adds the node at a place, the place of a node, and places by a key.
#![tactic(auto)]

mod places;
mod ranks;
mod sizes;

pub use places::{nth, nth_counted, rank, rank_counted};
pub use ranks::{find_rank, lower_rank, upper_rank};
pub use sizes::{RankTree, Sizes};
