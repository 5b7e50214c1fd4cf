//! Records with handles: a set of nodes under indices, and the slots that lead to them.
//!
//! A record's handle names the slot that leads to its node, so a node is found by its handle and the record of a node
//! tells its handle. `LinkedSet` keeps the set and its slots in step, and is seen as records under their indices.
#![tactic(auto)]

mod beside;
mod changing;
mod erase;
mod erase_key;
mod fill;
mod index_changes;
mod indexing;
mod insertion;
mod iter;
mod iterate;
mod leaving;
mod linked;
mod linked_set;
mod modify;
mod modify_or_undo;
mod ordering;
mod range;
mod reads;
mod rearrange;
mod replace;
mod restoring;
mod saved;
mod seek;
mod sort;
mod spent;
mod walk;

pub use index_set::ByRow;
pub use iter::Iter;
pub use linked_set::LinkedSet;
pub use modify::Modified;
pub use restoring::Misfit;
pub use spent::is_spent;
