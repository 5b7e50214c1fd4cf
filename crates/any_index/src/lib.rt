//! An index of any kind, by one contract for each call.
//!
//! A change takes the store. It writes the links of the index's own column alone, so a node may stand in one index of each
//! column at once. Look-ups and walks go by an index that is borrowed with its store and its keys.
#![tactic(auto)]

mod at;
mod free_place;
mod index;
mod marks;
mod order;
mod reads;
mod seek;
mod sound;

pub use at::IndexRef;
pub use index::AnyIndex;
