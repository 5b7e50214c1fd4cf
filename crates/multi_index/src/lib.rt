//! A container of records under several indices, with all that a program of its own records names.
#![tactic(auto)]

mod add_index;
mod bounds;
mod clear;
mod container;
mod drop_index;
mod erase;
mod erase_key;
mod iterate;
mod modify;
mod modify_or_undo;
mod modify_with;
mod order;
mod positions;
mod range;
mod rearrange;
mod replace;
mod restore;
mod sort;

pub use container::MultiIndex;
pub use container_model::{Entry, Handle, Kind, Refused, Spec, Why};
pub use erase::Erased;
pub use key_extract::{Extract, RowOrder};
pub use linked_set::{Iter, Modified};
pub use modify_ops::{Edit, RowEdit};
pub use restore::{Saved, Unrestorable};
