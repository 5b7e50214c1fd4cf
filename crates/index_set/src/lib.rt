//! Records under several indices at once, over one store of nodes.
//!
//! A set keeps its promises: each node stands in every index, where its record's key puts it, and in a unique one each key
//! stands once. So a record is put in and taken out of all indices by one call, and is changed and settled by one call. A look-up
//! or a walk goes by an index, borrowed by its number.
#![tactic(auto)]

mod add_index;
mod bans;
mod build;
mod by_row;
mod change;
mod changed;
mod clear;
mod drop_index;
mod edit;
mod every;
mod filling;
mod nodes;
mod order;
mod parts;
mod places;
mod set;

pub use add_index::NotAdded;
pub use build::NoIndex;
pub use by_row::ByRow;
pub use change::Lost;
pub use edit::{Edit, RowEdit};
pub use filling::Filling;
pub use nodes::Nodes;
pub use places::FreePlace;
pub use set::IndexSet;
