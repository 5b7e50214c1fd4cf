//! What becomes of a table under another declaration, and in what two declarations differ.
#![tactic(auto)]

mod altering;
mod entries;
mod fault;
mod order;
mod same;
mod scaffold;
mod source;

pub use altering::altered;
pub use fault::Unalterable;
pub use same::{column_goes, index_goes, is_same_column, place_before};
pub use source::{Fill, place_of};
