//! The records of a table, under the indices that its schema declares.
#![tactic(auto)]

mod headings;
mod indices;
mod order;
mod records;
mod refusal;
mod reindex;
mod restored;
mod writes;

pub use multi_index::{Saved, Unrestorable};
pub use records::Records;
pub use refusal::tell_refusal;
pub use reindex::NotAdded;
