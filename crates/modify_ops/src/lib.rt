//! Changes of a record that stands in every index of a set, by an edit of its row or by another record.
#![tactic(auto)]

mod modify;
mod modify_or_undo;
mod replace;

pub use index_set::{Edit, Lost, RowEdit};
pub use modify::modify_node;
pub use modify_or_undo::modify_or_undo_node;
pub use replace::replace_node;
