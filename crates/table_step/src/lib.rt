//! One table: its records under their indices, and what each command does to them.
#![tactic(auto)]

mod table;

pub use table::Table;
pub use table_changes::is_change;
pub use table_records::{Records, Saved, Unrestorable};
pub use table_terms::{Outcome, refuse, refuse_memory};
