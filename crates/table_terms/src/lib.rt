//! The words of a command in a table, and what is told of a step.
#![tactic(auto)]

mod bounds;
mod edits;
mod handles;
mod indices;
mod keys;
mod kinds;
mod new_key;
mod outcome;
mod refusal;
mod tell;
mod values;

pub use bounds::{ProbeBound, bounds_for};
pub use edits::{edited_row, is_edit};
pub use handles::{handle_for, handles_for, position_for, record_for};
pub use indices::index_named;
pub use keys::{key_for, whole_key_for};
pub use kinds::Kinds;
pub use new_key::keyed_row;
pub use outcome::Outcome;
pub use refusal::{tell_lost, tell_why};
pub use tell::{
    refuse, refuse_memory, tell_done, tell_erased, tell_next, tell_read, tell_record, tell_records,
    tell_short,
};
pub use values::{can_hold, row_from};
